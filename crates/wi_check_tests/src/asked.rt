//! Certificates as texts, and changed ones.
ghost use Rattle.std.specs.Prelude.{IfOk};
ghost use Rattle.wi_cert.specs.Text.{IsWritable};

use std::alloc::{AllocError, Global};
use std::test::Fail;
use wi_cert::{Certificate, decode};

/// What stands in the place of a line, from 1.
pub type Change<'a> = (usize, &'a [&'a str]);

/// Lines, each with its end, but for those of which others stand in the place.
pub fn text_of(alloc: Global, lines: &[&str], changes: &[Change]) -> Result<Vec<u8>, AllocError> {
    let mut text = Vec::new(alloc);
    for (i, line) in lines.iter().enumerate() {
        match changes.iter().find(|change| change.0 == i + 1) {
            Some(change) => put_lines(&mut text, change.1)?,
            None => put_lines(&mut text, &[*line])?,
        }
    }
    Ok(text)
}

fn put_lines(text: &mut Vec<u8>, lines: &[&str]) -> Result<(), AllocError> {
    for line in lines {
        text.extend_from_slice(line.as_bytes())?;
        text.push(b'\n').map_err(AllocError::from)?;
    }
    Ok(())
}

/// The certificate that a text is.
pub fn certificate_of(alloc: Global, text: &[u8]) -> Result<Certificate, Fail>
    ensures { IfOk result IsWritable }
{
    match decode(alloc, text) {
        Ok(certificate) => Ok(certificate),
        Err(_) => Err(Fail::new("no certificate")),
    }
}
