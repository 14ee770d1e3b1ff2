//! A certificate is read in parts, each of which is let go before the next: only the certificate's numbers are kept. A file over the
//! limit is told so whatever its lines are, so after a bad line the rest is still asked for and counted.
ghost use Rattle.std.specs.Prelude.{◌≡◌, ◌≤◌, ℕ, List, true, Some, IfOk, IfErr, OnOk, vec_len};
ghost use Rattle.wi_cert.specs.Reading.{fed, unread};
ghost use Rattle.wi_cert.specs.Sheets.{certificates};
ghost use Rattle.wi_cert.specs.Text.{IsBadLine, IsText, IsWritable};
ghost use Rattle.wi_base.specs.Shelf.{IsPart};
ghost use Rattle.wi_files.specs.Certificates.{FromLines, IsCertificateFile, IsKept, FromKeeping};
ghost use Rattle.wi_files.specs.Shelves.{AllStand, IsCalm, IsLeft, OthersStand};
ghost use Rattle.wi_files.specs.private.Stages.{FromParts};

use crate::store::store;
use std::alloc::Global;
use wi_base::{FetchRefused, Shelf};
use wi_cert::{Certificate, DecodeRefused, EncodeRefused, Feeder, encode_within};
use wi_outcome::{Refusal, cannot_read};

/// The most bytes that a certificate's lines from `heads` on have where it is written.
pub const WRITTEN_LIMIT: usize = 268_000_000;

/// The most bytes of a certificate or a tree that is read.
pub const READ_LIMIT: u64 = 268_435_456;

/// How many bytes are asked for at once.
const PART: u32 = 65_536;

/// Stores a certificate's text under a name, if it isn't too long.
pub fn store_certificate<'a, S: Shelf>(
    alloc: Global,
    certificate: &Certificate,
    name: &'a str,
    shelf: &mut S,
) -> Result<(), Refusal<'a>>
    requires { IsWritable certificate.now }
    ensures told { (S.seen shelf.new).told ≡ (S.seen shelf.old).told }
    ensures others { OthersStand (Some name.now) (S.seen shelf.old) (S.seen shelf.new) }
    ensures left { IfErr result (λ refusal. IsLeft refusal (S.seen shelf.old) (S.seen shelf.new)) }
    ensures calm { OnOk result (IsCalm (S.seen shelf.old) (S.seen shelf.new)) }
    ensures kept { OnOk result (IsKept (Some name.now) (S.seen shelf.new) certificate.now) }
    ensures refused { IfErr result (λ refusal. FromKeeping (S.seen shelf.old) (S.seen shelf.new) (Some name.now) certificate.now refusal) }
{
    let text = match encode_within(alloc, certificate, WRITTEN_LIMIT) {
        Ok(text) => text,
        Err(EncodeRefused::TooLong) => return Err(Refusal::NotWritten),
        Err(EncodeRefused::Memory) => return Err(Refusal::Memory),
    };
    store(alloc, name, text.as_slice(), shelf)
}

/// The certificate in a file.
pub fn fetch_certificate<'a, S: Shelf>(
    alloc: Global,
    name: &'a str,
    shelf: &mut S,
) -> Result<Certificate, Refusal<'a>>
    ensures told { (S.seen shelf.new).told ≡ (S.seen shelf.old).told }
    ensures files { AllStand (S.seen shelf.old) (S.seen shelf.new) }
    ensures calm { IfOk result (λ _. IsCalm (S.seen shelf.old) (S.seen shelf.new)) }
    ensures read { IfOk result (λ certificate. (bytes : List ℕ) × IsCertificateFile (S.seen shelf.old) name.now bytes × IsText certificate bytes) }
    ensures refused { IfErr result (FromLines (IsBadLine certificates) (S.seen shelf.old) (S.seen shelf.new) name.now) }
{
    let mut feeder = Feeder::new(alloc);
    match feed_parts(alloc, &mut feeder, name, shelf) {
        Ok(()) => match feeder.finish() {
            Ok(certificate) => Ok(certificate),
            Err(DecodeRefused::BadLine(line)) => Err(Refusal::BadLine(line)),
            Err(DecodeRefused::Memory) => Err(Refusal::Memory),
        },
        Err(refusal) => {
            drop(feeder);
            Err(refusal)
        }
    }
}

// Feeds a file part by part, to its end.
fn feed_parts<'a, S: Shelf>(
    alloc: Global,
    feeder: &mut Feeder,
    name: &'a str,
    shelf: &mut S,
) -> Result<(), Refusal<'a>>
    requires { feeder.old ≡ unread certificates }
    ensures told { (S.seen shelf.new).told ≡ (S.seen shelf.old).told }
    ensures files { AllStand (S.seen shelf.old) (S.seen shelf.new) }
    ensures calm { OnOk result (IsCalm (S.seen shelf.old) (S.seen shelf.new)) }
    ensures read { OnOk result ((bytes : List ℕ) × IsCertificateFile (S.seen shelf.old) name.now bytes × (feeder.new ≡ fed certificates (unread certificates) bytes)) }
    ensures refused { IfErr result (FromParts (S.seen shelf.old) (S.seen shelf.new) name.now) }
{
    let mut at = 0;
    loop {
        let part = next_part(alloc, name, at, shelf)?;
        if part.is_empty() {
            return Ok(());
        }
        take_part(feeder, part.as_slice())?;
        at += part.len() as u64;
        if at > READ_LIMIT {
            return Err(Refusal::LargeCertificate);
        }
    }
}

/// The next bytes of a file.
pub fn next_part<'a, S: Shelf>(
    alloc: Global,
    name: &'a str,
    at: u64,
    shelf: &mut S,
) -> Result<Vec<u8>, Refusal<'a>>
    ensures told { (S.seen shelf.new).told ≡ (S.seen shelf.old).told }
    ensures files { AllStand (S.seen shelf.old) (S.seen shelf.new) }
    ensures calm { IfOk result (λ _. IsCalm (S.seen shelf.old) (S.seen shelf.new)) }
    ensures short { IfOk result (λ part. vec_len part ≤ 65536) }
    ensures part { (S.seen shelf.old).told ≡ true → IfOk result (λ part. IsPart ((S.seen shelf.old).file name.now) at 65536 part.items) }
    ensures refused { IfErr result (FromParts (S.seen shelf.old) (S.seen shelf.new) name.now) }
{
    let unread = cannot_read(alloc, name)?;
    match shelf.fetch_part(name, at, PART) {
        Ok(part) => Ok(part),
        Err(FetchRefused::Failed) => Err(Refusal::CannotRead(unread)),
        Err(FetchRefused::TooBig | FetchRefused::Memory) => Err(Refusal::Memory),
    }
}

// Feeds a part. A bad line is kept by the feeder, and told at the end.
fn take_part<'a>(feeder: &mut Feeder, part: &[u8]) -> Result<(), Refusal<'a>>
    ensures fed { OnOk result (feeder.new ≡ fed certificates feeder.old part.now) }
    ensures refused { IfErr result (λ refusal. refusal ≡ Refusal.Memory) }
{
    match feeder.feed(part) {
        Ok(()) | Err(DecodeRefused::BadLine(_)) => Ok(()),
        Err(DecodeRefused::Memory) => Err(Refusal::Memory),
    }
}
