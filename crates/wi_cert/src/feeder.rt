//! Certificates read in pieces, and the loops that read a text of any form. A line that lies whole within a piece is judged where
//! it is; only one that a piece's end cuts is kept. Reading takes the time of its bytes, and a line takes no memory but for what it
//! adds to the lists.
ghost use Rattle.std.specs.Prelude.{◌≡◌, ℕ, ◌+◌, [], Ok, Err, IfOk, OnOk, OnErr, if◌then◌else◌};
ghost use Rattle.wi_cert.specs.Sheets.{certificates};
ghost use Rattle.wi_cert.specs.Reading.{unread, fed, Feeds, Finishes};
ghost use Rattle.wi_cert.specs.Text.{IsText, IsBadLine};
ghost use Rattle.wi_cert.specs.private.Marks.{reading, IsFront};

use crate::certificate::Certificate;
use crate::decode_refused::DecodeRefused;
use crate::draft::Draft;
use crate::line::split_line;
use crate::take_lines::TakeLines;
use std::alloc::Global;
use std::marker::Model;
use wi_base::NoMemory;

/// A certificate of which some bytes were read.
#[derive(Drop)]
pub struct Feeder {
    // The first bad line, once it is known.
    bad: Option<u128>,
    // The line that has begun.
    held: Vec<u8>,
    draft: Draft,
}

impl Model for Feeder {
    ghost use Rattle.wi_cert.specs.Reading.{Fed};
    ghost use Rattle.wi_cert.specs.Sheets.{Sheet};

    ghost Value = { Fed Sheet };

    ghost use Rattle.wi_cert.specs.private.Marks.{line_count, fed_so_far};

    ghost view = { λ f. fed_so_far line_count f.bad f.held.items f.draft };
}

impl Feeder {
    /// Nothing is read.
    pub fn new(alloc: Global) -> Feeder
        ensures { result ≡ unread certificates }
    {
        Feeder {
            bad: None,
            held: Vec::new(alloc),
            draft: Draft::new(alloc),
        }
    }

    /// Takes more bytes. After a bad line it answers the same from then on. Where memory runs out it stands as before the piece,
    /// which can be fed again.
    pub fn feed(&mut self, piece: &[u8]) -> Result<(), DecodeRefused>
        ensures { Feeds certificates self.old piece.now self.new result }
    {
        if let Some(line) = self.bad {
            return Err(DecodeRefused::BadLine(line));
        }
        let mark = self.draft.mark();
        let held = self.held.len();
        match take_piece(&mut self.held, &mut self.draft, piece) {
            Ok(true) => Ok(()),
            Ok(false) => {
                let line = self.draft.line_count() + 1;
                self.bad = Some(line);
                Err(DecodeRefused::BadLine(line))
            }
            Err(NoMemory::Memory) => {
                self.draft.go_back(mark);
                self.held.truncate(held);
                Err(DecodeRefused::Memory)
            }
        }
    }

    /// The certificate, where the text ends here. It takes no memory.
    pub fn finish(self) -> Result<Certificate, DecodeRefused>
        ensures { Finishes certificates self result }
    {
        let Feeder { bad, held, draft } = self;
        let is_whole = held.is_empty() && draft.is_done();
        drop(held);
        if let Some(line) = bad {
            drop(draft);
            return Err(DecodeRefused::BadLine(line));
        }
        if is_whole {
            return Ok(draft.finish());
        }
        let line = draft.line_count() + 1;
        drop(draft);
        Err(DecodeRefused::BadLine(line))
    }
}

// Takes the bytes of a piece. It tells whether each line that ends in it is of the form asked. Where memory runs out, the lists
// and what is held have only grown.
pub(crate) fn take_piece<D: TakeLines>(
    held: &mut Vec<u8>,
    draft: &mut D,
    piece: &[u8],
) -> Result<bool, NoMemory>
    ensures ok { IfOk result (λ good. fed D.form (Ok (reading D.count held.old.items draft.old)) piece.now ≡ (if good then Ok (reading D.count held.new.items draft.new) else Err (D.count draft.new + 1))) }
    ensures draft { (mark : D) → D.Follows mark draft.old → D.Follows mark draft.new }
    ensures held { OnErr result (IsFront held.old.items held.new.items) }
{
    if held.is_empty() {
        return take_lines(held, draft, piece);
    }
    let Some((end, rest)) = split_line(piece) else {
        held.extend_from_slice(piece)?;
        return Ok(true);
    };
    held.extend_from_slice(end)?;
    if draft.take_line(held)? {
        take_lines(held, draft, rest)
    } else {
        Ok(false)
    }
}

// Takes the lines of a piece that begins with a line, and holds what is left in the place of what was held.
fn take_lines<D: TakeLines>(
    held: &mut Vec<u8>,
    draft: &mut D,
    piece: &[u8],
) -> Result<bool, NoMemory>
    ensures ok { IfOk result (λ good. fed D.form (Ok (reading D.count [] draft.old)) piece.now ≡ (if good then Ok (reading D.count held.new.items draft.new) else Err (D.count draft.new + 1))) }
    ensures draft { (mark : D) → D.Follows mark draft.old → D.Follows mark draft.new }
    ensures held { OnErr result (held.new.items ≡ held.old.items) }
{
    let mut rest = piece;
    'lines: while let Some((line, behind)) = split_line(rest) {
        if !draft.take_line(line)? {
            return Ok(false);
        }
        rest = behind;
    }
    hold(held, rest)?;
    Ok(true)
}

// Holds these bytes in the place of what was held.
fn hold(held: &mut Vec<u8>, bytes: &[u8]) -> Result<(), NoMemory>
    ensures ok { OnOk result (held.new.items ≡ bytes.now) }
    ensures err { OnErr result (held.new.items ≡ held.old.items) }
{
    held.reserve(bytes.len())?;
    held.clear();
    held.extend_from_slice(bytes).unwrap();
    Ok(())
}

/// The certificate that the bytes spell.
pub fn decode(alloc: Global, bytes: &[u8]) -> Result<Certificate, DecodeRefused>
    ensures found { IfOk result (λ certificate. IsText certificate bytes.now) }
    ensures bad { (n : ℕ) → result ≡ Err (DecodeRefused.BadLine n) → IsBadLine certificates bytes.now n }
{
    let mut feeder = Feeder::new(alloc);
    match feeder.feed(bytes) {
        Ok(()) => feeder.finish(),
        Err(refused) => {
            drop(feeder);
            Err(refused)
        }
    }
}
