//! Tree certificates read in pieces, by the loops that read certificates. A feeder is taken and given back, so that nothing has to
//! be undone where memory runs out: a mark would have to keep the leaf that was read there, and that takes memory. Reading takes
//! the time of its bytes.
ghost use Rattle.std.specs.Prelude.{◌≡◌, ℕ, Err, IfOk, OnOk};
ghost use Rattle.wi_cert.specs.Reading.{unread, fed, Finishes};
ghost use Rattle.wi_cert.specs.Text.{IsBadLine};
ghost use Rattle.wi_cert.specs.Trees.{trees, IsTreeText};

use crate::decode_refused::DecodeRefused;
use crate::feeder::take_piece;
use crate::take_lines::TakeLines;
use crate::tree::TreeCertificate;
use crate::tree_draft::TreeDraft;
use std::alloc::Global;
use std::marker::Model;
use wi_base::NoMemory;

/// A tree certificate of which some bytes were read.
#[derive(Drop)]
pub struct TreeFeeder {
    // The first bad line, once it is known.
    bad: Option<u128>,
    // The line that has begun.
    held: Vec<u8>,
    draft: TreeDraft,
}

impl Model for TreeFeeder {
    ghost use Rattle.wi_cert.specs.Reading.{Fed};
    ghost use Rattle.wi_cert.specs.Trees.{TreeSheet};

    ghost Value = { Fed TreeSheet };

    ghost use Rattle.wi_cert.specs.private.Marks.{fed_so_far};
    ghost use Rattle.wi_cert.specs.private.TreeMarks.{tree_line_count};

    ghost view = { λ f. fed_so_far tree_line_count f.bad f.held.items f.draft };
}

impl TreeFeeder {
    /// Nothing is read.
    pub fn new(alloc: Global) -> TreeFeeder
        ensures { result ≡ unread trees }
    {
        TreeFeeder {
            bad: None,
            held: Vec::new(alloc),
            draft: TreeDraft::new(alloc),
        }
    }

    /// Takes more bytes. A bad line is kept, and told by `finish`. Where memory runs out, what was read is lost.
    pub fn feed(mut self, piece: &[u8]) -> Result<TreeFeeder, NoMemory>
        ensures { IfOk result (λ feeder. feeder ≡ fed trees self piece.now) }
    {
        match self.take(piece) {
            Ok(()) => Ok(self),
            Err(error) => {
                drop(self);
                Err(error)
            }
        }
    }

    fn take(&mut self, piece: &[u8]) -> Result<(), NoMemory>
        ensures { OnOk result (self.new ≡ fed trees self.old piece.now) }
    {
        if self.bad.is_some() {
            return Ok(());
        }
        if take_piece(&mut self.held, &mut self.draft, piece)? {
            return Ok(());
        }
        self.bad = Some(self.draft.line_count() + 1);
        Ok(())
    }

    /// The tree certificate, where the text ends here. It takes no memory.
    pub fn finish(self) -> Result<TreeCertificate, DecodeRefused>
        ensures { Finishes trees self result }
    {
        let TreeFeeder { bad, held, draft } = self;
        let is_whole = held.is_empty() && draft.is_done();
        drop(held);
        if let Some(line) = bad {
            drop(draft);
            return Err(DecodeRefused::BadLine(line));
        }
        if is_whole {
            return Ok(draft.finish());
        }
        let line = draft.line_count() + 1;
        drop(draft);
        Err(DecodeRefused::BadLine(line))
    }
}

/// The tree certificate that the bytes spell.
pub fn decode_tree(alloc: Global, bytes: &[u8]) -> Result<TreeCertificate, DecodeRefused>
    ensures found { IfOk result (λ tree. IsTreeText tree bytes.now) }
    ensures bad { (n : ℕ) → result ≡ Err (DecodeRefused.BadLine n) → IsBadLine trees bytes.now n }
{
    match TreeFeeder::new(alloc).feed(bytes) {
        Ok(feeder) => feeder.finish(),
        Err(NoMemory::Memory) => Err(DecodeRefused::Memory),
    }
}
