//! Operations work on a copy of what they touch, so that one that isn't defined leaves nothing to undo: a list of them costs
//! in its own length, and the header below is never copied.
ghost use Rattle.std.specs.Prelude.{◌≡◌, ◌<◌, ◌≤◌, [], drop, length, slice_get, Ok, Some, None, true, false};
ghost use Rattle.wi_labels.specs.Header.{after_op};
ghost use Rattle.wi_labels.specs.private.Rewrite.{rewritten};

use crate::header::Header;
use crate::label::{Class, Label};
use crate::no_memory::NoMemory;
use crate::ops::Op;
use smallvec::SmallVec;
use std::alloc::Global;

/// The labels that stand above what is left of a header. Only what operations touch is copied: a high header costs nothing.
#[derive(Drop)]
pub(crate) struct Rewrite {
    /// How many of the header's labels are gone.
    pub(crate) gone: usize,
    /// The labels above the others, the lowest first.
    pub(crate) above: SmallVec<(Label, Class), 8>,
}

impl Rewrite {
    /// The header as it is.
    pub(crate) fn new(alloc: Global) -> Rewrite
        ensures gone { result.gone ≡ 0 }
        ensures above { result.above.items ≡ [] }
    {
        Rewrite {
            gone: 0,
            above: SmallVec::new(alloc),
        }
    }

    // The top.
    fn top(&self, header: &Header) -> Option<(Label, Class)>
        ensures { result ≡ slice_get (rewritten header.now self.now.gone self.now.above.items) 0 }
    {
        match self.above.as_slice().last() {
            Some(top) => Some(*top),
            None => header.at(self.gone),
        }
    }

    // Removes the top, which is there.
    #[tactic(auto, using(crate::proofs::RewriteLemmas::without_own))]
    fn remove_top(&mut self, header: &Header)
        requires { 0 < length (rewritten header.now self.old.gone self.old.above.items) }
        ensures rest { rewritten header.now self.new.gone self.new.above.items ≡ drop 1 (rewritten header.now self.old.gone self.old.above.items) }
        ensures within { self.old.gone ≤ length header.now → self.new.gone ≤ length header.now }
    {
        // The height of the header bounds the count.
        let _height = header.len();
        match self.above.pop() {
            Some(_) => {}
            None => self.gone += 1,
        }
    }

    /// Does one operation. It answers whether that is defined, and changes nothing where it isn't.
    pub(crate) fn apply_one(&mut self, header: &Header, op: Op) -> Result<bool, NoMemory>
        ensures defined { result ≡ Ok true → after_op op (rewritten header.now self.old.gone self.old.above.items) ≡ Some (rewritten header.now self.new.gone self.new.above.items) }
        ensures undefined { result ≡ Ok false → after_op op (rewritten header.now self.old.gone self.old.above.items) ≡ None }
        ensures within { self.old.gone ≤ length header.now → self.new.gone ≤ length header.now }
    {
        let top = match self.top(header) {
            Some((_, class)) => class,
            None => return Ok(false),
        };
        if !op.allowed(top) {
            return Ok(false);
        }
        match op {
            Op::Swap(label, class) => {
                self.remove_top(header);
                self.above.push((label, class))?;
            }
            Op::Push(label, class) => self.above.push((label, class))?,
            Op::Pop => self.remove_top(header),
        }
        Ok(true)
    }
}
