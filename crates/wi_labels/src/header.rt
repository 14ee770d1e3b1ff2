//! Headers, kept bottom first: operations then work at the end of a list, and cost in their own number, not in the height of
//! the header. Contracts see a header top first.
ghost use Rattle.std.specs.Prelude.{◌≡◌, ◌≤◌, ◌++◌, List, length, drop, reverse, slice_get, true, Some, IfOk, OnOk, OnErr};
ghost use Rattle.wi_labels.specs.Header.{Entry, after_op, after_ops, is_tunnel, is_valid_header};
ghost use Rattle.wi_labels.specs.private.Header.{Applies, is_ip};
ghost use Rattle.wi_labels.specs.declared.ops.Op.{Op};

use crate::label::{Class, Label};
use crate::no_memory::NoMemory;
use crate::ops::Op;
use crate::rewrite::Rewrite;
use smallvec::SmallVec;
use std::alloc::Global;
use std::marker::Model;

/// What a list of operations did.
#[derive(Clone, Copy, PartialEq, Eq, Debug)]
pub enum Applied {
    Done,
    /// The first operation that isn't defined, from 0.
    Undefined(usize),
}

/// A stack of labels with their classes, top first. Up to eight labels take no memory.
#[derive(Drop)]
pub struct Header {
    // The bottom first, so that the top is at the end.
    from_bottom: SmallVec<(Label, Class), 8>,
}

impl Model for Header {
    ghost use Rattle.std.specs.Prelude.{List, reverse};
    ghost use Rattle.wi_labels.specs.declared.label.Label.{Label};
    ghost use Rattle.wi_labels.specs.declared.label.Class.{Class};

    ghost Value = { List (Label × Class) };

    ghost view = { λ h. reverse h.from_bottom.items };
}

impl Header {
    /// The header with these labels, top first. It may be any list: `is_valid` tells.
    pub fn from_labels(alloc: Global, labels: &[(Label, Class)]) -> Result<Header, NoMemory>
        ensures { IfOk result (λ h. h ≡ labels.now) }
    {
        let mut from_bottom = SmallVec::from_slice(alloc, labels)?;
        from_bottom.as_mut_slice().reverse();
        Ok(Header { from_bottom })
    }

    /// An equal header.
    pub fn twin(&self) -> Result<Header, NoMemory>
        ensures { IfOk result (λ h. h ≡ self.now) }
    {
        let alloc = *self.from_bottom.allocator();
        let from_bottom = SmallVec::from_slice(alloc, self.from_bottom.as_slice())?;
        Ok(Header { from_bottom })
    }

    /// How many labels there are. It takes no memory.
    pub fn len(&self) -> usize
        ensures { result ≡ length self.now }
    {
        self.from_bottom.len()
    }

    /// The label at a place, the top at 0. It takes no memory.
    pub fn at(&self, i: usize) -> Option<(Label, Class)>
        ensures { result ≡ slice_get self.now i }
    {
        let count = self.from_bottom.len();
        if i < count {
            Some(self.from_bottom.as_slice()[count - 1 - i])
        } else {
            None
        }
    }

    /// Whether it is one `ip` label alone, or `mpls` labels, one `smpls` and one `ip`. It takes no memory.
    pub fn is_valid(&self) -> bool
        ensures { result ≡ is_valid_header self.now }
    {
        if self.len() == 1 {
            self.is_ip_at(0)
        } else {
            self.is_tunnel()
        }
    }

    // Whether an `ip` label stands at a place.
    fn is_ip_at(&self, i: usize) -> bool
        ensures { result ≡ is_ip (slice_get self.now i) }
    {
        matches!(self.at(i), Some((_, Class::Ip)))
    }

    // Whether it is `mpls` labels, one `smpls` and one `ip`.
    #[tactic(auto, using(crate::proofs::HeaderLemmas::tunnel_laws))]
    fn is_tunnel(&self) -> bool
        ensures { result ≡ is_tunnel self.now }
    {
        let count = self.len();
        for i in 0..count {
            match self.at(i) {
                Some((_, Class::Mpls)) => {}
                Some((_, Class::Smpls)) => return count - i == 2 && self.is_ip_at(i + 1),
                Some((_, Class::Ip)) => return false,
                None => return false,
            }
        }
        false
    }

    /// Does the operations in turn. Where one isn't defined, or memory runs out, nothing has changed.
    /// The cost is in the number of operations, not in the height of the header.
    pub fn apply(&mut self, ops: &[Op]) -> Result<Applied, NoMemory>
        ensures ok { IfOk result (λ answer. Applies ops.now self.old answer self.new) }
        ensures err { OnErr result (self.new ≡ self.old) }
    {
        let mut rewrite = Rewrite::new(*self.from_bottom.allocator());
        for (i, op) in ops.iter().enumerate() {
            if !rewrite.apply_one(self, *op)? {
                return Ok(Applied::Undefined(i));
            }
        }
        self.replace_top(rewrite.gone, rewrite.above.as_slice())?;
        Ok(Applied::Done)
    }

    // Replaces so many labels from the top by others, which are listed from the bottom.
    fn replace_top(&mut self, gone: usize, above: &[(Label, Class)]) -> Result<(), NoMemory>
        requires { gone ≤ length self.old }
        ensures ok { OnOk result (self.new ≡ reverse above.now ++ drop gone self.old) }
        ensures err { OnErr result (self.new ≡ self.old) }
    {
        self.from_bottom.reserve(above.len())?;
        let kept = self.from_bottom.len() - gone;
        self.from_bottom.truncate(kept);
        self.from_bottom.extend_from_slice(above).unwrap();
        Ok(())
    }
}

/// A defined operation leaves a valid header valid, and so does a list of them.
#[tactic(auto, using(crate::proofs::HeaderLemmas::after_ops_valid))]
pub fn operations_keep_valid()
    ensures one { (op : Op) (old new : List Entry) → is_valid_header old ≡ true → after_op op old ≡ Some new → is_valid_header new ≡ true }
    ensures several { (ops : List Op) (old new : List Entry) → is_valid_header old ≡ true → after_ops ops old ≡ Some new → is_valid_header new ≡ true }
{}
