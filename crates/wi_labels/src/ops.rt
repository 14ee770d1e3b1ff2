//! Which operation is defined on which top is one table of cases, for code and contracts alike. Lists of operations are
//! short, so those of one or two take no memory of their own.
ghost use Rattle.std.specs.Prelude.{◌≡◌, ◌++◌, ◌∷◌, [], OnOk, OnErr, IfOk};
ghost use Rattle.wi_labels.specs.Header.{allowed};

use crate::label::{Class, Label};
use crate::no_memory::NoMemory;
use smallvec::SmallVec;
use std::alloc::Global;
use std::marker::Model;

/// An operation on the top of a header (RFC 3031, section 3.10). A label stands with its class.
#[derive(Clone, Copy, PartialEq, Eq, Debug, Default)]
pub enum Op {
    /// The top becomes this label.
    Swap(Label, Class),
    /// This label stands on top.
    Push(Label, Class),
    /// The top is removed.
    #[default]
    Pop,
}

impl Op {
    /// Whether the operation is defined on a header with a top of this class. It takes no memory.
    pub fn allowed(&self, top: Class) -> bool
        ensures { result ≡ allowed self.now top }
    {
        match (*self, top) {
            (Op::Swap(_, Class::Mpls), Class::Mpls) => true,
            (Op::Swap(_, Class::Smpls), Class::Smpls) => true,
            (Op::Swap(_, Class::Ip), Class::Ip) => true,
            (Op::Push(_, Class::Mpls), Class::Mpls) => true,
            (Op::Push(_, Class::Mpls), Class::Smpls) => true,
            (Op::Push(_, Class::Smpls), Class::Ip) => true,
            (Op::Pop, Class::Mpls) => true,
            (Op::Pop, Class::Smpls) => true,
            _ => false,
        }
    }
}

/// A list of operations, done in order. Lists of one or two take no memory.
#[derive(Drop)]
pub struct Ops {
    ops: SmallVec<Op, 2>,
}

impl Model for Ops {
    ghost use Rattle.std.specs.Prelude.{List};
    ghost use Rattle.wi_labels.specs.declared.ops.Op.{Op};

    ghost Value = { List Op };

    ghost view = { λ o. o.ops.items };
}

impl Ops {
    /// No operation.
    pub fn new(alloc: Global) -> Ops
        ensures { result ≡ [] }
    {
        Ops {
            ops: SmallVec::new(alloc),
        }
    }

    /// The operations of a slice.
    pub fn from_slice(alloc: Global, ops: &[Op]) -> Result<Ops, NoMemory>
        ensures { IfOk result (λ list. list ≡ ops.now) }
    {
        let ops = SmallVec::from_slice(alloc, ops)?;
        Ok(Ops { ops })
    }

    /// Adds an operation that is done last.
    pub fn push(&mut self, op: Op) -> Result<(), NoMemory>
        ensures ok { OnOk result (self.new ≡ self.old ++ op ∷ []) }
        ensures err { OnErr result (self.new ≡ self.old) }
    {
        self.ops.push(op)?;
        Ok(())
    }

    /// The operations, in order.
    pub fn as_slice(&self) -> &[Op]
        ensures { result.now ≡ self.now }
    {
        self.ops.as_slice()
    }
}
