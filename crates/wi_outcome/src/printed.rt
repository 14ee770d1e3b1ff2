//! What is printed goes out in one call; where that fails, a front of it may stand there.
ghost use Rattle.std.specs.Prelude.{◌≡◌, ◌<◌, ◌-◌, ◌^◌};
ghost use Rattle.wi_outcome.specs.Edges.{Prints, SaysWhy, unprinted};

use crate::refusal::{Refusal, say};
use std::alloc::Global;
use wi_base::{PutRefused, Sink};
use wi_text::Text;

/// What is to be printed, with the exit status: 1 for a no, 2 for an inconclusive, and else 0.
#[derive(Drop)]
pub struct Printed {
    pub status: u8,
    pub text: Text,
}

/// Prints a text on `out`, or says on `err` why not, and gives the exit status.
pub fn print<O: Sink, E: Sink>(alloc: Global, printed: &Printed, out: &mut O, err: &mut E) -> u8
    requires out { (O.seen out.old).faults < 2 ^ 64 - 1 }
    requires err { (E.seen err.old).faults < 2 ^ 64 - 1 }
    ensures out { (O.seen out.new).told ≡ (O.seen out.old).told }
    ensures err { (E.seen err.new).told ≡ (E.seen err.old).told }
    ensures printed { Prints printed.now.status printed.now.text (O.seen out.old) (O.seen out.new) (E.seen err.old) (E.seen err.new) result }
{
    match out.put(printed.text.as_bytes()) {
        Ok(()) => printed.status,
        Err(refused) => say_unprinted(alloc, refused, err),
    }
}

/// Says on `err` why a call that was to print failed, and gives the exit status.
pub fn say_unprinted<E: Sink>(alloc: Global, refused: PutRefused, err: &mut E) -> u8
    requires { (E.seen err.old).faults < 2 ^ 64 - 1 }
    ensures told { (E.seen err.new).told ≡ (E.seen err.old).told }
    ensures said { SaysWhy (unprinted refused) (E.seen err.old) (E.seen err.new) result }
{
    match refused {
        PutRefused::Failed => say(alloc, Refusal::CannotPrint, err),
        PutRefused::Memory => say(alloc, Refusal::Memory, err),
    }
}
