//! All is one call over any shelf and any sinks, so that the same code runs over memory, where contracts tell the content, and
//! over the system's files and streams.
ghost use Rattle.std.specs.Prelude.{◌≡◌, ◌<◌, ◌-◌, ◌^◌, map, string_bytes, Some};
ghost use Rattle.wi_words.specs.Commands.{IsFit, command_of};
ghost use Rattle.wi_words.specs.Shown.{shown};
ghost use Rattle.wi_files.specs.Shelves.{StandBut};
ghost use Rattle.wi_app.specs.Run.{Completes, Does, DoesBy, IsStoredBy};

use crate::answer::answer;
use crate::audit::audit;
use std::alloc::Global;
use wi_base::{NoMemory, Shelf, Sink};
use wi_outcome::{Refusal, say};
use wi_words::{Command, command_of};

/// Does what the words say: it fetches from the shelf, stores a certificate if one is asked for, and prints on `out`; or says on
/// `err` why not. It gives the exit status. The first word is the program's name.
pub fn run<S: Shelf, O: Sink, E: Sink>(
    alloc: Global,
    words: &[String],
    shelf: &mut S,
    out: &mut O,
    err: &mut E,
) -> u8
    requires out { (O.seen out.old).faults < 2 ^ 64 - 1 }
    requires err { (E.seen err.old).faults < 2 ^ 64 - 1 }
    ensures tells { ((S.seen shelf.new).told ≡ (S.seen shelf.old).told) × ((O.seen out.new).told ≡ (O.seen out.old).told) × ((E.seen err.new).told ≡ (E.seen err.old).told) }
    ensures others { StandBut (IsStoredBy (command_of (map string_bytes words.now))) (S.seen shelf.old) (S.seen shelf.new) }
    ensures does { Does (map string_bytes words.now) (S.seen shelf.old) (S.seen shelf.new) (O.seen out.old) (O.seen out.new) (E.seen err.old) (E.seen err.new) result }
    ensures completes { Completes (map string_bytes words.now) (S.seen shelf.old) (S.seen shelf.new) (O.seen out.old) (O.seen out.new) (E.seen err.old) (E.seen err.new) result }
{
    match command_of(alloc, words) {
        Ok(Some(command)) => obey(alloc, command, shelf, out, err),
        Ok(None) => say(alloc, Refusal::Usage, err),
        Err(NoMemory::Memory) => say(alloc, Refusal::Memory, err),
    }
}

// Does what a command says.
fn obey<'a, S: Shelf, O: Sink, E: Sink>(
    alloc: Global,
    command: Command<'a>,
    shelf: &mut S,
    out: &mut O,
    err: &mut E,
) -> u8
    requires fit { IsFit (shown command) }
    requires out { (O.seen out.old).faults < 2 ^ 64 - 1 }
    requires err { (E.seen err.old).faults < 2 ^ 64 - 1 }
    ensures tells { ((S.seen shelf.new).told ≡ (S.seen shelf.old).told) × ((O.seen out.new).told ≡ (O.seen out.old).told) × ((E.seen err.new).told ≡ (E.seen err.old).told) }
    ensures others { StandBut (IsStoredBy (Some (shown command.entry))) (S.seen shelf.old) (S.seen shelf.new) }
    ensures does { DoesBy (Some (shown command.entry)) (S.seen shelf.old) (S.seen shelf.new) (O.seen out.old) (O.seen out.new) (E.seen err.old) (E.seen err.new) result }
{
    match command {
        Command::Print(printing) => answer(alloc, printing, shelf, out, err),
        Command::Audit(auditing) => audit(alloc, auditing, shelf, out, err),
    }
}
