//! What is to be printed is made whole, with its status, before anything is printed: so a refusal on the way puts nothing on
//! standard output. It costs the whole text in memory.
ghost use Rattle.std.specs.Prelude.{◌≡◌, ◌<◌, ◌-◌, ◌^◌, Some, IfOk, IfErr};
ghost use Rattle.wi_words.specs.Commands.{IsFit};
ghost use Rattle.wi_words.specs.Shown.{printing_shown};
ghost use Rattle.wi_files.specs.Shelves.{IsCalm, IsLeft, StandBut};
ghost use Rattle.wi_app.specs.Run.{DoesBy, FromCommand, IsAnswered, IsStoredBy};

use std::alloc::Global;
use wi_ask::{ask, summary_of_ring};
use wi_base::{Shelf, Sink};
use wi_make::{bypass, draw, play, protect, stack};
use wi_outcome::{Printed, Refusal, print, say};
use wi_words::Printing;

/// Prints what is asked for, or says why not.
pub fn answer<'a, S: Shelf, O: Sink, E: Sink>(
    alloc: Global,
    printing: Printing<'a>,
    shelf: &mut S,
    out: &mut O,
    err: &mut E,
) -> u8
    requires fit { IsFit (printing_shown printing) }
    requires out { (O.seen out.old).faults < 2 ^ 64 - 1 }
    requires err { (E.seen err.old).faults < 2 ^ 64 - 1 }
    ensures tells { ((S.seen shelf.new).told ≡ (S.seen shelf.old).told) × ((O.seen out.new).told ≡ (O.seen out.old).told) × ((E.seen err.new).told ≡ (E.seen err.old).told) }
    ensures others { StandBut (IsStoredBy (Some (printing_shown printing.entry))) (S.seen shelf.old) (S.seen shelf.new) }
    ensures does { DoesBy (Some (printing_shown printing.entry)) (S.seen shelf.old) (S.seen shelf.new) (O.seen out.old) (O.seen out.new) (E.seen err.old) (E.seen err.new) result }
{
    match answer_to(alloc, printing, shelf) {
        Ok(printed) => print(alloc, &printed, out, err),
        Err(refusal) => say(alloc, refusal, err),
    }
}

// What is asked for, or why not.
fn answer_to<'a, S: Shelf>(
    alloc: Global,
    printing: Printing<'a>,
    shelf: &mut S,
) -> Result<Printed, Refusal<'a>>
    requires { IsFit (printing_shown printing) }
    ensures told { (S.seen shelf.new).told ≡ (S.seen shelf.old).told }
    ensures others { StandBut (IsStoredBy (Some (printing_shown printing.entry))) (S.seen shelf.old) (S.seen shelf.new) }
    ensures left { IfErr result (λ refusal. IsLeft refusal (S.seen shelf.old) (S.seen shelf.new)) }
    ensures calm { IfOk result (λ _. IsCalm (S.seen shelf.old) (S.seen shelf.new)) }
    ensures answered { IfOk result (λ printed. IsAnswered (S.seen shelf.old) (S.seen shelf.new) (printing_shown printing.entry) printed.status printed.text) }
    ensures refused { IfErr result (λ refusal. FromCommand (S.seen shelf.old) (S.seen shelf.new) (printing_shown printing.entry) refusal) }
{
    match printing {
        Printing::Ask { asking, wanted } => ask(alloc, asking, wanted, shelf),
        Printing::Play { network, script, k } => play(alloc, network, script, k, shelf),
        Printing::Gen { seed, size } => summary_of_ring(alloc, seed, size),
        Printing::Protect { plan } => protect(alloc, plan, shelf),
        Printing::Bypass { plan } => bypass(alloc, plan, shelf),
        Printing::Stack { hex } => stack(alloc, hex),
        Printing::Draw { network } => draw(alloc, network, shelf),
    }
}
