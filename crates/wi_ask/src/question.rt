//! A network is fetched and texts are read once, before it is decided what is done with them; so their faults come first, whatever is
//! wanted. Both are let go before anything is printed.
ghost use Rattle.std.specs.Prelude.{◌≡◌, option_map, IfOk, IfErr};
ghost use Rattle.wi_words.specs.Shown.{asking_shown, wanted_shown};
ghost use Rattle.wi_files.specs.Shelves.{IsCalm, IsLeft, StandBut};
ghost use Rattle.wi_ask.specs.Asked.{ForAsked, ForAsking, FromAsked, FromAsking};
ghost use Rattle.wi_ask.specs.Wanted.{FromWanted, IsGiven, IsStoredFor};

use crate::check::check;
use crate::check_exact::check_exact;
use crate::exact::exact;
use crate::tolerate::tolerate;
use crate::verify::verify;
use std::alloc::Global;
use wi_base::Shelf;
use wi_build::Problem;
use wi_files::{network, read_texts};
use wi_net::Network;
use wi_outcome::{Printed, Refusal};
use wi_words::{Asking, Wanted};

/// What is wanted of what texts ask of the network of a file, or why not.
pub fn ask<'a, S: Shelf>(
    alloc: Global,
    asking: Asking<'a>,
    wanted: Wanted<'a>,
    shelf: &mut S,
) -> Result<Printed, Refusal<'a>>
    ensures told { (S.seen shelf.new).told ≡ (S.seen shelf.old).told }
    ensures others { StandBut (IsStoredFor (wanted_shown wanted.entry)) (S.seen shelf.old) (S.seen shelf.new) }
    ensures left { IfErr result (λ refusal. IsLeft refusal (S.seen shelf.old) (S.seen shelf.new)) }
    ensures calm { IfOk result (λ _. IsCalm (S.seen shelf.old) (S.seen shelf.new)) }
    ensures answered { IfOk result (λ printed. ForAsking (S.seen shelf.old) (asking_shown asking.entry) (λ problem. IsGiven (wanted_shown wanted.entry) (S.seen shelf.old) (S.seen shelf.new) problem printed.status printed.text)) }
    ensures refused { IfErr result (FromAsking (FromWanted (wanted_shown wanted.entry) (S.seen shelf.old) (S.seen shelf.new)) (S.seen shelf.old) (S.seen shelf.new) (asking_shown asking.entry)) }
{
    let net = network(alloc, asking.network, shelf)?;
    let printed = ask_of(alloc, &net, asking.query, asking.weights, wanted, shelf);
    drop(net);
    printed
}

// The same of a network.
fn ask_of<'a, S: Shelf>(
    alloc: Global,
    net: &Network,
    query: &str,
    weights: Option<&str>,
    wanted: Wanted<'a>,
    shelf: &mut S,
) -> Result<Printed, Refusal<'a>>
    ensures told { (S.seen shelf.new).told ≡ (S.seen shelf.old).told }
    ensures others { StandBut (IsStoredFor (wanted_shown wanted.entry)) (S.seen shelf.old) (S.seen shelf.new) }
    ensures left { IfErr result (λ refusal. IsLeft refusal (S.seen shelf.old) (S.seen shelf.new)) }
    ensures calm { IfOk result (λ _. IsCalm (S.seen shelf.old) (S.seen shelf.new)) }
    ensures answered { IfOk result (λ printed. ForAsked net.now query.now (option_map (λ s. s.now) weights.entry) (λ problem. IsGiven (wanted_shown wanted.entry) (S.seen shelf.old) (S.seen shelf.new) problem printed.status printed.text)) }
    ensures refused { IfErr result (FromAsked (FromWanted (wanted_shown wanted.entry) (S.seen shelf.old) (S.seen shelf.new)) (S.seen shelf.old) (S.seen shelf.new) net.now query.now (option_map (λ s. s.now) weights.entry)) }
{
    let asked = read_texts(alloc, net, query, weights)?;
    let problem = Problem::of(net, &asked.query, &asked.vector);
    let printed = give(alloc, &problem, wanted, shelf);
    drop(asked);
    printed
}

// What is wanted of a problem.
fn give<'a, S: Shelf>(
    alloc: Global,
    problem: &Problem<'_>,
    wanted: Wanted<'a>,
    shelf: &mut S,
) -> Result<Printed, Refusal<'a>>
    ensures told { (S.seen shelf.new).told ≡ (S.seen shelf.old).told }
    ensures others { StandBut (IsStoredFor (wanted_shown wanted.entry)) (S.seen shelf.old) (S.seen shelf.new) }
    ensures left { IfErr result (λ refusal. IsLeft refusal (S.seen shelf.old) (S.seen shelf.new)) }
    ensures calm { IfOk result (λ _. IsCalm (S.seen shelf.old) (S.seen shelf.new)) }
    ensures given { IfOk result (λ printed. IsGiven (wanted_shown wanted.entry) (S.seen shelf.old) (S.seen shelf.new) problem.now printed.status printed.text) }
    ensures refused { IfErr result (FromWanted (wanted_shown wanted.entry) (S.seen shelf.old) (S.seen shelf.new) problem.now) }
{
    match wanted {
        Wanted::Verify {
            content,
            certificate,
        } => { verify(alloc, problem, content, certificate, shelf) }
        Wanted::Check { certificate } => check(alloc, problem, certificate, shelf),
        Wanted::Exact { certificate } => exact(alloc, problem, certificate, shelf),
        Wanted::CheckExact { certificate } => { check_exact(alloc, problem, certificate, shelf) }
        Wanted::Tolerate { most, certificate } => {
            tolerate(alloc, problem, most, certificate, shelf)
        }
    }
}
