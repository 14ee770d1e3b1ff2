//! This is the drat-trim of a what-if search: whoever has this crate and those below it need trust no search. It implements
//! `IsAccepted` and `IsRefused` of `wi_accept`: the causes for which a certificate isn't believed, in the order in which they are
//! told. That an accepted answer holds is a law there, and that what `decide` writes is accepted is another.
//!
//! What it costs: the run that is shown is walked along five times at most, each time with one header that moves in place. Then each
//! listed head is asked for its rules once, for heads and pairs and for rows. What a rule leads to is looked up by halves in the
//! certificate's own sorted lists, of which no copy is made; the pairs of two symbols, and the heads of a spot, by one walk along both
//! lists, once for two symbols; and each row that a rule demands among those of its head. Besides the certificate it keeps the run's
//! links, its steps, the links on which a packet may set out, what one head's rules are, for which two symbols no pair is missing, and
//! the first row that is open.
ghost use Rattle.std.specs.Prelude.{◌≡◌, IfOk, IfErr, OnOk};
ghost use Rattle.wi_cert.specs.Text.{IsWritable};
ghost use Rattle.wi_accept.specs.Answers.{IsDecided, answer_of, word_of};
ghost use Rattle.wi_accept.specs.Causes.{IsAccepted, IsRefused};

use crate::bounded::{Gap, check_closed};
use crate::shown::check_shown;
use std::alloc::Global;
use wi_build::{LazySystem, Problem};
use wi_cert::{Certificate, CheckRefused, Claim};
use wi_world::Word;

/// What an accepted certificate says.
#[derive(Clone, Copy, Debug, PartialEq, Eq)]
pub struct Accepted {
    /// The word of its answer, and that answer holds.
    pub word: Word,
}

/// Whether a certificate can be believed, for a problem. The first cause against it is told, with what it is about. Any numbers may
/// stand in it.
pub fn check(
    alloc: Global,
    problem: &Problem<'_>,
    certificate: &Certificate,
) -> Result<Accepted, CheckRefused>
    requires { IsWritable certificate.now }
    ensures accepted { OnOk result (IsAccepted problem.now certificate.now) }
    ensures word { IfOk result (λ accepted. accepted.word ≡ word_of certificate.now.shown.claim) }
    ensures holds { OnOk result (IsDecided problem.now (answer_of problem.now certificate.now.shown)) }
    ensures refused { IfErr result (IsRefused problem.now certificate.now) }
{
    problem.keeps();
    check_shown(alloc, problem, &certificate.shown)?;
    let system = LazySystem::of(alloc, problem)?;
    let closed = check_closed(alloc, &system, &certificate.shown, &certificate.closed);
    drop(system);
    match closed {
        Ok(()) => Ok(Accepted {
            word: word_of(certificate.shown.claim),
        }),
        Err(Gap::Closed(refused)) => Err(CheckRefused::Unbounded(refused)),
        Err(Gap::Memory) => Err(CheckRefused::Memory),
    }
}

/// The word of a claim.
pub(crate) fn word_of(claim: Claim) -> Word
    ensures { result ≡ word_of claim }
{
    match claim {
        Claim::Yes => Word::Yes,
        Claim::No => Word::No,
        Claim::Inconclusive => Word::Inconclusive,
    }
}
