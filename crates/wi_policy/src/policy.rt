//! A policy keeps the text of its query and not the query, whose automata may take as much memory as a whole file of policies.
//! So a text is read twice: when the file is judged, and when the policy is asked.
ghost use Rattle.std.specs.Prelude.{◌≡◌, string_bytes, IfOk};
ghost use Rattle.wi_world.specs.Moves.{AreBounds};
ghost use Rattle.wi_query.specs.declared.query.Query.{Query};
ghost use Rattle.wi_query.specs.Meaning.{MayDropAny};
ghost use Rattle.wi_policy.specs.Policies.{IsAskable, IsAsked};
ghost use Rattle.wi_policy.specs.private.Reading.{within_given};

use crate::bounds::join;
use std::alloc::Global;
use wi_base::NoMemory;
use wi_net::{Bounds, LinkId, Network};
use wi_query::{Query, StrictFault, read_query};
use wi_world::Word;

/// A policy: a question, and the answer that it is to have.
#[derive(Drop)]
pub struct Policy {
    /// The number of its line in the file, from 1.
    pub line: usize,
    /// What is to be answered: yes or no.
    pub word: Word,
    /// What it is called. It may be empty.
    pub name: String,
    /// The text of its query: that of the line, whose bytes before the first `<` are spaces.
    pub query: String,
}

/// What is wrong with a line.
#[derive(Drop)]
pub enum LineFault {
    /// It isn't of the form of a policy, or isn't UTF-8.
    NotAPolicy,
    /// The text of its query has this fault. Bytes count from the line's beginning.
    InQuery(StrictFault),
    /// The least link that is both down and up, by the query and by what is given.
    DownAndUp(LinkId),
}

/// Why a file has no policies.
#[derive(Drop)]
pub enum PoliciesRefused {
    /// The first line with a fault, from 1, and its fault.
    AtLine(usize, LineFault),
    /// No line is a policy.
    NoPolicy,
    Memory,
}

impl From<NoMemory> for PoliciesRefused {
    ghost use Rattle.std.specs.Prelude.{◌≡◌};
    ghost use Rattle.wi_policy.specs.declared.policy.PoliciesRefused.{PoliciesRefused};

    ghost from_gives = { λ _ r. r ≡ PoliciesRefused.Memory };

    fn from(_error: NoMemory) -> Self {
        PoliciesRefused::Memory
    }
}

/// The query of a policy, within its bounds and the given ones. It takes the query's automata in memory.
pub fn asked_by(
    alloc: Global,
    net: &Network,
    given: &Bounds,
    policy: &Policy,
) -> Result<Query, NoMemory>
    requires bounds { AreBounds net.now given.now }
    requires askable { (query : Query) × IsAskable net.now given.now (string_bytes policy.now.query) query }
    ensures asked { IfOk result (λ asked. IsAsked net.now given.now (string_bytes policy.now.query) asked) }
    ensures kept { IfOk result (λ asked. AreBounds net.now asked.bounds × MayDropAny net.now asked) }
{
    match read_query(alloc, net, policy.query.as_str()) {
        Ok(query) => within(query, given),
        Err(_) => Err(NoMemory::Memory),
    }
}

// A query within its bounds and the given ones.
fn within(mut query: Query, given: &Bounds) -> Result<Query, NoMemory>
    ensures { IfOk result (λ asked. asked ≡ within_given given.now query) }
{
    match join(&mut query.bounds, given) {
        Ok(()) => Ok(query),
        Err(error) => {
            drop(query);
            Err(error)
        }
    }
}
