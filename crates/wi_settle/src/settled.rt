//! What is known of all outages takes the memory of the runs that were found, however many outages there are: which of them a run
//! settles is seen from its links when an outage is looked up.
ghost use Rattle.std.specs.Prelude.{◌≡◌, false, Some, OnErr, OnOk, IfOk};
ghost use Rattle.std.specs.List.{list_any};
ghost use Rattle.std.specs.Option.{option_map_or};
ghost use Rattle.wi_net.specs.LinkSet.{is_apart};
ghost use Rattle.wi_outage.specs.Survival.{is_survived};
ghost use Rattle.wi_settle.specs.private.Asking.{begun, counted, found_of, none_noted, noted};

use crate::found::Found;
use std::alloc::Global;
use std::marker::Model;
use wi_base::{Listed, NoMemory};
use wi_net::{Bounds, FailSet, LinkId, Network};
use wi_outage::{are_apart, is_survived};

/// A run that was found: the links that have failed while it is a trace, and those that it uses.
#[derive(Drop)]
pub struct Witness {
    pub fails: FailSet,
    pub used: Listed<LinkId>,
}

/// What an exact answer gives.
#[derive(Drop)]
pub(crate) enum Reply {
    Yes(Witness),
    No,
    Open,
}

/// What is known of a question for all outages at once.
#[derive(Drop)]
pub struct Settled {
    // How many searches it took.
    searches: u64,
    // What is found while nothing is out.
    own: Found,
    witnesses: Vec<Witness>,
    // Where it is known: each risk group without these links has no matching trace while it is out.
    none: Option<FailSet>,
}

impl Model for Settled {
    ghost use Rattle.wi_settle.specs.Findings.{Settling};

    ghost Value = { Settling };

    ghost view = { λ s. record { searches = s.searches; own = s.own; witnesses = s.witnesses.items; none = s.none } };
}

impl Settled {
    /// What is known of a question that was asked while nothing is out.
    pub(crate) fn of(alloc: Global, reply: Reply) -> Result<Settled, NoMemory>
        ensures { IfOk result (λ settled. settled ≡ begun reply) }
    {
        let mut settled = Settled {
            searches: 0,
            own: found_of(&reply),
            witnesses: Vec::new(alloc),
            none: None,
        };
        match settled.note(reply) {
            Ok(_) => Ok(settled),
            Err(error) => {
                drop(settled);
                Err(error)
            }
        }
    }

    /// Takes in what else was asked, and answers what was found.
    pub(crate) fn note(&mut self, reply: Reply) -> Result<Found, NoMemory>
        ensures found { IfOk result (λ found. found ≡ found_of reply) }
        ensures ok { OnOk result (self.new ≡ noted self.old reply) }
        ensures err { OnErr result (self.new ≡ self.old) }
    {
        let found = found_of(&reply);
        match reply {
            Reply::Yes(witness) => self.witnesses.push(witness)?,
            Reply::No | Reply::Open => {}
        }
        self.searches = counted(self.searches);
        Ok(found)
    }

    /// Takes in that each risk group without these links has no matching trace while it is out.
    pub(crate) fn keep(&mut self, kept: FailSet)
        ensures { self.new ≡ record self.old { none = Some kept } }
    {
        self.none = Some(kept);
    }

    /// Takes in that there is none, where that was asked of each risk group without these links.
    pub(crate) fn keep_where_none(&mut self, reply: &Reply, kept: &FailSet) -> Result<(), NoMemory>
        ensures { OnOk result (self.new ≡ none_noted self.old reply.now kept.now) }
    {
        match reply {
            Reply::No => self.keep(kept.twin()?),
            Reply::Yes(_) | Reply::Open => {}
        }
        Ok(())
    }

    /// How many searches it took, those included that were made for single outages.
    pub fn searches(&self) -> u64
        ensures { result ≡ self.now.searches }
    {
        self.searches
    }

    /// What is found while nothing is out.
    pub(crate) fn own(&self) -> Found
        ensures { result ≡ self.now.own }
    {
        self.own
    }

    /// Whether a run that was found goes on in an outage.
    pub(crate) fn survives(&self, net: &Network, bounds: &Bounds, outage: &FailSet) -> bool
        ensures { result ≡ list_any (λ w. is_survived net.now bounds.now w.fails w.used outage.now) self.now.witnesses }
    {
        self.witnesses.iter().any(|w| is_survived(net, bounds, &w.fails, w.used.as_slice(), outage))
    }

    /// Whether there is known to be no matching trace while a risk group is out.
    pub(crate) fn has_none(&self, outage: &FailSet) -> bool
        ensures { result ≡ option_map_or (λ kept. is_apart outage.now kept) self.now.none false }
    {
        match &self.none {
            Some(kept) => are_apart(outage, kept),
            None => false,
        }
    }
}

// One search more, as far as the number goes.
fn counted(searches: u64) -> u64
    ensures { result ≡ counted searches }
{
    if searches < u64::MAX {
        searches + 1
    } else {
        searches
    }
}

// What was found.
fn found_of(reply: &Reply) -> Found
    ensures { result ≡ found_of reply.now }
{
    match reply {
        Reply::Yes(_) => Found::Yes,
        Reply::No => Found::No,
        Reply::Open => Found::Open,
    }
}
