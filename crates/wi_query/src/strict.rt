//! A pair of links that means no link is mostly a slip, so a query can be read with each such pair as a fault. Pairs are judged
//! once the whole query is made: so this fault comes behind all others, and names need no looking after. A pair with an
//! interface takes a few look-ups, any other a walk over the links up to the first that it means.
ghost use Rattle.std.specs.Prelude.{◌≡◌, ℕ, List, IfOk, IfErr};
ghost use Rattle.std.specs.List.{flat_map};
ghost use Rattle.std.specs.Option.{option_map};
ghost use Rattle.wi_syntax.specs.Atoms.{pair_at};
ghost use Rattle.wi_syntax.specs.Grammar.{IsWritten};
ghost use Rattle.wi_query.specs.Faults.{IsShort};
ghost use Rattle.wi_query.specs.Linked.{is_linkless, pairs_in_sign, pairs_in_known, first_linkless, IsStrictQuery, IsStrictFault};
ghost use Rattle.wi_query.specs.private.Lookups.{linkless_at};

use crate::fault::QueryFault;
use crate::names::{ends_known, has_link};
use crate::query::{Query, query_written, written_in};
use std::alloc::Global;
use thiserror::Error;
use wi_net::Network;
use wi_syntax::{Known, LinkAtom, Pair, Sign, Written};

/// Why a text is no query of a network whose pairs of links all mean links: its first fault, in the order given here. Bytes
/// count from 0.
#[derive(Debug, Drop, Error)]
pub enum StrictFault {
    /// It is no query of the network.
    #[error(transparent)]
    InQuery(QueryFault),
    /// A pair of links, which begins at this byte, means no link.
    #[error("byte {0}: no link")]
    NoLink(usize),
}

impl From<QueryFault> for StrictFault {
    ghost use Rattle.std.specs.Prelude.{◌≡◌};
    ghost use Rattle.wi_query.specs.declared.strict.StrictFault.{StrictFault};

    ghost from_gives = { λ fault r. r ≡ StrictFault.InQuery fault };

    fn from(fault: QueryFault) -> Self {
        StrictFault::InQuery(fault)
    }
}

// Whether a pair means no link.
fn is_linkless(net: &Network, pair: &Pair) -> bool
    ensures { result ≡ is_linkless net.now pair.now }
{
    match ends_known(net, pair) {
        Some(ends) => !has_link(net, ends),
        None => true,
    }
}

// The byte where the first of some pairs begins that means no link.
fn linkless_among(net: &Network, pairs: &[Pair]) -> Option<usize>
    ensures { result ≡ linkless_at net.now pairs.now }
{
    for pair in pairs {
        if is_linkless(net, pair) {
            return Some(pair.at());
        }
    }
    None
}

fn linkless_in_sign(net: &Network, sign: &Sign<LinkAtom>) -> Option<usize>
    ensures { result ≡ linkless_at net.now (pairs_in_sign sign.now) }
{
    match sign {
        Sign::Atom(LinkAtom::List(_, pairs)) => linkless_among(net, pairs.as_slice()),
        _ => None,
    }
}

fn linkless_in_path(net: &Network, signs: &[Sign<LinkAtom>]) -> Option<usize>
    ensures { result ≡ linkless_at net.now (flat_map pairs_in_sign signs.now) }
{
    for sign in signs {
        if let Some(at) = linkless_in_sign(net, sign) {
            return Some(at);
        }
    }
    None
}

fn linkless_in_known(net: &Network, known: &Option<Known>) -> Option<usize>
    ensures { result ≡ linkless_at net.now (pairs_in_known known.now) }
{
    match known {
        Some(known) => linkless_among(net, known.pairs.as_slice()),
        None => None,
    }
}

/// The byte where the first pair of a query begins that means no link.
pub(crate) fn first_linkless(net: &Network, written: &Written) -> Option<usize>
    ensures { result ≡ option_map pair_at (first_linkless net.now written.now) }
{
    if let Some(at) = linkless_in_path(net, written.path.as_slice()) {
        return Some(at);
    }
    if let Some(at) = linkless_in_known(net, &written.down) {
        return Some(at);
    }
    linkless_in_known(net, &written.up)
}

// The query that is written, each of whose pairs of links means a link.
fn strict_query(alloc: Global, net: &Network, written: &Written) -> Result<Query, StrictFault>
    requires { IsWritten written.now }
    ensures read { IfOk result (λ query. (text : List ℕ) → IsShort text written.now → IsStrictQuery net.now text query) }
    ensures refused { IfErr result (λ fault. (text : List ℕ) → IsShort text written.now → IsStrictFault net.now text fault) }
{
    let query = query_written(alloc, net, written)?;
    match first_linkless(net, written) {
        None => Ok(query),
        Some(at) => {
            drop(query);
            Err(StrictFault::NoLink(at))
        }
    }
}

/// The query that a text is of a network, each of whose pairs of links means a link.
pub fn read_strictly(alloc: Global, net: &Network, text: &str) -> Result<Query, StrictFault>
    ensures read { IfOk result (λ query. IsStrictQuery net.now text.now query) }
    ensures refused { IfErr result (λ fault. IsStrictFault net.now text.now fault) }
{
    let written = written_in(alloc, text)?;
    strict_query(alloc, net, &written)
}
