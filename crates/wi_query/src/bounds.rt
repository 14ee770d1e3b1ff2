//! Links that are known down or up are widened to whole risk groups here, so that nobody later has to think of a part of one.
//! Each list is found by going over all links of the network, and over its pairs for each.
ghost use Rattle.std.specs.Prelude.{◌≡◌, ◌≤◌, [], IfOk, IfErr};
ghost use Rattle.std.specs.Str.Parse.{digits_value};
ghost use Rattle.wi_syntax.specs.Grammar.{IsNumber};
ghost use Rattle.std.specs.List.{list_any};
ghost use Rattle.wi_net.specs.Net.{links_where};
ghost use Rattle.wi_query.specs.Unknown.{unknown_in_known};
ghost use Rattle.wi_query.specs.Meaning.{known_links};
ghost use Rattle.wi_query.specs.private.Names.{IsFirst, is_between};
ghost use Rattle.wi_query.specs.private.Parts.{IsTooMany, AreBoundsOf, IsRefusedBound, shared};

use crate::fault::QueryFault;
use crate::names::{Ends, any_between, pairs_named};
use std::alloc::Global;
use wi_base::{NoMemory, read_decimal};
use wi_net::{Bounds, FailSet, LinkId, Network};
use wi_syntax::{Known, Name};

/// The most risk groups that a query may let fail.
const FAILURE_LIMIT: u128 = 65535;

// The links that some pair stands for.
fn links_between(alloc: Global, net: &Network, pairs: &[Ends]) -> Result<FailSet, NoMemory>
    ensures { IfOk result (λ set. set ≡ links_where net.now (λ e. list_any (λ ends. is_between net.now ends e.0) pairs.now)) }
{
    let mut set = FailSet::new(alloc);
    for x in 0..net.counts().links {
        if any_between(net, pairs, LinkId(x)) {
            set.insert(LinkId(x))?;
        }
    }
    Ok(set)
}

/// The links of a list that are known down or up, each with its risk group, or the first name in it that the network
/// hasn't.
pub(crate) fn known_links(
    alloc: Global,
    net: &Network,
    known: &Option<Known>,
) -> Result<FailSet, QueryFault>
    ensures found { IfOk result (λ set. set ≡ known_links net.now known.now) }
    ensures known { IfOk result (λ set. unknown_in_known net.now known.now ≡ []) }
    ensures refused { IfErr result (IsFirst (unknown_in_known net.now known.now)) }
{
    match known {
        None => Ok(FailSet::new(alloc)),
        Some(known) => {
            let pairs = pairs_named(alloc, net, known.pairs.as_slice())?;
            let links = links_between(alloc, net, pairs.as_slice())?;
            Ok(net.widen(alloc, &links)?)
        }
    }
}

// How many risk groups may fail.
fn failures(number: &Name) -> Result<u32, QueryFault>
    requires { IsNumber number.now }
    ensures read { IfOk result (λ k. k ≡ digits_value 10 number.now.text) }
    ensures few { IfOk result (λ k. k ≤ FAILURE_LIMIT) }
    ensures many { IfErr result (IsTooMany number.now) }
{
    match read_decimal(number.as_str().as_bytes()) {
        Some(k) if k <= FAILURE_LIMIT => Ok(k as u32),
        _ => Err(QueryFault::TooManyFailures(number.at())),
    }
}

/// The least link that is in both sets.
pub(crate) fn shared(down: &FailSet, up: &FailSet) -> Option<LinkId>
    ensures { result ≡ shared down.now up.now }
{
    for i in 0..down.len() {
        if let Some(link) = down.at(i) {
            if up.contains(link) {
                return Some(link);
            }
        }
    }
    None
}

/// What may fail.
pub(crate) fn bounds_of(number: &Name, down: FailSet, up: FailSet) -> Result<Bounds, QueryFault>
    requires { IsNumber number.now }
    ensures made { IfOk result (λ bounds. AreBoundsOf number.now down up bounds) }
    ensures refused { IfErr result (IsRefusedBound number.now down up) }
{
    let k = failures(number)?;
    match shared(&down, &up) {
        Some(link) => Err(QueryFault::DownAndUp(link)),
        None => Ok(Bounds { k, down, up }),
    }
}
