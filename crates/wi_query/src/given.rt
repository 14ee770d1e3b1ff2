//! Links that are known down and up can be told by a text of their own, in the words that a query may end with. It is read
//! behind the front of a query that asks for anything, so that there is one grammar and one reader of it. Bytes of faults are
//! counted from where the front ends. The text is copied once.
ghost use Rattle.std.specs.Prelude.{◌≡◌, ◌++◌, [], Some, None, MatchOption, IfOk, IfErr, length, string_bytes};
ghost use Rattle.wi_syntax.specs.private.Behind.{IsKnownFrom, IsBehind};
ghost use Rattle.wi_query.specs.Unknown.{unknown_in_known};
ghost use Rattle.wi_query.specs.Meaning.{known_links};
ghost use Rattle.wi_query.specs.Linked.{first_linkless};
ghost use Rattle.wi_query.specs.Given.{front, first_shared, IsShortGiven, IsGiven, IsGivenFault};
ghost use Rattle.wi_query.specs.private.Giving.{IsNoGiven, IsFar, counted, IsFirstBehind, IsWrongPair, IsWrongGiven, AreGiven};

use crate::bounds::{known_links, shared};
use crate::fault::QueryFault;
use crate::query::LENGTH_LIMIT;
use crate::strict::{StrictFault, first_linkless};
use std::alloc::Global;
use wi_base::NoMemory;
use wi_net::{Bounds, FailSet, Network};
use wi_syntax::{Known, SyntaxRefused, Written, read_written};

/// What a text is read behind: any first header, any path, any last header, and no failures.
const FRONT: &str = "<.> . <.> 0 ";

// A text behind the front.
fn behind_front(alloc: Global, text: &str) -> Result<String, NoMemory>
    ensures { IfOk result (λ whole. string_bytes whole ≡ front ++ text.now) }
{
    let mut whole = String::from_str(alloc, FRONT)?;
    whole.push_str(text)?;
    Ok(whole)
}

// The lists as they are written.
fn written_behind(alloc: Global, text: &str) -> Result<Written, QueryFault>
    ensures written { IfOk result (λ written. IsShortGiven text.now written) }
    ensures refused { IfErr result (λ fault. IsNoGiven text.now fault) }
{
    if text.len() > LENGTH_LIMIT {
        return Err(QueryFault::TooLong(text.len()));
    }
    let whole = behind_front(alloc, text)?;
    match read_written(alloc, whole.as_str()) {
        Ok(written) => Ok(written),
        Err(SyntaxRefused::Stops(at)) => Err(QueryFault::Syntax(at - FRONT.len())),
        Err(SyntaxRefused::Memory) => Err(QueryFault::Memory),
    }
}

// A fault of a name, with its byte counted from the end of the front.
fn counted(fault: QueryFault) -> QueryFault
    requires { IsFar fault }
    ensures { result ≡ counted fault }
{
    match fault {
        QueryFault::UnknownRouter(at, name) => QueryFault::UnknownRouter(at - FRONT.len(), name),
        QueryFault::UnknownInterface(at, name) => {
            QueryFault::UnknownInterface(at - FRONT.len(), name)
        }
        fault => fault,
    }
}

// The links of a list, or the first name in it that the network hasn't.
fn links_behind(alloc: Global, net: &Network, known: &Option<Known>) -> Result<FailSet, QueryFault>
    requires { IsKnownFrom (length front) known.now }
    ensures found { IfOk result (λ set. set ≡ known_links net.now known.now) }
    ensures known { IfOk result (λ set. unknown_in_known net.now known.now ≡ []) }
    ensures refused { IfErr result (IsFirstBehind (unknown_in_known net.now known.now)) }
{
    match known_links(alloc, net, known) {
        Ok(links) => Ok(links),
        Err(fault) => Err(counted(fault)),
    }
}

// What is wrong with lists whose names are known.
fn wrong_pair(net: &Network, written: &Written, down: &FailSet, up: &FailSet) -> Option<StrictFault>
    requires written { IsBehind (length front) written.now }
    requires down { down.now ≡ known_links net.now written.now.down }
    requires up { up.now ≡ known_links net.now written.now.up }
    ensures fine { result ≡ None → (first_shared net.now written.now ≡ None) × (first_linkless net.now written.now ≡ None) }
    ensures wrong { MatchOption result (Unit {0}) (λ fault. IsWrongPair net.now written.now fault) }
{
    if let Some(link) = shared(down, up) {
        return Some(StrictFault::InQuery(QueryFault::DownAndUp(link)));
    }
    let at = first_linkless(net, written)?;
    Some(StrictFault::NoLink(at - FRONT.len()))
}

// The bounds that are written behind the front.
fn given_of(alloc: Global, net: &Network, written: &Written) -> Result<Bounds, StrictFault>
    requires { IsBehind (length front) written.now }
    ensures made { IfOk result (λ bounds. AreGiven net.now written.now bounds) }
    ensures refused { IfErr result (λ fault. IsWrongGiven net.now written.now fault) }
{
    let down = links_behind(alloc, net, &written.down)?;
    let up = match links_behind(alloc, net, &written.up) {
        Ok(up) => up,
        Err(fault) => {
            drop(down);
            return Err(StrictFault::InQuery(fault));
        }
    };
    match wrong_pair(net, written, &down, &up) {
        None => Ok(Bounds { k: 0, down, up }),
        Some(fault) => {
            drop((down, up));
            Err(fault)
        }
    }
}

/// What may fail where a text tells the links that are known down and up, and nothing else fails. The text is what a query may
/// end with behind its number, and may be empty. Each of its pairs has to mean a link.
pub fn read_given(alloc: Global, net: &Network, text: &str) -> Result<Bounds, StrictFault>
    ensures read { IfOk result (λ bounds. IsGiven net.now text.now bounds) }
    ensures refused { IfErr result (λ fault. IsGivenFault net.now text.now fault) }
{
    let written = written_behind(alloc, text)?;
    given_of(alloc, net, &written)
}
