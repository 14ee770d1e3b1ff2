//! The steps stand in the order in which faults are told: length, form, names, positions, number, links known both down and up.
//! A text of more than 4,096 bytes is refused before it is read, which bounds how many atoms there are and how deep expressions
//! nest.
ghost use Rattle.std.specs.Prelude.{◌≡◌, ℕ, List, false, nat_lt, length, IfOk, IfErr};
ghost use Rattle.wi_syntax.specs.Grammar.{IsNumber, IsWritten};
ghost use Rattle.wi_query.specs.Meaning.{HasAutomata, IsQuery};
ghost use Rattle.wi_query.specs.Faults.{IsShort, IsFault};
ghost use Rattle.wi_query.specs.private.Parts.{AreCounted, IsMadeOf, IsWrong, IsNoQuery};

use crate::bounds::bounds_of;
use crate::expression::{Expression, compiled};
use crate::fault::QueryFault;
use crate::parts::{Parts, parts_of};
use std::alloc::Global;
use wi_net::{Bounds, Network};
use wi_syntax::{Name, SyntaxRefused, Written, read_written};

/// The most bytes that a query's text may have.
pub(crate) const LENGTH_LIMIT: usize = 4096;

/// What is asked of a network: the languages of the first header, of the links and of the last header, whether the packet is to be
/// dropped, and what may fail.
#[derive(Drop)]
pub struct Query {
    /// The first header, top first.
    pub first: Expression,
    pub path: Expression,
    /// The last header, top first; of a packet that is dropped any header.
    pub last: Expression,
    /// Whether the packet is to be dropped.
    pub drops: bool,
    /// How many risk groups may fail besides those known to be down, and which are known down or up.
    pub bounds: Bounds,
}

impl Query {
    /// What every query keeps: each expression has its automaton.
    pub fn keeps(&self)
        ensures { HasAutomata self.now }
    {
        self.first.keeps();
        self.path.keeps();
        self.last.keeps();
    }
}

/// The query as it is written.
pub(crate) fn written_in(alloc: Global, text: &str) -> Result<Written, QueryFault>
    ensures written { IfOk result (λ written. IsShort text.now written) }
    ensures refused { IfErr result (λ fault. IsNoQuery text.now fault) }
{
    if text.len() > LENGTH_LIMIT {
        return Err(QueryFault::TooLong(text.len()));
    }
    match read_written(alloc, text) {
        Ok(written) => Ok(written),
        Err(SyntaxRefused::Stops(at)) => Err(QueryFault::Syntax(at)),
        Err(SyntaxRefused::Memory) => Err(QueryFault::Memory),
    }
}

// The query of its parts, or what is wrong with them.
fn query_of(alloc: Global, parts: Parts, number: &Name) -> Result<Query, QueryFault>
    requires counted { AreCounted parts }
    requires number { IsNumber number.now }
    ensures made { IfOk result (λ query. IsMadeOf parts number.now query) }
    ensures wrong { IfErr result (IsWrong parts number.now) }
{
    let Parts {
        first,
        path,
        last,
        drops,
        down,
        up,
    } = parts;
    let first = match compiled(alloc, 1, first) {
        Ok(first) => first,
        Err(fault) => {
            drop((path, last, down, up));
            return Err(fault);
        }
    };
    let path = match compiled(alloc, 2, path) {
        Ok(path) => path,
        Err(fault) => {
            drop((first, last, down, up));
            return Err(fault);
        }
    };
    let last = match compiled(alloc, 3, last) {
        Ok(last) => last,
        Err(fault) => {
            drop((first, path, down, up));
            return Err(fault);
        }
    };
    match bounds_of(number, down, up) {
        Ok(bounds) => Ok(Query {
            first,
            path,
            last,
            drops,
            bounds,
        }),
        Err(fault) => {
            drop((first, path, last));
            Err(fault)
        }
    }
}

/// The query that is written.
pub(crate) fn query_written(
    alloc: Global,
    net: &Network,
    written: &Written,
) -> Result<Query, QueryFault>
    requires { IsWritten written.now }
    ensures read { IfOk result (λ query. (text : List ℕ) → IsShort text written.now → IsQuery net.now text query) }
    ensures refused { IfErr result (λ fault. (text : List ℕ) → IsShort text written.now → IsFault net.now text fault) }
{
    let parts = parts_of(alloc, net, written)?;
    query_of(alloc, parts, &written.number)
}

/// The query that a text is of a network.
pub fn read_query(alloc: Global, net: &Network, text: &str) -> Result<Query, QueryFault>
    ensures read { IfOk result (λ query. IsQuery net.now text.now query) }
    ensures refused { IfErr result (λ fault. IsFault net.now text.now fault) }
{
    let written = written_in(alloc, text)?;
    query_written(alloc, net, &written)
}
