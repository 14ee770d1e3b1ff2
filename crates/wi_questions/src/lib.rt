//! What the tests of several crates ask, read from texts once for all of them.
#![tactic(auto)]

ghost use Rattle.std.specs.Prelude.{IfOk};
ghost use Rattle.wi_query.specs.Meaning.{IsQueryOf};

use std::alloc::Global;
use std::test::Fail;
use wi_net::Network;
use wi_quantity::{Vector, read_weights};
use wi_query::{Query, read_query};

/// The query that a text is.
pub fn query_of(alloc: Global, net: &Network, text: &str) -> Result<Query, Fail>
    ensures { IfOk result (IsQueryOf net.now) }
{
    match read_query(alloc, net, text) {
        Ok(query) => Ok(query),
        Err(_) => Err(Fail::new("no query")),
    }
}

/// What runs are weighed by: the effort alone, where no text is given.
pub fn vector_of(alloc: Global, weights: Option<&str>) -> Result<Vector, Fail> {
    match weights {
        Some(text) => Ok(read_weights(alloc, text)?),
        None => Ok(Vector::new(alloc)),
    }
}
