//! The query is read before the weights, and both before any search, so that of several faults the first in that order is told.
//! A query's fault becomes its text while the network is there, since it may name a link.
ghost use Rattle.std.specs.Prelude.{◌≡◌, ℕ, List, Some, option_map, IfOk, IfErr};
ghost use Rattle.wi_quantity.specs.Faults.{IsFault};
ghost use Rattle.wi_query.specs.Meaning.{HasAutomata, IsQuery};
ghost use Rattle.wi_files.specs.Asked.{AreBadTexts, IsAsked, IsBadQuery, IsBadWeights, WeighsBy};

use std::alloc::Global;
use wi_faults::query_fault_text;
use wi_net::Network;
use wi_outcome::Refusal;
use wi_quantity::{Vector, WeightFault, read_weights};
use wi_query::{Query, QueryFault, read_query};

/// What texts ask of a network.
#[derive(Drop)]
pub struct Asked {
    pub query: Query,
    /// What runs are weighed by.
    pub vector: Vector,
}

/// What the texts of a query and of weights ask of a network, or what is wrong with them.
pub fn read_texts<'a>(
    alloc: Global,
    net: &Network,
    query: &str,
    weights: Option<&str>,
) -> Result<Asked, Refusal<'a>>
    ensures read { IfOk result (λ asked. IsAsked net.now query.now (option_map (λ s. s.now) weights.entry) asked.query asked.vector) }
    ensures automata { IfOk result (λ asked. HasAutomata asked.query) }
    ensures refused { IfErr result (λ refusal. AreBadTexts net.now query.now (option_map (λ s. s.now) weights.entry) refusal) }
{
    net.keeps();
    let query = query_of(alloc, net, query)?;
    query.keeps();
    match vector_of(alloc, weights) {
        Ok(vector) => Ok(Asked { query, vector }),
        Err(refusal) => {
            drop(query);
            Err(refusal)
        }
    }
}

// The query that a text is, or what is wrong with it.
fn query_of<'a>(alloc: Global, net: &Network, text: &str) -> Result<Query, Refusal<'a>>
    ensures read { IfOk result (λ query. IsQuery net.now text.now query) }
    ensures refused { IfErr result (λ refusal. IsBadQuery net.now text.now refusal) }
{
    match read_query(alloc, net, text) {
        Ok(query) => Ok(query),
        Err(QueryFault::Memory) => Err(Refusal::Memory),
        Err(fault) => Err(Refusal::Query(query_fault_text(alloc, net, &fault)?)),
    }
}

// What runs are weighed by, or what is wrong with the text.
fn vector_of<'a>(alloc: Global, weights: Option<&str>) -> Result<Vector, Refusal<'a>>
    ensures read { IfOk result (λ vector. WeighsBy (option_map (λ s. s.now) weights.entry) vector) }
    ensures refused { IfErr result (λ refusal. IsBadWeights (option_map (λ s. s.now) weights.entry) refusal) }
{
    let Some(text) = weights else {
        return Ok(Vector::new(alloc));
    };
    match read_weights(alloc, text) {
        Ok(vector) => Ok(vector),
        Err(fault) => Err(refusal_for(fault)),
    }
}

// The refusal for a fault of weights.
fn refusal_for<'a>(fault: WeightFault) -> Refusal<'a>
    ensures { (text : List ℕ) → IsFault text fault → IsBadWeights (Some text) result }
{
    match fault {
        WeightFault::Memory => Refusal::Memory,
        fault => Refusal::Weights(fault),
    }
}
