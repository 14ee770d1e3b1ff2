//! What is asked of a network is one value, so that its parts are handed on together, and what they keep is said once. It holds
//! references alone, and takes no memory.
ghost use Rattle.std.specs.Prelude.{◌≡◌, true, length, IfOk};
ghost use Rattle.wi_build.specs.Problems.{IsProblem, allowing, problem_of, within};
ghost use Rattle.wi_quantity.specs.Vectors.{is_vector};
ghost use Rattle.wi_query.specs.Meaning.{MayDropAny};
ghost use Rattle.wi_world.specs.Moves.{AreBounds};

use std::marker::Model;
use wi_base::NoMemory;
use wi_net::{Bounds, Network};
use wi_quantity::Vector;
use wi_query::Query;

/// A query of a network, what runs are weighed by, and what may fail.
#[derive(Drop)]
pub struct Problem<'a> {
    net: &'a Network,
    query: &'a Query,
    vector: &'a Vector,
    bounds: &'a Bounds,
}

impl<'a> Model for Problem<'a> {
    ghost use Rattle.std.specs.Coded.{codes};
    ghost use Rattle.wi_regex.specs.contracts.regex.Regex as regex;
    ghost use Rattle.wi_query.specs.contracts.symbols.SymbolSet as set;
    ghost use Rattle.wi_build.specs.Problems.{Problem, IsProblem, problem_in};

    ghost Value = { Problem };

    ghost coded = { Prim.hlevel (codes, (regex.the_row set.the_row).coded) };

    ghost view = { λ p. problem_in p.net.now p.query.now p.vector.now p.bounds.now };

    ghost invariant = { λ p. IsProblem (problem_in p.net.now p.query.now p.vector.now p.bounds.now) };
}

impl<'a> Problem<'a> {
    /// What a query asks of a network: what may fail is as the query says. Runs weigh what the vector says.
    pub fn of(net: &'a Network, query: &'a Query, vector: &'a Vector) -> Problem<'a>
        requires bounds { AreBounds net.now query.now.bounds }
        requires last { MayDropAny net.now query.now }
        ensures { result ≡ problem_of net.now query.now vector.now }
    {
        net.keeps();
        query.keeps();
        Problem {
            net,
            query,
            vector,
            bounds: &query.bounds,
        }
    }

    /// The same within other bounds, those of a branch for one.
    pub fn within<'b>(&self, bounds: &'b Bounds) -> Problem<'b>
    where
        'a: 'b,
        requires { AreBounds self.now.net bounds.now }
        ensures { result ≡ within self.now bounds.now }
    {
        self.net.keeps();
        self.query.keeps();
        Problem {
            net: self.net,
            query: self.query,
            vector: self.vector,
            bounds,
        }
    }

    /// Its bounds with another number of risk groups that may fail besides those known to be down.
    pub fn bounds_allowing(&self, k: u32) -> Result<Bounds, NoMemory>
        ensures value { IfOk result (λ bounds. bounds ≡ (allowing self.now k).bounds) }
        ensures are { IfOk result (AreBounds self.now.net) }
    {
        let mut bounds = self.bounds.twin()?;
        bounds.k = k;
        Ok(bounds)
    }

    /// What every problem keeps.
    pub fn keeps(&self)
        ensures problem { IsProblem self.now }
        ensures vector { is_vector self.now.vector ≡ true }
    {
        self.vector.keeps();
    }

    /// The network that is asked.
    pub fn net(&self) -> &'a Network
        ensures { result.now ≡ self.now.net }
    {
        self.net
    }

    /// The query. What may fail is as the problem's bounds say, which may be others than the query's own.
    pub fn query(&self) -> &'a Query
        ensures { result.now ≡ self.now.query }
    {
        self.query
    }

    /// What runs are weighed by.
    pub fn vector(&self) -> &'a Vector
        ensures { result.now ≡ self.now.vector }
    {
        self.vector
    }

    /// What may fail.
    pub fn bounds(&self) -> &'a Bounds
        ensures { result.now ≡ self.now.bounds }
    {
        self.bounds
    }

    /// How many terms a weight has that is shown, its effort not counted.
    pub fn terms(&self) -> usize
        ensures { result ≡ length self.now.vector }
    {
        self.vector.len()
    }
}
