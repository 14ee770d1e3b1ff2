//! Exact answers that take many nodes, counted beforehand. Of the runs that return each needs a link to have failed that it takes later,
//! so a tree splits by each of these links, and has a leaf for each set of at most k of them.
use std::alloc::Global;
use std::process::Abort;
use std::test::Fail;
use wi_branch::{AnswerRefused, exact, exact_answer};
use wi_build::Problem;
use wi_cert::{NODE_LIMIT, TreeCertificate};
use wi_check::check_tree;
use wi_net::Network;
use wi_quantity::Vector;
use wi_query::Query;
use wi_questions::query_of;
use wi_samples::{TestCase, are_met_on, returning};
use wi_trace::Answer;
use wi_world::Word;

// How many runs return.
const RUNS: u32 = 12;

// A query, and the number of nodes: the sets of at most k of twelve links, twice, but for one.
struct Case<'a>(&'a str, u32);

const CASES: &[Case] = &[
    Case("<ip> [x#a] [a#c] [c#a] .* [b#y] <ip> 0", 1),
    Case("<ip> [x#a] [a#c] [c#a] .* [b#y] <ip> 1", 25),
    Case("<ip> [x#a] [a#c] [c#a] .* [b#y] <ip> 2", 157),
    Case("<ip> [x#a] [a#c] [c#a] .* [b#y] <ip> 3", 597),
];

fn is_no(answer: &Answer) -> bool {
    answer.word == Word::No
}

fn node_count(tree: &TreeCertificate) -> usize {
    tree.nodes.as_slice().len()
}

fn is_shown(rt: &impl Abort, alloc: Global, problem: &Problem<'_>, nodes: u32) {
    match exact(alloc, problem, problem.bounds().k, NODE_LIMIT) {
        Ok((answer, tree)) => {
            assert!(rt; is_no(&answer) && node_count(&tree) == nodes as usize);
            assert!(rt; check_tree(alloc, problem, problem.bounds().k, &tree).is_ok());
            drop(answer);
            drop(tree);
        }
        Err(_refused) => assert!(rt; false),
    }
}

fn is_answered(rt: &impl Abort, alloc: Global, problem: &Problem<'_>, nodes: u32) {
    match exact_answer(alloc, problem, problem.bounds().k, NODE_LIMIT) {
        Ok((answer, count)) => {
            assert!(rt; is_no(&answer) && count == nodes);
            drop(answer);
        }
        Err(_refused) => assert!(rt; false),
    }
}

// One node less isn't enough.
fn is_over_limit(rt: &impl Abort, alloc: Global, problem: &Problem<'_>, nodes: u32) {
    match exact_answer(
        alloc,
        problem,
        problem.bounds().k,
        nodes.saturating_sub(1).min(NODE_LIMIT),
    ) {
        Ok((answer, _count)) => {
            drop(answer);
            assert!(rt; false)
        }
        Err(refused) => assert!(rt; refused == AnswerRefused::NodeLimit),
    }
}

impl<R: Abort> TestCase<R> for Case<'_> {
    fn is_met(&self, rt: &R, alloc: Global, net: &Network) -> Result<(), Fail> {
        let query = query_of(alloc, net, self.0)?;
        let vector = Vector::new(alloc);
        let problem = Problem::of(net, &query, &vector);
        is_shown(rt, alloc, &problem, self.1);
        is_answered(rt, alloc, &problem, self.1);
        is_over_limit(rt, alloc, &problem, self.1);
        drop(vector);
        drop(query);
        Ok(())
    }
}

#[test]
fn a_leaf_for_each_set_of_failures(rt: HostRuntime) -> Result<(), Fail> {
    let net = returning(rt.alloc(), RUNS)?;
    let outcome = are_met_on(&rt, rt.alloc(), &net, CASES);
    drop(net);
    outcome
}
