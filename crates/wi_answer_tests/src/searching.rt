//! Searches by example: below a cut, and within bounds that aren't the query's own.
ghost use Rattle.wi_query.specs.Meaning.{IsQueryOf};

use crate::common::steps_are;
use std::alloc::Global;
use std::process::Abort;
use std::test::Fail;
use wi_build::Problem;
use wi_decide::{LeastRun, search};
use wi_net::{Bounds, Network};
use wi_quantity::{Vector, Weight};
use wi_query::Query;
use wi_questions::query_of;
use wi_samples::{N1, TestCase, are_met};
use wi_weight::{Effort, Pair, Terms};

// The effort and the steps of a least run.
type Least<'a> = (u128, &'a [(u32, u32)]);

// A query, one within whose bounds is searched, the effort of the cut, and what is found.
#[derive(Clone, Copy)]
struct Case<'a>(&'a str, &'a str, Option<u128>, Option<Least<'a>>);

fn by_effort(count: u128) -> Weight {
    Pair {
        first: Terms::of([0; 5]),
        second: Effort { count },
    }
}

fn found_is(rt: &impl Abort, found: &Option<LeastRun>, expected: &Option<Least>) {
    match (found, expected) {
        (Some(least), Some((effort, steps))) => {
            assert!(rt; least.weight == by_effort(*effort));
            steps_are(rt, least.run.steps.as_slice(), steps);
        }
        (None, None) => {}
        _ => assert!(rt; false),
    }
}

fn searches(rt: &impl Abort, alloc: Global, problem: &Problem<'_>, case: &Case) {
    let cut = match case.2 {
        Some(effort) => Some(by_effort(effort)),
        None => None,
    };
    match search(alloc, problem, cut) {
        Ok(searched) => {
            found_is(rt, &searched.found, &case.3);
            drop(searched);
        }
        Err(_) => assert!(rt; false),
    }
}

fn bounded_is(
    rt: &impl Abort,
    alloc: Global,
    net: &Network,
    query: &Query,
    case: &Case,
) -> Result<(), Fail>
    requires { IsQueryOf net.now query.now }
{
    let within = query_of(alloc, net, case.1)?;
    let vector = Vector::new(alloc);
    let problem = Problem::of(net, query, &vector).within(&within.bounds);
    searches(rt, alloc, &problem, case);
    drop(vector);
    drop(within);
    Ok(())
}

impl<R: Abort> TestCase<R> for Case<'_> {
    fn is_met(&self, rt: &R, alloc: Global, net: &Network) -> Result<(), Fail> {
        let query = query_of(alloc, net, self.0)?;
        let outcome = bounded_is(rt, alloc, net, &query, self);
        drop(query);
        outcome
    }
}

const TO_Y: &str = "<ip1> [x#a] .* [b#y] <ip1> 0";

const TO_Y_WITHOUT_B: &str = "<ip1> [x#a] .* [b#y] <ip1> 0 down [a#b]";

const STRAIGHT: &[(u32, u32)] = &[(0, 0), (0, 0)];

// By c and b to y.
const AROUND: &[(u32, u32)] = &[(1, 0), (0, 0), (0, 0)];

const CASES: &[Case] = &[
    Case(TO_Y, TO_Y, None, Some((8, STRAIGHT))),
    Case(TO_Y, TO_Y, Some(9), Some((8, STRAIGHT))),
    Case(TO_Y, TO_Y, Some(8), None),
    // The link to b is down in the bounds that are searched, though not in the query's own.
    Case(TO_Y, TO_Y_WITHOUT_B, None, Some((10, AROUND))),
    Case(TO_Y, TO_Y_WITHOUT_B, Some(10), None),
];

#[test]
fn the_least_run_below_a_cut_is_found(rt: HostRuntime) -> Result<(), Fail> {
    are_met(&rt, rt.alloc(), &N1, CASES)
}
