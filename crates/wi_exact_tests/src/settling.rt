//! What is known of a question for all outages at once, and what has to be asked for one, by example.
ghost use Rattle.std.specs.Prelude.{IfOk};
ghost use Rattle.std.specs.List.{All};
ghost use Rattle.wi_outage.specs.Survival.{with_down};
ghost use Rattle.wi_world.specs.Moves.{AreBounds};

use std::alloc::Global;
use std::process::Abort;
use std::test::Fail;
use wi_base::{Listed, NoMemory};
use wi_build::Problem;
use wi_labels::{Class, Label, Op};
use wi_net::{FailSet, Network};
use wi_outage::{Outage, group_outages, outages_keep_bounds, router_outages};
use wi_quantity::Vector;
use wi_questions::query_of;
use wi_samples::{N1, N2, N3, Sample, TestCase, are_met};
use wi_settle::{Found, Settled, ask_during, settle, settled_for};

// What is found of an outage: it is known without a search, or is asked for.
#[derive(Clone, Copy, PartialEq, Eq, Debug)]
enum Told {
    Known(Found),
    Asked(Found),
}

// What is taken out.
#[derive(Clone, Copy, PartialEq, Eq, Debug)]
enum Taken {
    Groups,
    Routers,
}

// A query, what is taken out, what is found while nothing is, and what is told of each outage, one after the other, each by the least
// link of it; and how many searches that takes in all.
#[derive(Clone, Copy)]
struct Case<'a>(&'a str, Taken, Found, &'a [(u32, Told)], u64);

const YES: Told = Told::Known(Found::Yes);

const NO: Told = Told::Known(Found::No);

const ASKED_YES: Told = Told::Asked(Found::Yes);

const ASKED_NO: Told = Told::Asked(Found::No);

const ASKED_OPEN: Told = Told::Asked(Found::Open);

fn told_of(
    alloc: Global,
    settled: &mut Settled,
    problem: &Problem<'_>,
    outage: &FailSet,
    single: bool,
) -> Result<Told, NoMemory>
    requires { AreBounds problem.now.net (with_down problem.now.bounds outage.now) }
{
    match settled_for(settled, problem.net(), problem.bounds(), outage, single) {
        Some(found) => Ok(Told::Known(found)),
        None => Ok(Told::Asked(ask_during(alloc, settled, problem, outage)?)),
    }
}

fn outages_are(
    rt: &impl Abort,
    alloc: Global,
    settled: &mut Settled,
    problem: &Problem<'_>,
    outages: &[Outage],
    case: &Case,
) -> Result<(), Fail>
    requires { All (λ outage. AreBounds problem.now.net (with_down problem.now.bounds outage.links)) outages.now }
{
    assert_eq!(rt; outages.len(), case.3.len());
    for i in 0..outages.len() {
        let links = &outages[i].links;
        let told = told_of(alloc, settled, problem, links, case.1 == Taken::Groups)?;
        let wanted = case.3.get(i).copied();
        assert_eq!(rt; links.at(0).map(|link| (link.0, told)), wanted);
    }
    Ok(())
}

fn outages_of(
    alloc: Global,
    problem: &Problem<'_>,
    taken: Taken,
) -> Result<Listed<Outage>, NoMemory>
    ensures { IfOk result (All (λ outage. AreBounds problem.now.net (with_down problem.now.bounds outage.links))) }
{
    problem.keeps();
    outages_keep_bounds();
    match taken {
        Taken::Groups => group_outages(alloc, problem.net(), problem.bounds()),
        Taken::Routers => router_outages(alloc, problem.net(), problem.bounds()),
    }
}

fn all_told(
    rt: &impl Abort,
    alloc: Global,
    settled: &mut Settled,
    problem: &Problem<'_>,
    case: &Case,
) -> Result<(), Fail> {
    let outages = outages_of(alloc, problem, case.1)?;
    let done = outages_are(rt, alloc, settled, problem, outages.as_slice(), case);
    drop(outages);
    done
}

// What is known to be down is an outage in which all is as it was.
fn own_is(rt: &impl Abort, settled: &Settled, problem: &Problem<'_>, found: Found) {
    let bounds = problem.bounds();
    let own = settled_for(settled, problem.net(), bounds, &bounds.down, false);
    assert_eq!(rt; own, Some(found));
}

fn problem_is(
    rt: &impl Abort,
    alloc: Global,
    problem: &Problem<'_>,
    case: &Case,
) -> Result<(), Fail> {
    let mut settled = settle(alloc, problem, case.1 == Taken::Groups)?;
    own_is(rt, &settled, problem, case.2);
    let done = all_told(rt, alloc, &mut settled, problem, case);
    searches_are(rt, &settled, case.4);
    drop(settled);
    done
}

fn searches_are(rt: &impl Abort, settled: &Settled, searches: u64) {
    assert_eq!(rt; settled.searches(), searches);
}

impl<R: Abort> TestCase<R> for Case<'_> {
    fn is_met(&self, rt: &R, alloc: Global, net: &Network) -> Result<(), Fail> {
        let query = query_of(alloc, net, self.0)?;
        let vector = Vector::new(alloc);
        let done = problem_is(rt, alloc, &Problem::of(net, &query, &vector), self);
        drop((query, vector));
        done
    }
}

const ARRIVES: &str = "<ip1> [x#a] .* [b#y] <ip1> 0";

// A packet that arrives on its way or on its detour: only what is on the way is asked for, and the detour tells the rest.
const ARRIVING: &[Case] = &[
    Case(
        ARRIVES,
        Taken::Groups,
        Found::Yes,
        &[
            (0, ASKED_NO),
            (1, ASKED_YES),
            (2, YES),
            (3, YES),
            (4, ASKED_NO),
        ],
        4,
    ),
    Case(
        "<ip1> [x#a] .* [b#y] <ip1> 0 up [x#a, b#y]",
        Taken::Groups,
        Found::Yes,
        &[(1, ASKED_YES), (2, YES), (3, YES)],
        2,
    ),
    Case(
        ARRIVES,
        Taken::Routers,
        Found::Yes,
        &[
            (0, ASKED_NO),
            (0, ASKED_NO),
            (1, ASKED_NO),
            (2, YES),
            (4, ASKED_NO),
        ],
        5,
    ),
    Case(
        "<ip1> [x#a] .* [b#y] <ip1> 0 down [a#b]",
        Taken::Groups,
        Found::Yes,
        &[(0, ASKED_NO), (2, ASKED_NO), (3, ASKED_NO), (4, ASKED_NO)],
        5,
    ),
];

// A packet that is lost before it is at y: one cable by itself loses it, and all others are known to do no harm.
const LOST: &[Case] = &[
    Case(
        "<ip1> [x#a] [^ .#y]* drop 0",
        Taken::Groups,
        Found::No,
        &[(0, NO), (1, NO), (2, NO), (3, NO), (4, YES)],
        3,
    ),
    Case(
        "<ip1> [x#a] [^ .#y]* drop 0 up [b#y]",
        Taken::Groups,
        Found::No,
        &[(0, NO), (1, NO), (2, NO), (3, NO)],
        2,
    ),
    Case(
        "<ip1> [x#a] [^ .#y]* drop 0 up [b#y]",
        Taken::Routers,
        Found::No,
        &[(0, ASKED_NO), (0, ASKED_NO), (2, ASKED_NO)],
        4,
    ),
];

// The detour is taken where the link from a to b fails. Where all links but one are known to be up, no more than that one can fail.
const DETOURS: &[Case] = &[
    Case(
        "<ip1> [x#a] [a#c] .* [b#y] <ip1> 0",
        Taken::Groups,
        Found::No,
        &[(0, NO), (1, YES), (2, NO), (3, NO), (4, NO)],
        3,
    ),
    Case(
        "<ip1> [x#a] [a#c] .* <ip1> 1 up [x#a, a#b, a#c, c#b]",
        Taken::Groups,
        Found::No,
        &[(4, NO)],
        1,
    ),
    Case(
        "<ip1> [x#a] [b#y] <ip1> 2",
        Taken::Groups,
        Found::No,
        &[(0, NO), (1, NO), (2, NO), (3, NO), (4, NO)],
        2,
    ),
];

#[test]
fn a_yes_settles_what_is_off_its_way(rt: HostRuntime) -> Result<(), Fail> {
    are_met(&rt, rt.alloc(), &N1, ARRIVING)
}

#[test]
fn cables_that_break_something_are_found_one_by_one(rt: HostRuntime) -> Result<(), Fail> {
    are_met(&rt, rt.alloc(), &N1, LOST)?;
    are_met(&rt, rt.alloc(), &N1, DETOURS)
}

// It takes two failures to come to z.
const TO_Z: &[Case] = &[
    Case(
        "<ip1> [x#a] [a#c] .* [b#z] <ip1> 0 down [b#y]",
        Taken::Groups,
        Found::No,
        &[(0, NO), (1, YES), (2, NO), (3, NO), (5, NO)],
        3,
    ),
    Case(
        "<ip1> [x#a] [a#c] .* [b#z] <ip1> 1",
        Taken::Groups,
        Found::No,
        &[
            (0, ASKED_NO),
            (1, YES),
            (2, ASKED_NO),
            (3, ASKED_NO),
            (4, YES),
            (5, ASKED_NO),
        ],
        6,
    ),
    Case(
        "<ip1> [x#a] [a#c] .* [b#z] <ip1> 0 down [b#y]",
        Taken::Routers,
        Found::No,
        &[(0, ASKED_NO), (0, ASKED_NO), (2, ASKED_NO), (5, ASKED_NO)],
        5,
    ),
];

// What comes back to a takes the link that it needed to have failed.
const RETURNING: &[Case] = &[Case(
    "<ip1> [x#a] [a#c] [c#a] [a#b] .* <ip1> 5",
    Taken::Groups,
    Found::No,
    &[(0, NO), (1, NO), (2, NO), (3, NO), (4, NO), (5, NO)],
    2,
)];

#[test]
fn one_risk_group_more_settles_what_takes_two(rt: HostRuntime) -> Result<(), Fail> {
    are_met(&rt, rt.alloc(), &N2, TO_Z)?;
    are_met(&rt, rt.alloc(), &N3, RETURNING)
}

const D0: Op = Op::Push(Label(0), Class::Mpls);

const D1: Op = Op::Push(Label(1), Class::Mpls);

const D2: Op = Op::Push(Label(2), Class::Mpls);

const D3: Op = Op::Push(Label(3), Class::Mpls);

const EIGHT_D0: &[Op] = &[Op::Swap(Label(0), Class::Mpls), D0, D0, D0, D0, D0, D0, D0];

const EIGHT_D1: &[Op] = &[Op::Swap(Label(1), Class::Mpls), D1, D1, D1, D1, D1, D1, D1];

const EIGHT_D2: &[Op] = &[Op::Swap(Label(2), Class::Mpls), D2, D2, D2, D2, D2, D2, D2];

const EIGHT_D3: &[Op] = &[Op::Swap(Label(3), Class::Mpls), D3, D3, D3, D3, D3, D3, D3];

// Each label becomes eight of the one before, and the first is popped: a packet with the last one goes round over 4,096 times. The
// other link is off its way.
const ROUNDS: Sample = Sample {
    mpls: &["d0", "d1", "d2", "d3", "d4"],
    smpls: &["s1"],
    ip: &["ip1"],
    routers: &["r"],
    links: &[("r", "o", "r", "i", 1, None), ("r", "p", "r", "q", 1, None)],
    rows: &[
        (0, 0, &[&[(0, &[Op::Pop])]]),
        (0, 1, &[&[(0, EIGHT_D0)]]),
        (0, 2, &[&[(0, EIGHT_D1)]]),
        (0, 3, &[&[(0, EIGHT_D2)]]),
        (0, 4, &[&[(0, EIGHT_D3)]]),
    ],
};

// A run that is too long to be shown settles nothing, and is as long while a link off its way is out; without its own link it can't
// begin.
const TOO_LONG: &[Case] = &[Case(
    "<d4 s1 ip1> [r.o#r]* <s1 ip1> 0",
    Taken::Groups,
    Found::Open,
    &[(0, ASKED_NO), (1, ASKED_OPEN)],
    3,
)];

#[test]
fn no_exact_answer_settles_nothing(rt: HostRuntime) -> Result<(), Fail> {
    are_met(&rt, rt.alloc(), &ROUNDS, TOO_LONG)
}
