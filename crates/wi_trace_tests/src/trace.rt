//! Runs by example.
ghost use Rattle.std.specs.Prelude.{◌≡◌, IfOk};
ghost use Rattle.wi_net.specs.Net.{widened};
ghost use Rattle.wi_world.specs.Moves.{AreBounds};

use self::Expected::{Exceeds, Fits, UsesFailed};
use self::Outcome::{Along, Stops};
use self::Shown::{Moving, Needs, Under};
use crate::common::{IP1, L30, L31, PUSH_S10, S10, TWO_MEMBERS, equal, header_is, set_is};
use std::alloc::{AllocError, Global};
use std::process::Abort;
use std::test::Fail;
use wi_base::Listed;
use wi_labels::{Class, Header, Label, Op};
use wi_net::{Bounds, FailSet, LinkId, Network};
use wi_samples::{N1_FIBER_WITH_31, N1_WITH_31, N2_FIBER_WITH_31, N2_WITH_31, N3, Sample, network};
use wi_trace::Cause::{
    Active, BadStart, Defined, LinkBefore, LinkFailed, NeedsUp, NoGroup, NoMember, NotFirstActive,
    TooManyBefore, Undefined,
};
use wi_trace::{
    Cause, End, Location, ReplayRefused, Run, Step, Trace, Verdict, follow, groups_of, hop_under,
    hop_within, insert_all, is_start, needs, replay, replay_moving, verdict,
};

const PUSH_30: Op = Op::Push(Label(0), Class::Mpls);

const SWAP_IP1: Op = Op::Swap(Label(3), Class::Ip);

// A link, and a header.
type LocationOf<'a> = (u32, &'a [(Label, Class)]);

// k, what is down, and what is up.
type Limits<'a> = (u32, &'a [u32], &'a [u32]);

// The locations on the way by c and b to y.
const AROUND_LOCATIONS: &[LocationOf] = &[
    (0, &[IP1]),
    (2, &[L30, S10, IP1]),
    (3, &[S10, IP1]),
    (4, &[IP1]),
];

// By b to y.
const DIRECT: &[(u32, u32)] = &[(0, 0), (0, 0)];

// By c and b to y.
const AROUND: &[(u32, u32)] = &[(1, 0), (0, 0), (0, 0)];

// By c and b to z.
const AROUND_TO_Z: &[(u32, u32)] = &[(1, 0), (0, 0), (1, 0)];

// By c, back to a, and by b to y.
const AROUND_BACK: &[(u32, u32)] = &[(1, 0), (0, 0), (0, 0), (0, 0)];

fn set(alloc: Global, links: &[u32]) -> Result<FailSet, Fail> {
    let mut set = FailSet::new(alloc);
    for link in links {
        set.insert(LinkId(*link))?;
    }
    Ok(set)
}

// The risk groups of links.
#[tactic(auto, using(crate::proofs::BoundsLemmas::is_union))]
fn union(alloc: Global, net: &Network, links: &[u32]) -> Result<FailSet, Fail>
    ensures { IfOk result (λ s. widened net.now s ≡ s) }
{
    let links = set(alloc, links)?;
    Ok(net.widen(alloc, &links)?)
}

// No case has both links that are down and links that are up.
#[tactic(auto, using(crate::proofs::BoundsLemmas::none_first, crate::proofs::BoundsLemmas::none_second))]
fn bounds(alloc: Global, net: &Network, limits: Limits) -> Result<Bounds, Fail>
    ensures { IfOk result (λ b. AreBounds net.now b) }
{
    let down = union(alloc, net, limits.1)?;
    let up = union(alloc, net, limits.2)?;
    if down.len() == 0 || up.len() == 0 {
        Ok(Bounds {
            k: limits.0,
            down,
            up,
        })
    } else {
        Err(Fail::new("both down and up"))
    }
}

fn location(alloc: Global, at: LocationOf) -> Result<Location, Fail> {
    Ok((LinkId(at.0), Header::from_labels(alloc, at.1)?))
}

fn run(alloc: Global, at: LocationOf, steps: &[(u32, u32)], end: End) -> Result<Run, Fail> {
    let mut listed = Vec::new(alloc);
    for (group, member) in steps {
        let step = Step {
            group: *group,
            member: *member,
        };
        listed.push(step).map_err(AllocError::from)?;
    }
    let (first, header) = location(alloc, at)?;
    Ok(Run {
        first,
        header,
        steps: Listed::of(listed),
        end,
    })
}

fn trace_is(rt: &impl Abort, trace: &Trace, locations: &[LocationOf]) {
    equal(rt, trace.as_slice().len(), locations.len());
    for (at, expected) in trace.as_slice().iter().zip(locations) {
        location_is(rt, at, expected);
    }
}

fn location_is(rt: &impl Abort, at: &Location, expected: &LocationOf) {
    let (link, labels) = expected;
    equal(rt, at.0, LinkId(*link));
    header_is(rt, &at.1, labels);
}

// What a verdict is to be.
#[derive(Clone, Copy)]
enum Expected<'a> {
    Fits(&'a [u32]),
    Exceeds(usize),
    UsesFailed(u32),
}

fn verdict_is(rt: &impl Abort, verdict: &Verdict, expected: Expected) {
    match (verdict, expected) {
        (Verdict::Fits(fails), Fits(links)) => set_is(rt, fails, links),
        (Verdict::Exceeds(count), Exceeds(most)) => equal(rt, *count, most),
        (Verdict::UsesFailed(link), UsesFailed(used)) => equal(rt, *link, LinkId(used)),
        _ => assert!(rt; false),
    }
}

// What a replay is to answer.
#[derive(Clone, Copy)]
enum Outcome<'a> {
    // Its trace.
    Along(&'a [LocationOf<'a>]),
    // The step that is at fault, and the cause.
    Stops(usize, Cause),
}

fn outcome_is(rt: &impl Abort, replayed: &Result<Trace, ReplayRefused>, expected: Outcome) {
    match (replayed, expected) {
        (Ok(trace), Along(locations)) => trace_is(rt, trace, locations),
        (Err(refused), Stops(step, cause)) => {
            equal(rt, *refused, ReplayRefused::Fault { step, cause })
        }
        _ => assert!(rt; false),
    }
}

// What a run shows.
#[derive(Clone, Copy)]
enum Shown<'a> {
    // Under these failed links.
    Under(&'a [u32], Outcome<'a>),
    // In the moving world.
    Moving(Limits<'a>, Outcome<'a>),
    // What it needs, and the verdict.
    Needs(Limits<'a>, &'a [u32], Expected<'a>),
}

fn replays(
    rt: &impl Abort,
    alloc: Global,
    net: &Network,
    run: &Run,
    fails: &[u32],
    expected: Outcome,
) -> Result<(), Fail> {
    let fails = set(alloc, fails)?;
    let replayed = replay(alloc, net, &fails, run);
    outcome_is(rt, &replayed, expected);
    drop(replayed);
    drop(fails);
    Ok(())
}

fn moves(
    rt: &impl Abort,
    alloc: Global,
    net: &Network,
    run: &Run,
    limits: Limits,
    expected: Outcome,
) -> Result<(), Fail> {
    let bounds = bounds(alloc, net, limits)?;
    let replayed = replay_moving(alloc, net, &bounds, run);
    outcome_is(rt, &replayed, expected);
    drop(replayed);
    drop(bounds);
    Ok(())
}

fn judges(
    rt: &impl Abort,
    alloc: Global,
    net: &Network,
    run: &Run,
    limits: Limits,
    links: &[u32],
    expected: Expected,
) -> Result<(), Fail> {
    let bounds = bounds(alloc, net, limits)?;
    let said = judges_within(rt, alloc, net, run, &bounds, links, expected);
    drop(bounds);
    said
}

fn judges_within(
    rt: &impl Abort,
    alloc: Global,
    net: &Network,
    run: &Run,
    bounds: &Bounds,
    links: &[u32],
    expected: Expected,
) -> Result<(), Fail>
    requires { AreBounds net.now bounds.now }
{
    set_is(rt, &needs(alloc, net, run, bounds)?, links);
    verdict_is(rt, &verdict(alloc, net, run, bounds)?, expected);
    Ok(())
}

fn run_shows(
    rt: &impl Abort,
    alloc: Global,
    net: &Network,
    run: &Run,
    shown: Shown,
) -> Result<(), Fail> {
    match shown {
        Under(fails, outcome) => replays(rt, alloc, net, run, fails, outcome),
        Moving(limits, outcome) => moves(rt, alloc, net, run, limits, outcome),
        Needs(limits, links, verdict) => judges(rt, alloc, net, run, limits, links, verdict),
    }
}

const FROM_X: LocationOf = (0, &[IP1]);

fn case_holds(
    rt: &impl Abort,
    alloc: Global,
    net: &Network,
    from: LocationOf,
    steps: &[(u32, u32)],
    end: End,
    shown: Shown,
) -> Result<(), Fail> {
    let run = run(alloc, from, steps, end)?;
    let said = run_shows(rt, alloc, net, &run, shown);
    drop(run);
    said
}

// The steps of a run from x, and what it shows.
type CaseOf<'a> = (&'a [(u32, u32)], Shown<'a>);

fn all_hold(rt: &impl Abort, alloc: Global, net: &Network, cases: &[CaseOf]) -> Result<(), Fail> {
    for (steps, shown) in cases {
        case_holds(rt, alloc, net, FROM_X, steps, End::Arrives, *shown)?;
    }
    Ok(())
}

fn hold_on(rt: &impl Abort, alloc: Global, sample: &Sample, cases: &[CaseOf]) -> Result<(), Fail> {
    let net = network(alloc, sample)?;
    let said = all_hold(rt, alloc, &net, cases);
    drop(net);
    said
}

const UNDER_SETS: &[CaseOf] = &[
    (
        DIRECT,
        Under(&[], Along(&[(0, &[IP1]), (1, &[S10, IP1]), (4, &[IP1])])),
    ),
    (AROUND, Under(&[1], Along(AROUND_LOCATIONS))),
    (&[(2, 0)], Under(&[], Stops(1, NoGroup))),
    (&[(u32::MAX, 0)], Under(&[], Stops(1, NoGroup))),
    (&[(0, 1)], Under(&[], Stops(1, NoMember))),
    (&[(0, u32::MAX)], Under(&[], Stops(1, NoMember))),
    (&[(0, 0), (1, 0)], Under(&[], Stops(2, NoGroup))),
    (&[(0, 0), (0, 0), (0, 0)], Under(&[], Stops(3, NoGroup))),
    (AROUND, Under(&[], Stops(1, NotFirstActive))),
    (DIRECT, Under(&[1], Stops(1, NotFirstActive))),
    (AROUND, Under(&[1, 2], Stops(1, NotFirstActive))),
    (DIRECT, Under(&[4], Stops(2, NotFirstActive))),
];

#[test]
fn a_trace_takes_the_first_active_group(rt: HostRuntime) -> Result<(), Fail> {
    hold_on(&rt, rt.alloc(), &N1_WITH_31, UNDER_SETS)
}

// Locations where no packet sets out while a link is failed, and that link.
const NO_STARTS: &[(LocationOf, &[u32])] = &[
    (FROM_X, &[0]),
    ((5, &[IP1]), &[]),
    ((u32::MAX, &[IP1]), &[]),
    ((2, &[]), &[]),
    ((2, &[L30]), &[]),
    ((2, &[L30, IP1]), &[]),
    ((2, &[(Label(0), Class::Smpls), IP1]), &[]),
    ((2, &[(Label(4), Class::Ip)]), &[]),
];

fn sets_out(alloc: Global, net: &Network, from: LocationOf, fails: &[u32]) -> Result<bool, Fail> {
    let run = run(alloc, from, DIRECT, End::Arrives)?;
    let fails = set(alloc, fails)?;
    let found = is_start(net, &fails, &run);
    drop(fails);
    drop(run);
    Ok(found)
}

fn no_starts(rt: &impl Abort, alloc: Global, net: &Network) -> Result<(), Fail> {
    let free = sets_out(alloc, net, FROM_X, &[1])?;
    let failed = sets_out(alloc, net, FROM_X, &[0])?;
    equal(rt, (free, failed), (true, false));
    for (from, fails) in NO_STARTS {
        case_holds(
            rt,
            alloc,
            net,
            *from,
            DIRECT,
            End::Arrives,
            Under(fails, Stops(0, BadStart)),
        )?;
    }
    Ok(())
}

#[test]
fn a_start_is_a_link_that_is_up_with_a_header_of_the_network(rt: HostRuntime) -> Result<(), Fail> {
    let net = network(rt.alloc(), &N1_WITH_31)?;
    let said = no_starts(&rt, rt.alloc(), &net);
    drop(net);
    said
}

// The first way out of a would push an mpls label on an ip label.
const UNDEFINED: Sample = Sample {
    rows: &[(0, 3, &[&[(1, &[PUSH_30])], &[(2, &[PUSH_S10, PUSH_30])]])],
    ..N1_WITH_31
};

const UNDEFINED_CASES: &[CaseOf] = &[
    (&[(0, 0)], Under(&[], Stops(1, Undefined(0)))),
    (&[(1, 0)], Under(&[], Stops(1, NotFirstActive))),
];

#[test]
fn no_later_group_is_tried_where_an_operation_is_undefined(rt: HostRuntime) -> Result<(), Fail> {
    hold_on(&rt, rt.alloc(), &UNDEFINED, UNDEFINED_CASES)
}

const TWO_MEMBERS_CASES: &[CaseOf] = &[
    (DIRECT, Under(&[1], Stops(1, LinkFailed))),
    (&[(0, 1)], Under(&[2], Stops(1, LinkFailed))),
    (&[(0, 1)], Under(&[1], Stops(1, Undefined(1)))),
    (DIRECT, Under(&[1, 2], Stops(1, NotFirstActive))),
];

#[test]
fn a_member_of_an_active_group_may_have_failed(rt: HostRuntime) -> Result<(), Fail> {
    hold_on(&rt, rt.alloc(), &TWO_MEMBERS, TWO_MEMBERS_CASES)
}

const MOVING_CASES: &[CaseOf] = &[
    (AROUND, Moving((1, &[], &[]), Along(AROUND_LOCATIONS))),
    (AROUND, Moving((0, &[1], &[]), Along(AROUND_LOCATIONS))),
    (AROUND, Moving((0, &[], &[]), Stops(1, TooManyBefore(1)))),
    (AROUND, Moving((5, &[], &[1]), Stops(1, NeedsUp(LinkId(1))))),
    (AROUND, Moving((0, &[], &[1]), Stops(1, TooManyBefore(1)))),
    (DIRECT, Moving((0, &[0], &[]), Stops(0, BadStart))),
    (DIRECT, Moving((0, &[1], &[]), Stops(1, LinkBefore))),
    (&[(0, 0), (0, 1)], Moving((0, &[], &[]), Stops(2, NoMember))),
    (
        &[(0, 0), (u32::MAX, 0)],
        Moving((0, &[], &[]), Stops(2, NoGroup)),
    ),
];

#[test]
fn a_step_is_possible_where_what_comes_before_may_fail(rt: HostRuntime) -> Result<(), Fail> {
    hold_on(&rt, rt.alloc(), &N1_WITH_31, MOVING_CASES)
}

// Both of the first groups at a have the link from a to b alone; the fourth comes behind both links from a.
const FOUR_WAYS: Sample = Sample {
    rows: &[(
        0,
        3,
        &[
            &[(1, &[SWAP_IP1])],
            &[(1, &[PUSH_S10])],
            &[(2, &[PUSH_S10, PUSH_30])],
            &[(1, &[SWAP_IP1])],
        ],
    )],
    ..N1_WITH_31
};

const FOUR_WAYS_CASES: &[CaseOf] = &[
    (&[(1, 0)], Moving((5, &[], &[]), Stops(1, LinkBefore))),
    (&[(3, 0)], Moving((1, &[], &[]), Stops(1, TooManyBefore(2)))),
    (
        &[(3, 0)],
        Moving((0, &[1], &[]), Stops(1, TooManyBefore(1))),
    ),
    (
        &[(3, 0)],
        Moving((0, &[2, 3], &[]), Stops(1, TooManyBefore(1))),
    ),
    (&[(3, 0)], Moving((1, &[1], &[]), Stops(1, LinkBefore))),
];

// A member over a link that comes before is never used, and what is known down does not count among what comes before.
#[test]
fn what_comes_before_a_group_is_counted_besides_what_is_down(rt: HostRuntime) -> Result<(), Fail> {
    hold_on(&rt, rt.alloc(), &FOUR_WAYS, FOUR_WAYS_CASES)
}

const BACK_LOCATIONS: &[LocationOf] = &[
    (0, &[IP1]),
    (2, &[L30, S10, IP1]),
    (5, &[L31, S10, IP1]),
    (1, &[S10, IP1]),
    (4, &[IP1]),
];

// The link from a to b must fail, and be repaired before the packet comes back. The link from c back to a comes first on the
// way, though the one from a to b is the lesser one.
const BACK_CASES: &[CaseOf] = &[
    (AROUND_BACK, Moving((1, &[], &[]), Along(BACK_LOCATIONS))),
    (AROUND_BACK, Under(&[], Stops(1, NotFirstActive))),
    (AROUND_BACK, Under(&[1], Stops(3, NotFirstActive))),
    (AROUND_BACK, Moving((5, &[1], &[]), Stops(3, LinkBefore))),
    (AROUND_BACK, Needs((5, &[], &[]), &[1], UsesFailed(1))),
    (AROUND_BACK, Needs((5, &[5], &[]), &[1, 5], UsesFailed(5))),
];

#[test]
fn each_step_is_judged_by_itself(rt: HostRuntime) -> Result<(), Fail> {
    hold_on(&rt, rt.alloc(), &N3, BACK_CASES)
}

const N1_JUDGED: &[CaseOf] = &[
    (DIRECT, Needs((0, &[], &[]), &[], Fits(&[]))),
    (AROUND, Needs((1, &[], &[]), &[1], Fits(&[1]))),
    (AROUND, Needs((0, &[], &[]), &[1], Exceeds(1))),
    (AROUND, Needs((0, &[1], &[]), &[1], Fits(&[1]))),
    (AROUND, Needs((5, &[3], &[]), &[1, 3], UsesFailed(3))),
    (AROUND, Needs((5, &[3, 4], &[]), &[1, 3, 4], UsesFailed(3))),
    (DIRECT, Needs((5, &[0], &[]), &[0], UsesFailed(0))),
    (&[(1, 7), (0, 0)], Needs((1, &[], &[]), &[1], Fits(&[1]))),
];

#[test]
fn a_run_fits_where_what_it_needs_may_fail(rt: HostRuntime) -> Result<(), Fail> {
    hold_on(&rt, rt.alloc(), &N1_WITH_31, N1_JUDGED)
}

const N2_JUDGED: &[CaseOf] = &[
    (AROUND_TO_Z, Needs((1, &[], &[]), &[1, 4], Exceeds(2))),
    (AROUND_TO_Z, Needs((2, &[], &[]), &[1, 4], Fits(&[1, 4]))),
    (AROUND_TO_Z, Needs((1, &[1], &[]), &[1, 4], Fits(&[1, 4]))),
    (AROUND_TO_Z, Needs((0, &[1], &[]), &[1, 4], Exceeds(1))),
];

#[test]
fn needs_are_counted_over_all_steps(rt: HostRuntime) -> Result<(), Fail> {
    hold_on(&rt, rt.alloc(), &N2_WITH_31, N2_JUDGED)
}

// The links from a to b and from b to y fail together.
const FIBER_JUDGED: &[CaseOf] = &[
    (AROUND, Needs((1, &[], &[]), &[1, 4], UsesFailed(4))),
    (AROUND, Needs((0, &[], &[]), &[1, 4], Exceeds(1))),
    (AROUND_TO_Z, Needs((1, &[], &[]), &[1, 4], Fits(&[1, 4]))),
];

#[test]
fn links_of_a_risk_group_are_needed_together(rt: HostRuntime) -> Result<(), Fail> {
    hold_on(&rt, rt.alloc(), &N2_FIBER_WITH_31, FIBER_JUDGED)
}

// Both links that fail together are known up.
const BOTH_KNOWN_UP: &[CaseOf] = &[(
    AROUND,
    Moving((5, &[], &[1, 4]), Stops(1, NeedsUp(LinkId(1)))),
)];

#[test]
fn the_least_link_that_is_known_up_is_told(rt: HostRuntime) -> Result<(), Fail> {
    hold_on(&rt, rt.alloc(), &N1_FIBER_WITH_31, BOTH_KNOWN_UP)
}

// The end of a run without steps, from x, and what it shows.
type EndOf<'a> = (End, Shown<'a>);

fn all_end(rt: &impl Abort, alloc: Global, net: &Network, cases: &[EndOf]) -> Result<(), Fail> {
    for (end, shown) in cases {
        case_holds(rt, alloc, net, FROM_X, &[], *end, *shown)?;
    }
    Ok(())
}

fn end_on(rt: &impl Abort, alloc: Global, sample: &Sample, cases: &[EndOf]) -> Result<(), Fail> {
    let net = network(alloc, sample)?;
    let said = all_end(rt, alloc, &net, cases);
    drop(net);
    said
}

const FIRST_MEMBER: End = End::Undefined(Step {
    group: 0,
    member: 0,
});

const SECOND_MEMBER: End = End::Undefined(Step {
    group: 0,
    member: 1,
});

const BACKUP: End = End::Undefined(Step {
    group: 1,
    member: 0,
});

const NO_MEMBER: End = End::Undefined(Step {
    group: 1,
    member: 1,
});

const AT_X: &[LocationOf] = &[FROM_X];

const DEFINED_ENDS: &[EndOf] = &[
    (End::Arrives, Under(&[], Along(AT_X))),
    (End::Inactive, Under(&[], Stops(1, Active(0)))),
    (End::Inactive, Under(&[1], Stops(1, Active(1)))),
    (End::Inactive, Under(&[1, 2], Along(AT_X))),
    (FIRST_MEMBER, Under(&[], Stops(1, Defined))),
    (NO_MEMBER, Under(&[], Stops(1, NoMember))),
    (
        End::Inactive,
        Moving((1, &[], &[]), Stops(1, TooManyBefore(2))),
    ),
    (
        End::Inactive,
        Moving((2, &[], &[2]), Stops(1, NeedsUp(LinkId(2)))),
    ),
    (End::Inactive, Moving((2, &[], &[]), Along(AT_X))),
    (End::Inactive, Needs((2, &[], &[]), &[1, 2], Fits(&[1, 2]))),
    (End::Inactive, Needs((1, &[], &[]), &[1, 2], Exceeds(2))),
    (End::Arrives, Needs((1, &[], &[]), &[], Fits(&[]))),
];

#[test]
fn a_packet_is_dropped_where_no_group_is_active(rt: HostRuntime) -> Result<(), Fail> {
    end_on(&rt, rt.alloc(), &N1_WITH_31, DEFINED_ENDS)
}

// The second operation of the backup would push an smpls label on another.
const UNDEFINED_BACKUP: Sample = Sample {
    rows: &[(0, 3, &[&[(1, &[PUSH_S10])], &[(2, &[PUSH_S10, PUSH_S10])]])],
    ..N1_WITH_31
};

const BACKUP_ENDS: &[EndOf] = &[
    (BACKUP, Under(&[], Stops(1, NotFirstActive))),
    (BACKUP, Under(&[1], Along(AT_X))),
    (BACKUP, Moving((1, &[2], &[]), Stops(1, LinkBefore))),
    (BACKUP, Moving((1, &[], &[]), Along(AT_X))),
    (BACKUP, Needs((1, &[], &[]), &[1], Fits(&[1]))),
    // The end's own link is used.
    (BACKUP, Needs((1, &[2], &[]), &[1, 2], UsesFailed(2))),
];

#[test]
fn a_packet_is_dropped_by_an_operation_that_is_not_defined(rt: HostRuntime) -> Result<(), Fail> {
    end_on(&rt, rt.alloc(), &UNDEFINED_BACKUP, BACKUP_ENDS)
}

// The second member of the one group would push an mpls label on an ip label.
const UNDEFINED_MEMBER: Sample = Sample {
    rows: &[(0, 3, &[&[(1, &[PUSH_S10]), (2, &[PUSH_30])]])],
    ..N1_WITH_31
};

const MEMBER_ENDS: &[EndOf] = &[
    (SECOND_MEMBER, Under(&[], Along(AT_X))),
    (SECOND_MEMBER, Under(&[2], Stops(1, LinkFailed))),
    (FIRST_MEMBER, Under(&[2], Stops(1, Defined))),
];

#[test]
fn a_member_beside_one_that_leads_on_may_drop_packets(rt: HostRuntime) -> Result<(), Fail> {
    end_on(&rt, rt.alloc(), &UNDEFINED_MEMBER, MEMBER_ENDS)
}

// Failed links, where the packet is, a step, what stands against it, and where the packet is then.
type HopOf<'a> = (
    &'a [u32],
    LocationOf<'a>,
    (u32, u32),
    Option<Cause>,
    LocationOf<'a>,
);

const HOPS: &[HopOf] = &[
    (&[], (0, &[IP1]), (0, 0), None, (1, &[S10, IP1])),
    (&[1], (0, &[IP1]), (1, 0), None, (2, &[L30, S10, IP1])),
    (&[1], (0, &[IP1]), (0, 0), Some(NotFirstActive), (0, &[IP1])),
    (&[], (0, &[]), (0, 0), Some(NoGroup), (0, &[])),
];

fn hops(rt: &impl Abort, alloc: Global, net: &Network, case: &HopOf) -> Result<(), Fail> {
    let fails = set(alloc, case.0)?;
    let said = hops_under(rt, alloc, net, &fails, case);
    drop(fails);
    said
}

fn hops_under(
    rt: &impl Abort,
    alloc: Global,
    net: &Network,
    fails: &FailSet,
    case: &HopOf,
) -> Result<(), Fail> {
    let (_, from, (group, member), against, to) = case;
    let mut at = location(alloc, *from)?;
    let step = Step {
        group: *group,
        member: *member,
    };
    let found = hop_under(alloc, net, fails, &mut at, step);
    equal(rt, found, Ok(*against));
    location_is(rt, &at, to);
    drop(at);
    Ok(())
}

fn all_hop(rt: &impl Abort, alloc: Global, net: &Network) -> Result<(), Fail> {
    for case in HOPS {
        hops(rt, alloc, net, case)?;
    }
    Ok(())
}

#[test]
fn a_packet_that_may_not_hop_is_where_it_was(rt: HostRuntime) -> Result<(), Fail> {
    let net = network(rt.alloc(), &N1_WITH_31)?;
    let said = all_hop(&rt, rt.alloc(), &net);
    drop(net);
    said
}

// How many may fail, a step from x, what stands against it within these bounds, and where the packet is then.
type HopWithin<'a> = (u32, (u32, u32), Option<Cause>, LocationOf<'a>);

const HOPS_WITHIN: &[HopWithin] = &[
    (0, (0, 0), None, (1, &[S10, IP1])),
    (1, (1, 0), None, (2, &[L30, S10, IP1])),
    (0, (1, 0), Some(TooManyBefore(1)), (0, &[IP1])),
    (1, (2, 0), Some(NoGroup), (0, &[IP1])),
];

fn hops_within(
    rt: &impl Abort,
    alloc: Global,
    net: &Network,
    case: &HopWithin,
) -> Result<(), Fail> {
    let (k, (group, member), against, to) = case;
    let mut at = location(alloc, FROM_X)?;
    let bounds = Bounds {
        k: *k,
        down: FailSet::new(alloc),
        up: FailSet::new(alloc),
    };
    let step = Step {
        group: *group,
        member: *member,
    };
    let found = hop_within(alloc, net, &bounds, &mut at, step);
    drop(bounds);
    equal(rt, found, Ok(*against));
    location_is(rt, &at, to);
    drop(at);
    Ok(())
}

fn all_hop_within(rt: &impl Abort, alloc: Global, net: &Network) -> Result<(), Fail> {
    for case in HOPS_WITHIN {
        hops_within(rt, alloc, net, case)?;
    }
    Ok(())
}

#[test]
fn a_packet_hops_where_what_comes_before_may_fail(rt: HostRuntime) -> Result<(), Fail> {
    let net = network(rt.alloc(), &N1_WITH_31)?;
    let said = all_hop_within(&rt, rt.alloc(), &net);
    drop(net);
    said
}

// Which way the tables lead from x, whatever is failed, and how many groups they have there.
fn follows(rt: &impl Abort, alloc: Global, net: &Network) -> Result<(), Fail> {
    let mut at = location(alloc, FROM_X)?;
    let groups = groups_of(net, &at).len();
    let third = Step {
        group: 2,
        member: 0,
    };
    let second = Step {
        group: 1,
        member: 0,
    };
    let stays = follow(net, &mut at, third);
    let goes = follow(net, &mut at, second);
    location_is(rt, &at, &(2, &[L30, S10, IP1]));
    drop(at);
    equal(rt, (groups, stays, goes), (2, Ok(false), Ok(true)));
    Ok(())
}

#[test]
fn a_step_leads_on_whatever_is_failed(rt: HostRuntime) -> Result<(), Fail> {
    let net = network(rt.alloc(), &N1_WITH_31)?;
    let said = follows(&rt, rt.alloc(), &net);
    drop(net);
    said
}

#[test]
fn links_are_added_to_a_set(rt: HostRuntime) -> Result<(), Fail> {
    let mut all = set(rt.alloc(), &[1, 3])?;
    let said = adds(&rt, rt.alloc(), &mut all);
    drop(all);
    said
}

fn adds(rt: &impl Abort, alloc: Global, all: &mut FailSet) -> Result<(), Fail> {
    let more = set(alloc, &[0, 3, 7])?;
    let added = insert_all(all, &more);
    drop(more);
    added?;
    set_is(rt, all, &[0, 1, 3, 7]);
    Ok(())
}
