//! Systems by example.
ghost use Rattle.wi_query.specs.Meaning.{IsQueryOf};

use std::alloc::Global;
use std::process::Abort;
use std::test::Fail;
use wi_build::{Layout, LazySystem, Problem, build};
use wi_labels::{Class, Label, Op};
use wi_net::{LinkId, Network};
use wi_pds::{Rule, RuleList, System, Word2};
use wi_quantity::{Weight, read_weights};
use wi_query::Query;
use wi_questions::query_of;
use wi_rules::{Origin, Spot};
use wi_samples::{
    N1, N1_FIBER, N1_NEAR, N2, N2_FIBER, N3, N4, N5, Sample, TestCase, are_met, network,
};
use wi_world::{End, Step};

// What a rule is to be: where it leads, what it writes, what it adds to each term, and what it stands for.
type Expected = (u64, Word2, [u128; 5], Origin);

// A spot and a symbol, and the rules there.
type HeadCase<'a> = (u64, u32, &'a [Expected]);

const NO_TERM: [u128; 5] = [0; 5];

const ARRIVES: Origin = Origin::Ending(End::Arrives);

// The only member of the first group, and of the second.
const FIRST: Origin = Origin::Hop(Step {
    group: 0,
    member: 0,
});

const SECOND: Origin = Origin::Hop(Step {
    group: 1,
    member: 0,
});

fn weight_is(rt: &impl Abort, weight: Weight, terms: [u128; 5]) {
    assert_eq!(rt; weight.first.parts(), terms);
    assert_eq!(rt; weight.second.count, 1);
}

fn rules_are(
    rt: &impl Abort,
    layout: &Layout,
    rules: &[Rule<Weight>],
    spot: u64,
    symbol: u32,
    expected: &[Expected],
) {
    assert_eq!(rt; rules.len(), expected.len());
    for (rule, (to, word, terms, origin)) in rules.iter().zip(expected) {
        assert_eq!(rt; (rule.from, rule.top, rule.to), (spot, symbol, *to));
        assert_eq!(rt; rule.word, *word);
        weight_is(rt, rule.weight, *terms);
        assert_eq!(rt; layout.rule_origin(rule), *origin);
    }
}

fn head_is(
    rt: &impl Abort,
    alloc: Global,
    system: &LazySystem<'_>,
    layout: &Layout,
    (spot, symbol): (u64, u32),
    expected: &[Expected],
) -> Result<(), Fail> {
    let rules = system.rules_of(alloc, spot, symbol)?;
    rules_are(rt, layout, rules.as_slice(), spot, symbol, expected);
    drop(rules);
    Ok(())
}

fn heads_are(
    rt: &impl Abort,
    alloc: Global,
    system: &LazySystem<'_>,
    layout: &Layout,
    heads: &[HeadCase],
) -> Result<(), Fail> {
    assert_eq!(rt; system.start(), (0, 0));
    for (spot, symbol, expected) in heads {
        head_is(rt, alloc, system, layout, (*spot, *symbol), expected)?;
    }
    Ok(())
}

fn are_equal(rt: &impl Abort, listed: &[Rule<Weight>], made: &[Rule<Weight>]) {
    assert_eq!(rt; listed.len(), made.len());
    for (one, other) in listed.iter().zip(made) {
        assert!(rt; *one == *other);
    }
}

// Whether the system's rules at the head of a rule are the listed ones, in their order.
fn same_at(
    rt: &impl Abort,
    alloc: Global,
    list: &RuleList<Weight>,
    system: &LazySystem<'_>,
    rule: &Rule<Weight>,
) -> Result<(), Fail> {
    let listed = list.rules_of(alloc, rule.from, rule.top)?;
    match system.rules_of(alloc, rule.from, rule.top) {
        Ok(made) => {
            are_equal(rt, listed.as_slice(), made.as_slice());
            drop(made);
            drop(listed);
            Ok(())
        }
        Err(refused) => {
            drop(listed);
            Err(refused.into())
        }
    }
}

// Whether the rules of each head of a listed rule are the listed ones, in their order.
fn same_rules(
    rt: &impl Abort,
    alloc: Global,
    list: &RuleList<Weight>,
    system: &LazySystem<'_>,
) -> Result<(), Fail> {
    assert_eq!(rt; list.start, (0, 0));
    for rule in list.rules.as_slice() {
        same_at(rt, alloc, list, system, rule)?;
    }
    Ok(())
}

fn list_is(
    rt: &impl Abort,
    alloc: Global,
    list: &RuleList<Weight>,
    system: &LazySystem<'_>,
) -> Result<(), Fail> {
    assert!(rt; list.rules.as_slice().len() > 0);
    same_rules(rt, alloc, list, system)
}

// Whether the system on demand has these rules at some heads, and the listed ones.
fn listed_is(
    rt: &impl Abort,
    alloc: Global,
    problem: &Problem<'_>,
    list: &RuleList<Weight>,
    heads: &[HeadCase],
) -> Result<(), Fail> {
    let system = LazySystem::of(alloc, problem)?;
    let outcome = rules_at_heads_are(rt, alloc, &system, system.layout(), list, heads);
    drop(system);
    outcome
}

fn rules_at_heads_are(
    rt: &impl Abort,
    alloc: Global,
    system: &LazySystem<'_>,
    layout: &Layout,
    list: &RuleList<Weight>,
    heads: &[HeadCase],
) -> Result<(), Fail> {
    heads_are(rt, alloc, system, layout, heads)?;
    list_is(rt, alloc, list, system)
}

fn system_is(
    rt: &impl Abort,
    alloc: Global,
    problem: &Problem<'_>,
    heads: &[HeadCase],
) -> Result<(), Fail> {
    let list = build(alloc, problem)?;
    let outcome = listed_is(rt, alloc, problem, &list, heads);
    drop(list);
    outcome
}

// A query, what runs are weighed by, and the rules of some heads.
#[derive(Clone, Copy)]
struct Case<'a>(&'a str, &'a str, &'a [HeadCase<'a>]);

fn weighed_is(
    rt: &impl Abort,
    alloc: Global,
    net: &Network,
    query: &Query,
    case: &Case,
) -> Result<(), Fail>
    requires { IsQueryOf net.now query.now }
{
    let vector = read_weights(alloc, case.1)?;
    let outcome = system_is(rt, alloc, &Problem::of(net, query, &vector), case.2);
    drop(vector);
    outcome
}

// The rules of some heads for a query, and that the listed rules are those on demand.
impl<R: Abort> TestCase<R> for Case<'_> {
    fn is_met(&self, rt: &R, alloc: Global, net: &Network) -> Result<(), Fail> {
        let query = query_of(alloc, net, self.0)?;
        let outcome = weighed_is(rt, alloc, net, &query, self);
        drop(query);
        outcome
    }
}

// First s10 ip1, then the link from a to b again and again. The automata have 3, 2 and 3 states.
const AGAIN: &str = "<s10 ip1> [a#b]+ <smpls ip> 0";

const AGAIN_HEADS: &[HeadCase] = &[
    (0, 0, &[(4, Word2::One(0), NO_TERM, Origin::Nothing)]),
    (
        4,
        0,
        &[(3, Word2::Two(3, 0), NO_TERM, Origin::Pushed(Label(2)))],
    ),
    (
        3,
        3,
        &[(2, Word2::Two(2, 3), NO_TERM, Origin::Pushed(Label(1)))],
    ),
    (
        2,
        2,
        &[(
            11,
            Word2::One(2),
            [1, 0, 0, 0, 0],
            Origin::SetOut(LinkId(1)),
        )],
    ),
    (11, 2, &[(5, Word2::One(2), NO_TERM, ARRIVES)]),
    (5, 2, &[(6, Word2::Empty, NO_TERM, Origin::Nothing)]),
    (6, 3, &[(7, Word2::Empty, NO_TERM, Origin::Nothing)]),
    (7, 0, &[(1, Word2::Empty, NO_TERM, Origin::Nothing)]),
    // Neither ip1 on a label, nor s10 on the bottom or on s10, nor a packet with no label, nor a label past the last.
    (4, 2, &[]),
    (3, 0, &[]),
    (3, 2, &[]),
    (2, 0, &[]),
    (11, 0, &[]),
    (11, 4, &[]),
    (10, 2, &[]),
    (6, 2, &[]),
    (1, 0, &[]),
    (88, 2, &[]),
];

// By c and b to y. The automata have 2, 5 and 2 states, and the packet comes from x with ip1 in 7.
const AROUND_HEADS: &[HeadCase] = &[
    (
        2,
        3,
        &[(7, Word2::One(3), [1, 1, 0, 0, 0], Origin::SetOut(LinkId(0)))],
    ),
    (7, 3, &[(68, Word2::Two(2, 3), [1, 8, 0, 0, 0], SECOND)]),
    (
        68,
        2,
        &[(18, Word2::Two(1, 2), NO_TERM, Origin::Operation(1, 1))],
    ),
    (68, 3, &[]),
    (18, 1, &[(24, Word2::Empty, [1, 2, 0, 0, 0], FIRST)]),
    (
        24,
        2,
        &[
            (29, Word2::Empty, [1, 1, 0, 0, 0], FIRST),
            (30, Word2::Empty, [1, 1, 0, 0, 0], FIRST),
        ],
    ),
    (30, 3, &[(4, Word2::One(3), NO_TERM, ARRIVES)]),
];

const SMALL_CASES: &[Case] = &[
    Case(AGAIN, "Hops", AGAIN_HEADS),
    Case("<ip1> [x#a] .* [b#y] <ip1> 0", "Hops", &[]),
    Case("<ip1> [x#a] [a#c] .* [b#y] <ip1> 0", "Hops", &[(7, 3, &[])]),
    Case(
        "<ip1> [x#a] [a#c] .* [b#y] <ip1> 1",
        "Hops, Distance+3*Tunnels",
        AROUND_HEADS,
    ),
    Case("<30 ip1> .* <.*> 0", "Links", &[]),
    // Known to be down, the link to b is neither counted nor taken; known to be up, it can't have failed.
    Case(
        "<ip1> [x#a] .* [b#y] <ip1> 0 down [a#b]",
        "Failures",
        &[(7, 3, &[(56, Word2::Two(2, 3), [1, 0, 0, 0, 0], SECOND)])],
    ),
    Case(
        "<ip1> [x#a] [a#c] .* [b#y] <ip1> 5 up [a#b]",
        "Hops",
        &[(7, 3, &[])],
    ),
    Case(
        "<ip1> [x#a] .* [b#y] <ip1> 0 down [x#a]",
        "Hops",
        &[(2, 3, &[])],
    ),
];

#[test]
fn rules_are_made_head_by_head(rt: HostRuntime) -> Result<(), Fail> {
    are_met(&rt, rt.alloc(), &N1, SMALL_CASES)
}

// Numbers, and the spots that have them.
const SPOTS: &[(u64, Option<Spot>)] = &[
    (0, Some(Spot::Start)),
    (1, Some(Spot::Done)),
    (4, Some(Spot::Build(2))),
    (7, Some(Spot::Close(2))),
    (11, Some(Spot::OnLink(LinkId(1), 1))),
    (18, Some(Spot::Mid(0, 1, 0))),
    (87, Some(Spot::Mid(4, 7, 1))),
    (88, None),
    (u64::MAX, None),
];

// The same where packets are dropped, and where they arrive.
const SPOTS_OF_DROPPED: &[(u64, Option<Spot>)] = &[
    (85, Some(Spot::Mid(4, 7, 1))),
    (86, Some(Spot::Drop(0, 1))),
    (93, Some(Spot::Drop(1, 1))),
    (120, Some(Spot::Drop(4, 7))),
    (121, None),
];

const SPOTS_OF_ARRIVING: &[(u64, Option<Spot>)] = &[(85, Some(Spot::Mid(4, 7, 1))), (86, None)];

// A query, and the spots that its numbers are of.
const SPOTS_OF: &[(&str, &[(u64, Option<Spot>)])] = &[
    (AGAIN, SPOTS),
    ("<ip1> [x#a] drop 0", SPOTS_OF_DROPPED),
    ("<ip1> [x#a] <.*> 0", SPOTS_OF_ARRIVING),
];

fn layout_is(rt: &impl Abort, layout: &Layout, spots: &[(u64, Option<Spot>)]) {
    for (number, spot) in spots {
        assert!(rt; layout.spot_of(*number) == *spot);
    }
}

fn spots_are(rt: &impl Abort, alloc: Global, net: &Network) -> Result<(), Fail> {
    for (text, spots) in SPOTS_OF {
        let query = query_of(alloc, net, text)?;
        layout_is(rt, &Layout::of(net, &query), spots);
        drop(query);
    }
    Ok(())
}

#[test]
fn spots_have_numbers(rt: HostRuntime) -> Result<(), Fail> {
    let net = network(rt.alloc(), &N1)?;
    let outcome = spots_are(&rt, rt.alloc(), &net);
    drop(net);
    outcome
}

// By c and b to z, where from b there is a second way, to z.
const TO_Z_HEADS: &[HeadCase] = &[
    (7, 3, &[(73, Word2::Two(2, 3), [1, 0, 0, 0, 0], SECOND)]),
    (
        24,
        2,
        &[
            (29, Word2::Empty, NO_TERM, FIRST),
            (34, Word2::Empty, [1, 0, 0, 0, 0], SECOND),
            (35, Word2::Empty, [1, 0, 0, 0, 0], SECOND),
        ],
    ),
];

const LARGE_CASES: &[Case] = &[
    Case(
        "<ip1> [x#a] [a#c] .* [b#z] <ip1> 0",
        "Failures",
        &[(7, 3, &[])],
    ),
    Case("<ip1> [x#a] [a#c] .* [b#z] <ip1> 1", "Failures", TO_Z_HEADS),
    Case("<ip1> [x#a] [a#c] .* [b#z] <ip1> 2", "Failures", TO_Z_HEADS),
];

const KNOWN_CASES: &[Case] = &[Case(
    "<ip1> [x#a] [a#c] .* [b#z] <ip1> 1 down [a#b]",
    "Failures",
    TO_Z_HEADS,
)];

// Where the links to b and to y are one risk group, both are known to be down.
const DOWN_CASES: &[Case] = &[Case(
    "<ip1> [x#a] [a#c] .* [b#z] <ip1> 0 down [a#b]",
    "Failures",
    &[
        (7, 3, &[(73, Word2::Two(2, 3), [1, 0, 0, 0, 0], SECOND)]),
        (
            24,
            2,
            &[
                (34, Word2::Empty, [1, 0, 0, 0, 0], SECOND),
                (35, Word2::Empty, [1, 0, 0, 0, 0], SECOND),
            ],
        ),
    ],
)];

#[test]
fn what_stands_before_must_have_failed(rt: HostRuntime) -> Result<(), Fail> {
    are_met(&rt, rt.alloc(), &N2, LARGE_CASES)?;
    are_met(&rt, rt.alloc(), &N2, KNOWN_CASES)?;
    are_met(&rt, rt.alloc(), &N2_FIBER, LARGE_CASES)?;
    are_met(&rt, rt.alloc(), &N2_FIBER, DOWN_CASES)
}

const FIBER_CASES: &[Case] = &[Case(
    "<ip1> [x#a] [a#c] .* [b#y] <ip1> 1",
    "Failures",
    &[(7, 3, &[(68, Word2::Two(2, 3), [1, 0, 0, 0, 0], SECOND)])],
)];

const NEAR_CASES: &[Case] = &[Case(
    "<ip1> [x#a] [a#c] .* [b#y] <ip1> 5",
    "Failures",
    &[(7, 3, &[])],
)];

#[test]
fn a_risk_group_fails_once_and_as_a_whole(rt: HostRuntime) -> Result<(), Fail> {
    are_met(&rt, rt.alloc(), &N1_FIBER, FIBER_CASES)?;
    are_met(&rt, rt.alloc(), &N1_NEAR, NEAR_CASES)
}

const SAME_LINK_CASES: &[Case] = &[Case(
    "<ip1> [x#a] [a#b] <s10 ip1> 5",
    "Failures",
    &[(8, 3, &[(12, Word2::One(3), NO_TERM, FIRST)])],
)];

#[test]
fn a_member_needs_its_link_up(rt: HostRuntime) -> Result<(), Fail> {
    are_met(&rt, rt.alloc(), &N4, SAME_LINK_CASES)
}

const RETURNING_CASES: &[Case] = &[
    Case(
        "<ip1> [x#a] [a#c] [c#a] [a#b] .* <ip1> 5",
        "Hops",
        &[
            (20, 1, &[(39, Word2::One(2), [1, 0, 0, 0, 0], FIRST)]),
            (39, 2, &[(16, Word2::Empty, [1, 0, 0, 0, 0], FIRST)]),
        ],
    ),
    Case(
        "<ip1> [x#a] [a#c] [c#a] [a#b] .* <ip1> 5 down [a#b]",
        "Hops",
        &[
            (20, 1, &[(39, Word2::One(2), [1, 0, 0, 0, 0], FIRST)]),
            (39, 2, &[]),
        ],
    ),
];

#[test]
fn a_packet_may_return(rt: HostRuntime) -> Result<(), Fail> {
    are_met(&rt, rt.alloc(), &N3, RETURNING_CASES)
}

const PUSH_S10: Op = Op::Push(Label(1), Class::Smpls);

// The second operation of the backup would push an smpls label on another.
const UNDEFINED_BACKUP: Sample = Sample {
    rows: &[(0, 2, &[&[(1, &[PUSH_S10])], &[(2, &[PUSH_S10, PUSH_S10])]])],
    ..N1
};

// The backup's end, by its first operation.
const BACKUP_ENDS: Origin = Origin::Ending(End::Undefined(Step {
    group: 1,
    member: 0,
}));

const INACTIVE_ENDS: Origin = Origin::Ending(End::Inactive);

const DROPPED_CASES: &[Case] = &[
    Case(
        "<ip1> [x#a] drop 0 down [a#b]",
        "Failures",
        &[
            (
                7,
                3,
                &[(51, Word2::Two(2, 3), [1, 0, 0, 0, 0], BACKUP_ENDS)],
            ),
            (
                51,
                2,
                &[(4, Word2::One(2), NO_TERM, Origin::Operation(1, 1))],
            ),
            (51, 0, &[]),
            (52, 2, &[]),
        ],
    ),
    // None may fail, or both.
    Case("<ip1> [x#a] drop 0", "Failures", &[(7, 3, &[])]),
    Case(
        "<ip1> [x#a] drop 2",
        "Failures",
        &[(
            7,
            3,
            &[
                (4, Word2::One(3), [2, 0, 0, 0, 0], INACTIVE_ENDS),
                (51, Word2::Two(2, 3), [1, 0, 0, 0, 0], BACKUP_ENDS),
            ],
        )],
    ),
    // There is no entry where the packet comes to b.
    Case(
        "<ip1> [x#a] .* drop 0",
        "Failures",
        &[(11, 2, &[(4, Word2::One(2), NO_TERM, INACTIVE_ENDS)])],
    ),
    Case(
        "<ip1> [x#a] <.*> 2",
        "Failures",
        &[(7, 3, &[(4, Word2::One(3), NO_TERM, ARRIVES)])],
    ),
];

#[test]
fn a_row_ends_where_a_packet_is_dropped(rt: HostRuntime) -> Result<(), Fail> {
    are_met(&rt, rt.alloc(), &UNDEFINED_BACKUP, DROPPED_CASES)
}

const UNDEFINED_CASES: &[Case] = &[
    Case("<ip1> [x#a] [a#c] .* [b#y] <ip1> 0", "Hops", &[(7, 3, &[])]),
    Case(
        "<ip1> [x#a] [a#c] .* [b#y] <ip1> 1",
        "Tunnels",
        &[(7, 3, &[(68, Word2::Two(2, 3), [2, 0, 0, 0, 0], SECOND)])],
    ),
    Case(
        "<ip1> .* <ip1> 1",
        "Failures",
        &[(
            7,
            3,
            &[
                (31, Word2::Two(2, 3), [1, 0, 0, 0, 0], SECOND),
                (4, Word2::One(3), NO_TERM, ARRIVES),
            ],
        )],
    ),
];

#[test]
fn an_undefined_operation_gives_no_rule(rt: HostRuntime) -> Result<(), Fail> {
    are_met(&rt, rt.alloc(), &N5, UNDEFINED_CASES)
}
