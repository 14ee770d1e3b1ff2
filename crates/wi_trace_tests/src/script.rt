//! Scripts by example.
ghost use Rattle.wi_script.specs.Known.{IsScriptOf};

use crate::common::{IP1, L30, L31, S10, TWO_MEMBERS, equal, header_is, set_is};
use std::alloc::Global;
use std::process::Abort;
use std::test::Fail;
use wi_labels::{Class, Label};
use wi_net::{LinkId, Network};
use wi_samples::{N2_FIBER_WITH_31, N3, QUOTED_END, Sample, network};
use wi_script::ScriptCause::{BadHeader, NotAnEvent, UnknownName};
use wi_script::{Event, Script, ScriptCause, ScriptRefused, State, play, read_script};
use wi_world::Step;

const IP: (Label, Class) = (Label(4), Class::Ip);

// With 31 as in the other networks, so that a label has one number.
const NAMED: Sample = Sample {
    mpls: &["30", "31"],
    ..QUOTED_END
};

// A script, its first link, its header and its events.
type ReadOf<'a> = (&'a [u8], u32, &'a [(Label, Class)], &'a [Event]);

const READ: &[ReadOf] = &[
    (
        b"at x.o#a.x ip1\nfail a.b#b.a\nrepair a.b#b.a\nhop 2 1\nhop 10 999999999999999999999999999999\n",
        0,
        &[IP1],
        &[
            Event::Fail(LinkId(1)),
            Event::Repair(LinkId(1)),
            Event::Hop(Step {
                group: 1,
                member: 0,
            }),
            Event::Hop(Step {
                group: 9,
                member: u32::MAX,
            }),
        ],
    ),
    (b"at \"x\".o#\"a\".\"x\" \"ip1\"\n", 0, &[IP1], &[]),
    (
        b"at \"b 1\".\"o.1\"#x.\"a#\xc3\xa9\" 30 s10 ip\n",
        5,
        &[L30, S10, IP],
        &[],
    ),
    (
        b"at b.y#y.b ip\nhop 4294967295 4294967296\n",
        4,
        &[IP],
        &[Event::Hop(Step {
            group: u32::MAX - 1,
            member: u32::MAX,
        })],
    ),
];

fn script_is(rt: &impl Abort, script: &Script, case: &ReadOf) {
    let (_, first, labels, events) = case;
    equal(rt, script.first, LinkId(*first));
    header_is(rt, &script.header, labels);
    equal(rt, script.events.as_slice(), *events);
}

fn is_read(rt: &impl Abort, alloc: Global, net: &Network, case: &ReadOf) -> Result<(), Fail> {
    let script = read_script(alloc, net, case.0)?;
    script_is(rt, &script, case);
    drop(script);
    Ok(())
}

fn are_read(rt: &impl Abort, alloc: Global, net: &Network) -> Result<(), Fail> {
    for case in READ {
        is_read(rt, alloc, net, case)?;
    }
    Ok(())
}

#[test]
fn scripts_are_read(rt: HostRuntime) -> Result<(), Fail> {
    let net = network(rt.alloc(), &NAMED)?;
    let said = are_read(&rt, rt.alloc(), &net);
    drop(net);
    said
}

// First lines with their causes.
const FIRST_LINES: &[(&[u8], ScriptCause)] = &[
    (b"", NotAnEvent),
    (b"\n", NotAnEvent),
    (b"at x.o#a.x ip1", NotAnEvent),
    (b"at x.o#a.x ip1\r\n", NotAnEvent),
    (b"at x.o#a.x\n", NotAnEvent),
    (b"at x.o#a.x \n", NotAnEvent),
    (b"at x.o\n", NotAnEvent),
    (b"at x.o#a.x ip1 \n", NotAnEvent),
    (b"at x.o#a.x  ip1\n", NotAnEvent),
    (b"at  x.o#a.x ip1\n", NotAnEvent),
    (b"at\tx.o#a.x ip1\n", NotAnEvent),
    (b" at x.o#a.x ip1\n", NotAnEvent),
    (b"at x.o#a.x \"\"\n", NotAnEvent),
    (b"at x.o#a.x \"ip1\n", NotAnEvent),
    (b"at x.o#a.x \"ip1\"s10\n", NotAnEvent),
    (b"at x.o#a.x \"i\x7f\"\n", NotAnEvent),
    (b"at x.o#a.x \"i\t\"\n", NotAnEvent),
    (b"at x.o#a.x \"i\xff\"\n", NotAnEvent),
    (b"at x.o#a ip1\n", NotAnEvent),
    (b"fail x.o#a.x\n", NotAnEvent),
    (b"hop 1 1\n", NotAnEvent),
    (b"at x.o#a.x ip2\n", UnknownName),
    (b"at x.o#a.x ip2 30\n", UnknownName),
    (b"at z.o#a.x ip1\n", UnknownName),
    (b"at x.z#a.x ip1\n", UnknownName),
    (b"at x.o#z.x ip1\n", UnknownName),
    (b"at x.o#a.z ip1\n", UnknownName),
    (b"at a.x#x.o ip1\n", UnknownName),
    (b"at a.b#c.a ip1\n", UnknownName),
    (b"at x.o#a.x 30 ip1\n", BadHeader),
    (b"at x.o#a.x ip1 ip1\n", BadHeader),
];

// Scripts of which the second line has a fault, with its cause.
const SECOND_LINES: &[(&[u8], ScriptCause)] = &[
    (b"at x.o#a.x ip1\nhop 0 1\n", NotAnEvent),
    (b"at x.o#a.x ip1\nhop 1 0\n", NotAnEvent),
    (b"at x.o#a.x ip1\nhop 01 1\n", NotAnEvent),
    (b"at x.o#a.x ip1\nhop 1 01\n", NotAnEvent),
    (b"at x.o#a.x ip1\nhop +1 1\n", NotAnEvent),
    (b"at x.o#a.x ip1\nhop 1\n", NotAnEvent),
    (b"at x.o#a.x ip1\nhop 1 1 \n", NotAnEvent),
    (b"at x.o#a.x ip1\nhop 1  1\n", NotAnEvent),
    (b"at x.o#a.x ip1\nhop 1 1", NotAnEvent),
    (b"at x.o#a.x ip1\nhop 1 1\r\n", NotAnEvent),
    (b"at x.o#a.x ip1\nfail a.b#b.a \n", NotAnEvent),
    (b"at x.o#a.x ip1\nfail  a.b#b.a\n", NotAnEvent),
    (b"at x.o#a.x ip1\nrepair\n", NotAnEvent),
    (b"at x.o#a.x ip1\nrepair a.b#b.a#\n", NotAnEvent),
    (b"at x.o#a.x ip1\n\n", NotAnEvent),
    (b"at x.o#a.x ip1\nat x.o#a.x ip1\n", NotAnEvent),
    (b"at x.o#a.x ip1\nfail \"\xff\".b#b.a\n", NotAnEvent),
    (b"at x.o#a.x ip1\nfail a.b#c.a\njump\n", UnknownName),
    (b"at x.o#a.x ip1\nrepair a.b#b.q\n", UnknownName),
];

// The same of the third line.
const THIRD_LINES: &[(&[u8], ScriptCause)] = &[
    (b"at x.o#a.x ip1\nfail a.b#b.a\njump\n", NotAnEvent),
    (b"at x.o#a.x ip1\nfail a.b#b.a\njump", NotAnEvent),
    (b"at x.o#a.x ip1\nfail a.b#b.a\nfail a.b#b.z\n", UnknownName),
];

fn refusal(alloc: Global, net: &Network, bytes: &[u8]) -> Option<ScriptRefused> {
    match read_script(alloc, net, bytes) {
        Ok(script) => {
            drop(script);
            None
        }
        Err(refused) => Some(refused),
    }
}

// The cause of each script of a table is told for the line of a number.
fn are_not_read(
    rt: &impl Abort,
    alloc: Global,
    net: &Network,
    line: usize,
    table: &[(&[u8], ScriptCause)],
) {
    for (bytes, cause) in table {
        let refused = ScriptRefused::BadLine(line, *cause);
        equal(rt, refusal(alloc, net, bytes), Some(refused));
    }
}

fn faults_are_told(rt: &impl Abort, alloc: Global, net: &Network) {
    are_not_read(rt, alloc, net, 1, FIRST_LINES);
    are_not_read(rt, alloc, net, 2, SECOND_LINES);
    are_not_read(rt, alloc, net, 3, THIRD_LINES);
}

#[test]
fn the_first_fault_is_told(rt: HostRuntime) -> Result<(), Fail> {
    let net = network(rt.alloc(), &NAMED)?;
    faults_are_told(&rt, rt.alloc(), &net);
    drop(net);
    Ok(())
}

// A link, a header, and the failed links.
type StateOf<'a> = (u32, &'a [(Label, Class)], &'a [u32]);

fn states_are(rt: &impl Abort, states: &[State], expected: &[StateOf]) {
    equal(rt, states.len(), expected.len());
    for (state, expected) in states.iter().zip(expected) {
        state_is(rt, state, expected);
    }
}

fn state_is(rt: &impl Abort, state: &State, expected: &StateOf) {
    let (link, labels, fails) = expected;
    equal(rt, state.link, LinkId(*link));
    header_is(rt, &state.header, labels);
    set_is(rt, &state.fails, fails);
}

// The states of a script that starts with `ip1` on the link from x.
fn plays(
    rt: &impl Abort,
    alloc: Global,
    net: &Network,
    k: u32,
    script: &[u8],
    expected: &[StateOf],
) -> Result<(), Fail> {
    let script = read_script(alloc, net, script)?;
    let states = play(alloc, net, k, &script);
    drop(script);
    let states = states?;
    states_are(rt, states.as_slice(), expected);
    drop(states);
    Ok(())
}

// A number of risk groups, a script, and the first line that isn't allowed with its cause.
type RefusedOf<'a> = (u32, &'a [u8], usize, ScriptCause);

fn is_not_played(
    rt: &impl Abort,
    alloc: Global,
    net: &Network,
    k: u32,
    script: &[u8],
    expected: ScriptRefused,
) -> Result<(), Fail> {
    let script = read_script(alloc, net, script)?;
    let refused = playing_stops(alloc, net, k, &script);
    drop(script);
    equal(rt, refused, Some(expected));
    Ok(())
}

fn playing_stops(alloc: Global, net: &Network, k: u32, script: &Script) -> Option<ScriptRefused>
    requires { IsScriptOf net.now script.now }
{
    match play(alloc, net, k, script) {
        Ok(states) => {
            drop(states);
            None
        }
        Err(refused) => Some(refused),
    }
}

// A number of risk groups, a script, and the states that it goes through.
type PlayedOf<'a> = (u32, &'a [u8], &'a [StateOf<'a>]);

fn all_play(
    rt: &impl Abort,
    alloc: Global,
    net: &Network,
    played: &[PlayedOf],
    refused: &[RefusedOf],
) -> Result<(), Fail> {
    for (k, script, expected) in played {
        plays(rt, alloc, net, *k, script, expected)?;
    }
    for (k, script, line, cause) in refused {
        let expected = ScriptRefused::BadLine(*line, *cause);
        is_not_played(rt, alloc, net, *k, script, expected)?;
    }
    Ok(())
}

// Scripts that are played on the network of a sample, and scripts that are refused there.
fn play_on(
    rt: &impl Abort,
    alloc: Global,
    sample: &Sample,
    played: &[PlayedOf],
    refused: &[RefusedOf],
) -> Result<(), Fail> {
    let net = network(alloc, sample)?;
    let said = all_play(rt, alloc, &net, played, refused);
    drop(net);
    said
}

// The link from a to b fails, the packet goes round by c and back to a, the link is repaired, and the packet takes it.
const ROUND: &[u8] =
    b"at x.o#a.x ip1\nfail a.b#b.a\nhop 2 1\nhop 1 1\nrepair a.b#b.a\nhop 1 1\nhop 1 1\n";

const ROUND_STATES: &[StateOf] = &[
    (0, &[IP1], &[]),
    (0, &[IP1], &[1]),
    (2, &[L30, S10, IP1], &[1]),
    (5, &[L31, S10, IP1], &[1]),
    (5, &[L31, S10, IP1], &[]),
    (1, &[S10, IP1], &[]),
    (4, &[IP1], &[]),
];

const PLAYED_ROUND: &[PlayedOf] = &[(1, ROUND, ROUND_STATES), (65_535, ROUND, ROUND_STATES)];

#[test]
fn a_script_is_played_event_by_event(rt: HostRuntime) -> Result<(), Fail> {
    play_on(&rt, rt.alloc(), &N3, PLAYED_ROUND, &[])
}

const REFUSED_ROUND: &[RefusedOf] = &[
    (
        1,
        b"at x.o#a.x ip1\nfail a.b#b.a\nhop 2 1\nhop 1 1\nhop 1 1\nhop 1 1\n",
        5,
        ScriptCause::NotFirstActive,
    ),
    (0, ROUND, 2, ScriptCause::TooManyFailed),
    (
        1,
        b"at x.o#a.x ip1\nfail a.b#b.a\nfail a.c#c.a\nhop 9 9\n",
        3,
        ScriptCause::TooManyFailed,
    ),
    (
        2,
        b"at x.o#a.x ip1\nfail a.b#b.a\nfail a.b#b.a\n",
        3,
        ScriptCause::AlreadyFailed,
    ),
    (
        1,
        b"at x.o#a.x ip1\nrepair a.b#b.a\n",
        2,
        ScriptCause::NotFailed,
    ),
    (1, b"at x.o#a.x ip1\nhop 3 1\n", 2, ScriptCause::NoSuchGroup),
    (
        1,
        b"at x.o#a.x ip1\nhop 4294967296 1\n",
        2,
        ScriptCause::NoSuchGroup,
    ),
    (
        1,
        b"at x.o#a.x ip1\nhop 1 2\n",
        2,
        ScriptCause::NoSuchMember,
    ),
    (
        1,
        b"at x.o#a.x ip1\nhop 2 2\n",
        2,
        ScriptCause::NoSuchMember,
    ),
    (
        2,
        b"at x.o#a.x ip1\nfail a.b#b.a\nfail a.c#c.a\nhop 2 1\n",
        4,
        ScriptCause::NotFirstActive,
    ),
];

#[test]
fn the_first_event_that_is_not_allowed_is_told(rt: HostRuntime) -> Result<(), Fail> {
    play_on(&rt, rt.alloc(), &N3, &[], REFUSED_ROUND)
}

const FIBER: &[u8] =
    b"at a.b#b.a s10 ip1\nfail b.y#y.b\nrepair a.b#b.a\nfail a.b#b.a\nrepair b.y#y.b\nhop 1 1\nfail b.y#y.b\n";

const FIBER_STATES: &[StateOf] = &[
    (1, &[S10, IP1], &[]),
    (1, &[S10, IP1], &[1, 4]),
    (1, &[S10, IP1], &[]),
    (1, &[S10, IP1], &[1, 4]),
    (1, &[S10, IP1], &[]),
    (4, &[IP1], &[]),
    (4, &[IP1], &[1, 4]),
];

const FIBER_REFUSED: &[RefusedOf] = &[(
    1,
    b"at x.o#a.x ip1\nfail a.b#b.a\nfail b.y#y.b\n",
    3,
    ScriptCause::AlreadyFailed,
)];

const FIBER_PLAYED: &[PlayedOf] = &[(1, FIBER, FIBER_STATES)];

// Links of one risk group fail together, also the one that the packet is on, and are repaired together.
#[test]
fn risk_groups_fail_as_one(rt: HostRuntime) -> Result<(), Fail> {
    play_on(
        &rt,
        rt.alloc(),
        &N2_FIBER_WITH_31,
        FIBER_PLAYED,
        FIBER_REFUSED,
    )
}

const TWO_MEMBERS_REFUSED: &[RefusedOf] = &[
    (
        1,
        b"at x.o#a.x ip1\nfail a.b#b.a\nhop 1 1\n",
        3,
        ScriptCause::LinkFailed,
    ),
    (
        1,
        b"at x.o#a.x ip1\nfail a.b#b.a\nhop 1 2\n",
        3,
        ScriptCause::Undefined(1),
    ),
];

#[test]
fn a_hop_takes_a_member_whose_link_is_up(rt: HostRuntime) -> Result<(), Fail> {
    play_on(&rt, rt.alloc(), &TWO_MEMBERS, &[], TWO_MEMBERS_REFUSED)
}
