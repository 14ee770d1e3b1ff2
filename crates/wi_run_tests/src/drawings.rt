//! Drawings: a network alone, and the run of each kind of answer over it.
use crate::called::{is_said, is_said_between, ran, shelf_with};
use crate::samples::{n1, n3};
use std::alloc::Global;
use std::process::Abort;
use std::test::Fail;

// What a drawing begins with, behind each of the statuses of an answer.
const YES: &str =
    "0<digraph whatif {\n  node [shape=box fontsize=10]\n  edge [arrowsize=0.6 fontsize=9]\n";

const NO: &str =
    "1<digraph whatif {\n  node [shape=box fontsize=10]\n  edge [arrowsize=0.6 fontsize=9]\n";

const INCONCLUSIVE: &str =
    "2<digraph whatif {\n  node [shape=box fontsize=10]\n  edge [arrowsize=0.6 fontsize=9]\n";

// Words, what is said before the lines of the drawing, and these.
type Drawing<'a> = (&'a [&'a str], &'a str, &'a str);

// What words end with over a network.
fn drawn(alloc: Global, network: &str, words: &[&str]) -> Result<String, Fail> {
    let mut shelf = shelf_with(alloc, network.as_bytes())?;
    let said = ran(alloc, words, &mut shelf);
    drop(shelf);
    said
}

fn are_drawn(
    rt: &impl Abort,
    alloc: Global,
    network: &str,
    drawings: &[Drawing],
) -> Result<(), Fail> {
    for (words, front, lines) in drawings {
        is_said_between(rt, drawn(alloc, network, words), front, lines, "}\n><>")?;
    }
    Ok(())
}

const OF_THE_FIRST_NETWORK: &[Drawing] = &[
    (
        &["whatif", "draw", "n"],
        YES,
        r#"  "x"
  "a"
  "b"
  "c"
  "y"
  "x" -> "a" [tooltip="x.o#a.x"]
  "a" -> "b" [tooltip="a.b#b.a"]
  "a" -> "c" [tooltip="a.c#c.a"]
  "c" -> "b" [tooltip="c.b#b.c"]
  "b" -> "y" [tooltip="b.y#y.b"]
"#,
    ),
    (
        &["whatif", "draw", "n", "<ip1> [x#a] [a#c] .* [b#y] <ip1> 1"],
        YES,
        r#"  label="answer: yes, weight: none, effort: 10, failed: a.b#b.a"
  "x"
  "a"
  "b"
  "c"
  "y"
  "x" -> "a" [tooltip="x.o#a.x" label="1: ip1" color=blue penwidth=2]
  "a" -> "b" [tooltip="a.b#b.a" color=red style=dashed]
  "a" -> "c" [tooltip="a.c#c.a" label="2: 30 s10 ip1" color=blue penwidth=2]
  "c" -> "b" [tooltip="c.b#b.c" label="3: s10 ip1" color=blue penwidth=2]
  "b" -> "y" [tooltip="b.y#y.b" label="4: ip1" color=blue penwidth=2]
"#,
    ),
    (
        &["whatif", "draw", "n", "<ip1> [x#a] [a#c] .* [b#y] <ip1> 0"],
        NO,
        r#"  label="answer: no"
  "x"
  "a"
  "b"
  "c"
  "y"
  "x" -> "a" [tooltip="x.o#a.x"]
  "a" -> "b" [tooltip="a.b#b.a"]
  "a" -> "c" [tooltip="a.c#c.a"]
  "c" -> "b" [tooltip="c.b#b.c"]
  "b" -> "y" [tooltip="b.y#y.b"]
"#,
    ),
];

const DROPPED_ON_THE_FIRST_NETWORK: &[Drawing] = &[
    (
        &["whatif", "draw", "n", "<ip1> [x#a] [^ .#y]* drop 1"],
        YES,
        r#"  label="answer: yes, weight: none, effort: 8, failed: b.y#y.b"
  "x"
  "a"
  "b" [label="b\ndropped: no active group" color=red penwidth=2]
  "c"
  "y"
  "x" -> "a" [tooltip="x.o#a.x" label="1: ip1" color=blue penwidth=2]
  "a" -> "b" [tooltip="a.b#b.a" label="2: s10 ip1" color=blue penwidth=2]
  "a" -> "c" [tooltip="a.c#c.a"]
  "c" -> "b" [tooltip="c.b#b.c"]
  "b" -> "y" [tooltip="b.y#y.b" color=red style=dashed]
"#,
    ),
    // More is needed than may fail; each link that is needed is drawn as failed.
    (
        &[
            "whatif",
            "draw",
            "n",
            "<ip1> [x#a] [^ .#y]* drop 1 up [b#y]",
            "--weights",
            "Failures, Links",
        ],
        INCONCLUSIVE,
        r#"  label="answer: inconclusive, weight: 2 2, effort: 10, needs: a.b#b.a c.b#b.c, cause: needs 2, allowed 1"
  "x"
  "a"
  "b"
  "c" [label="c\ndropped: no active group" color=red penwidth=2]
  "y"
  "x" -> "a" [tooltip="x.o#a.x" label="1: ip1" color=blue penwidth=2]
  "a" -> "b" [tooltip="a.b#b.a" color=red style=dashed]
  "a" -> "c" [tooltip="a.c#c.a" label="2: 30 s10 ip1" color=blue penwidth=2]
  "c" -> "b" [tooltip="c.b#b.c" color=red style=dashed]
  "b" -> "y" [tooltip="b.y#y.b"]
"#,
    ),
];

#[test]
fn the_first_network_is_drawn(rt: HostRuntime) -> Result<(), Fail> {
    are_drawn(&rt, rt.alloc(), n1(), OF_THE_FIRST_NETWORK)
}

#[test]
fn where_a_packet_is_dropped_is_drawn(rt: HostRuntime) -> Result<(), Fail> {
    are_drawn(&rt, rt.alloc(), n1(), DROPPED_ON_THE_FIRST_NETWORK)
}

// The run uses a link that it needs to have failed.
const INCONCLUSIVE_RUN: &[Drawing] = &[(
    &[
        "whatif",
        "draw",
        "n",
        "<ip1> [x#a] [a#c] [c#a] [a#b] .* <ip1> 5",
    ],
    INCONCLUSIVE,
    r#"  label="answer: inconclusive, weight: none, effort: 11, needs: a.b#b.a, cause: uses a.b#b.a"
  "x"
  "a"
  "b"
  "c"
  "y"
  "x" -> "a" [tooltip="x.o#a.x" label="1: ip1" color=blue penwidth=2]
  "a" -> "b" [tooltip="a.b#b.a" label="4: s10 ip1" color=purple style=dashed penwidth=2]
  "a" -> "c" [tooltip="a.c#c.a" label="2: 30 s10 ip1" color=blue penwidth=2]
  "c" -> "b" [tooltip="c.b#b.c"]
  "b" -> "y" [tooltip="b.y#y.b" label="5: ip1" color=blue penwidth=2]
  "c" -> "a" [tooltip="c.a2#a.c2" label="3: 31 s10 ip1" color=blue penwidth=2]
"#,
)];

#[test]
fn a_run_that_uses_a_link_it_needs_failed_is_drawn(rt: HostRuntime) -> Result<(), Fail> {
    are_drawn(&rt, rt.alloc(), n3(), INCONCLUSIVE_RUN)
}

// Two links from one router to another, a link from a router to itself, by which a packet may go round, and names with a backslash, an
// ampersand and a space.
fn named() -> &'static str {
    r#"{"format":"mpls-whatif-1","routers":["b","r&\\1"],"labels":{"mpls":[],"smpls":[],"ip":["ip 1"]},"links":[{"from":"b","out":"o","to":"r&\\1","in":"i","distance":1},{"from":"r&\\1","out":"l o","to":"r&\\1","in":"l","distance":1},{"from":"r&\\1","out":"p","to":"b","in":"p","distance":1},{"from":"r&\\1","out":"q","to":"b","in":"q","distance":1}],"tables":[{"at":"r&\\1","in":"i","label":"ip 1","groups":[[{"out":"l o","ops":[]}]]},{"at":"r&\\1","in":"l","label":"ip 1","groups":[[{"out":"l o","ops":[]},{"out":"p","ops":[]}]]}]}"#
}

const NAMED: &[Drawing] = &[(
    &[
        "whatif",
        "draw",
        "n",
        r##"<"ip 1"> [b#.] ["r&\1"#"r&\1"] ["r&\1"#"r&\1"] ["r&\1".p#b] <"ip 1"> 0"##,
    ],
    YES,
    r##"  label="answer: yes, weight: none, effort: 9, failed: none"
  "b"
  "r&amp;\\1"
  "b" -> "r&amp;\\1" [tooltip="b.o#\"r&amp;\\1\".i" label="1: \"ip 1\"" color=blue penwidth=2]
  "r&amp;\\1" -> "r&amp;\\1" [tooltip="\"r&amp;\\1\".\"l o\"#\"r&amp;\\1\".l" label="2: \"ip 1\"\n3: \"ip 1\"" color=blue penwidth=2]
  "r&amp;\\1" -> "b" [tooltip="\"r&amp;\\1\".p#b.p" label="4: \"ip 1\"" color=blue penwidth=2]
  "r&amp;\\1" -> "b" [tooltip="\"r&amp;\\1\".q#b.q"]
"##,
)];

#[test]
fn names_are_drawn_as_they_are(rt: HostRuntime) -> Result<(), Fail> {
    are_drawn(&rt, rt.alloc(), named(), NAMED)
}

// What isn't drawn ends as `verify` does.
const NOT_DRAWN: &[(&[&str], &str)] = &[
    (&["whatif", "draw", "m"], "10<><whatif: cannot read m\n>"),
    (
        &["whatif", "draw", "n", "<ip1> [x#a"],
        "4<><query: byte 10: syntax\n>",
    ),
    (
        &["whatif", "draw", "n", "<ip1> . <ip1> 0", "--weights", "Hop"],
        "5<><weights: byte 0: unknown quantity Hop\n>",
    ),
];

#[test]
fn what_is_not_drawn(rt: HostRuntime) -> Result<(), Fail> {
    for (words, wanted) in NOT_DRAWN {
        is_said(&rt, drawn(rt.alloc(), n1(), words), wanted)?;
    }
    Ok(())
}
