//! Packets that are dropped: whether one can be, after how many failures, by which certificates and trees that is shown, and which of
//! these aren't believed.
use crate::called::{ENDED_WITH_NO, is_said, ran, shelf_with};
use crate::samples::{n1, n3, n6};
use std::alloc::{AllocError, Global};
use std::process::Abort;
use std::test::Fail;
use wi_base::MemoryShelf;

// What stands in a network file, and what stands in its place.
type Changes<'a> = &'a [(&'a str, &'a str)];

// A network file with some of its parts replaced.
fn changed(alloc: Global, text: &str, changes: Changes) -> Result<String, AllocError> {
    let mut now = String::from_str(alloc, text)?;
    for (old, new) in changes {
        now = now.replace(alloc, old, new)?;
    }
    Ok(now)
}

// The groups of the first network's first row.
const FIRST_GROUP: &str = r#"[{"out":"b","ops":[["push","s10"]]}]"#;

const SECOND_GROUP: &str = r#"[{"out":"c","ops":[["push","s10"],["push","30"]]}]"#;

const BOTH_GROUPS: &str =
    r#"[{"out":"b","ops":[["push","s10"]]}],[{"out":"c","ops":[["push","s10"],["push","30"]]}]"#;

const VERSION: (&str, &str) = ("mpls-whatif-1", "mpls-whatif-2");

// The first link is undefined at once.
const N5: Changes = &[(FIRST_GROUP, r#"[{"out":"b","ops":[["push","30"]]}]"#)];

// The second operation of the backup isn't defined.
const N9: Changes = &[(
    SECOND_GROUP,
    r#"[{"out":"c","ops":[["push","s10"],["push","s10"]]}]"#,
)];

// One group has a member that is defined, and one that isn't.
const N10: Changes = &[(
    BOTH_GROUPS,
    r#"[{"out":"b","ops":[["push","s10"]]},{"out":"c","ops":[["push","30"]]}]"#,
)];

// The last of as many operations as an entry may have isn't defined.
const LAST_OF_EIGHT: Changes = &[(
    FIRST_GROUP,
    r#"[{"out":"b","ops":[["push","s10"],["push","30"],["pop"],["push","30"],["pop"],["push","30"],["pop"],["push","s10"]]}]"#,
)];

// What comes back to a may go on over the link that it needed to have failed, by an operation that isn't defined.
const N11: Changes = &[(
    r#"[[{"out":"b","ops":[["pop"]]}]]}]}"#,
    r#"[[{"out":"b","ops":[["swap","s10"]]}],[{"out":"c","ops":[["swap","30"]]}]]}]}"#,
)];

// The same, where that link and the one back are one risk group.
const N11_SHARED: Changes = &[
    (
        r#"[[{"out":"b","ops":[["pop"]]}]]}]}"#,
        r#"[[{"out":"b","ops":[["swap","s10"]]}],[{"out":"c","ops":[["swap","30"]]}]]}]}"#,
    ),
    VERSION,
    (
        r#""to":"b","in":"a","distance":1"#,
        r#""to":"b","in":"a","distance":1,"group":"fiber""#,
    ),
    (
        r#""to":"a","in":"c2","distance":1"#,
        r#""to":"a","in":"c2","distance":1,"group":"fiber""#,
    ),
];

// The backup lies in the cable by which packets come.
const N12: Changes = &[
    VERSION,
    (
        r#""to":"a","in":"x","distance":1"#,
        r#""to":"a","in":"x","distance":1,"group":"fiber""#,
    ),
    (
        r#""to":"c","in":"a","distance":2"#,
        r#""to":"c","in":"a","distance":2,"group":"fiber""#,
    ),
];

// The undefined member is on the link of the group before it.
const N13: Changes = &[(
    BOTH_GROUPS,
    r#"[{"out":"b","ops":[["push","s10"]]}],[{"out":"b","ops":[["push","30"]]}],[{"out":"c","ops":[["push","s10"],["push","30"]]}]"#,
)];

// What leaves has an entry, which has no group.
const WITHOUT_GROUPS: Changes = &[(
    r#"[[{"out":"y","ops":[["pop"]]}]]}]}"#,
    r#"[[{"out":"y","ops":[["pop"]]}]]},{"at":"y","in":"b","label":"ip1","groups":[]}]}"#,
)];

const NO_OF_ONE: &str = "1<answer: no\nnodes: 1\n><>";

const NO_OF_THREE: &str = "1<answer: no\nnodes: 3\n><>";

// Whatever leaves the network is dropped there.
const LEAVES: &str =
    "0<answer: yes\nweight: 3 3 0 1\neffort: 8\nfailed: none\nmoving: yes\nlinks: 3\nx.o#a.x | ip1\na.b#b.a | s10 ip1 | group 1 member 1\nb.y#y.b | ip1 | group 1 member 1\ndropped: no group\n><>";

const LOST_AT_B: &str =
    "0<answer: yes\nweight: none\neffort: 8\nfailed: b.y#y.b\nmoving: yes\nlinks: 2\nx.o#a.x | ip1\na.b#b.a | s10 ip1 | group 1 member 1\ndropped: no active group\n><>";

// An example that a network is made of.
#[derive(Clone, Copy)]
enum Base {
    N1,
    N3,
    N6,
}

fn text_of(base: Base) -> &'static str {
    match base {
        Base::N1 => n1(),
        Base::N3 => n3(),
        Base::N6 => n6(),
    }
}

// A network file and its changes, a query, weights where there are some, and what the program is to end with.
type Row<'a> = (Base, Changes<'a>, &'a str, Option<&'a str>, &'a str);

const VERIFIED: &[Row] = &[
    (
        Base::N1,
        &[],
        "<ip1> [x#a] [^ .#y]* drop 1",
        None,
        LOST_AT_B,
    ),
    (
        Base::N1,
        &[],
        "<ip1> [x#a] [^ .#y]* drop 1",
        Some("Failures"),
        "0<answer: yes\nweight: 1\neffort: 8\nfailed: b.y#y.b\nmoving: yes\nlinks: 2\nx.o#a.x | ip1\na.b#b.a | s10 ip1 | group 1 member 1\ndropped: no active group\n><>",
    ),
    (
        Base::N1,
        &[],
        "<ip1> [x#a] [^ .#y]* drop 0",
        None,
        ENDED_WITH_NO,
    ),
    (
        Base::N1,
        &[],
        "<ip1> [x#a] [^ .#y]* drop 0 down [b#y]",
        None,
        LOST_AT_B,
    ),
    (
        Base::N1,
        &[],
        "<ip1> [x#a] [^ .#y]* drop 1 up [b#y]",
        None,
        "2<answer: inconclusive\nweight: none\neffort: 10\nneeds: a.b#b.a c.b#b.c\ncause: needs 2, allowed 1\nmoving: yes\nlinks: 2\nx.o#a.x | ip1\na.c#c.a | 30 s10 ip1 | group 2 member 1\ndropped: no active group\n><>",
    ),
    (
        Base::N1,
        &[],
        "<ip1> [x#a] .* drop 0",
        Some("Links, Distance, Failures, Tunnels"),
        LEAVES,
    ),
    (
        Base::N1,
        WITHOUT_GROUPS,
        "<ip1> [x#a] .* drop 0",
        Some("Links, Distance, Failures, Tunnels"),
        LEAVES,
    ),
    (
        Base::N1,
        N5,
        "<ip1> [x#a] drop 0",
        None,
        "0<answer: yes\nweight: none\neffort: 6\nfailed: none\nmoving: yes\nlinks: 1\nx.o#a.x | ip1\ndropped: group 1 member 1 operation 1 undefined\n><>",
    ),
    (
        Base::N1,
        N9,
        "<ip1> [x#a] drop 1",
        Some("Failures, Tunnels, Links"),
        "0<answer: yes\nweight: 1 0 1\neffort: 8\nfailed: a.b#b.a\nmoving: yes\nlinks: 1\nx.o#a.x | ip1\ndropped: group 2 member 1 operation 2 undefined\n><>",
    ),
    (
        Base::N1,
        N9,
        "<ip1> [x#a] drop 0",
        Some("Failures, Tunnels, Links"),
        ENDED_WITH_NO,
    ),
    (
        Base::N1,
        N10,
        "<ip1> [x#a] [^ .#y]* drop 0",
        None,
        "0<answer: yes\nweight: none\neffort: 6\nfailed: none\nmoving: yes\nlinks: 1\nx.o#a.x | ip1\ndropped: group 1 member 2 operation 1 undefined\n><>",
    ),
    // The undefined member's link is down, and the other one leads on.
    (
        Base::N1,
        N10,
        "<ip1> [x#a] [^ .#y]* drop 0 down [a#c]",
        None,
        ENDED_WITH_NO,
    ),
    // The link of the member that is defined is down.
    (
        Base::N1,
        N10,
        "<ip1> [x#a] [^ .#y]* drop 0 down [a#b]",
        None,
        "0<answer: yes\nweight: none\neffort: 6\nfailed: a.b#b.a\nmoving: yes\nlinks: 1\nx.o#a.x | ip1\ndropped: group 1 member 2 operation 1 undefined\n><>",
    ),
    (
        Base::N1,
        LAST_OF_EIGHT,
        "<ip1> [x#a] drop 0",
        None,
        "0<answer: yes\nweight: none\neffort: 14\nfailed: none\nmoving: yes\nlinks: 1\nx.o#a.x | ip1\ndropped: group 1 member 1 operation 8 undefined\n><>",
    ),
    (
        Base::N6,
        &[],
        "<ip1> [x#a] [^ .#y]* drop 1",
        None,
        "2<answer: inconclusive\nweight: none\neffort: 8\nneeds: a.b#b.a b.y#y.b\ncause: uses a.b#b.a\nmoving: yes\nlinks: 2\nx.o#a.x | ip1\na.b#b.a | s10 ip1 | group 1 member 1\ndropped: no active group\n><>",
    ),
    (
        Base::N6,
        &[],
        "<ip1> [x#a] [^ .#y]* drop 1",
        Some("Failures"),
        "2<answer: inconclusive\nweight: 1\neffort: 8\nneeds: a.b#b.a b.y#y.b\ncause: uses a.b#b.a\nmoving: yes\nlinks: 2\nx.o#a.x | ip1\na.b#b.a | s10 ip1 | group 1 member 1\ndropped: no active group\n><>",
    ),
    (
        Base::N1,
        N12,
        "<ip1> [x#a] drop 2",
        None,
        "2<answer: inconclusive\nweight: none\neffort: 6\nneeds: x.o#a.x a.b#b.a a.c#c.a\ncause: uses x.o#a.x\nmoving: yes\nlinks: 1\nx.o#a.x | ip1\ndropped: no active group\n><>",
    ),
    (Base::N1, N12, "<ip1> [x#a] drop 1", None, ENDED_WITH_NO),
    (Base::N1, N13, "<ip1> [x#a] drop 1", None, ENDED_WITH_NO),
    // The end's own link must have failed.
    (
        Base::N3,
        N11,
        "<ip1> [x#a] [a#c] [c#a] drop 1",
        None,
        "2<answer: inconclusive\nweight: none\neffort: 11\nneeds: a.b#b.a\ncause: uses a.b#b.a\nmoving: yes\nlinks: 3\nx.o#a.x | ip1\na.c#c.a | 30 s10 ip1 | group 2 member 1\nc.a2#a.c2 | 31 s10 ip1 | group 1 member 1\ndropped: group 1 member 1 operation 1 undefined\n><>",
    ),
    (
        Base::N3,
        N11,
        "<ip1> [x#a] [a#c] [c#a] drop 0",
        None,
        ENDED_WITH_NO,
    ),
    (
        Base::N3,
        N11_SHARED,
        "<ip1> [x#a] [a#c] [c#a] drop 1",
        None,
        "2<answer: inconclusive\nweight: none\neffort: 11\nneeds: a.b#b.a c.a2#a.c2\ncause: uses c.a2#a.c2\nmoving: yes\nlinks: 3\nx.o#a.x | ip1\na.c#c.a | 30 s10 ip1 | group 2 member 1\nc.a2#a.c2 | 31 s10 ip1 | group 1 member 1\ndropped: group 1 member 1 operation 1 undefined\n><>",
    ),
    (
        Base::N1,
        &[],
        "<ip1> [x#a] [^ .#y]* drop 65535 up [b#y, a#b, a#c]",
        None,
        ENDED_WITH_NO,
    ),
    (
        Base::N1,
        &[],
        "<ip1> [x#a] [^ .#y]* drop 65535 up [b#y]",
        None,
        "0<answer: yes\nweight: none\neffort: 6\nfailed: a.b#b.a a.c#c.a\nmoving: yes\nlinks: 1\nx.o#a.x | ip1\ndropped: no active group\n><>",
    ),
];

const EXACT: &[Row] = &[
    (
        Base::N1,
        &[],
        "<ip1> [x#a] [^ .#y]* drop 1 up [b#y]",
        None,
        NO_OF_THREE,
    ),
    (
        Base::N6,
        &[],
        "<ip1> [x#a] [^ .#y]* drop 1",
        Some("Failures"),
        "0<answer: yes\nweight: 2\neffort: 10\nfailed: a.b#b.a b.y#y.b\nnodes: 3\nlinks: 3\nx.o#a.x | ip1\na.c#c.a | 30 s10 ip1 | group 2 member 1\nc.b#b.c | s10 ip1 | group 1 member 1\ndropped: no active group\n><>",
    ),
    (Base::N1, N12, "<ip1> [x#a] drop 2", None, NO_OF_THREE),
    (
        Base::N3,
        N11,
        "<ip1> [x#a] [a#c] [c#a] drop 1",
        None,
        NO_OF_THREE,
    ),
    (
        Base::N1,
        &[],
        "<ip1> [x#a] drop 0 down [a#b]",
        None,
        NO_OF_ONE,
    ),
];

// What a command ends with, with weights where there are some.
fn asked<'w>(
    alloc: Global,
    words: &[&'w str],
    weights: Option<&'w str>,
    shelf: &mut MemoryShelf,
) -> Result<String, Fail> {
    let mut all = Vec::from_slice(alloc, words)?;
    if let Some(text) = weights {
        all.push("--weights")?;
        all.push(text)?;
    }
    let said = ran(alloc, all.as_slice(), shelf);
    drop(all);
    said
}

// A shelf with the network under `n`.
fn shelf_of(alloc: Global, base: Base, changes: Changes) -> Result<MemoryShelf, Fail> {
    let text = changed(alloc, text_of(base), changes)?;
    let shelf = shelf_with(alloc, text.as_bytes());
    drop(text);
    shelf
}

// What a command ends with that stores what shows its answer, and whether that is accepted by another.
fn stored_and_checked(
    alloc: Global,
    command: &str,
    checker: &str,
    row: &Row,
) -> Result<(String, bool), Fail> {
    let (base, changes, query, weights, _) = row;
    let mut shelf = shelf_of(alloc, *base, changes)?;
    let words = ["whatif", command, "n", query, "--certificate", "c"];
    let said = match asked(alloc, &words, *weights, &mut shelf) {
        Ok(said) => said,
        Err(fail) => {
            drop(shelf);
            return Err(fail);
        }
    };
    let words = ["whatif", checker, "n", query, "c"];
    let checked = asked(alloc, &words, *weights, &mut shelf);
    drop(shelf);
    match checked {
        Ok(text) => {
            let accepted = text.starts_with("0<accepted: ");
            drop(text);
            Ok((said, accepted))
        }
        Err(fail) => {
            drop(said);
            Err(fail)
        }
    }
}

// A command ends as it is to, and what it stores is accepted by another.
fn is_answered(
    rt: &impl Abort,
    alloc: Global,
    command: &str,
    checker: &str,
    row: &Row,
) -> Result<(), Fail> {
    let (said, accepted) = stored_and_checked(alloc, command, checker, row)?;
    is_said(rt, Ok(said), row.4)?;
    assert!(rt; accepted);
    Ok(())
}

#[test]
fn packets_may_be_dropped(rt: HostRuntime) -> Result<(), Fail> {
    for row in VERIFIED {
        is_answered(&rt, rt.alloc(), "verify", "check", row)?;
    }
    Ok(())
}

#[test]
fn packets_may_be_dropped_by_failures_that_stay(rt: HostRuntime) -> Result<(), Fail> {
    for row in EXACT {
        is_answered(&rt, rt.alloc(), "exact", "check-exact", row)?;
    }
    Ok(())
}

// Three hundred labels, which no row is for.
#[test]
fn a_high_stack_is_dropped(rt: HostRuntime) -> Result<(), Fail> {
    let more = "30 ".repeat(rt.alloc(), 298)?;
    let query = format!(in rt.alloc(); "<{more}s10 ip1> [x#a] drop 0")?;
    let wanted = format!(in rt.alloc();
        "0<answer: yes\nweight: none\neffort: 604\nfailed: none\nmoving: yes\nlinks: 1\nx.o#a.x | {more}s10 ip1\ndropped: no group\n><>"
    )?;
    drop(more);
    let said = is_answered(
        &rt,
        rt.alloc(),
        "verify",
        "check",
        &(Base::N1, &[], &query, None, &wanted),
    );
    drop(query);
    drop(wanted);
    said
}

// A network and its changes, words, and what they are to end with.
type Said<'a> = (Base, Changes<'a>, &'a [&'a str], &'a str);

const SAID: &[Said] = &[
    (
        Base::N1,
        &[],
        &[
            "whatif",
            "tolerate",
            "n",
            "<ip1> [x#a] [^ .#y]* drop 0",
            "3",
        ],
        "0<least: 1\nanswer: yes\nweight: none\neffort: 8\nfailed: b.y#y.b\nnodes: 1\nlinks: 2\nx.o#a.x | ip1\na.b#b.a | s10 ip1 | group 1 member 1\ndropped: no active group\n><>",
    ),
    (
        Base::N1,
        &[],
        &[
            "whatif",
            "tolerate",
            "n",
            "<ip1> [x#a] [^ .#y]* drop 0",
            "0",
        ],
        "1<least: none up to 0\n><>",
    ),
    (
        Base::N1,
        &[],
        &[
            "whatif",
            "tolerate",
            "n",
            "<ip1> [x#a] [^ .#y]* drop 0 up [b#y]",
            "3",
        ],
        "0<least: 2\nanswer: yes\nweight: none\neffort: 6\nfailed: a.b#b.a a.c#c.a\nnodes: 1\nlinks: 1\nx.o#a.x | ip1\ndropped: no active group\n><>",
    ),
    (
        Base::N1,
        &[("\"s10\"", "\"s100\"")],
        &["whatif", "packets", "n", "<ip1> [x#a] [^ .#y]* drop 1"],
        "0<answer: yes\nweight: none\neffort: 8\nfailed: b.y#y.b\nmoving: yes\nlinks: 2\nx.o#a.x | ip1\na.b#b.a | s100 ip1 | group 1 member 1\ndropped: no active group\npacket 1: ip1\npacket 2: 00064140 ip1\n><>",
    ),
    // Texts that aren't queries.
    (
        Base::N1,
        &[],
        &["whatif", "verify", "n", "<ip1> [x#a] drop"],
        "4<><query: byte 16: syntax\n>",
    ),
    (
        Base::N1,
        &[],
        &["whatif", "verify", "n", "<ip1> [x#a] drop0"],
        "4<><query: byte 16: syntax\n>",
    ),
    (
        Base::N1,
        &[],
        &["whatif", "verify", "n", "<ip1> [x#a] drop <ip1> 0"],
        "4<><query: byte 17: syntax\n>",
    ),
    (
        Base::N1,
        &[],
        &["whatif", "verify", "n", "<ip1> [x#a] drop down [a#b] 0"],
        "4<><query: byte 17: syntax\n>",
    ),
    (
        Base::N1,
        &[],
        &["whatif", "verify", "n", "<ip1> [x#a] <ip1> drop 0"],
        "4<><query: byte 18: syntax\n>",
    ),
    (
        Base::N1,
        &[],
        &["whatif", "verify", "n", "<ip1> [x#a] \"drop\" 0"],
        "4<><query: byte 12: syntax\n>",
    ),
    (
        Base::N1,
        &[],
        &["whatif", "verify", "n", "<ip1> [x#a] drop 65536"],
        "4<><query: byte 17: over the limit 65535\n>",
    ),
];

fn ends(rt: &impl Abort, alloc: Global, row: &Said) -> Result<(), Fail> {
    let (base, changes, words, wanted) = row;
    let mut shelf = shelf_of(alloc, *base, changes)?;
    let said = ran(alloc, words, &mut shelf);
    drop(shelf);
    is_said(rt, said, wanted)
}

#[test]
fn commands_that_ask_for_dropped_packets(rt: HostRuntime) -> Result<(), Fail> {
    for row in SAID {
        ends(&rt, rt.alloc(), row)?;
    }
    Ok(())
}

// What asks for packets that are dropped by the backup's operations.
const BY_OPERATIONS: &str = "<ip1> [x#a] drop 0 down [a#b]";

// The certificate of its yes where the second of these isn't defined, and that of its no where both are.
const YES: &str =
    "mpls-whatif-certificate 2\nterms 0\nanswer yes\nweight 8\nfirst 0 2\nsteps 0\ndrop 2 1\nheads 8\n0 0\n2 3\n3 0\n4 2\n5 0\n5 3\n7 3\n93 2\npairs 2\n2 3\n3 0\nrows 7\n2 3 5 5\n3 0 1 7\n4 2 5 1\n5 0 1 1\n5 3 5 1\n7 3 5 4\n93 2 5 2\nend\n";

const NO: &str =
    "mpls-whatif-certificate 2\nterms 0\nanswer no\nweight none\nfirst none\nsteps 0\ndrop none\nheads 5\n0 0\n2 3\n3 0\n7 3\n93 2\npairs 2\n2 3\n3 0\nrows 0\nend\n";

const TREE_OF_NO: &str =
    "mpls-whatif-tree 2\nterms 0\nanswer no\nweight none\nfirst none\nsteps 0\ndrop none\nnodes 1\nclosed\nheads 5\n0 0\n2 3\n3 0\n7 3\n93 2\npairs 2\n2 3\n3 0\nrows 0\nend\n";

// Another query's, which asks for arrival.
const ARRIVED: &str =
    "mpls-whatif-certificate 1\nterms 0\nanswer yes\nweight 8\nfirst 1 1 2\nsteps 0\nheads 8\n0 0\n2 2\n3 3\n4 0\n5 2\n6 3\n7 0\n11 2\npairs 2\n2 3\n3 0\nrows 7\n2 2 6 3\n3 3 7 5\n4 0 1 7\n5 2 6 1\n6 3 7 1\n7 0 1 1\n11 2 6 2\nend\n";

// A command, a network's changes, and the text that it stores.
const STORED: &[(&str, Changes, &str)] = &[
    ("verify", N9, YES),
    ("verify", &[], NO),
    ("exact", &[], TREE_OF_NO),
];

fn is_stored(alloc: Global, command: &str, changes: Changes, text: &str) -> Result<bool, Fail> {
    let mut shelf = shelf_of(alloc, Base::N1, changes)?;
    let words = ["whatif", command, "n", BY_OPERATIONS, "--certificate", "c"];
    let said = ran(alloc, &words, &mut shelf);
    let is = shelf.get("c") == Some(text.as_bytes());
    drop(shelf);
    drop(said?);
    Ok(is)
}

#[test]
fn what_is_stored_of_dropped_packets(rt: HostRuntime) -> Result<(), Fail> {
    for (command, changes, text) in STORED {
        let is = is_stored(rt.alloc(), command, changes, text)?;
        assert!(rt; is);
    }
    Ok(())
}

// A network's changes, a certificate and its changes, a query, weights where there are some, and what `check` is to end with.
type Judged<'a> = (
    Changes<'a>,
    &'a str,
    Changes<'a>,
    &'a str,
    Option<&'a str>,
    &'a str,
);

const ACCEPTED: &str = "0<accepted: yes\n><>";

const ACCEPTED_NO: &str = "0<accepted: no\n><>";

const OF_ANOTHER_QUESTION: &str = "8<><certificate: of another question\n>";

const LINE_7: &str = "8<><certificate: line 7\n>";

const NOT_IN_TABLE: &str = "8<><certificate: step 1 not in table\n>";

const JUDGED: &[Judged] = &[
    (N9, YES, &[], BY_OPERATIONS, None, ACCEPTED),
    (&[], NO, &[], BY_OPERATIONS, None, ACCEPTED_NO),
    (&[], ARRIVED, &[], BY_OPERATIONS, None, OF_ANOTHER_QUESTION),
    (
        N9,
        YES,
        &[],
        "<ip1> [x#a] <.*> 0 down [a#b]",
        None,
        OF_ANOTHER_QUESTION,
    ),
    (
        &[],
        ARRIVED,
        &[],
        BY_OPERATIONS,
        Some("Hops"),
        OF_ANOTHER_QUESTION,
    ),
    (
        N9,
        YES,
        &[],
        "<ip1> [x#a] <.*> 0 down [a#b]",
        Some("Hops"),
        OF_ANOTHER_QUESTION,
    ),
    (
        N9,
        YES,
        &[],
        BY_OPERATIONS,
        Some("Hops"),
        "8<><certificate: terms shown 0, asked 1\n>",
    ),
    (N9, YES, &[("drop 2 1\n", "")], BY_OPERATIONS, None, LINE_7),
    (&[], NO, &[("drop none\n", "")], BY_OPERATIONS, None, LINE_7),
    (
        N9,
        YES,
        &[("mpls-whatif-certificate 2", "mpls-whatif-certificate 1")],
        BY_OPERATIONS,
        None,
        LINE_7,
    ),
    (
        N9,
        YES,
        &[("drop 2 1", "drop none")],
        BY_OPERATIONS,
        None,
        LINE_7,
    ),
    (
        N9,
        YES,
        &[("drop 2 1", "drop 0 1")],
        BY_OPERATIONS,
        None,
        LINE_7,
    ),
    (
        &[],
        NO,
        &[("drop none", "drop inactive")],
        BY_OPERATIONS,
        None,
        LINE_7,
    ),
    (
        N9,
        YES,
        &[("drop 2 1", "drop inactive")],
        BY_OPERATIONS,
        None,
        NOT_IN_TABLE,
    ),
    (
        N9,
        YES,
        &[("drop 2 1", "drop 1 1")],
        BY_OPERATIONS,
        None,
        NOT_IN_TABLE,
    ),
    (
        N9,
        YES,
        &[("drop 2 1", "drop 2 2")],
        BY_OPERATIONS,
        None,
        NOT_IN_TABLE,
    ),
    (
        N9,
        YES,
        &[("steps 0\n", "steps 1\n2 1\n")],
        BY_OPERATIONS,
        None,
        NOT_IN_TABLE,
    ),
    (&[], YES, &[], BY_OPERATIONS, None, NOT_IN_TABLE),
    (
        N9,
        YES,
        &[("weight 8", "weight 9")],
        BY_OPERATIONS,
        None,
        "8<><certificate: weight shown 9, counted 8\n>",
    ),
    (
        N9,
        YES,
        &[("heads 8", "heads 7"), ("93 2\npairs", "pairs")],
        BY_OPERATIONS,
        None,
        "8<><certificate: head 93 2 missing\n>",
    ),
    (
        N9,
        YES,
        &[("rows 7", "rows 6"), ("93 2 5 2\n", "")],
        BY_OPERATIONS,
        None,
        "8<><certificate: not closed at 93 2 to 5, sum 2\n>",
    ),
    (
        &[],
        NO,
        &[
            ("heads 5", "heads 7"),
            ("93 2\npairs", "93 0\n93 2\n95 2\npairs"),
        ],
        BY_OPERATIONS,
        None,
        ACCEPTED_NO,
    ),
    // A no that leaves the rows out that the end's failures weigh: the first rule that demands one is that of no active group.
    (
        &[(BOTH_GROUPS, r#"[{"out":"b","ops":[["push","30"]]}]"#)],
        "mpls-whatif-certificate 2\nterms 1\nanswer no\nweight none\nfirst none\nsteps 0\ndrop none\nheads 6\n0 0\n2 3\n3 0\n4 3\n5 0\n7 3\npairs 1\n3 0\nrows 2\n4 3 5 0 1\n5 0 1 0 1\nend\n",
        &[],
        "<ip1> [x#a] drop 1",
        Some("Failures"),
        "8<><certificate: not closed at 7 3 to 5, sum 1 2\n>",
    ),
];

// What `check` of a changed certificate ends with.
fn judged(alloc: Global, row: &Judged) -> Result<String, Fail> {
    let (network, certificate, changes, query, weights, _) = row;
    let text = changed(alloc, certificate, changes)?;
    let mut shelf = match shelf_of(alloc, Base::N1, network) {
        Ok(shelf) => shelf,
        Err(fail) => {
            drop(text);
            return Err(fail);
        }
    };
    let put = shelf.insert("c", text.as_bytes());
    drop(text);
    if let Err(fail) = put {
        drop(shelf);
        return Err(fail.into());
    }
    let words = ["whatif", "check", "n", query, "c"];
    let said = asked(alloc, &words, *weights, &mut shelf);
    drop(shelf);
    said
}

#[test]
fn certificates_of_dropped_packets(rt: HostRuntime) -> Result<(), Fail> {
    for row in JUDGED {
        let said = judged(rt.alloc(), row);
        is_said(&rt, said, row.5)?;
    }
    Ok(())
}
