//! Files and texts with faults, each told by its place.
use crate::called::{
    Case, ENDED_WITH_NO, begins, cases_are, is_said, is_said_between, ran, verified, verified_with,
};
use crate::samples::{n1, n6};
use std::alloc::{AllocError, Global};
use std::test::Fail;
use wi_base::MemoryShelf;

const GOOD: &str = "<ip1> .* <ip1> 0";

const FAULTS_OF_QUERIES_AND_WEIGHTS: &[Case] = &[
    (
        "<nope> . <ip> 0",
        None,
        "4<><query: byte 1: unknown label nope\n>",
    ),
    ("<ip1> .* <ip1>", None, "4<><query: byte 14: syntax\n>"),
    ("<ip1> .* <ip1> 007", None, "4<><query: byte 16: syntax\n>"),
    ("", None, "4<><query: byte 0: syntax\n>"),
    (
        "<ip1> .* <ip1> 65536",
        None,
        "4<><query: byte 15: over the limit 65535\n>",
    ),
    (
        "<ip1> [x#nope] <ip1> 0",
        None,
        "4<><query: byte 9: unknown router nope\n>",
    ),
    (
        "<ip1> [x.p#a] <ip1> 0",
        None,
        "4<><query: byte 9: unknown interface p\n>",
    ),
    (GOOD, Some("Hops,"), "5<><weights: byte 5: syntax\n>"),
    (GOOD, Some(""), "5<><weights: byte 0: syntax\n>"),
    (
        GOOD,
        Some("Speed"),
        "5<><weights: byte 0: unknown quantity Speed\n>",
    ),
    (
        GOOD,
        Some("Links,Links,Links,Links,Links,Links"),
        "5<><weights: 6 terms or parts, limit 5\n>",
    ),
    (
        GOOD,
        Some("65536*Hops"),
        "5<><weights: byte 0: over the limit 65535\n>",
    ),
    // The query comes before the weights.
    ("", Some("Speed"), "4<><query: byte 0: syntax\n>"),
    // It can't be decided, either; but a text with a fault asks nothing.
    (
        "<ip1> .* <ip1> 0 down [a#b] up [a#b]",
        Some(""),
        "4<><query: link a.b#b.a both down and up\n>",
    ),
];

#[test]
fn faults_of_queries_and_weights(rt: HostRuntime) -> Result<(), Fail> {
    cases_are(&rt, rt.alloc(), n1(), FAULTS_OF_QUERIES_AND_WEIGHTS)
}

// A query whose path has so many links, with some white space at its end.
fn long_query(alloc: Global, links: usize, spaces: usize) -> Result<String, AllocError> {
    let mut query = String::from_str(alloc, "<ip1> ")?;
    for _ in 0..links {
        query.push('.')?;
    }
    query.push_str(" <ip1> 0")?;
    for _ in 0..spaces {
        query.push(' ')?;
    }
    Ok(query)
}

// What `verify` ends with for a query of so many links and spaces.
fn verified_long(alloc: Global, links: usize, spaces: usize) -> Result<String, Fail> {
    let query = long_query(alloc, links, spaces)?;
    let said = verified(alloc, n1().as_bytes(), query.as_str());
    drop(query);
    said
}

// How many links and spaces a query has, and what is said.
const LIMITS: &[(usize, usize, &str)] = &[
    (512, 0, ENDED_WITH_NO),
    (
        513,
        0,
        "4<><query: expression 2 has 513 positions, limit 512\n>",
    ),
    // `<ip1> . <ip1> 0` has 15 bytes
    (1, 4082, "4<><query: 4097 bytes, limit 4096\n>"),
];

#[test]
fn the_limits_of_a_query(rt: HostRuntime) -> Result<(), Fail> {
    for (links, spaces, wanted) in LIMITS {
        let said = verified_long(rt.alloc(), *links, *spaces);
        is_said(&rt, said, wanted)?;
    }
    // One byte less, and there is an answer. Each link is a least run, so no more is said of it.
    let said = verified_long(rt.alloc(), 1, 4081);
    begins(
        &rt,
        said,
        "0<answer: yes\nweight: none\neffort: 6\nfailed: none\nmoving: yes\nlinks: 1\n",
    )
}

#[test]
fn faults_of_the_network_file(rt: HostRuntime) -> Result<(), Fail> {
    let query = "<ip1> [x#a] <ip1> 0";
    let said = verified(rt.alloc(), b"", query);
    is_said(&rt, said, "3<><network: file: not JSON\n>")?;
    let said = verified(rt.alloc(), b"{}", query);
    is_said(&rt, said, "3<><network: format: wrong shape\n>")
}

#[test]
fn the_name_of_a_risk_group_is_a_text(rt: HostRuntime) -> Result<(), Fail> {
    let text = n6().replace(rt.alloc(), r#""group":"fiber""#, r#""group":5"#)?;
    let said = verified(rt.alloc(), text.as_bytes(), "<ip1> . <ip1> 0");
    drop(text);
    is_said(&rt, said, "3<><network: links[1].group: wrong shape\n>")
}

#[test]
fn a_file_of_67108865_bytes_is_too_long(rt: HostRuntime) -> Result<(), Fail> {
    let bytes = vec![in rt.alloc(); b'x'; 67_108_865]?;
    let said = verified(rt.alloc(), bytes.as_slice(), "<ip1> [x#a] <ip1> 0");
    drop(bytes);
    is_said(&rt, said, "3<><network: file: over the limit 67108864\n>")
}

// The first network with three faults.
fn with_three_faults(alloc: Global) -> Result<String, AllocError> {
    let text = n1().replace(alloc, r#""in":"c","distance""#, r#""in":"a","distance""#)?;
    let empty = text.replace(
        alloc,
        r#"[[{"out":"y","ops":[["pop"]]}]]},{"at":"c""#,
        r#"[[]]},{"at":"c""#,
    );
    drop(text);
    let text = empty?;
    let unknown = text.replace(alloc, r#""label":"30""#, r#""label":"nope""#);
    drop(text);
    unknown
}

#[test]
fn the_first_fault_alone_is_said(rt: HostRuntime) -> Result<(), Fail> {
    let text = with_three_faults(rt.alloc())?;
    let said = verified(rt.alloc(), text.as_bytes(), "<ip1> [x#a] <ip1> 0");
    drop(text);
    is_said(&rt, said, "3<><network: links[3].in: interface taken\n>")
}

// What stands in the first network, what stands in its place, and what is said.
const PLACES: &[(&str, &str, &str)] = &[
    (r#""c","y"]"#, r#""c","c"]"#, "routers[4]: repeated router"),
    (
        r#""smpls":["s10"]"#,
        r#""smpls":5"#,
        "labels.smpls: wrong shape",
    ),
    (
        r#""mpls":["30"],"#,
        r#""mpls":["30","30"],"#,
        "labels.mpls[1]: repeated label",
    ),
    (
        r#""from":"x""#,
        r#""from":"z""#,
        "links[0].from: unknown router",
    ),
    (
        r#""label":"s10""#,
        r#""label":"s11""#,
        "tables[1].label: unknown label",
    ),
    (
        r#"[{"out":"c","ops""#,
        r#"[{"out":"z","ops""#,
        "tables[0].groups[1][0].out: unknown interface",
    ),
    (
        r#"["push","30"]"#,
        r#"["push","31"]"#,
        "tables[0].groups[1][0].ops[1]: unknown label",
    ),
    (
        r#""mpls-whatif-1""#,
        r#""mpls-whatif-3""#,
        "format: unknown format",
    ),
];

#[test]
fn places_of_faults(rt: HostRuntime) -> Result<(), Fail> {
    for (old, new, wanted) in PLACES {
        let said = verified_with(rt.alloc(), old, new, "<ip1> [x#a] <ip1> 0");
        is_said_between(&rt, said, "3<><network: ", wanted, "\n>")?;
    }
    Ok(())
}

// What is said of words that are no command.
const USAGE: &str =
    "9<><usage: whatif verify NETWORK QUERY [--weights W] [--certificate FILE]\n       whatif check NETWORK QUERY CERTIFICATE [--weights W]\n       whatif play NETWORK SCRIPT K\n       whatif gen SEED SIZE\n       whatif exact NETWORK QUERY [--weights W] [--certificate FILE]\n       whatif check-exact NETWORK QUERY CERTIFICATE [--weights W]\n       whatif tolerate NETWORK QUERY LIMIT [--weights W] [--certificate FILE]\n       whatif protect PLAN\n       whatif packets NETWORK QUERY [--weights W]\n       whatif stack HEX\n       whatif audit NETWORK POLICIES [--given TEXT]\n       whatif outages NETWORK POLICIES [--given TEXT] [--routers]\n       whatif bypass PLAN\n       whatif draw NETWORK [QUERY [--weights W]]\n>";

const NO_COMMANDS: &[&[&str]] = &[
    &[],
    &["whatif"],
    &["whatif", "--help"],
    &["whatif", "verify"],
    &["whatif", "verify", "n"],
    &["whatif", "verify", "n", "q", "w"],
    &["whatif", "check", "n", "q"],
    &["whatif", "verify", "-n", "q"],
    &["whatif", "tolerate", "n", "q"],
    &["whatif", "tolerate", "n", "q", "65536"],
    &["whatif", "tolerate", "n", "q", "01"],
    &["whatif", "tolerate", "n", "q", "+1"],
    &["whatif", "tolerate", "n", "q", ""],
    &["whatif", "tolerate", "n", "q", "1", "c"],
    &["whatif", "protect"],
    &["whatif", "protect", "n", "m"],
    &["whatif", "verify", "n", "--weights"],
    &["whatif", "verify", "n", "q", "--certificate"],
    &["whatif", "play", "n", "s"],
    &["whatif", "play", "n", "s", "65536"],
    &["whatif", "play", "n", "s", "007"],
    &["whatif", "gen", "1", "3"],
];

#[test]
fn words_that_are_no_command(rt: HostRuntime) -> Result<(), Fail> {
    for words in NO_COMMANDS {
        let mut shelf = MemoryShelf::new(rt.alloc());
        let said = ran(rt.alloc(), words, &mut shelf);
        let failed = shelf.failed().len();
        drop(shelf);
        is_said(&rt, said, USAGE)?;
        assert_eq!(rt; failed, 0);
    }
    Ok(())
}
