//! What the program answers to queries.
use crate::called::{
    Case, ENDED_WITH_NO, begins, cases_are, is_said, verified, verified_with, weighed,
};
use crate::samples::{n1, n2, n3, n6};
use std::alloc::{AllocError, Global};
use std::test::Fail;

const ROUND: &str =
    "0<answer: yes\nweight: none\neffort: 10\nfailed: a.b#b.a\nmoving: yes\nlinks: 4\nx.o#a.x | ip1\na.c#c.a | 30 s10 ip1 | group 2 member 1\nc.b#b.c | s10 ip1 | group 1 member 1\nb.y#y.b | ip1 | group 1 member 1\n><>";

const ANSWERS_ON_THE_FIRST_NETWORK: &[Case] = &[
    (
        "<ip1> [x#a] .* [b#y] <ip1> 0",
        Some("Hops"),
        "0<answer: yes\nweight: 3\neffort: 8\nfailed: none\nmoving: yes\nlinks: 3\nx.o#a.x | ip1\na.b#b.a | s10 ip1 | group 1 member 1\nb.y#y.b | ip1 | group 1 member 1\n><>",
    ),
    // The backup needs a failure.
    ("<ip1> [x#a] [a#c] .* [b#y] <ip1> 0", None, ENDED_WITH_NO),
    (
        "<ip1> [x#a] [a#c] .* [b#y] <ip1> 1",
        Some("Hops, Distance+3*Tunnels"),
        "0<answer: yes\nweight: 4 12\neffort: 10\nfailed: a.b#b.a\nmoving: yes\nlinks: 4\nx.o#a.x | ip1\na.c#c.a | 30 s10 ip1 | group 2 member 1\nc.b#b.c | s10 ip1 | group 1 member 1\nb.y#y.b | ip1 | group 1 member 1\n><>",
    ),
    (
        "<s10 ip1> [a#b]+ <smpls ip> 0",
        None,
        "0<answer: yes\nweight: none\neffort: 8\nfailed: none\nmoving: yes\nlinks: 1\na.b#b.a | s10 ip1\n><>",
    ),
    // The word is in the expression, but it is no valid header.
    ("<30 ip1> .* <.*> 0", None, ENDED_WITH_NO),
    // A link known to be down is not counted, one known to be up can't have failed, and none sets out on one that is down.
    ("<ip1> [x#a] .* [b#y] <ip1> 0 down [a#b]", None, ROUND),
    (
        "<ip1> [x#a] [a#c] .* [b#y] <ip1> 5 up [a#b]",
        None,
        ENDED_WITH_NO,
    ),
    (
        "<ip1> [x#a] .* [b#y] <ip1> 0 down [x#a]",
        None,
        ENDED_WITH_NO,
    ),
    (
        "<ip1> [x#a] .* [b#y] <ip1> 0 down [a#b] up [.#b]",
        None,
        "4<><query: link a.b#b.a both down and up\n>",
    ),
    ("<ip1> [x#a] [a#c] .* [b#y] <ip1> 65535", None, ROUND),
];

#[test]
fn answers_on_the_first_network(rt: HostRuntime) -> Result<(), Fail> {
    cases_are(&rt, rt.alloc(), n1(), ANSWERS_ON_THE_FIRST_NETWORK)
}

const ANSWERS_THAT_NEED_TWO_FAILURES: &[Case] = &[
    (
        "<ip1> [x#a] [a#c] .* [b#z] <ip1> 1",
        None,
        "2<answer: inconclusive\nweight: none\neffort: 10\nneeds: a.b#b.a b.y#y.b\ncause: needs 2, allowed 1\nmoving: yes\nlinks: 4\nx.o#a.x | ip1\na.c#c.a | 30 s10 ip1 | group 2 member 1\nc.b#b.c | s10 ip1 | group 1 member 1\nb.z#z.b | ip1 | group 2 member 1\n><>",
    ),
    (
        "<ip1> [x#a] [a#c] .* [b#z] <ip1> 2",
        None,
        "0<answer: yes\nweight: none\neffort: 10\nfailed: a.b#b.a b.y#y.b\nmoving: yes\nlinks: 4\nx.o#a.x | ip1\na.c#c.a | 30 s10 ip1 | group 2 member 1\nc.b#b.c | s10 ip1 | group 1 member 1\nb.z#z.b | ip1 | group 2 member 1\n><>",
    ),
    ("<ip1> [x#a] [a#c] .* [b#z] <ip1> 0", None, ENDED_WITH_NO),
];

#[test]
fn answers_that_need_two_failures(rt: HostRuntime) -> Result<(), Fail> {
    cases_are(&rt, rt.alloc(), n2(), ANSWERS_THAT_NEED_TWO_FAILURES)
}

#[test]
fn a_run_that_uses_a_link_it_needs_failed(rt: HostRuntime) -> Result<(), Fail> {
    let said = verified(
        rt.alloc(),
        n3().as_bytes(),
        "<ip1> [x#a] [a#c] [c#a] [a#b] .* <ip1> 5",
    );
    is_said(
        &rt,
        said,
        "2<answer: inconclusive\nweight: none\neffort: 11\nneeds: a.b#b.a\ncause: uses a.b#b.a\nmoving: yes\nlinks: 5\nx.o#a.x | ip1\na.c#c.a | 30 s10 ip1 | group 2 member 1\nc.a2#a.c2 | 31 s10 ip1 | group 1 member 1\na.b#b.a | s10 ip1 | group 1 member 1\nb.y#y.b | ip1 | group 1 member 1\n><>",
    )
}

#[test]
fn a_risk_group_is_needed_as_a_whole(rt: HostRuntime) -> Result<(), Fail> {
    let said = verified(
        rt.alloc(),
        n6().as_bytes(),
        "<ip1> [x#a] [a#c] .* [b#y] <ip1> 1",
    );
    is_said(
        &rt,
        said,
        "2<answer: inconclusive\nweight: none\neffort: 10\nneeds: a.b#b.a b.y#y.b\ncause: uses b.y#y.b\nmoving: yes\nlinks: 4\nx.o#a.x | ip1\na.c#c.a | 30 s10 ip1 | group 2 member 1\nc.b#b.c | s10 ip1 | group 1 member 1\nb.y#y.b | ip1 | group 1 member 1\n><>",
    )
}

// A network text of version 2, in which two links are in one risk group.
fn in_one_group(
    alloc: Global,
    network: &str,
    one: &str,
    other: &str,
) -> Result<String, AllocError> {
    let text = network.replace(alloc, "mpls-whatif-1", "mpls-whatif-2")?;
    let text = grouped(alloc, text, one)?;
    grouped(alloc, text, other)
}

fn grouped(alloc: Global, text: String, link: &str) -> Result<String, AllocError> {
    let with = format!(in alloc; "{link},\"group\":\"fiber\"")?;
    let changed = text.replace(alloc, link, with.as_str());
    drop(with);
    drop(text);
    changed
}

// What `verify` ends with, weighed by failures, where two links of a network are in one risk group.
fn verified_in_one_group(
    alloc: Global,
    network: &str,
    one: &str,
    other: &str,
    query: &str,
) -> Result<String, Fail> {
    let text = in_one_group(alloc, network, one, other)?;
    let said = weighed(alloc, text.as_bytes(), query, Some("Failures"));
    drop(text);
    said
}

const TO_B: &str = r#""to":"b","in":"a","distance":1"#;

const TO_Y: &str = r#""to":"y","in":"b","distance":1"#;

const TO_C: &str = r#""to":"c","in":"a","distance":2"#;

#[test]
fn risk_groups_are_counted(rt: HostRuntime) -> Result<(), Fail> {
    let query = "<ip1> [x#a] [a#c] .* [b#z] <ip1> 1";
    let said = verified_in_one_group(rt.alloc(), n2(), TO_B, TO_Y, query);
    is_said(
        &rt,
        said,
        "0<answer: yes\nweight: 2\neffort: 10\nfailed: a.b#b.a b.y#y.b\nmoving: yes\nlinks: 4\nx.o#a.x | ip1\na.c#c.a | 30 s10 ip1 | group 2 member 1\nc.b#b.c | s10 ip1 | group 1 member 1\nb.z#z.b | ip1 | group 2 member 1\n><>",
    )?;
    // The backup goes out in the cable of what it backs up.
    let query = "<ip1> [x#a] [a#c] .* [b#y] <ip1> 5";
    let said = verified_in_one_group(rt.alloc(), n1(), TO_B, TO_C, query);
    is_said(&rt, said, ENDED_WITH_NO)
}

#[test]
fn members_that_can_never_be_used(rt: HostRuntime) -> Result<(), Fail> {
    // Both groups lead onto one link.
    let said = verified_with(
        rt.alloc(),
        GROUPS,
        r#"[{"out":"b","ops":[["swap","ip1"]]}],[{"out":"b","ops":[["push","s10"]]}]"#,
        "<ip1> [x#a] [a#b] <s10 ip1> 5",
    );
    is_said(&rt, said, ENDED_WITH_NO)
}

// The groups of the first network's first row.
const GROUPS: &str =
    r#"[{"out":"b","ops":[["push","s10"]]}],[{"out":"c","ops":[["push","s10"],["push","30"]]}]"#;

// The same, the first of which is active and has an operation that is undefined.
const UNDEFINED: &str =
    r#"[{"out":"b","ops":[["push","30"]]}],[{"out":"c","ops":[["push","s10"],["push","30"]]}]"#;

#[test]
fn an_active_group_may_lead_nowhere(rt: HostRuntime) -> Result<(), Fail> {
    let query = "<ip1> [x#a] [a#c] .* [b#y] <ip1> 0";
    let said = verified_with(rt.alloc(), GROUPS, UNDEFINED, query);
    is_said(&rt, said, ENDED_WITH_NO)?;
    let query = "<ip1> [x#a] [a#c] .* [b#y] <ip1> 1";
    let said = verified_with(rt.alloc(), GROUPS, UNDEFINED, query);
    begins(
        &rt,
        said,
        "0<answer: yes\nweight: none\neffort: 10\nfailed: a.b#b.a\nmoving: yes\nlinks: 4\n",
    )
}

#[test]
fn a_least_run_is_shown(rt: HostRuntime) -> Result<(), Fail> {
    // the first member does two operations, and the second one does one
    let old = r#"[{"out":"b","ops":[["push","s10"]]}]"#;
    let new =
        r#"[{"out":"b","ops":[["push","s10"],["swap","s10"]]},{"out":"b","ops":[["push","s10"]]}]"#;
    let said = verified_with(rt.alloc(), old, new, "<ip1> [x#a] [a#b] <s10 ip1> 0");
    is_said(
        &rt,
        said,
        "0<answer: yes\nweight: none\neffort: 8\nfailed: none\nmoving: yes\nlinks: 2\nx.o#a.x | ip1\na.b#b.a | s10 ip1 | group 1 member 2\n><>",
    )
}

#[test]
fn names_that_need_quotation_marks(rt: HostRuntime) -> Result<(), Fail> {
    let said = verified_with_hyphens(rt.alloc());
    is_said(
        &rt,
        said,
        "0<answer: yes\nweight: none\neffort: 8\nfailed: none\nmoving: yes\nlinks: 2\nx.o#a.x | \"ip\"\na.\"b-1\"#\"b-1\".a | s10 \"ip\" | group 1 member 1\n><>",
    )
}

// What `verify` ends with where a label has the name of a class, and a router one with a hyphen.
fn verified_with_hyphens(alloc: Global) -> Result<String, Fail> {
    let text = n1().replace(alloc, "\"ip1\"", "\"ip\"")?;
    let hyphens = text.replace(alloc, "\"b\"", "\"b-1\"");
    drop(text);
    let text = hyphens?;
    let query = "<\"ip\"> [x#a]\t[\"a\" # \"b-1\"]\n<s10 \"ip\"> 0";
    let said = verified(alloc, text.as_bytes(), query);
    drop(text);
    said
}

// One router with a link to itself: each label d1, d2 and so on becomes two of the one before, and d0 is popped.
fn doubling(alloc: Global, most: usize) -> Result<String, AllocError> {
    let mut text = String::from_str(
        alloc,
        r#"{"format":"mpls-whatif-1","routers":["r"],"labels":{"mpls":["d0""#,
    )?;
    for number in 1..=most {
        text.push_str(",\"d")?;
        put_number(&mut text, number)?;
        text.push('"')?;
    }
    text.push_str(
        r#"],"smpls":["s1"],"ip":["ip1"]},"links":[{"from":"r","out":"o","to":"r","in":"i","distance":1}],"tables":[{"at":"r","in":"i","label":"d0","groups":[[{"out":"o","ops":[["pop"]]}]]}"#,
    )?;
    for below in 0..most {
        put_row(&mut text, below, below + 1)?;
    }
    text.push_str("]}")?;
    Ok(text)
}

fn put_number(text: &mut String, number: usize) -> Result<(), AllocError> {
    let digits = format!(in *text.allocator(); "{number}")?;
    let put = text.push_str(digits.as_str());
    drop(digits);
    put
}

// The row of a label that becomes two of the one below.
fn put_row(text: &mut String, below: usize, number: usize) -> Result<(), AllocError> {
    text.push_str(r#",{"at":"r","in":"i","label":"d"#)?;
    put_number(text, number)?;
    text.push_str(r#"","groups":[[{"out":"o","ops":[["swap","d"#)?;
    put_number(text, below)?;
    text.push_str(r#""],["push","d"#)?;
    put_number(text, below)?;
    text.push_str(r#""]]}]]}"#)
}

// What `verify` ends with for a packet that has the greatest of so many labels on top, weighed by hops.
fn doubled(alloc: Global, most: usize, query: &str) -> Result<String, Fail> {
    let text = doubling(alloc, most)?;
    let said = weighed(alloc, text.as_bytes(), query, Some("Hops"));
    drop(text);
    said
}

#[test]
fn runs_of_thousands_of_links(rt: HostRuntime) -> Result<(), Fail> {
    let said = doubled(rt.alloc(), 10, "<d10 s1 ip1> .* <s1 ip1> 0")?;
    let begins = said.starts_with(
        "0<answer: yes\nweight: 0\neffort: 3079\nfailed: none\nmoving: yes\nlinks: 2048\nr.o#r.i | d10 s1 ip1\nr.o#r.i | d9 d9 s1 ip1 | group 1 member 1\n",
    );
    let ends = said.ends_with("\nr.o#r.i | s1 ip1 | group 1 member 1\n><>");
    drop(said);
    assert!(rt; begins);
    assert!(rt; ends);
    Ok(())
}

// How many labels double, the query, and what is said.
const TOO_LONG_OR_TOO_HEAVY: &[(usize, &str, &str)] = &[
    (
        11,
        "<d11 s1 ip1> .* <s1 ip1> 0",
        "7<><too long: effort 6151, limit 4096\n>",
    ),
    (
        62,
        "<d62 s1 ip1> .* <s1 ip1> 0",
        "7<><too long: effort 13835058055282163719, limit 4096\n>",
    ),
    (
        63,
        "<d63 s1 ip1> .* <s1 ip1> 0",
        "6<><overflow: component 1 is 27670116110564327421\n>",
    ),
];

#[test]
fn runs_that_are_too_long_or_too_heavy(rt: HostRuntime) -> Result<(), Fail> {
    for (most, query, wanted) in TOO_LONG_OR_TOO_HEAVY {
        let text = doubling(rt.alloc(), *most)?;
        let said = verified(rt.alloc(), text.as_bytes(), query);
        drop(text);
        is_said(&rt, said, wanted)?;
    }
    Ok(())
}
