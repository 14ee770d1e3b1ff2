//! What `protect` makes of plans, and the first fault of those that ask for no network.
use crate::called::{begins, between, is_said, ran, shelf_with, verified};
use std::alloc::{AllocError, Global};
use std::process::Abort;
use std::test::Fail;
use wi_base::MemoryShelf;

/// Routers and links as in the first network, with a second link from a to b, and one back; no tables.
pub const PLAIN: &str =
    r#"{"format":"mpls-whatif-1","routers":["x","a","b","c","y"],"labels":{"mpls":[],"smpls":[],"ip":["ip1","ip2"]},"links":[{"from":"x","out":"o","to":"a","in":"x","distance":1},{"from":"a","out":"b","to":"b","in":"a","distance":1},{"from":"a","out":"c","to":"c","in":"a","distance":2},{"from":"c","out":"b","to":"b","in":"c","distance":2},{"from":"b","out":"y","to":"y","in":"b","distance":1},{"from":"a","out":"d","to":"b","in":"d","distance":1},{"from":"b","out":"a","to":"a","in":"b","distance":1}],"tables":[]}"#;

/// The first network's routers and links, and no tables.
pub const BARE: &str =
    r#"{"format":"mpls-whatif-1","routers":["x","a","b","c","y"],"labels":{"mpls":[],"smpls":[],"ip":["ip1"]},"links":[{"from":"x","out":"o","to":"a","in":"x","distance":1},{"from":"a","out":"b","to":"b","in":"a","distance":1},{"from":"a","out":"c","to":"c","in":"a","distance":2},{"from":"c","out":"b","to":"b","in":"c","distance":2},{"from":"b","out":"y","to":"y","in":"b","distance":1}],"tables":[]}"#;

const AROUND: &str =
    r#""paths":[{"ip":"ip1","links":[["x","o"],["a","b"],["b","y"]]}],"bypasses":[{"link":["a","b"],"via":[["a","c"],["c","b"]]}]"#;

/// The network of the bare one's path from x to y with a bypass by c. Labels 0, 1 and 2 are b1.1, p1.1 and ip1; the tables are those of
/// links 0, 1, 3 and 2, in this order.
pub const PROTECTED: &str =
    r#"{"format":"mpls-whatif-1","labels":{"ip":["ip1"],"mpls":["b1.1"],"smpls":["p1.1"]},"links":[{"distance":1,"from":"x","in":"x","out":"o","to":"a"},{"distance":1,"from":"a","in":"a","out":"b","to":"b"},{"distance":2,"from":"a","in":"a","out":"c","to":"c"},{"distance":2,"from":"c","in":"c","out":"b","to":"b"},{"distance":1,"from":"b","in":"b","out":"y","to":"y"}],"routers":["x","a","b","c","y"],"tables":[{"at":"a","groups":[[{"ops":[["push","p1.1"]],"out":"b"}],[{"ops":[["push","p1.1"],["push","b1.1"]],"out":"c"}]],"in":"x","label":"ip1"},{"at":"b","groups":[[{"ops":[["pop"]],"out":"y"}]],"in":"a","label":"p1.1"},{"at":"b","groups":[[{"ops":[["pop"]],"out":"y"}]],"in":"c","label":"p1.1"},{"at":"c","groups":[[{"ops":[["pop"]],"out":"b"}]],"in":"a","label":"b1.1"}]}"#;

// A path that passes a twice, and a bypass of one link, which is a link of the same path.
const TWICE: &str =
    r#""paths":[{"ip":"ip1","links":[["x","o"],["a","b"],["b","a"],["a","d"],["b","y"]]}],"bypasses":[{"link":["a","d"],"via":[["a","b"]]}]"#;

// Paths that share links with one another, and with a bypass.
const SHARED: &str =
    r#""paths":[{"ip":"ip1","links":[["x","o"],["a","b"],["b","y"]]},{"ip":"ip2","links":[["x","o"],["a","c"],["c","b"],["b","y"]]}],"bypasses":[{"link":["a","b"],"via":[["a","c"],["c","b"]]}]"#;

// What `verify` begins with for a query of the network that is made of a network with these members besides.
const WAYS: &[(&str, &str, &str, &str)] = &[
    (
        BARE,
        AROUND,
        "<ip1> [x#a] [a#c] .* [b#y] <ip1> 1",
        "0<answer: yes\nweight: none\neffort: 10\nfailed: a.b#b.a\nmoving: yes\nlinks: 4\n",
    ),
    (
        BARE,
        AROUND,
        "<ip1> [x#a] [a#c] .* [b#y] <ip1> 0",
        "1<answer: no\n",
    ),
    // The first link and the last have no way around.
    (
        BARE,
        AROUND,
        "<ip1> [x#a] .* [b#y] <ip1> 0 down [b#y]",
        "1<answer: no\n",
    ),
    (
        PLAIN,
        TWICE,
        "<ip1> [x#a] [a.b#b] [b#a] [a.d#b] [b#y] <ip1> 0",
        "0<answer: yes\n",
    ),
    (
        PLAIN,
        TWICE,
        "<ip1> [x#a] [a.b#b] [b#a] [a.b#b] [b#y] <ip1> 0 down [a.d#b]",
        "0<answer: yes\n",
    ),
    (
        PLAIN,
        SHARED,
        "<ip2> [x#a] [a#c] [c#b] [b#y] <ip2> 0",
        "0<answer: yes\n",
    ),
    (
        PLAIN,
        SHARED,
        "<ip1> [x#a] [a#c] [c#b] [b#y] <ip1> 0 down [a.b#b]",
        "0<answer: yes\n",
    ),
    // The second path has no bypass.
    (
        PLAIN,
        SHARED,
        "<ip2> [x#a] .* [b#y] <ip2> 0 down [a#c]",
        "1<answer: no\n",
    ),
];

// What is said of the network with these members besides.
const REFUSED: &[(&str, &str, &str)] = &[
    (BARE, "", "15<><plan: paths: wrong shape\n>"),
    (BARE, r#""paths":[]"#, "15<><plan: bypasses: wrong shape\n>"),
    (
        BARE,
        r#""paths":[5],"bypasses":[]"#,
        "15<><plan: paths[0]: wrong shape\n>",
    ),
    (
        BARE,
        r#""paths":[{"ip":"ip3","links":[]}],"bypasses":[]"#,
        "15<><plan: paths[0].ip: unknown\n>",
    ),
    (
        BARE,
        r#""paths":[{"ip":"ip1","links":[["x","o"],["a","b"]]}],"bypasses":[]"#,
        "15<><plan: paths[0].links: too short\n>",
    ),
    (
        BARE,
        r#""paths":[{"ip":"ip1","links":[["x","o"],["a","b"],["c","b"]]}],"bypasses":[]"#,
        "15<><plan: paths[0].links[2]: broken\n>",
    ),
    (
        PLAIN,
        r#""paths":[{"ip":"ip1","links":[["x","o"],["a","b"],["b","a"],["a","b"]]}],"bypasses":[]"#,
        "15<><plan: paths[0].links[3]: repeated\n>",
    ),
    (
        BARE,
        r#""paths":[{"ip":"ip1","links":[["x","o"],["a","b"],["b","y"]]},{"ip":"ip1","links":[["x","o"],["a","c"],["c","b"]]}],"bypasses":[]"#,
        "15<><plan: paths[1]: taken\n>",
    ),
    (
        PLAIN,
        r#""paths":[{"ip":"ip1","links":[["x","o"],["a","c"],["c","b"]]},{"ip":"ip1","links":[["c","b"],["b","a"],["a","d"]]}],"bypasses":[]"#,
        "15<><plan: paths[0]: continues\n>",
    ),
    (
        BARE,
        r#""paths":[],"bypasses":[{}]"#,
        "15<><plan: bypasses[0].link: wrong shape\n>",
    ),
    (
        BARE,
        r#""paths":[],"bypasses":[[]]"#,
        "15<><plan: bypasses[0]: wrong shape\n>",
    ),
    (
        BARE,
        r#""paths":[],"bypasses":[{"link":["a","b"],"via":[]}]"#,
        "15<><plan: bypasses[0].via: too short\n>",
    ),
    (
        BARE,
        r#""paths":[{"ip":"ip1","links":[["x","o"],["a","b"],["b","y"]]}],"bypasses":[{"link":["a","b"],"via":[["a","c"]]}]"#,
        "15<><plan: bypasses[0].via: broken\n>",
    ),
    (
        BARE,
        r#""paths":[],"bypasses":[{"link":["a","b"],"via":[["a","c"],["c","o"]]}]"#,
        "15<><plan: bypasses[0].via[1]: unknown\n>",
    ),
];

/// A text of a network with these members besides.
pub fn with_members(alloc: Global, network: &str, members: &str) -> Result<String, AllocError> {
    let front = network.strip_suffix("}").unwrap_or(network);
    if members.is_empty() {
        return String::from_str(alloc, network);
    }
    format!(in alloc; "{front},{members}}}")
}

/// What `protect` ends with for a file.
pub fn protected(alloc: Global, file: &str) -> Result<String, Fail> {
    let mut shelf = shelf_with(alloc, file.as_bytes())?;
    let said = ran(alloc, &["whatif", "protect", "n"], &mut shelf);
    drop(shelf);
    said
}

// The same for a network with these members besides.
fn planned(alloc: Global, network: &str, members: &str) -> Result<String, Fail> {
    let file = with_members(alloc, network, members)?;
    let said = protected(alloc, file.as_str());
    drop(file);
    said
}

#[test]
fn the_canonical_text_is_printed(rt: HostRuntime) -> Result<(), Fail> {
    let wanted = format!(in rt.alloc(); "0<{PROTECTED}\n><>")?;
    let said = is_said(&rt, planned(rt.alloc(), BARE, AROUND), wanted.as_str());
    drop(wanted);
    said
}

// What `verify` ends with for a query of what `protect` prints.
fn verified_as_planned(
    alloc: Global,
    network: &str,
    members: &str,
    query: &str,
) -> Result<String, Fail> {
    let said = planned(alloc, network, members)?;
    let answer = match between(said.as_str(), "0<", "><>") {
        Some(printed) => verified(alloc, printed.as_bytes(), query),
        None => Err(Fail::new("nothing was printed")),
    };
    drop(said);
    answer
}

#[test]
fn packets_go_as_planned(rt: HostRuntime) -> Result<(), Fail> {
    for (network, members, query, wanted) in WAYS {
        let said = verified_as_planned(rt.alloc(), network, members, query);
        begins(&rt, said, wanted)?;
    }
    Ok(())
}

#[test]
fn the_first_fault_of_a_plan_is_said(rt: HostRuntime) -> Result<(), Fail> {
    for (network, members, wanted) in REFUSED {
        is_said(&rt, planned(rt.alloc(), network, members), wanted)?;
    }
    Ok(())
}

#[test]
fn networks_that_have_something_are_refused(rt: HostRuntime) -> Result<(), Fail> {
    // Tables are told before plans, and a name that is taken in the network that is made.
    let said = protected(rt.alloc(), PROTECTED);
    is_said(&rt, said, "15<><plan: tables: not empty\n>")?;
    let named = BARE.replace(rt.alloc(), r#""mpls":[]"#, r#""mpls":["p1.1"]"#)?;
    let said = planned(rt.alloc(), named.as_str(), AROUND);
    drop(named);
    is_said(&rt, said, "15<><plan: labels: taken\n>")
}

#[test]
fn there_may_be_20000_labels(rt: HostRuntime) -> Result<(), Fail> {
    // A bypass may pass a link several times: this one has 20,000 links, and 19,999 labels.
    let there = r#"["a","d"],["b","a"],"#.repeat(rt.alloc(), 9_999)?;
    let members = format!(in rt.alloc();
        r#""paths":[],"bypasses":[{{"link":["a","b"],"via":[{there}["a","c"],["c","b"]]}}]"#
    )?;
    drop(there);
    let over = planned(rt.alloc(), PLAIN, members.as_str());
    is_said(&rt, over, "15<><plan: labels: over the limit 20000\n>")?;
    let fewer = PLAIN.replace(rt.alloc(), r#","ip2""#, "")?;
    let most = planned(rt.alloc(), fewer.as_str(), members.as_str());
    drop(fewer);
    drop(members);
    begins(
        &rt,
        most,
        "0<{\"format\":\"mpls-whatif-1\",\"labels\":{\"ip\":[\"ip1\"],\"mpls\":[\"b1.1\",\"b1.2\",",
    )
}

#[test]
fn files_that_are_no_networks_are_told(rt: HostRuntime) -> Result<(), Fail> {
    is_said(
        &rt,
        protected(rt.alloc(), "{}"),
        "3<><network: format: wrong shape\n>",
    )?;
    let mut shelf = MemoryShelf::new(rt.alloc());
    let said = ran(rt.alloc(), &["whatif", "protect", "n"], &mut shelf);
    drop(shelf);
    is_said(&rt, said, "10<><whatif: cannot read n\n>")
}
