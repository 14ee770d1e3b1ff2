//! Network files by example: what is read, and the first fault of what isn't.
use crate::common::equal;
use std::alloc::{AllocError, Global};
use std::process::Abort;
use std::test::Fail;
use wi_labels::{Class, Label};
use wi_net::{Counts, LinkId, Network, RouterId};
use wi_netjson::{NetFault, read_network};

pub(crate) const N1: &str =
    r#"{"format":"mpls-whatif-1","routers":["x","a","b","c","y"],"labels":{"mpls":["30"],"smpls":["s10"],"ip":["ip1"]},"links":[{"from":"x","out":"o","to":"a","in":"x","distance":1},{"from":"a","out":"b","to":"b","in":"a","distance":1},{"from":"a","out":"c","to":"c","in":"a","distance":2},{"from":"c","out":"b","to":"b","in":"c","distance":2},{"from":"b","out":"y","to":"y","in":"b","distance":1}],"tables":[{"at":"a","in":"x","label":"ip1","groups":[[{"out":"b","ops":[["push","s10"]]}],[{"out":"c","ops":[["push","s10"],["push","30"]]}]]},{"at":"b","in":"a","label":"s10","groups":[[{"out":"y","ops":[["pop"]]}]]},{"at":"c","in":"a","label":"30","groups":[[{"out":"b","ops":[["pop"]]}]]},{"at":"b","in":"c","label":"s10","groups":[[{"out":"y","ops":[["pop"]]}]]}]}"#;

fn counted(alloc: Global, counts: Counts) -> Result<String, AllocError> {
    format!(in alloc; "{} links, {} members", counts.links, counts.members)
}

fn named(alloc: Global, fault: NetFault) -> Result<String, AllocError> {
    format!(in alloc; "{fault}")
}

// What reading gives, in words.
fn told(alloc: Global, bytes: &[u8]) -> Result<String, AllocError> {
    match read_network(alloc, bytes) {
        Ok(network) => {
            let counts = network.counts();
            drop(network);
            counted(alloc, counts)
        }
        Err(fault) => named(alloc, fault),
    }
}

pub(crate) fn tells(
    rt: &impl Abort,
    alloc: Global,
    bytes: &[u8],
    wanted: &str,
) -> Result<(), Fail> {
    let text = told(alloc, bytes)?;
    assert!(rt;
        text.as_str() == wanted,
        "{} in place of {wanted}",
        text.as_str()
    );
    Ok(())
}

// A part of a text, what stands in its place, and what reading then gives.
type Change<'a> = (&'a str, &'a str, &'a str);

fn changed(rt: &impl Abort, alloc: Global, case: &Change) -> Result<(), Fail> {
    let (old, new, wanted) = *case;
    let text = N1.replace(alloc, old, new)?;
    tells(rt, alloc, text.as_bytes(), wanted)
}

fn each_changed(rt: &impl Abort, alloc: Global, cases: &[Change]) -> Result<(), Fail> {
    for case in cases {
        changed(rt, alloc, case)?;
    }
    Ok(())
}

const COUNTS: Counts = Counts {
    routers: 5,
    links: 5,
    labels: 3,
    rows: 4,
    members: 5,
};

// The fourth link leads from c by b, over a distance of 2.
fn has_its_parts(rt: &impl Abort, network: &Network) {
    equal(rt, network.counts(), COUNTS);
    equal(rt, network.find_router("c"), Some(RouterId(3)));
    equal(rt, network.find_out(RouterId(3), "b"), Some(LinkId(3)));
    equal(rt, network.find_label("30"), Some(Label(0)));
    assert!(rt; network.counts().links > 3);
    equal(rt, network.link(LinkId(3)).distance, 2);
    assert!(rt; network.counts().labels > 0);
    equal(rt, network.class(Label(0)), Class::Mpls);
    equal(rt, network.entry(LinkId(0), Label(2)).len(), 2);
}

#[test]
fn a_network_is_read(rt: HostRuntime) {
    match read_network(rt.alloc(), N1.as_bytes()) {
        Ok(network) => {
            has_its_parts(&rt, &network);
            drop(network)
        }
        Err(_) => assert!(rt; false, "it is one"),
    }
}

const FILES: &[(&[u8], &str)] = &[
    (b"", "file: not JSON"),
    (b"{\"format\":\"mpls-whatif-1\"", "file: not JSON"),
    (b"{\"\xff\":1}", "file: not JSON"),
    (b"\"\\ud800\"", "file: not JSON"),
    (b"[]", "file: wrong shape"),
    (b"5", "file: wrong shape"),
    (b"{}", "format: wrong shape"),
];

#[test]
fn whole_files(rt: HostRuntime) -> Result<(), Fail> {
    for (bytes, wanted) in FILES {
        tells(&rt, rt.alloc(), bytes, wanted)?;
    }
    Ok(())
}

#[test]
fn a_file_over_the_limit(rt: HostRuntime) -> Result<(), Fail> {
    let long = " ".repeat(rt.alloc(), 67108865)?;
    tells(
        &rt,
        rt.alloc(),
        long.as_bytes(),
        "file: over the limit 67108864",
    )
}

const OF_NAMES: &[Change] = &[
    (r#""format""#, r#""formats""#, "format: wrong shape"),
    (r#""mpls-whatif-1""#, "1", "format: wrong shape"),
    ("mpls-whatif-1", "mpls-whatif-3", "format: unknown format"),
    (r#""routers""#, r#""router""#, "routers: wrong shape"),
    (r#"["x","a","b","c","y"]"#, r#""x""#, "routers: wrong shape"),
    (r#"["x","#, "[5,", "routers[0]: wrong shape"),
    (r#""c","y"]"#, r#""","y"]"#, "routers[3]: bad name"),
    (r#""c","y"]"#, r#""\u0000","y"]"#, "routers[3]: bad name"),
    (r#""c","y"]"#, r#""\u007f","y"]"#, "routers[3]: bad name"),
    (r#""c","y"]"#, r#""\"","y"]"#, "routers[3]: bad name"),
    (
        r#""c","y"]"#,
        r#""123456789 123456789 123456789 123","y"]"#,
        "routers[3]: bad name",
    ),
    (
        r#""c","y"]"#,
        r#""c","y","é~!123456789 123456789 1234567"]"#,
        "5 links, 5 members",
    ),
    (r#"["x","#, r#"["a","#, "routers[1]: repeated router"),
    (r#""labels""#, r#""label""#, "labels: wrong shape"),
    (
        r#"{"mpls":["30"],"smpls":["s10"],"ip":["ip1"]}"#,
        "[]",
        "labels: wrong shape",
    ),
    (r#""mpls":["30"],"#, "", "labels.mpls: wrong shape"),
    (r#"["s10"],"#, r#""s10","#, "labels.smpls: wrong shape"),
    (r#""ip":["ip1"]"#, r#""ip":null"#, "labels.ip: wrong shape"),
    (r#"["30"]"#, r#"["30",true]"#, "labels.mpls[1]: wrong shape"),
    (r#"["s10"],"#, r#"[""],"#, "labels.smpls[0]: bad name"),
    (
        r#"["30"]"#,
        r#"["30","30"]"#,
        "labels.mpls[1]: repeated label",
    ),
    (
        r#"["s10"],"#,
        r#"["30"],"#,
        "labels.smpls[0]: repeated label",
    ),
    (
        r#"["ip1"]}"#,
        r#"["ip1","s10"]}"#,
        "labels.ip[1]: repeated label",
    ),
];

#[test]
fn first_faults_of_names(rt: HostRuntime) -> Result<(), Fail> {
    each_changed(&rt, rt.alloc(), OF_NAMES)
}

const OF_LINKS: &[Change] = &[
    (r#""links""#, r#""link""#, "links: wrong shape"),
    (r#""links":["#, r#""links":[5,"#, "links[0]: wrong shape"),
    (r#""from":"x""#, r#""from":1"#, "links[0].from: wrong shape"),
    (r#""out":"o""#, r#""o":"o""#, "links[0].out: wrong shape"),
    (r#""to":"y""#, r#""to":[]"#, "links[4].to: wrong shape"),
    (
        r#""in":"c","distance""#,
        r#""distance""#,
        "links[3].in: wrong shape",
    ),
    (
        r#""in":"x","distance":1"#,
        r#""in":"x","distance":"1""#,
        "links[0].distance: wrong shape",
    ),
    (
        r#""in":"x","distance":1"#,
        r#""in":"x""#,
        "links[0].distance: wrong shape",
    ),
    (
        r#""in":"x","distance":1"#,
        r#""in":"x","distance":1.0"#,
        "links[0].distance: bad number",
    ),
    (
        r#""in":"x","distance":1"#,
        r#""in":"x","distance":1e2"#,
        "links[0].distance: bad number",
    ),
    (
        r#""in":"x","distance":1"#,
        r#""in":"x","distance":-0"#,
        "links[0].distance: bad number",
    ),
    (
        r#""in":"x","distance":1"#,
        r#""in":"x","distance":-1"#,
        "links[0].distance: bad number",
    ),
    (
        r#""in":"x","distance":1"#,
        r#""in":"x","distance":4294967296"#,
        "links[0].distance: bad number",
    ),
    (
        r#""in":"x","distance":1"#,
        r#""in":"x","distance":18446744073709551616"#,
        "links[0].distance: bad number",
    ),
    (
        r#""in":"x","distance":1"#,
        r#""in":"x","distance":1e400"#,
        "file: not JSON",
    ),
    (
        r#""in":"x","distance":1"#,
        r#""in":"x","distance":4294967295"#,
        "5 links, 5 members",
    ),
    (
        r#""in":"x","distance":1"#,
        r#""in":"x","distance":-1,"distance":1"#,
        "5 links, 5 members",
    ),
    (r#""out":"o""#, r#""out":"""#, "links[0].out: bad name"),
    (
        r#""in":"c","distance""#,
        r#""in":"\n","distance""#,
        "links[3].in: bad name",
    ),
    (
        r#""from":"x""#,
        r#""from":"z""#,
        "links[0].from: unknown router",
    ),
    (r#""to":"y""#, r#""to":"z""#, "links[4].to: unknown router"),
    (
        r#""out":"c","to""#,
        r#""out":"b","to""#,
        "links[2].out: interface taken",
    ),
    (
        r#""in":"c","distance""#,
        r#""in":"a","distance""#,
        "links[3].in: interface taken",
    ),
    (
        r#""from":"x","out":"o","to":"a""#,
        r#""from":"z","out":"","to":1"#,
        "links[0].to: wrong shape",
    ),
    (
        r#""from":"x","out":"o","to":"a","in":"x""#,
        r#""from":"z","out":"o","to":"a","in":"""#,
        "links[0].in: bad name",
    ),
    (
        r#""from":"a","out":"c","to":"c""#,
        r#""from":"a","out":"b","to":"z""#,
        "links[2].to: unknown router",
    ),
];

#[test]
fn first_faults_of_links(rt: HostRuntime) -> Result<(), Fail> {
    each_changed(&rt, rt.alloc(), OF_LINKS)
}

const OF_TABLES: &[Change] = &[
    (r#""tables""#, r#""table""#, "tables: wrong shape"),
    (
        r#""tables":["#,
        r#""tables":[[],"#,
        "tables[0]: wrong shape",
    ),
    (r#"{"at":"a""#, r#"{"at":1"#, "tables[0].at: wrong shape"),
    (
        r#""in":"x","label""#,
        r#""label""#,
        "tables[0].in: wrong shape",
    ),
    (
        r#""label":"30""#,
        r#""label":30"#,
        "tables[2].label: wrong shape",
    ),
    (
        r#""label":"30","groups":[[{"#,
        r#""label":"30","groups":{"":[{"#,
        "file: not JSON",
    ),
    (
        r#""label":"30","groups""#,
        r#""label":"30","group""#,
        "tables[2].groups: wrong shape",
    ),
    (
        r#"{"at":"a""#,
        r#"{"at":"z""#,
        "tables[0].at: unknown router",
    ),
    (
        r#""in":"x","label""#,
        r#""in":"z","label""#,
        "tables[0].in: unknown interface",
    ),
    (
        r#"{"at":"c","in":"a""#,
        r#"{"at":"c","in":"x""#,
        "tables[2].in: unknown interface",
    ),
    (
        r#""label":"30""#,
        r#""label":"31""#,
        "tables[2].label: unknown label",
    ),
    (
        r#""at":"b","in":"c""#,
        r#""at":"b","in":"a""#,
        "tables[3].label: repeated table",
    ),
    (
        r#""label":"ip1","groups":["#,
        r#""label":"ip1","groups":[5,"#,
        "tables[0].groups[0]: wrong shape",
    ),
    (
        r#""label":"ip1","groups":["#,
        r#""label":"ip1","groups":[[],"#,
        "tables[0].groups[0]: empty group",
    ),
    (
        r#"}],[{"out":"c""#,
        r#"},"m"],[{"out":"c""#,
        "tables[0].groups[0][1]: wrong shape",
    ),
    (
        r#"{"out":"c","ops""#,
        r#"{"ops""#,
        "tables[0].groups[1][0].out: wrong shape",
    ),
    (
        r#""ops":[["push","s10"]]"#,
        r#""op":[["push","s10"]]"#,
        "tables[0].groups[0][0].ops: wrong shape",
    ),
    (
        r#"{"out":"c","ops""#,
        r#"{"out":"y","ops""#,
        "tables[0].groups[1][0].out: unknown interface",
    ),
    (
        r#"{"out":"c","ops""#,
        r#"{"out":"z","ops""#,
        "tables[0].groups[1][0].out: unknown interface",
    ),
    (
        r#"[["push","s10"]]"#,
        r#"[["pop"],["pop"],["pop"],["pop"],["pop"],["pop"],["pop"],["pop"],["pop"]]"#,
        "tables[0].groups[0][0].ops: over the limit 8",
    ),
    (
        r#"[["push","s10"]]"#,
        r#"[["pop"],["pop"],["pop"],["pop"],["pop"],["pop"],["pop"],["pop"]]"#,
        "5 links, 5 members",
    ),
    (
        r#"[["push","s10"]]"#,
        r#"[["swap"]]"#,
        "tables[0].groups[0][0].ops[0]: bad operation",
    ),
    (
        r#"[["push","s10"]]"#,
        r#"[["push",5]]"#,
        "tables[0].groups[0][0].ops[0]: bad operation",
    ),
    (
        r#"[["push","s10"]]"#,
        r#"[["pop","x"]]"#,
        "tables[0].groups[0][0].ops[0]: bad operation",
    ),
    (
        r#"[["push","s10"]]"#,
        r#"[["push","s10","s10"]]"#,
        "tables[0].groups[0][0].ops[0]: bad operation",
    ),
    (
        r#"[["push","s10"]]"#,
        "[[]]",
        "tables[0].groups[0][0].ops[0]: bad operation",
    ),
    (
        r#"[["push","s10"]]"#,
        r#"["pop"]"#,
        "tables[0].groups[0][0].ops[0]: bad operation",
    ),
    (
        r#"["push","30"]"#,
        r#"["push","31"]"#,
        "tables[0].groups[1][0].ops[1]: unknown label",
    ),
    (
        r#"["push","30"]"#,
        r#"["swap",""]"#,
        "tables[0].groups[1][0].ops[1]: unknown label",
    ),
    (
        r#""label":"30","groups":[[{"out":"b","ops":[["pop"]]}]]"#,
        r#""label":"30","groups":[]"#,
        "5 links, 4 members",
    ),
    // A table's own checks come before those of its groups.
    (
        r#""at":"b","in":"c","label":"s10","groups":[[{"out":"y","ops":[["pop"]]}]]"#,
        r#""at":"b","in":"a","label":"s10","groups":[[{"out":"q","ops":[5]}]]"#,
        "tables[3].label: repeated table",
    ),
    (
        r#""at":"b","in":"c","label":"s10","groups":[[{"out":"y","ops":[["pop"]]}]]"#,
        r#""at":"b","in":"q","label":"s10","groups":5"#,
        "tables[3].groups: wrong shape",
    ),
];

#[test]
fn first_faults_of_tables(rt: HostRuntime) -> Result<(), Fail> {
    each_changed(&rt, rt.alloc(), OF_TABLES)
}

// Members of objects that the format doesn't name.
const OF_UNKNOWN_MEMBERS: &[Change] = &[
    (
        r#"{"format""#,
        r#"{"note":1,"format""#,
        "5 links, 5 members",
    ),
    (r#"{"mpls""#, r#"{"note":1,"mpls""#, "5 links, 5 members"),
    (
        r#"{"from":"x""#,
        r#"{"note":1,"from":"x""#,
        "5 links, 5 members",
    ),
    (
        r#"{"at":"a""#,
        r#"{"note":1,"at":"a""#,
        "5 links, 5 members",
    ),
    (
        r#"{"out":"c""#,
        r#"{"note":1,"out":"c""#,
        "5 links, 5 members",
    ),
];

#[test]
fn unknown_members_are_ignored(rt: HostRuntime) -> Result<(), Fail> {
    each_changed(&rt, rt.alloc(), OF_UNKNOWN_MEMBERS)
}

// A text with parts of it replaced one after the other.
pub(crate) fn varied(
    alloc: Global,
    text: &str,
    changes: &[(&str, &str)],
) -> Result<String, AllocError> {
    let mut varied = String::from_str(alloc, text)?;
    for (old, new) in changes {
        varied = varied.replace(alloc, *old, *new)?;
    }
    Ok(varied)
}

// A link with an end that is taken, then a group without members, then a label that isn't there.
const SEVERAL: &[(&str, &str)] = &[
    (r#""in":"c","distance""#, r#""in":"a","distance""#),
    (r#"[[{"out":"y","ops":[["pop"]]}]]"#, "[[]]"),
    (r#""label":"30""#, r#""label":"31""#),
];

#[test]
fn the_first_of_several_faults(rt: HostRuntime) -> Result<(), Fail> {
    let text = varied(rt.alloc(), N1, SEVERAL)?;
    tells(
        &rt,
        rt.alloc(),
        text.as_bytes(),
        "links[3].in: interface taken",
    )
}

// The beginning of a list, an element, how often it stands there before the others, and what reading then gives.
type Long<'a> = (&'a str, &'a str, usize, &'a str);

// One element fewer is another fault, or none: at the limit itself the first element is looked at.
const LONG: &[Long] = &[
    (
        r#""routers":["#,
        "0,",
        9996,
        "routers: over the limit 10000",
    ),
    (r#""routers":["#, "0,", 9995, "routers[0]: wrong shape"),
    (
        r#""mpls":["#,
        "0,",
        20000,
        "labels.mpls: over the limit 20000",
    ),
    (r#""mpls":["#, "0,", 19999, "labels.mpls[0]: wrong shape"),
    (
        r#""smpls":["#,
        "0,",
        19999,
        "labels.smpls: over the limit 20000",
    ),
    (r#""smpls":["#, "0,", 19998, "labels.smpls[0]: wrong shape"),
    (r#""ip":["#, "0,", 19998, "labels.ip: over the limit 20000"),
    (r#""ip":["#, "0,", 19997, "labels.ip[0]: wrong shape"),
    (r#""links":["#, "0,", 19996, "links: over the limit 20000"),
    (r#""links":["#, "0,", 19995, "links[0]: wrong shape"),
    (
        r#""tables":["#,
        "0,",
        199997,
        "tables: over the limit 200000",
    ),
    (r#""tables":["#, "0,", 199996, "tables[0]: wrong shape"),
];

// The third table has so many members more. All five are 400,000 with 399,995 of them; with one more, the last table's only
// member is over the limit, and with two more the last of this table's own.
const MANY_MEMBERS: &[Long] = &[
    (
        r#""label":"30","groups":[["#,
        r#"{"out":"b","ops":[]},"#,
        399995,
        "5 links, 400000 members",
    ),
    (
        r#""label":"30","groups":[["#,
        r#"{"out":"b","ops":[]},"#,
        399996,
        "tables[3].groups[0][0]: over the limit 400000",
    ),
    (
        r#""label":"30","groups":[["#,
        r#"{"out":"b","ops":[]},"#,
        399997,
        "tables[2].groups[0][399997]: over the limit 400000",
    ),
];

fn long_is(rt: &impl Abort, alloc: Global, case: &Long) -> Result<(), Fail> {
    let (list, element, count, wanted) = *case;
    let more = element.repeat(alloc, count)?;
    let longer = format!(in alloc; "{list}{more}")?;
    changed(rt, alloc, &(list, longer.as_str(), wanted))
}

#[test]
fn long_lists(rt: HostRuntime) -> Result<(), Fail> {
    for case in LONG {
        long_is(&rt, rt.alloc(), case)?;
    }
    Ok(())
}

#[test]
fn there_are_at_most_400000_members(rt: HostRuntime) -> Result<(), Fail> {
    for case in MANY_MEMBERS {
        long_is(&rt, rt.alloc(), case)?;
    }
    Ok(())
}

// How deep a value is, and what reading gives: the object that it stands in counts.
const DEPTHS: &[(usize, &str)] = &[
    (100, "5 links, 5 members"),
    (126, "5 links, 5 members"),
    (127, "file: not JSON"),
    (200, "file: not JSON"),
];

fn deep_is(rt: &impl Abort, alloc: Global, depth: usize, wanted: &str) -> Result<(), Fail> {
    let opening = "[".repeat(alloc, depth)?;
    let closing = "]".repeat(alloc, depth)?;
    let member = format!(in alloc; r#"{{"note":{opening}{closing},"format""#)?;
    changed(rt, alloc, &(r#"{"format""#, member.as_str(), wanted))
}

#[test]
fn values_are_nested_up_to_127_deep(rt: HostRuntime) -> Result<(), Fail> {
    for (depth, wanted) in DEPTHS {
        deep_is(&rt, rt.alloc(), *depth, wanted)?;
    }
    Ok(())
}
