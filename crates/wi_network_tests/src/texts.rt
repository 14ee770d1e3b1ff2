//! Risk groups of network files, and canonical texts, by example.
use crate::common::equal;
use crate::faults::{N1, tells, varied};
use std::alloc::{AllocError, Global};
use std::process::Abort;
use std::test::Fail;
use wi_net::LinkId;
use wi_netjson::{read_network, write_network};

// A version, and a member more of link 1 and of link 4.
type Versioned<'a> = (&'a str, &'a str, &'a str);

const FIBER: &str = r#""group":"fiber""#;

// A text in which a member follows others.
fn with_member(
    alloc: Global,
    text: &str,
    others: &str,
    member: &str,
) -> Result<String, AllocError> {
    let longer = format!(in alloc; "{others},{member}")?;
    text.replace(alloc, others, longer.as_str())
}

// The text of N1 with these.
fn versioned(alloc: Global, (version, first, second): Versioned) -> Result<String, AllocError> {
    let text = N1.replace(alloc, "mpls-whatif-1", version)?;
    let once = with_member(alloc, text.as_str(), r#""from":"a","out":"b""#, first)?;
    with_member(alloc, once.as_str(), r#""from":"b","out":"y""#, second)
}

// The risk groups of links 1 and 4 by their least links.
fn risks(alloc: Global, bytes: &[u8]) -> Option<(LinkId, LinkId)> {
    match read_network(alloc, bytes) {
        Ok(network) => {
            let risks = (network.risk(LinkId(1)), network.risk(LinkId(4)));
            drop(network);
            Some(risks)
        }
        Err(_) => None,
    }
}

const RISKS: &[(Versioned, u32)] = &[
    (("mpls-whatif-2", FIBER, FIBER), 1),
    (("mpls-whatif-2", FIBER, r#""group":"river""#), 4),
    (("mpls-whatif-1", FIBER, FIBER), 4),
    (("mpls-whatif-1", r#""group":5"#, r#""group":null"#), 4),
];

fn risk_is(rt: &impl Abort, alloc: Global, case: &(Versioned, u32)) -> Result<(), Fail> {
    let text = versioned(alloc, case.0)?;
    let wanted = Some((LinkId(1), LinkId(case.1)));
    equal(rt, risks(alloc, text.as_bytes()), wanted);
    Ok(())
}

#[test]
fn links_name_risk_groups(rt: HostRuntime) -> Result<(), Fail> {
    for case in RISKS {
        risk_is(&rt, rt.alloc(), case)?;
    }
    Ok(())
}

const RISK_FAULTS: &[(Versioned, &str)] = &[
    (
        ("mpls-whatif-2", r#""group":5"#, FIBER),
        "links[1].group: wrong shape",
    ),
    (
        ("mpls-whatif-2", FIBER, r#""group":null"#),
        "links[4].group: wrong shape",
    ),
    (
        ("mpls-whatif-2", FIBER, r#""group":"""#),
        "links[4].group: bad name",
    ),
];

fn risk_fault_is(rt: &impl Abort, alloc: Global, case: &(Versioned, &str)) -> Result<(), Fail> {
    let text = versioned(alloc, case.0)?;
    tells(rt, alloc, text.as_bytes(), case.1)
}

#[test]
fn faults_of_risk_groups(rt: HostRuntime) -> Result<(), Fail> {
    for case in RISK_FAULTS {
        risk_fault_is(&rt, rt.alloc(), case)?;
    }
    Ok(())
}

// The text that is written of the network that bytes mean; none, where they mean none.
fn rewritten(alloc: Global, bytes: &[u8]) -> Result<Vec<u8>, AllocError> {
    match read_network(alloc, bytes) {
        Ok(network) => {
            let text = write_network(alloc, &network);
            drop(network);
            text.map_err(|_| AllocError)
        }
        Err(_) => Ok(Vec::new(alloc)),
    }
}

// What is written of a text is another one, and of that the same.
fn is_written_as(rt: &impl Abort, alloc: Global, text: &str, wanted: &str) -> Result<(), Fail> {
    let written = rewritten(alloc, text.as_bytes())?;
    assert!(rt; written.as_slice() == wanted.as_bytes());
    let again = rewritten(alloc, written.as_slice())?;
    assert!(rt; again.as_slice() == wanted.as_bytes());
    Ok(())
}

const CANONICAL: &str =
    r#"{"format":"mpls-whatif-1","labels":{"ip":["ip1"],"mpls":["30"],"smpls":["s10"]},"links":[{"distance":1,"from":"x","in":"x","out":"o","to":"a"},{"distance":1,"from":"a","in":"a","out":"b","to":"b"},{"distance":2,"from":"a","in":"a","out":"c","to":"c"},{"distance":2,"from":"c","in":"c","out":"b","to":"b"},{"distance":1,"from":"b","in":"b","out":"y","to":"y"}],"routers":["x","a","b","c","y"],"tables":[{"at":"a","groups":[[{"ops":[["push","s10"]],"out":"b"}],[{"ops":[["push","s10"],["push","30"]],"out":"c"}]],"in":"x","label":"ip1"},{"at":"b","groups":[[{"ops":[["pop"]],"out":"y"}]],"in":"a","label":"s10"},{"at":"c","groups":[[{"ops":[["pop"]],"out":"b"}]],"in":"a","label":"30"},{"at":"b","groups":[[{"ops":[["pop"]],"out":"y"}]],"in":"c","label":"s10"}]}"#;

#[test]
fn the_canonical_text(rt: HostRuntime) -> Result<(), Fail> {
    is_written_as(&rt, rt.alloc(), N1, CANONICAL)
}

// Links 1 and 4 in one risk group, which is named by its least link.
const CANONICAL_FIBER: &[(&str, &str)] = &[
    ("mpls-whatif-1", "mpls-whatif-2"),
    (
        r#""from":"a","in":"a","out":"b""#,
        r#""from":"a","group":"g1","in":"a","out":"b""#,
    ),
    (
        r#""from":"b","in":"b""#,
        r#""from":"b","group":"g1","in":"b""#,
    ),
];

fn fiber_is_written(rt: &impl Abort, alloc: Global) -> Result<(), Fail> {
    let text = versioned(alloc, ("mpls-whatif-2", FIBER, FIBER))?;
    let wanted = varied(alloc, CANONICAL, CANONICAL_FIBER)?;
    is_written_as(rt, alloc, text.as_str(), wanted.as_str())
}

// A risk group of one link needs no name.
fn one_link_is_written(rt: &impl Abort, alloc: Global) -> Result<(), Fail> {
    let text = versioned(alloc, ("mpls-whatif-2", FIBER, r#""note":1"#))?;
    is_written_as(rt, alloc, text.as_str(), CANONICAL)
}

#[test]
fn the_canonical_text_of_risk_groups(rt: HostRuntime) -> Result<(), Fail> {
    fiber_is_written(&rt, rt.alloc())?;
    one_link_is_written(&rt, rt.alloc())
}

// What is written of a text is written again as it is.
fn is_stable(rt: &impl Abort, alloc: Global, text: &str) -> Result<(), Fail> {
    let written = rewritten(alloc, text.as_bytes())?;
    assert!(rt; !written.is_empty());
    let again = rewritten(alloc, written.as_slice())?;
    assert!(rt; again.as_slice() == written.as_slice());
    Ok(())
}

// A router z, a link from b to it, and a second way out of b.
const TO_Z: &[(&str, &str)] = &[
    (r#""c","y"]"#, r#""c","y","z"]"#),
    (
        r#"}],"tables""#,
        r#"},{"from":"b","out":"z","to":"z","in":"b","distance":1}],"tables""#,
    ),
    (
        r#"[[{"out":"y","ops":[["pop"]]}]]}]}"#,
        r#"[[{"out":"y","ops":[["pop"]]}],[{"out":"z","ops":[["pop"]]}]]}]}"#,
    ),
];

// The same with the links from a to b and from b to y in one risk group.
const TO_Z_FIBER: &[(&str, &str)] = &[
    (r#""c","y"]"#, r#""c","y","z"]"#),
    (
        r#"}],"tables""#,
        r#"},{"from":"b","out":"z","to":"z","in":"b","distance":1}],"tables""#,
    ),
    (
        r#"[[{"out":"y","ops":[["pop"]]}]]}]}"#,
        r#"[[{"out":"y","ops":[["pop"]]}],[{"out":"z","ops":[["pop"]]}]]}]}"#,
    ),
    ("mpls-whatif-1", "mpls-whatif-2"),
    (
        r#""from":"a","out":"b""#,
        r#""from":"a","out":"b","group":"fiber""#,
    ),
    (
        r#""from":"b","out":"y""#,
        r#""from":"b","out":"y","group":"fiber""#,
    ),
];

// A label 31 and a way back from c to a.
const BACK_TO_A: &[(&str, &str)] = &[
    (r#"["30"]"#, r#"["30","31"]"#),
    (
        r#"}],"tables""#,
        r#"},{"from":"c","out":"a2","to":"a","in":"c2","distance":1}],"tables""#,
    ),
    (
        r#"[[{"out":"b","ops":[["pop"]]}]]}"#,
        r#"[[{"out":"a2","ops":[["swap","31"]]}]]},{"at":"a","in":"c2","label":"31","groups":[[{"out":"b","ops":[["pop"]]}]]}"#,
    ),
];

// Both ways out of a are the link to b.
const SAME_LINK: &[(&str, &str)] = &[(
    r#"[["push","s10"]]}],[{"out":"c","ops":[["push","s10"],["push","30"]]}]"#,
    r#"[["swap","ip1"]]}],[{"out":"b","ops":[["push","s10"]]}]"#,
)];

// An operation that isn't defined where the table stands.
const UNDEFINED: &[(&str, &str)] = &[(r#"[["push","s10"]]"#, r#"[["push","30"]]"#)];

const VARIED: &[(&[(&str, &str)], &str)] = &[
    (TO_Z, "6 links, 6 members"),
    (BACK_TO_A, "6 links, 6 members"),
    (SAME_LINK, "5 links, 5 members"),
    (UNDEFINED, "5 links, 5 members"),
    (TO_Z_FIBER, "6 links, 6 members"),
];

fn varied_is_stable(
    rt: &impl Abort,
    alloc: Global,
    changes: &[(&str, &str)],
    wanted: &str,
) -> Result<(), Fail> {
    let text = varied(alloc, N1, changes)?;
    tells(rt, alloc, text.as_bytes(), wanted)?;
    is_stable(rt, alloc, text.as_str())
}

#[test]
fn networks_are_written_and_read_again(rt: HostRuntime) -> Result<(), Fail> {
    for (changes, wanted) in VARIED {
        varied_is_stable(&rt, rt.alloc(), changes, wanted)?;
    }
    Ok(())
}
