//! Plans in network files by example: what is read, the first fault of what isn't, and what is written.
ghost use Rattle.std.specs.Prelude.{◌≡◌, Ok, IfOk};
ghost use Rattle.wi_netjson.specs.File.{network_of};
ghost use Rattle.wi_plan.specs.Plans.{IsPlan};

use crate::faults::N1;
use std::alloc::{AllocError, Global};
use std::process::Abort;
use std::test::Fail;
use wi_base::NoMemory;
use wi_net::{LinkId, Network};
use wi_netjson::{NetFault, read_network};
use wi_plan::Plan;
use wi_planjson::{PlanRefused, read_draft, read_plan, write_plan};

// Routers and links as in N1, with a second link from a to b, and one back: x.o, a.b, a.c, c.b, b.y, a.d and b.a, from 0 on.
const PLAIN: &str =
    r#"{"format":"mpls-whatif-1","routers":["x","a","b","c","y"],"labels":{"mpls":[],"smpls":[],"ip":["ip1","ip2"]},"links":[{"from":"x","out":"o","to":"a","in":"x","distance":1},{"from":"a","out":"b","to":"b","in":"a","distance":1},{"from":"a","out":"c","to":"c","in":"a","distance":2},{"from":"c","out":"b","to":"b","in":"c","distance":2},{"from":"b","out":"y","to":"y","in":"b","distance":1},{"from":"a","out":"d","to":"b","in":"d","distance":1},{"from":"b","out":"a","to":"a","in":"b","distance":1}],"tables":[]}"#;

// A network with labels of all classes, and no tables.
const LABELLED: &str =
    r#"{"format":"mpls-whatif-1","routers":["x","a"],"labels":{"mpls":["30"],"smpls":["s10"],"ip":["ip1"]},"links":[{"from":"x","out":"o","to":"a","in":"x","distance":1}],"tables":[]}"#;

// A network file, what stands in it besides, and what reading gives. A path is told as its label and its links, a bypass as its
// link and those around it.
type Case<'a> = (&'a str, &'a str, &'a str);

const PLANS: &[Case] = &[
    (PLAIN, r#""paths":[],"bypasses":[]"#, ""),
    (
        PLAIN,
        r#""paths":[{"ip":"ip1","links":[["x","o"],["a","b"],["b","y"]]}],"bypasses":[{"link":["a","b"],"via":[["a","c"],["c","b"]]}]"#,
        "path 0: 0 1 4\nbypass 1: 2 3\n",
    ),
    // What isn't asked for is passed over, and of members of one name the last counts.
    (
        PLAIN,
        r#""paths":5,"paths":[{"of":5,"ip":5,"ip":"ip2","links":[["a","c"],["c","b"],["b","y"]]}],"bypasses":[],"plan":5"#,
        "path 1: 2 3 4\n",
    ),
    // A path may pass a router twice.
    (
        PLAIN,
        r#""paths":[{"ip":"ip1","links":[["x","o"],["a","b"],["b","a"],["a","d"],["b","y"]]}],"bypasses":[]"#,
        "path 0: 0 1 6 5 4\n",
    ),
    // Paths may share links: they differ in their first link or in their label.
    (
        PLAIN,
        r#""paths":[{"ip":"ip1","links":[["x","o"],["a","b"],["b","y"]]},{"ip":"ip2","links":[["x","o"],["a","b"],["b","y"]]},{"ip":"ip1","links":[["b","a"],["a","b"],["b","y"]]}],"bypasses":[]"#,
        "path 0: 0 1 4\npath 1: 0 1 4\npath 0: 6 1 4\n",
    ),
    // One may end where one of another label sets out.
    (
        PLAIN,
        r#""paths":[{"ip":"ip1","links":[["x","o"],["a","c"],["c","b"]]},{"ip":"ip2","links":[["c","b"],["b","a"],["a","d"]]}],"bypasses":[]"#,
        "path 0: 0 2 3\npath 1: 3 6 5\n",
    ),
    // The way around a link may be one link, or pass one twice.
    (
        PLAIN,
        r#""paths":[],"bypasses":[{"link":["a","b"],"via":[["a","d"]]},{"link":["a","d"],"via":[["a","b"],["b","a"],["a","b"]]}]"#,
        "bypass 1: 5\nbypass 5: 1 6 1\n",
    ),
];

const FAULTS: &[Case] = &[
    // Tables come before all else.
    (N1, r#""paths":5"#, "tables: not empty"),
    // Shapes, from the outside in.
    (PLAIN, r#""bypasses":[]"#, "paths: wrong shape"),
    (PLAIN, r#""paths":{},"bypasses":[]"#, "paths: wrong shape"),
    (PLAIN, r#""paths":[]"#, "bypasses: wrong shape"),
    (
        PLAIN,
        r#""paths":[],"bypasses":{}"#,
        "bypasses: wrong shape",
    ),
    (
        PLAIN,
        r#""paths":[],"bypasses":null"#,
        "bypasses: wrong shape",
    ),
    (
        PLAIN,
        r#""paths":[{"ip":"ip1","links":[["x","o"],["a","b"],["b","y"]]},[]],"bypasses":5"#,
        "paths[1]: wrong shape",
    ),
    (
        PLAIN,
        r#""paths":[{"links":5}],"bypasses":5"#,
        "paths[0].ip: wrong shape",
    ),
    (
        PLAIN,
        r#""paths":[{"ip":"none","links":{}}],"bypasses":5"#,
        "paths[0].links: wrong shape",
    ),
    (
        PLAIN,
        r#""paths":[{"ip":"none","links":[["x","z"],["x"]]}],"bypasses":[]"#,
        "paths[0].links[1]: wrong shape",
    ),
    (
        PLAIN,
        r#""paths":[{"ip":"ip1","links":[["x","o","z"]]}],"bypasses":[]"#,
        "paths[0].links[0]: wrong shape",
    ),
    (
        PLAIN,
        r#""paths":[{"ip":"ip1","links":[["x","o"],["a","b"],["x",5]]}],"bypasses":[]"#,
        "paths[0].links[2]: wrong shape",
    ),
    (
        PLAIN,
        r#""paths":[{"ip":"ip1","links":["x.o"]}],"bypasses":[]"#,
        "paths[0].links[0]: wrong shape",
    ),
    (
        PLAIN,
        r#""paths":[],"bypasses":[5]"#,
        "bypasses[0]: wrong shape",
    ),
    (
        PLAIN,
        r#""paths":[],"bypasses":[{"via":5}]"#,
        "bypasses[0].link: wrong shape",
    ),
    (
        PLAIN,
        r#""paths":[],"bypasses":[{"link":["x"],"via":5}]"#,
        "bypasses[0].link: wrong shape",
    ),
    (
        PLAIN,
        r#""paths":[],"bypasses":[{"link":["x","z"],"via":5}]"#,
        "bypasses[0].via: wrong shape",
    ),
    (
        PLAIN,
        r#""paths":[],"bypasses":[{"link":["x","z"],"via":[["a","z"],["a"]]}]"#,
        "bypasses[0].via[1]: wrong shape",
    ),
    // Names that are none of the network, or none at all, or of another class.
    (
        PLAIN,
        r#""paths":[{"ip":"none","links":[["x","z"]]}],"bypasses":[]"#,
        "paths[0].ip: unknown",
    ),
    (
        PLAIN,
        r#""paths":[{"ip":"","links":[["x","z"]]}],"bypasses":[]"#,
        "paths[0].ip: unknown",
    ),
    (
        LABELLED,
        r#""paths":[{"ip":"30","links":[["x","o"]]}],"bypasses":[]"#,
        "paths[0].ip: unknown",
    ),
    (
        LABELLED,
        r#""paths":[{"ip":"s10","links":[["x","o"]]}],"bypasses":[]"#,
        "paths[0].ip: unknown",
    ),
    (
        LABELLED,
        r#""paths":[{"ip":"ip1","links":[["x","o"]]}],"bypasses":[]"#,
        "paths[0].links: too short",
    ),
    (
        PLAIN,
        r#""paths":[{"ip":"ip1","links":[["x","o"],["a","z"]]}],"bypasses":[]"#,
        "paths[0].links[1]: unknown",
    ),
    (
        PLAIN,
        r#""paths":[{"ip":"ip1","links":[["","o"]]}],"bypasses":[]"#,
        "paths[0].links[0]: unknown",
    ),
    (
        PLAIN,
        r#""paths":[],"bypasses":[{"link":["x","z"],"via":[["a","z"]]}]"#,
        "bypasses[0].link: unknown",
    ),
    (
        PLAIN,
        r#""paths":[],"bypasses":[{"link":["a","b"],"via":[["a","c"],["a","o"]]}]"#,
        "bypasses[0].via[1]: unknown",
    ),
    // Too few links.
    (
        PLAIN,
        r#""paths":[{"ip":"ip1","links":[["x","o"],["b","y"]]}],"bypasses":[]"#,
        "paths[0].links: too short",
    ),
    (
        PLAIN,
        r#""paths":[{"ip":"ip1","links":[]}],"bypasses":[]"#,
        "paths[0].links: too short",
    ),
    (
        PLAIN,
        r#""paths":[{"ip":"ip1","links":[["x","o"],["a","b"],["b","y"]]}],"bypasses":[{"link":["a","b"],"via":[]}]"#,
        "bypasses[0].via: too short",
    ),
    // Links that are not joined come before links that stand twice.
    (
        PLAIN,
        r#""paths":[{"ip":"ip1","links":[["x","o"],["a","c"],["b","y"]]}],"bypasses":[]"#,
        "paths[0].links[2]: broken",
    ),
    (
        PLAIN,
        r#""paths":[{"ip":"ip1","links":[["x","o"],["c","b"],["b","y"]]}],"bypasses":[]"#,
        "paths[0].links[1]: broken",
    ),
    (
        PLAIN,
        r#""paths":[{"ip":"ip1","links":[["x","o"],["a","b"],["b","a"],["a","b"],["x","o"]]}],"bypasses":[]"#,
        "paths[0].links[4]: broken",
    ),
    (
        PLAIN,
        r#""paths":[{"ip":"ip1","links":[["x","o"],["a","b"],["b","a"],["a","b"],["b","y"]]}],"bypasses":[]"#,
        "paths[0].links[3]: repeated",
    ),
    // A way around leads from the source of its link to its target.
    (
        PLAIN,
        r#""paths":[{"ip":"ip1","links":[["x","o"],["a","b"],["b","y"]]}],"bypasses":[{"link":["a","b"],"via":[["a","c"]]}]"#,
        "bypasses[0].via: broken",
    ),
    (
        PLAIN,
        r#""paths":[{"ip":"ip1","links":[["x","o"],["a","b"],["b","y"]]}],"bypasses":[{"link":["a","b"],"via":[["c","b"]]}]"#,
        "bypasses[0].via: broken",
    ),
    (
        PLAIN,
        r#""paths":[{"ip":"ip1","links":[["x","o"],["a","b"],["b","y"]]}],"bypasses":[{"link":["a","b"],"via":[["a","c"],["b","a"],["a","d"]]}]"#,
        "bypasses[0].via: broken",
    ),
    (
        PLAIN,
        r#""paths":[{"ip":"ip1","links":[["x","o"],["a","b"],["b","y"]]}],"bypasses":[{"link":["a","b"],"via":[["a","c"],["c","b"],["b","y"]]}]"#,
        "bypasses[0].via: broken",
    ),
    (
        PLAIN,
        r#""paths":[{"ip":"ip1","links":[["x","o"],["a","b"],["b","y"]]}],"bypasses":[{"link":["a","b"],"via":[["a","b"]]}]"#,
        "bypasses[0].via[0]: repeated",
    ),
    (
        PLAIN,
        r#""paths":[{"ip":"ip1","links":[["x","o"],["a","b"],["b","y"]]}],"bypasses":[{"link":["a","b"],"via":[["a","d"],["b","a"],["a","b"]]}]"#,
        "bypasses[0].via[2]: repeated",
    ),
    (
        PLAIN,
        r#""paths":[{"ip":"ip1","links":[["x","o"],["a","b"],["b","y"]]}],"bypasses":[{"link":["a","b"],"via":[["a","d"]]},{"link":["a","b"],"via":[["a","b"]]}]"#,
        "bypasses[1].link: repeated",
    ),
    // Paths that set out alike, when all else of the later one is right.
    (
        PLAIN,
        r#""paths":[{"ip":"ip1","links":[["x","o"],["a","b"],["b","y"]]},{"ip":"ip1","links":[["x","o"],["a","c"],["c","b"]]}],"bypasses":[]"#,
        "paths[1]: taken",
    ),
    (
        PLAIN,
        r#""paths":[{"ip":"ip1","links":[["x","o"],["a","b"],["b","y"]]},{"ip":"ip1","links":[["x","o"],["a","b"],["b","a"],["a","b"]]}],"bypasses":[]"#,
        "paths[1].links[3]: repeated",
    ),
    // Paths that end where one sets out, when all else is right.
    (
        PLAIN,
        r#""paths":[{"ip":"ip1","links":[["x","o"],["a","c"],["c","b"]]},{"ip":"ip1","links":[["c","b"],["b","a"],["a","d"]]}],"bypasses":[{"link":["a","b"],"via":[["a","c"],["c","b"]]}]"#,
        "paths[0]: continues",
    ),
    (
        PLAIN,
        r#""paths":[{"ip":"ip1","links":[["c","b"],["b","a"],["a","d"]]},{"ip":"ip1","links":[["x","o"],["a","c"],["c","b"]]}],"bypasses":[]"#,
        "paths[1]: continues",
    ),
    (
        PLAIN,
        r#""paths":[{"ip":"ip1","links":[["x","o"],["a","c"],["c","b"]]},{"ip":"ip1","links":[["c","b"],["b","a"],["a","d"]]}],"bypasses":[{"link":["a","b"],"via":[["a","b"]]}]"#,
        "bypasses[0].via[0]: repeated",
    ),
    // All of one path comes before the next, and all of the paths before the bypasses.
    (
        PLAIN,
        r#""paths":[{"ip":"ip1","links":[["x","o"]]},5],"bypasses":[]"#,
        "paths[0].links: too short",
    ),
    (
        PLAIN,
        r#""paths":[{"ip":"ip1","links":[["x","o"],["a","b"],["b","y"]]},{"ip":"ip1","links":[["x","o"],["a","b"],["b","y"]]}]"#,
        "paths[1]: taken",
    ),
    (
        PLAIN,
        r#""paths":[],"bypasses":[{"link":["a","b"],"via":[["a","c"]]},5]"#,
        "bypasses[0].via: broken",
    ),
];

fn text_of(alloc: Global, file: &str, members: &str) -> Result<String, AllocError> {
    format!(in alloc; "{},{members}}}", file.strip_suffix("}").unwrap_or(file))
}

fn add_number(alloc: Global, text: &mut String, number: u32) -> Result<(), AllocError> {
    let word = format!(in alloc; " {number}")?;
    let put = text.push_str(word.as_str());
    drop(word);
    put
}

fn add_links(alloc: Global, text: &mut String, links: &[LinkId]) -> Result<(), AllocError> {
    for link in links {
        add_number(alloc, text, link.0)?;
    }
    Ok(())
}

fn add_row(
    alloc: Global,
    text: &mut String,
    word: &str,
    number: u32,
    links: &[LinkId],
) -> Result<(), AllocError> {
    text.push_str(word)?;
    add_number(alloc, text, number)?;
    text.push_str(":")?;
    add_links(alloc, text, links)?;
    text.push_str("\n")
}

fn add_paths(alloc: Global, text: &mut String, plan: &Plan) -> Result<(), AllocError> {
    for path in plan.paths.as_slice() {
        add_row(alloc, text, "path", path.ip.0, path.links.as_slice())?;
    }
    Ok(())
}

fn add_bypasses(alloc: Global, text: &mut String, plan: &Plan) -> Result<(), AllocError> {
    for bypass in plan.bypasses.as_slice() {
        add_row(alloc, text, "bypass", bypass.link.0, bypass.via.as_slice())?;
    }
    Ok(())
}

fn add_plan(alloc: Global, text: &mut String, plan: &Plan) -> Result<(), AllocError> {
    add_paths(alloc, text, plan)?;
    add_bypasses(alloc, text, plan)
}

fn plan_told(alloc: Global, plan: &Plan) -> Result<String, AllocError> {
    let mut text = String::new(alloc);
    match add_plan(alloc, &mut text, plan) {
        Ok(()) => Ok(text),
        Err(error) => {
            drop(text);
            Err(error)
        }
    }
}

fn refusal(alloc: Global, refused: PlanRefused) -> Result<String, AllocError> {
    format!(in alloc; "{refused}")
}

fn fault(alloc: Global, fault: NetFault) -> Result<String, AllocError> {
    format!(in alloc; "{fault}")
}

// As what a file is read: the second may leave its bypasses out.
#[derive(Clone, Copy)]
enum Reading {
    Plan,
    Draft,
}

fn read(
    alloc: Global,
    bytes: &[u8],
    network: &Network,
    reading: Reading,
) -> Result<Plan, PlanRefused>
    requires { network_of bytes.now ≡ Ok network.now }
    ensures { IfOk result (IsPlan network.now) }
{
    match reading {
        Reading::Plan => read_plan(alloc, bytes, network),
        Reading::Draft => read_draft(alloc, bytes, network),
    }
}

// What reading the plan gives, in words.
fn told_over(
    alloc: Global,
    bytes: &[u8],
    network: &Network,
    reading: Reading,
) -> Result<String, AllocError>
    requires { network_of bytes.now ≡ Ok network.now }
{
    match read(alloc, bytes, network, reading) {
        Ok(plan) => {
            let text = plan_told(alloc, &plan);
            drop(plan);
            text
        }
        Err(refused) => refusal(alloc, refused),
    }
}

fn told(alloc: Global, bytes: &[u8], reading: Reading) -> Result<String, AllocError> {
    match read_network(alloc, bytes) {
        Ok(network) => {
            let text = told_over(alloc, bytes, &network, reading);
            drop(network);
            text
        }
        Err(refused) => fault(alloc, refused),
    }
}

fn told_of(
    alloc: Global,
    file: &str,
    members: &str,
    reading: Reading,
) -> Result<String, AllocError> {
    let text = text_of(alloc, file, members)?;
    let found = told(alloc, text.as_bytes(), reading);
    drop(text);
    found
}

fn is(rt: &impl Abort, found: &str, wanted: &str) {
    assert!(rt; found == wanted, "{found} in place of {wanted}");
}

fn is_told(rt: &impl Abort, alloc: Global, case: &Case, reading: Reading) -> Result<(), Fail> {
    let (file, members, wanted) = *case;
    let found = told_of(alloc, file, members, reading)?;
    is(rt, found.as_str(), wanted);
    drop(found);
    Ok(())
}

fn are_told(rt: &impl Abort, alloc: Global, cases: &[Case], reading: Reading) -> Result<(), Fail> {
    for case in cases {
        is_told(rt, alloc, case, reading)?;
    }
    Ok(())
}

#[test]
fn plans_that_are_read(rt: HostRuntime) -> Result<(), Fail> {
    are_told(&rt, rt.alloc(), PLANS, Reading::Plan)
}

#[test]
fn first_faults_of_plans(rt: HostRuntime) -> Result<(), Fail> {
    are_told(&rt, rt.alloc(), FAULTS, Reading::Plan)
}

// What is read of files whose bypasses may be left out. Where the member is there, it has to be a list even so.
const DRAFTS: &[Case] = &[
    (
        PLAIN,
        r#""paths":[{"ip":"ip1","links":[["x","o"],["a","b"],["b","y"]]}]"#,
        "path 0: 0 1 4\n",
    ),
    (
        PLAIN,
        r#""paths":[],"bypasses":[{"link":["a","b"],"via":[["a","c"],["c","b"]]}]"#,
        "bypass 1: 2 3\n",
    ),
    (
        PLAIN,
        r#""paths":[],"bypasses":null"#,
        "bypasses: wrong shape",
    ),
    (
        PLAIN,
        r#""paths":[{"ip":"ip1","links":[["x","o"],["a","c"],["c","b"]]},{"ip":"ip1","links":[["c","b"],["b","a"],["a","d"]]}]"#,
        "paths[0]: continues",
    ),
];

#[test]
fn drafts_that_are_read(rt: HostRuntime) -> Result<(), Fail> {
    are_told(&rt, rt.alloc(), DRAFTS, Reading::Draft)
}

// Routers, links and the ip label of N1.
const BARE: &str =
    r#"{"format":"mpls-whatif-1","routers":["x","a","b","c","y"],"labels":{"mpls":[],"smpls":[],"ip":["ip1"]},"links":[{"from":"x","out":"o","to":"a","in":"x","distance":1},{"from":"a","out":"b","to":"b","in":"a","distance":1},{"from":"a","out":"c","to":"c","in":"a","distance":2},{"from":"c","out":"b","to":"b","in":"c","distance":2},{"from":"b","out":"y","to":"y","in":"b","distance":1}],"tables":[]}"#;

// Two links from a\ to b, one of them in a risk group with the last link. The router's name has a sign that JSON escapes.
const DUCT: &str =
    r#"{"format":"mpls-whatif-2","routers":["x","a\\","b","y"],"labels":{"mpls":[],"smpls":[],"ip":["ip1","ip2"]},"links":[{"from":"x","out":"o","to":"a\\","in":"x","distance":1},{"from":"a\\","out":"b","to":"b","in":"a","distance":1,"group":"duct"},{"from":"a\\","out":"c","to":"b","in":"c","distance":3},{"from":"b","out":"y","to":"y","in":"b","distance":2,"group":"duct"}],"tables":[]}"#;

// A network file, what stands in it besides, links that are told to be without protection, the text that is written, and the plan
// that is read of it.
type Written<'a> = (&'a str, &'a str, &'a [u32], &'a str, &'a str);

const TEXTS: &[Written] = &[
    (
        BARE,
        r#""bypasses":[{"via":[["a","c"],["c","b"]],"link":["a","b"]}],"paths":[{"links":[["x","o"],["a","b"],["b","y"]],"ip":"ip1"}]"#,
        &[],
        r#"{"bypasses":[{"link":["a","b"],"via":[["a","c"],["c","b"]]}],"format":"mpls-whatif-1","labels":{"ip":["ip1"],"mpls":[],"smpls":[]},"links":[{"distance":1,"from":"x","in":"x","out":"o","to":"a"},{"distance":1,"from":"a","in":"a","out":"b","to":"b"},{"distance":2,"from":"a","in":"a","out":"c","to":"c"},{"distance":2,"from":"c","in":"c","out":"b","to":"b"},{"distance":1,"from":"b","in":"b","out":"y","to":"y"}],"paths":[{"ip":"ip1","links":[["x","o"],["a","b"],["b","y"]]}],"routers":["x","a","b","c","y"],"tables":[],"unprotected":[]}"#,
        "path 0: 0 1 4\nbypass 1: 2 3\n",
    ),
    // Each list keeps its order. What isn't asked for isn't written.
    (
        DUCT,
        r#""unprotected":5,"paths":[{"ip":"ip2","links":[["x","o"],["a\\","c"],["b","y"]]},{"ip":"ip1","links":[["x","o"],["a\\","b"],["b","y"]]}],"bypasses":[{"link":["a\\","c"],"via":[["a\\","b"]],"note":5},{"link":["a\\","b"],"via":[["a\\","c"]]}]"#,
        &[3, 1],
        r#"{"bypasses":[{"link":["a\\","c"],"via":[["a\\","b"]]},{"link":["a\\","b"],"via":[["a\\","c"]]}],"format":"mpls-whatif-2","labels":{"ip":["ip1","ip2"],"mpls":[],"smpls":[]},"links":[{"distance":1,"from":"x","in":"x","out":"o","to":"a\\"},{"distance":1,"from":"a\\","group":"g1","in":"a","out":"b","to":"b"},{"distance":3,"from":"a\\","in":"c","out":"c","to":"b"},{"distance":2,"from":"b","group":"g1","in":"b","out":"y","to":"y"}],"paths":[{"ip":"ip2","links":[["x","o"],["a\\","c"],["b","y"]]},{"ip":"ip1","links":[["x","o"],["a\\","b"],["b","y"]]}],"routers":["x","a\\","b","y"],"tables":[],"unprotected":[["b","y"],["a\\","b"]]}"#,
        "path 1: 0 2 3\npath 0: 0 1 3\nbypass 2: 1\nbypass 1: 2\n",
    ),
];

// The text of a plan with none or two links without protection; no text, where the network hasn't these.
fn text_with(
    alloc: Global,
    network: &Network,
    plan: &Plan,
    unprotected: &[u32],
) -> Result<Vec<u8>, NoMemory>
    requires { IsPlan network.now plan.now }
{
    let count = network.counts().links;
    match unprotected {
        [] => write_plan(alloc, network, plan, &[]),
        [first, second] if *first < count && *second < count => {
            write_plan(alloc, network, plan, &[LinkId(*first), LinkId(*second)])
        }
        _ => Ok(Vec::new(alloc)),
    }
}

fn text_over(
    alloc: Global,
    bytes: &[u8],
    network: &Network,
    unprotected: &[u32],
) -> Result<Vec<u8>, AllocError>
    requires { network_of bytes.now ≡ Ok network.now }
{
    match read(alloc, bytes, network, Reading::Draft) {
        Ok(plan) => {
            let text = text_with(alloc, network, &plan, unprotected);
            drop(plan);
            text.map_err(|_| AllocError)
        }
        Err(_) => Ok(Vec::new(alloc)),
    }
}

// The text that is written of what bytes mean; none, where they mean nothing.
fn written(alloc: Global, bytes: &[u8], unprotected: &[u32]) -> Result<Vec<u8>, AllocError> {
    match read_network(alloc, bytes) {
        Ok(network) => {
            let text = text_over(alloc, bytes, &network, unprotected);
            drop(network);
            text
        }
        Err(_) => Ok(Vec::new(alloc)),
    }
}

fn text_is(rt: &impl Abort, found: &[u8], wanted: &str) {
    assert!(rt; found == wanted.as_bytes());
}

fn is_written(
    rt: &impl Abort,
    alloc: Global,
    text: &str,
    unprotected: &[u32],
    wanted: &str,
) -> Result<(), Fail> {
    let found = written(alloc, text.as_bytes(), unprotected)?;
    text_is(rt, found.as_slice(), wanted);
    drop(found);
    Ok(())
}

fn is_read(rt: &impl Abort, alloc: Global, text: &str, wanted: &str) -> Result<(), Fail> {
    let found = told(alloc, text.as_bytes(), Reading::Plan)?;
    is(rt, found.as_str(), wanted);
    drop(found);
    Ok(())
}

// What is written of a file is another one. Of that the same is written, and the plan is read.
fn is_written_as(rt: &impl Abort, alloc: Global, case: &Written) -> Result<(), Fail> {
    let (file, members, unprotected, wanted, plan) = *case;
    let text = text_of(alloc, file, members)?;
    let first = is_written(rt, alloc, text.as_str(), unprotected, wanted);
    drop(text);
    first?;
    is_written(rt, alloc, wanted, unprotected, wanted)?;
    is_read(rt, alloc, wanted, plan)
}

#[test]
fn plans_that_are_written(rt: HostRuntime) -> Result<(), Fail> {
    for case in TEXTS {
        is_written_as(&rt, rt.alloc(), case)?;
    }
    Ok(())
}
