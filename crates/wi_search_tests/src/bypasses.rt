//! Bypasses that are found for plans, by example. Links are numbered from 0 in the order of the file.
ghost use Rattle.std.specs.Prelude.{◌≡◌, Ok};
ghost use Rattle.wi_netjson.specs.File.{network_of};
ghost use Rattle.wi_plan.specs.Plans.{IsPlan};

use std::alloc::{AllocError, Global};
use std::process::Abort;
use std::test::Fail;
use wi_bypass::{Found, bypasses};
use wi_net::{LinkId, Network};
use wi_netjson::read_network;
use wi_plan::Plan;
use wi_planjson::read_plan;

// From x over a and b to y, and from a over c to b: x.o, a.b, a.c, c.b and b.y; and from y on to z.
const N1: &str =
    r#"{"format":"mpls-whatif-1","routers":["x","a","b","c","y","z"],"labels":{"mpls":[],"smpls":[],"ip":["ip1","ip2"]},"links":[{"from":"x","out":"o","to":"a","in":"x","distance":1},{"from":"a","out":"b","to":"b","in":"a","distance":1},{"from":"a","out":"c","to":"c","in":"a","distance":2},{"from":"c","out":"b","to":"b","in":"c","distance":2},{"from":"b","out":"y","to":"y","in":"b","distance":1},{"from":"y","out":"z","to":"z","in":"y","distance":1}],"tables":[]}"#;

// Nothing leads from a to b but one link: x.o, a.b and b.y.
const LINE: &str =
    r#"{"format":"mpls-whatif-1","routers":["x","a","b","y"],"labels":{"mpls":[],"smpls":[],"ip":["ip1","ip2"]},"links":[{"from":"x","out":"o","to":"a","in":"x","distance":1},{"from":"a","out":"b","to":"b","in":"a","distance":1},{"from":"b","out":"y","to":"y","in":"b","distance":1}],"tables":[]}"#;

// As the first, with a.b and a.c in one duct, and a second link from a to b besides, a.d, which is the last.
const DUCT: &str =
    r#"{"format":"mpls-whatif-2","routers":["x","a","b","c","y"],"labels":{"mpls":[],"smpls":[],"ip":["ip1"]},"links":[{"from":"x","out":"o","to":"a","in":"x","distance":1},{"from":"a","out":"b","to":"b","in":"a","distance":1,"group":"duct"},{"from":"a","out":"c","to":"c","in":"a","distance":2,"group":"duct"},{"from":"c","out":"b","to":"b","in":"c","distance":2},{"from":"b","out":"y","to":"y","in":"b","distance":1},{"from":"a","out":"d","to":"b","in":"d","distance":1}],"tables":[]}"#;

// From x over a, b and c to y, and from a over d to c, all between a, b, c and d in both directions: x.o, a.b, b.a, b.c, c.b, a.d, d.a,
// d.c, c.d and c.y.
const LADDER: &str =
    r#"{"format":"mpls-whatif-1","routers":["x","a","b","c","d","y"],"labels":{"mpls":[],"smpls":[],"ip":["ip1"]},"links":[{"from":"x","out":"o","to":"a","in":"x","distance":1},{"from":"a","out":"b","to":"b","in":"a","distance":1},{"from":"b","out":"a","to":"a","in":"b","distance":1},{"from":"b","out":"c","to":"c","in":"b","distance":1},{"from":"c","out":"b","to":"b","in":"c","distance":1},{"from":"a","out":"d","to":"d","in":"a","distance":1},{"from":"d","out":"a","to":"a","in":"d","distance":1},{"from":"d","out":"c","to":"c","in":"d","distance":1},{"from":"c","out":"d","to":"d","in":"c","distance":1},{"from":"c","out":"y","to":"y","in":"c","distance":1}],"tables":[]}"#;

// The same where the links between a and b and those between b and c lie in one duct.
const CUT: &str =
    r#"{"format":"mpls-whatif-2","routers":["x","a","b","c","d","y"],"labels":{"mpls":[],"smpls":[],"ip":["ip1"]},"links":[{"from":"x","out":"o","to":"a","in":"x","distance":1},{"from":"a","out":"b","to":"b","in":"a","distance":1,"group":"duct"},{"from":"b","out":"a","to":"a","in":"b","distance":1,"group":"duct"},{"from":"b","out":"c","to":"c","in":"b","distance":1,"group":"duct"},{"from":"c","out":"b","to":"b","in":"c","distance":1,"group":"duct"},{"from":"a","out":"d","to":"d","in":"a","distance":1},{"from":"d","out":"a","to":"a","in":"d","distance":1},{"from":"d","out":"c","to":"c","in":"d","distance":1},{"from":"c","out":"d","to":"d","in":"c","distance":1},{"from":"c","out":"y","to":"y","in":"c","distance":1}],"tables":[]}"#;

// A link from a to itself: x.o, a.l and a.y; and the same with a way from a to b and back, a.b and b.a.
const ALONE: &str =
    r#"{"format":"mpls-whatif-1","routers":["x","a","b","y"],"labels":{"mpls":[],"smpls":[],"ip":["ip1"]},"links":[{"from":"x","out":"o","to":"a","in":"x","distance":1},{"from":"a","out":"l","to":"a","in":"m","distance":1},{"from":"a","out":"y","to":"y","in":"a","distance":1}],"tables":[]}"#;

const LOOP: &str =
    r#"{"format":"mpls-whatif-1","routers":["x","a","b","y"],"labels":{"mpls":[],"smpls":[],"ip":["ip1"]},"links":[{"from":"x","out":"o","to":"a","in":"x","distance":1},{"from":"a","out":"l","to":"a","in":"m","distance":1},{"from":"a","out":"y","to":"y","in":"a","distance":1},{"from":"a","out":"b","to":"b","in":"a","distance":1},{"from":"b","out":"a","to":"a","in":"b","distance":1}],"tables":[]}"#;

// A network file, the plan that stands in it besides, and what is found: each bypass as its link and those around it, and then the links
// that are left without protection.
type Case<'a> = (&'a str, &'a str, &'a str);

const FOUND: &[Case] = &[
    (
        N1,
        r#""paths":[{"ip":"ip1","links":[["x","o"],["a","b"],["b","y"]]}],"bypasses":[]"#,
        "1: 2 3\nleft:\n",
    ),
    // Two paths over one inner link: one bypass.
    (
        N1,
        r#""paths":[{"ip":"ip1","links":[["x","o"],["a","b"],["b","y"]]},{"ip":"ip2","links":[["x","o"],["a","b"],["b","y"]]}],"bypasses":[]"#,
        "1: 2 3\nleft:\n",
    ),
    // It is left over once.
    (
        LINE,
        r#""paths":[{"ip":"ip1","links":[["x","o"],["a","b"],["b","y"]]},{"ip":"ip2","links":[["x","o"],["a","b"],["b","y"]]}],"bypasses":[]"#,
        "left: 1\n",
    ),
    // A link between others of one path, and the first of another: it is asked about. The link behind it is the last of one, and has no
    // detour.
    (
        N1,
        r#""paths":[{"ip":"ip1","links":[["x","o"],["a","b"],["b","y"]]},{"ip":"ip2","links":[["a","b"],["b","y"],["y","z"]]}],"bypasses":[]"#,
        "1: 2 3\nleft: 4\n",
    ),
    // The first link and the last are not asked about.
    (
        N1,
        r#""paths":[{"ip":"ip2","links":[["a","b"],["b","y"],["y","z"]]}],"bypasses":[]"#,
        "left: 4\n",
    ),
    (
        LADDER,
        r#""paths":[{"ip":"ip1","links":[["x","o"],["a","b"],["b","c"],["c","y"]]}],"bypasses":[]"#,
        "1: 5 7 4\n3: 2 5 7\nleft:\n",
    ),
    // All that reaches b, or leaves it, is in the duct.
    (
        CUT,
        r#""paths":[{"ip":"ip1","links":[["x","o"],["a","b"],["b","c"],["c","y"]]}],"bypasses":[]"#,
        "left: 1 3\n",
    ),
    (
        LOOP,
        r#""paths":[{"ip":"ip1","links":[["x","o"],["a","l"],["a","y"]]}],"bypasses":[]"#,
        "1: 3 4\nleft:\n",
    ),
    (
        ALONE,
        r#""paths":[{"ip":"ip1","links":[["x","o"],["a","l"],["a","y"]]}],"bypasses":[]"#,
        "left: 1\n",
    ),
];

const KEPT: &[Case] = &[
    // The plan's bypass stays, and is a detour.
    (
        N1,
        r#""paths":[{"ip":"ip1","links":[["x","o"],["a","b"],["b","y"]]}],"bypasses":[{"link":["a","b"],"via":[["a","c"],["c","b"]]}]"#,
        "left:\n",
    ),
    // The plan's bypass lies in the duct of what it protects: there is no second one, though there is a detour.
    (
        DUCT,
        r#""paths":[{"ip":"ip1","links":[["x","o"],["a","b"],["b","y"]]}],"bypasses":[{"link":["a","b"],"via":[["a","c"],["c","b"]]}]"#,
        "left: 1\n",
    ),
    // Without it the detour is found.
    (
        DUCT,
        r#""paths":[{"ip":"ip1","links":[["x","o"],["a","b"],["b","y"]]}],"bypasses":[]"#,
        "1: 5\nleft:\n",
    ),
    // A bypass in its own duct, of a link on no path.
    (
        DUCT,
        r#""paths":[{"ip":"ip1","links":[["x","o"],["a","d"],["b","y"]]}],"bypasses":[{"link":["a","b"],"via":[["a","c"],["c","b"]]}]"#,
        "5: 1\nleft:\n",
    ),
    (
        DUCT,
        r#""paths":[],"bypasses":[{"link":["a","b"],"via":[["a","c"],["c","b"]]}]"#,
        "left:\n",
    ),
];

fn text_of(alloc: Global, file: &str, members: &str) -> Result<String, AllocError> {
    format!(in alloc; "{},{members}}}", file.strip_suffix("}").unwrap_or(file))
}

fn add_number(alloc: Global, text: &mut String, number: u32) -> Result<(), AllocError> {
    let word = format!(in alloc; " {number}")?;
    let put = text.push_str(word.as_str());
    drop(word);
    put
}

fn add_links(alloc: Global, text: &mut String, links: &[LinkId]) -> Result<(), AllocError> {
    for link in links {
        add_number(alloc, text, link.0)?;
    }
    text.push_str("\n")
}

fn add_found(alloc: Global, text: &mut String, found: &Found) -> Result<(), AllocError> {
    for bypass in found.bypasses.as_slice() {
        let word = format!(in alloc; "{}:", bypass.link.0)?;
        let put = text.push_str(word.as_str());
        drop(word);
        put?;
        add_links(alloc, text, bypass.via.as_slice())?;
    }
    text.push_str("left:")?;
    add_links(alloc, text, found.unprotected.as_slice())
}

fn found_told(alloc: Global, found: &Found) -> Result<String, AllocError> {
    let mut text = String::new(alloc);
    match add_found(alloc, &mut text, found) {
        Ok(()) => Ok(text),
        Err(error) => {
            drop(text);
            Err(error)
        }
    }
}

// What is found for a plan, in words.
fn told_for(alloc: Global, net: &Network, plan: &Plan) -> Result<String, Fail>
    requires { IsPlan net.now plan.now }
{
    let found = bypasses(alloc, net, plan)?;
    let text = found_told(alloc, &found);
    drop(found);
    Ok(text?)
}

fn told_over(alloc: Global, bytes: &[u8], net: &Network) -> Result<String, Fail>
    requires { network_of bytes.now ≡ Ok net.now }
{
    let plan = read_plan(alloc, bytes, net)?;
    let text = told_for(alloc, net, &plan);
    drop(plan);
    text
}

fn told(alloc: Global, bytes: &[u8]) -> Result<String, Fail> {
    let net = read_network(alloc, bytes)?;
    let text = told_over(alloc, bytes, &net);
    drop(net);
    text
}

fn told_of(alloc: Global, file: &str, members: &str) -> Result<String, Fail> {
    let text = text_of(alloc, file, members)?;
    let found = told(alloc, text.as_bytes());
    drop(text);
    found
}

fn is(rt: &impl Abort, found: &str, wanted: &str) {
    assert!(rt; found == wanted, "{found} in place of {wanted}");
}

fn is_told(rt: &impl Abort, alloc: Global, case: &Case) -> Result<(), Fail> {
    let (file, members, wanted) = *case;
    let found = told_of(alloc, file, members)?;
    is(rt, found.as_str(), wanted);
    drop(found);
    Ok(())
}

fn are_told(rt: &impl Abort, alloc: Global, cases: &[Case]) -> Result<(), Fail> {
    for case in cases {
        is_told(rt, alloc, case)?;
    }
    Ok(())
}

#[test]
fn inner_links_get_least_detours_or_are_left(rt: HostRuntime) -> Result<(), Fail> {
    are_told(&rt, rt.alloc(), FOUND)
}

#[test]
fn bypasses_of_the_plan_are_kept_and_judged(rt: HostRuntime) -> Result<(), Fail> {
    are_told(&rt, rt.alloc(), KEPT)
}
