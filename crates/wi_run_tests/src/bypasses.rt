//! The plan that `bypass` prints with the bypasses that it found, and the first fault of those of which there is none.
use crate::audits::shelf_of;
use crate::called::{between, is_said, ran, shelf_with};
use crate::protect::{BARE, PLAIN, PROTECTED, protected, with_members};
use crate::samples::abilene_paths;
use std::alloc::Global;
use std::process::Abort;
use std::test::Fail;
use wi_base::MemoryShelf;

// What `bypass` ends with for a file.
fn bypassed(alloc: Global, file: &str) -> Result<String, Fail> {
    let mut shelf = shelf_with(alloc, file.as_bytes())?;
    let said = ran(alloc, &["whatif", "bypass", "n"], &mut shelf);
    drop(shelf);
    said
}

// The same for a network with these members besides.
fn planned(alloc: Global, network: &str, members: &str) -> Result<String, Fail> {
    let file = with_members(alloc, network, members)?;
    let said = bypassed(alloc, file.as_str());
    drop(file);
    said
}

// A path over the link from a to b.
const OVER_A_B: &str = r#""paths":[{"ip":"ip1","links":[["x","o"],["a","b"],["b","y"]]}]"#;

const AROUND_BY_C: &str =
    r#"{"bypasses":[{"link":["a","b"],"via":[["a","c"],["c","b"]]}],"format":"mpls-whatif-1","labels":{"ip":["ip1"],"mpls":[],"smpls":[]},"links":[{"distance":1,"from":"x","in":"x","out":"o","to":"a"},{"distance":1,"from":"a","in":"a","out":"b","to":"b"},{"distance":2,"from":"a","in":"a","out":"c","to":"c"},{"distance":2,"from":"c","in":"c","out":"b","to":"b"},{"distance":1,"from":"b","in":"b","out":"y","to":"y"}],"paths":[{"ip":"ip1","links":[["x","o"],["a","b"],["b","y"]]}],"routers":["x","a","b","c","y"],"tables":[],"unprotected":[]}"#;

// What was printed, where that ended with status 0.
fn printed(said: &str) -> &str {
    between(said, "0<", "><>").unwrap_or("")
}

// What `protect` ends with for what was printed.
fn protected_as_printed(alloc: Global, said: Result<String, Fail>) -> Result<String, Fail> {
    let said = said?;
    let made = protected(alloc, printed(said.as_str()));
    drop(said);
    made
}

#[test]
fn the_plan_is_printed_for_protect(rt: HostRuntime) -> Result<(), Fail> {
    let wanted = format!(in rt.alloc(); "0<{AROUND_BY_C}\n><>")?;
    let said = is_said(&rt, planned(rt.alloc(), BARE, OVER_A_B), wanted.as_str());
    drop(wanted);
    said?;
    let wanted = format!(in rt.alloc(); "0<{PROTECTED}\n><>")?;
    let made = protected_as_printed(rt.alloc(), planned(rt.alloc(), BARE, OVER_A_B));
    let said = is_said(&rt, made, wanted.as_str());
    drop(wanted);
    said
}

// A link from a to a, with a way from a by b, and without.
const TO_ITSELF: &str =
    r#"{"format":"mpls-whatif-1","routers":["x","a","b","y"],"labels":{"mpls":[],"smpls":[],"ip":["ip1"]},"links":[{"from":"x","out":"o","to":"a","in":"x","distance":1},{"from":"a","out":"l","to":"a","in":"m","distance":1},{"from":"a","out":"y","to":"y","in":"a","distance":1},{"from":"a","out":"b","to":"b","in":"a","distance":1},{"from":"b","out":"a","to":"a","in":"b","distance":1}],"tables":[]}"#;

const TO_ITSELF_ALONE: &str =
    r#"{"format":"mpls-whatif-1","routers":["x","a","y"],"labels":{"mpls":[],"smpls":[],"ip":["ip1"]},"links":[{"from":"x","out":"o","to":"a","in":"x","distance":1},{"from":"a","out":"l","to":"a","in":"m","distance":1},{"from":"a","out":"y","to":"y","in":"a","distance":1}],"tables":[]}"#;

const OVER_A_L: &str = r#""paths":[{"ip":"ip1","links":[["x","o"],["a","l"],["a","y"]]}]"#;

// Two links of the path in one duct, and a way past both.
const TWO_IN_A_DUCT: &str =
    r#"{"format":"mpls-whatif-2","routers":["x","a","b","c","y","d"],"labels":{"mpls":[],"smpls":[],"ip":["ip1"]},"links":[{"from":"x","out":"o","to":"a","in":"x","distance":1},{"from":"a","out":"b","to":"b","in":"a","distance":1,"group":"duct"},{"from":"b","out":"c","to":"c","in":"b","distance":1,"group":"duct"},{"from":"c","out":"y","to":"y","in":"c","distance":1},{"from":"a","out":"d","to":"d","in":"a","distance":1},{"from":"d","out":"c","to":"c","in":"d","distance":1}],"tables":[]}"#;

const OVER_BOTH: &str =
    r#""paths":[{"ip":"ip1","links":[["x","o"],["a","b"],["b","c"],["c","y"]]}]"#;

// Two paths over the link from a to b, with a second link there, and with no way around.
const TWO_PATHS: &str =
    r#""paths":[{"ip":"ip1","links":[["x","o"],["a","b"],["b","y"]]},{"ip":"ip2","links":[["x","o"],["a","b"],["b","y"]]}]"#;

const A_LINE: &str =
    r#"{"format":"mpls-whatif-1","routers":["x","a","b","y"],"labels":{"mpls":[],"smpls":[],"ip":["ip1","ip2"]},"links":[{"from":"x","out":"o","to":"a","in":"x","distance":1},{"from":"a","out":"b","to":"b","in":"a","distance":1},{"from":"b","out":"y","to":"y","in":"b","distance":1}],"tables":[]}"#;

// A second link from a to b lies in the duct of the first, and there is a way by c.
const A_B_IN_A_DUCT: &str =
    r#"{"format":"mpls-whatif-2","routers":["x","a","b","c","y"],"labels":{"mpls":[],"smpls":[],"ip":["ip1"]},"links":[{"from":"x","out":"o","to":"a","in":"x","distance":1},{"from":"a","out":"b","to":"b","in":"a","distance":1,"group":"duct"},{"from":"a","out":"d","to":"b","in":"d","distance":0,"group":"duct"},{"from":"a","out":"c","to":"c","in":"a","distance":4294967295},{"from":"c","out":"b","to":"b","in":"c","distance":4294967295},{"from":"b","out":"y","to":"y","in":"b","distance":1}],"tables":[]}"#;

const BY_THE_DUCT: &str =
    r#""bypasses":[{"link":["a","b"],"via":[["a","d"]]}],"paths":[{"ip":"ip1","links":[["x","o"],["a","b"],["b","y"]]}]"#;

const OF_ANOTHER_LINK: &str =
    r#""bypasses":[{"link":["a","d"],"via":[["a","b"]]}],"paths":[{"ip":"ip1","links":[["x","o"],["a","b"],["b","y"]]}]"#;

// A network, its further members, and with what `bypass` begins and ends.
const PLANS: &[(&str, &str, &str, &str)] = &[
    (
        TO_ITSELF,
        OVER_A_L,
        r#"0<{"bypasses":[{"link":["a","l"],"via":[["a","b"],["b","a"]]}],"format""#,
        "\"tables\":[],\"unprotected\":[]}\n><>",
    ),
    (
        TO_ITSELF_ALONE,
        OVER_A_L,
        r#"1<{"bypasses":[],"format""#,
        "\"tables\":[],\"unprotected\":[[\"a\",\"l\"]]}\n><>",
    ),
    (
        TWO_IN_A_DUCT,
        OVER_BOTH,
        r#"1<{"bypasses":[],"format""#,
        "\"tables\":[],\"unprotected\":[[\"a\",\"b\"],[\"b\",\"c\"]]}\n><>",
    ),
    (
        PLAIN,
        TWO_PATHS,
        r#"0<{"bypasses":[{"link":["a","b"],"via":[["a","d"]]}],"format""#,
        "\"tables\":[],\"unprotected\":[]}\n><>",
    ),
    (
        A_LINE,
        TWO_PATHS,
        r#"1<{"bypasses":[],"format""#,
        "\"tables\":[],\"unprotected\":[[\"a\",\"b\"]]}\n><>",
    ),
    (
        A_B_IN_A_DUCT,
        OVER_A_B,
        r#"0<{"bypasses":[{"link":["a","b"],"via":[["a","c"],["c","b"]]}],"format""#,
        "\"tables\":[],\"unprotected\":[]}\n><>",
    ),
    (
        A_B_IN_A_DUCT,
        BY_THE_DUCT,
        r#"1<{"bypasses":[{"link":["a","b"],"via":[["a","d"]]}],"format""#,
        "\"tables\":[],\"unprotected\":[[\"a\",\"b\"]]}\n><>",
    ),
    (
        A_B_IN_A_DUCT,
        OF_ANOTHER_LINK,
        r#"0<{"bypasses":[{"link":["a","d"],"via":[["a","b"]]},{"link":["a","b"],"via":[["a","c"],["c","b"]]}],"format""#,
        "\"tables\":[],\"unprotected\":[]}\n><>",
    ),
    (
        BARE,
        r#""paths":[]"#,
        r#"0<{"bypasses":[],"format""#,
        "\"paths\":[],\"routers\":[\"x\",\"a\",\"b\",\"c\",\"y\"],\"tables\":[],\"unprotected\":[]}\n><>",
    ),
];

// This was said from its front to its end.
fn begins_and_ends(
    rt: &impl Abort,
    said: Result<String, Fail>,
    front: &str,
    end: &str,
) -> Result<(), Fail> {
    let said = said?;
    assert!(rt; said.starts_with(front));
    assert!(rt; said.ends_with(end));
    Ok(())
}

#[test]
fn detours_keep_out_of_ducts(rt: HostRuntime) -> Result<(), Fail> {
    for (network, members, front, end) in PLANS {
        let said = planned(rt.alloc(), network, members);
        begins_and_ends(&rt, said, front, end)?;
    }
    Ok(())
}

// What is said of the network with these members besides.
const REFUSED: &[(&str, &str)] = &[
    ("", "15<><plan: paths: wrong shape\n>"),
    (
        r#""paths":[],"bypasses":null"#,
        "15<><plan: bypasses: wrong shape\n>",
    ),
    (
        r#""paths":[{"ip":"ip1","links":[["x","o"],["a","b"]]}]"#,
        "15<><plan: paths[0].links: too short\n>",
    ),
    (
        r#""paths":[],"bypasses":[{"link":["a","b"],"via":[]}]"#,
        "15<><plan: bypasses[0].via: too short\n>",
    ),
];

#[test]
fn the_first_fault_of_a_draft_is_said(rt: HostRuntime) -> Result<(), Fail> {
    for (members, wanted) in REFUSED {
        is_said(&rt, planned(rt.alloc(), BARE, members), wanted)?;
    }
    let said = bypassed(rt.alloc(), PROTECTED);
    is_said(&rt, said, "15<><plan: tables: not empty\n>")?;
    let said = bypassed(rt.alloc(), "{}");
    is_said(&rt, said, "3<><network: format: wrong shape\n>")?;
    let mut shelf = MemoryShelf::new(rt.alloc());
    let said = ran(rt.alloc(), &["whatif", "bypass", "n"], &mut shelf);
    drop(shelf);
    is_said(&rt, said, "10<><whatif: cannot read n\n>")
}

const OF_EACH_PATH: &[u8] =
    b"yes Seattle to New York arrives <net_nyc> [ce_sea#sea] .* [nyc#ce_nyc] <net_nyc> 0
no Seattle to New York is never lost <net_nyc> [ce_sea#sea] [^ .#ce_nyc]* drop 0
yes New York to Seattle arrives <net_sea> [ce_nyc#nyc] .* [sea#ce_sea] <net_sea> 0
no New York to Seattle is never lost <net_sea> [ce_nyc#nyc] [^ .#ce_sea]* drop 0
yes Los Angeles to Washington arrives <net_wdc> [ce_lax#lax] .* [wdc#ce_wdc] <net_wdc> 0
no Los Angeles to Washington is never lost <net_wdc> [ce_lax#lax] [^ .#ce_wdc]* drop 0
yes Washington to Los Angeles arrives <net_lax> [ce_wdc#wdc] .* [lax#ce_lax] <net_lax> 0
no Washington to Los Angeles is never lost <net_lax> [ce_wdc#wdc] [^ .#ce_lax]* drop 0
";

// What `outages` ends with for the policies of Abilene's paths, where the customers' cables stay up.
fn tried(alloc: Global, network: &str) -> Result<String, Fail> {
    let mut shelf = shelf_of(alloc, network, OF_EACH_PATH)?;
    let given = "up [ce_sea#sea, ce_nyc#nyc, ce_lax#lax, ce_wdc#wdc]";
    let words = ["whatif", "outages", "n", "p", "--given", given];
    let said = ran(alloc, &words, &mut shelf);
    drop(shelf);
    said
}

fn tried_as_printed(alloc: Global, said: Result<String, Fail>) -> Result<String, Fail> {
    let said = said?;
    let tried = tried(alloc, printed(said.as_str()));
    drop(said);
    tried
}

const EACH_CABLE: &str = "0<1..14
ok 1 - sea.snv snv.sea down
ok 2 - sea.den den.sea down
ok 3 - snv.lax lax.snv down
ok 4 - snv.den den.snv down
ok 5 - lax.hou hou.lax down
ok 6 - den.kcy kcy.den down
ok 7 - kcy.hou hou.kcy down
ok 8 - kcy.ind ind.kcy down
ok 9 - hou.atl atl.hou down
ok 10 - atl.ind ind.atl down
ok 11 - atl.wdc wdc.atl down
ok 12 - ind.chi chi.ind down
ok 13 - chi.nyc nyc.chi down
ok 14 - nyc.wdc wdc.nyc down
><>";

#[test]
fn paths_survive_each_cable(rt: HostRuntime) -> Result<(), Fail> {
    let plan = bypassed(rt.alloc(), abilene_paths());
    let network = protected_as_printed(rt.alloc(), plan);
    is_said(&rt, tried_as_printed(rt.alloc(), network), EACH_CABLE)
}
