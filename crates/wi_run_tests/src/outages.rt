//! Policies in each outage: what is printed and said of them, and what stands where that is broken off.
use crate::audits::{OF_THE_GUIDE, shelf_of};
use crate::called::{is_said, ran_over};
use crate::doubles::doubles_beside;
use crate::samples::{guide, n1, n2, n3, n6};
use std::alloc::Global;
use std::process::Abort;
use std::test::Fail;
use wi_base::{FailingPut, MemoryShelf};

// What `outages` ends with where standard output fails so; this is given, if anything is, and it is asked of routers.
fn tried_on(
    alloc: Global,
    shelf: &mut MemoryShelf,
    given: Option<&str>,
    routers: bool,
    out_fails: &[FailingPut],
) -> Result<String, Fail> {
    match (given, routers) {
        (None, false) => ran_over(
            alloc,
            &["whatif", "outages", "n", "p"],
            shelf,
            out_fails,
            &[],
        ),
        (None, true) => {
            let words = ["whatif", "outages", "n", "p", "--routers"];
            ran_over(alloc, &words, shelf, out_fails, &[])
        }
        (Some(text), false) => {
            let words = ["whatif", "outages", "n", "p", "--given", text];
            ran_over(alloc, &words, shelf, out_fails, &[])
        }
        (Some(text), true) => {
            let words = ["whatif", "outages", "--routers", "n", "p", "--given", text];
            ran_over(alloc, &words, shelf, out_fails, &[])
        }
    }
}

fn tried_over(
    alloc: Global,
    network: &str,
    case: &Case,
    out_fails: &[FailingPut],
) -> Result<String, Fail> {
    let mut shelf = shelf_of(alloc, network, case.0)?;
    let said = tried_on(alloc, &mut shelf, case.1, case.2, out_fails);
    drop(shelf);
    said
}

// The bytes of a file of policies, what is given, whether it is asked of routers, and what `outages` is to end with.
type Case<'a> = (&'a [u8], Option<&'a str>, bool, &'a str);

fn cases_are(rt: &impl Abort, alloc: Global, network: &str, cases: &[Case]) -> Result<(), Fail> {
    for case in cases {
        let said = tried_over(alloc, network, case, &[]);
        is_said(rt, said, case.3)?;
    }
    Ok(())
}

const EACH_CABLE: &str = "1<1..7
not ok 1 - ce1.pe1 down
# line 2 (A arrives): no, yes is expected
not ok 2 - pe1.p1 p1.pe1 down
# line 2 (A arrives): no, yes is expected
# line 3 (A is never lost): yes, no is expected
ok 3 - p1.p3 p3.p1 down
ok 4 - p1.p2 p2.p1 down
ok 5 - p2.p3 p3.p2 down
not ok 6 - p3.pe2 pe2.p3 down
# line 2 (A arrives): no, yes is expected
# line 3 (A is never lost): yes, no is expected
not ok 7 - pe2.ce2 down
# line 2 (A arrives): no, yes is expected
# line 3 (A is never lost): yes, no is expected
><>";

const EACH_CABLE_OF_THE_CORE: &str =
    "0<1..3\nok 1 - p1.p3 p3.p1 down\nok 2 - p1.p2 p2.p1 down\nok 3 - p2.p3 p3.p2 down\n><>";

#[test]
fn each_cable_of_the_guide(rt: HostRuntime) -> Result<(), Fail> {
    let access = "up [ce1#pe1, pe1#p1, p3#pe2, pe2#ce2]";
    cases_are(
        &rt,
        rt.alloc(),
        guide(),
        &[
            (OF_THE_GUIDE, None, false, EACH_CABLE),
            (OF_THE_GUIDE, Some(access), false, EACH_CABLE_OF_THE_CORE),
        ],
    )
}

const ON_THE_FIRST_NETWORK: &[Case] = &[
    (
        b"yes <ip1> [x#a] .* [b#y] <ip1> 0 up [x#a]",
        None,
        false,
        "1<1..5\nok 1 - x.o down # SKIP not asked\nok 2 - a.b down\nok 3 - a.c down\nok 4 - c.b down\nnot ok 5 - b.y down\n# line 1: no, yes is expected\n><>",
    ),
    (
        b"yes a#\\ <ip1> [x#a] .* [b#y] <ip1> 0",
        Some("up [a#b, a#c, c#b, b#y]"),
        false,
        "1<1..1\nnot ok 1 - x.o down\n# line 1 (a__): no, yes is expected\n><>",
    ),
    (
        b"yes <ip1> [x#a] .* [b#y] <ip1> 0 up [x#a, b#y]\nno b <ip1> [x#a] .* [b#y] <ip1> 0 up [a#b, a#c, c#b]",
        None,
        false,
        "0<1..5\nok 1 - x.o down\nok 2 - a.b down\nok 3 - a.c down\nok 4 - c.b down\nok 5 - b.y down\n><>",
    ),
];

// Of routers, with what is given, and with nothing left to be out.
const OF_ROUTERS: &[Case] = &[
    (
        b"yes <ip1> [x#a] .* [b#y] <ip1> 0",
        None,
        true,
        "1<1..5\nnot ok 1 - x down\n# line 1: no, yes is expected\nnot ok 2 - a down\n# line 1: no, yes is expected\nnot ok 3 - b down\n# line 1: no, yes is expected\nok 4 - c down\nnot ok 5 - y down\n# line 1: no, yes is expected\n><>",
    ),
    (
        b"yes <ip1> [x#a] .* [b#y] <ip1> 0 up [x#a, b#y]",
        None,
        true,
        "0<1..5\nok 1 - x down # SKIP not asked\nok 2 - a down # SKIP not asked\nok 3 - b down # SKIP not asked\nok 4 - c down\nok 5 - y down # SKIP not asked\n><>",
    ),
    (
        b"no <ip1> [x#a] .* [b#y] <ip1> 0",
        Some("down [x#a] up [b#y]"),
        true,
        "0<1..1\nok 1 - c down\n><>",
    ),
    (
        b"yes <ip1> [x#a] .* [b#y] <ip1> 0",
        Some("up [x#a, a#b, a#c, c#b, b#y]"),
        true,
        "0<1..0\n><>",
    ),
];

// More may fail than there is, and something is down anyway.
const WITHIN_BOUNDS: &[Case] = &[
    (
        b"yes <ip1> [x#a] .* [b#y] <ip1> 0",
        Some("up [x#a, a#b, a#c, c#b, b#y]"),
        false,
        "0<1..0\n><>",
    ),
    (
        b"no <ip1> [x#a] [a#c] .* [b#y] <ip1> 65535 up [a#b]",
        None,
        false,
        "0<1..5\nok 1 - x.o down\nok 2 - a.b down # SKIP not asked\nok 3 - a.c down\nok 4 - c.b down\nok 5 - b.y down\n><>",
    ),
    (
        b"yes <ip1> [x#a] [a#c] .* [b#y] <ip1> 65535",
        Some("down [c#b]"),
        false,
        "1<1..4\nnot ok 1 - x.o down\n# line 1: no, yes is expected\nnot ok 2 - a.b down\n# line 1: no, yes is expected\nnot ok 3 - a.c down\n# line 1: no, yes is expected\nnot ok 4 - b.y down\n# line 1: no, yes is expected\n><>",
    ),
    (
        b"no <ip1> [x#a] .* [b#y] <ip1> 1 down [a#b]\nyes <ip1> [x#a] .* [b#y] <ip1> 1 down [a#b]",
        None,
        false,
        "1<1..5\nnot ok 1 - x.o down\n# line 2: no, yes is expected\nnot ok 2 - a.b down\n# line 1: yes, no is expected\nnot ok 3 - a.c down\n# line 2: no, yes is expected\nnot ok 4 - c.b down\n# line 2: no, yes is expected\nnot ok 5 - b.y down\n# line 2: no, yes is expected\n><>",
    ),
];

#[test]
fn outages_of_the_first_network(rt: HostRuntime) -> Result<(), Fail> {
    cases_are(&rt, rt.alloc(), n1(), ON_THE_FIRST_NETWORK)?;
    cases_are(&rt, rt.alloc(), n1(), OF_ROUTERS)?;
    cases_are(&rt, rt.alloc(), n1(), WITHIN_BOUNDS)
}

const FAULTS: &[Case] = &[
    (
        b"yes <ip1> .* <ip1>",
        None,
        false,
        "17<><policies: line 1: byte 18: syntax\n>",
    ),
    (b"", None, true, "17<><policies: none\n>"),
    (
        b"no <ip1> [x#c] .* <ip1> 0",
        None,
        false,
        "17<><policies: line 1: byte 10: no link\n>",
    ),
    (
        b"no <ip1> . <ip1> 0 down [y#.]",
        None,
        true,
        "17<><policies: line 1: byte 25: no link\n>",
    ),
    (
        b"no <ip1> [x#c] <ip1> 0 down [a#b] up [.#b]",
        None,
        false,
        "17<><policies: line 1: link a.b#b.a both down and up\n>",
    ),
    (
        b"",
        Some("down [a#b, x#c] up [.#b]"),
        false,
        "4<><given: link a.b#b.a both down and up\n>",
    ),
    (
        b"",
        Some("down [x#c] up [q#.]"),
        true,
        "4<><given: byte 15: unknown router q\n>",
    ),
    (
        b"# \xff",
        None,
        false,
        "17<><policies: line 1: not a policy\n>",
    ),
];

#[test]
fn faults_before_any_outage(rt: HostRuntime) -> Result<(), Fail> {
    cases_are(&rt, rt.alloc(), n1(), FAULTS)
}

// What breaks is found with that link down alone, and with one more failed.
const WITH_A_WAY_TO_Z: &[Case] = &[
    (
        b"yes <ip1> [x#a] [a#c] .* [b#z] <ip1> 0 down [b#y]",
        None,
        false,
        "1<1..6\nnot ok 1 - x.o down\n# line 1: no, yes is expected\nok 2 - a.b down\nnot ok 3 - a.c down\n# line 1: no, yes is expected\nnot ok 4 - c.b down\n# line 1: no, yes is expected\nnot ok 5 - b.y down\n# line 1: no, yes is expected\nnot ok 6 - b.z down\n# line 1: no, yes is expected\n><>",
    ),
    (
        b"no <ip1> [x#a] [a#c] .* [b#z] <ip1> 1",
        None,
        false,
        "1<1..6\nok 1 - x.o down\nnot ok 2 - a.b down\n# line 1: yes, no is expected\nok 3 - a.c down\nok 4 - c.b down\nnot ok 5 - b.y down\n# line 1: yes, no is expected\nok 6 - b.z down\n><>",
    ),
];

// A risk group is out as a whole, and a router with all of the risk groups of its links.
const WITH_A_DUCT: &[Case] = &[
    (
        b"yes <ip1> [x#a] .* [b#y] <ip1> 0",
        None,
        false,
        "1<1..4\nnot ok 1 - x.o down\n# line 1: no, yes is expected\nnot ok 2 - a.b b.y down\n# line 1: no, yes is expected\nok 3 - a.c down\nok 4 - c.b down\n><>",
    ),
    (
        b"yes <ip1> [x#a] [a#b] <s10 ip1> 0",
        None,
        true,
        "1<1..5\nnot ok 1 - x down\n# line 1: no, yes is expected\nnot ok 2 - a down\n# line 1: no, yes is expected\nnot ok 3 - b down\n# line 1: no, yes is expected\nok 4 - c down\nnot ok 5 - y down\n# line 1: no, yes is expected\n><>",
    ),
];

// Links that fail and are repaired would make this inconclusive.
const WITH_A_WAY_BACK: &[Case] = &[(
    b"no <ip1> [x#a] [a#c] [c#a] [a#b] .* <ip1> 5",
    None,
    false,
    "0<1..6\nok 1 - x.o down\nok 2 - a.b down\nok 3 - a.c down\nok 4 - c.b down\nok 5 - b.y down\nok 6 - c.a2 down\n><>",
)];

#[test]
fn outages_of_other_networks(rt: HostRuntime) -> Result<(), Fail> {
    cases_are(&rt, rt.alloc(), n2(), WITH_A_WAY_TO_Z)?;
    cases_are(&rt, rt.alloc(), n6(), WITH_A_DUCT)?;
    cases_are(&rt, rt.alloc(), n3(), WITH_A_WAY_BACK)
}

// What `outages` ends with where a label doubles so often that no run can be shown, and a link is there that no run uses.
fn tried_doubles(alloc: Global) -> Result<String, Fail> {
    let network = doubles_beside(
        alloc,
        11,
        r#",{"from":"r","out":"p","to":"r","in":"q","distance":1}"#,
    )?;
    let policies: &[u8] = b"yes <d11 s1 ip1> [r.o#r]* <s1 ip1> 0";
    let said = tried_over(alloc, network.as_str(), &(policies, None, false, ""), &[]);
    drop(network);
    said
}

#[test]
fn an_outage_in_which_a_policy_is_open(rt: HostRuntime) -> Result<(), Fail> {
    let said = tried_doubles(rt.alloc());
    is_said(
        &rt,
        said,
        "1<1..2\nnot ok 1 - r.o down\n# line 1: no, yes is expected\nnot ok 2 - r.p down\n# line 1: open, yes is expected\n><>",
    )
}

// Which call on standard output fails after how many bytes, and what stands then.
const BROKEN_OFF: &[(FailingPut, &str)] = &[
    (
        FailingPut { call: 0, taken: 3 },
        "10<1..><whatif: cannot print\n>",
    ),
    (
        FailingPut { call: 1, taken: 6 },
        "10<1..3\nnot ok><whatif: cannot print\n>",
    ),
    (
        FailingPut { call: 2, taken: 0 },
        "10<1..3\nnot ok 1 - x.o down\n# line 1: no, yes is expected\n><whatif: cannot print\n>",
    ),
    (
        FailingPut { call: 4, taken: 0 },
        "1<1..3\nnot ok 1 - x.o down\n# line 1: no, yes is expected\nok 2 - a.b down\nok 3 - a.c down\n><>",
    ),
];

#[test]
fn puts_that_fail_in_outages(rt: HostRuntime) -> Result<(), Fail> {
    let policies: &[u8] = b"yes <ip1> [x#a] .* [b#y] <ip1> 0";
    for (put, wanted) in BROKEN_OFF {
        let case = (policies, Some("up [c#b, b#y]"), false, "");
        let said = tried_over(rt.alloc(), n1(), &case, &[*put]);
        is_said(&rt, said, wanted)?;
    }
    Ok(())
}
