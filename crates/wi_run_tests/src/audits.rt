//! Policies that are asked at once: what is printed and said of them, and what stands where that is broken off.
use crate::called::{begins, is_said, ran_over, shelf_with};
use crate::doubles::doubles;
use crate::samples::{guide, n1, n3};
use std::alloc::Global;
use std::process::Abort;
use std::test::Fail;
use wi_base::{FailingPut, MemoryShelf};

/// A shelf with a network under `n`, and policies under `p`.
pub fn shelf_of(alloc: Global, network: &str, policies: &[u8]) -> Result<MemoryShelf, Fail> {
    let mut shelf = shelf_with(alloc, network.as_bytes())?;
    match shelf.insert("p", policies) {
        Ok(()) => Ok(shelf),
        Err(fail) => {
            drop(shelf);
            Err(fail.into())
        }
    }
}

// What `audit` ends with where standard output fails so, and this is given besides, if anything is.
fn audited_on(
    alloc: Global,
    shelf: &mut MemoryShelf,
    given: Option<&str>,
    out_fails: &[FailingPut],
) -> Result<String, Fail> {
    match given {
        Some(text) => {
            let words = ["whatif", "audit", "n", "p", "--given", text];
            ran_over(alloc, &words, shelf, out_fails, &[])
        }
        None => ran_over(alloc, &["whatif", "audit", "n", "p"], shelf, out_fails, &[]),
    }
}

fn audited_over(
    alloc: Global,
    network: &str,
    policies: &[u8],
    given: Option<&str>,
    out_fails: &[FailingPut],
) -> Result<String, Fail> {
    let mut shelf = shelf_of(alloc, network, policies)?;
    let said = audited_on(alloc, &mut shelf, given, out_fails);
    drop(shelf);
    said
}

fn audited(
    alloc: Global,
    network: &str,
    policies: &[u8],
    given: Option<&str>,
) -> Result<String, Fail> {
    audited_over(alloc, network, policies, given, &[])
}

// The bytes of a file of policies, what is given, and what `audit` is to end with.
type Case<'a> = (&'a [u8], Option<&'a str>, &'a str);

fn cases_are(rt: &impl Abort, alloc: Global, network: &str, cases: &[Case]) -> Result<(), Fail> {
    for (policies, given, wanted) in cases {
        let said = audited(alloc, network, policies, *given);
        is_said(rt, said, wanted)?;
    }
    Ok(())
}

/// The policies of the guide.
pub const OF_THE_GUIDE: &[u8] = b"# customer A
yes A arrives                 <vpn_a> [ce1#pe1] .* [pe2#ce2] <vpn_a> 0
no  A is never lost           <vpn_a> [ce1#pe1] [^ .#ce2]* drop 0
no  customers see no labels   <.*> [ce1#.] .* [.#ce2] <mpls* smpls ip> 2
";

const WITHOUT_ONE_CABLE: &str = "1<1..3
not ok 1 - A arrives
# line 2: yes is expected
# answer: no
# nodes: 1
not ok 2 - A is never lost
# line 3: no is expected
# answer: yes
# weight: none
# effort: 9
# failed: p3.pe2#pe2.p3 pe2.p3#p3.pe2
# nodes: 1
# links: 3
# ce1.pe1#pe1.ce1 | vpn_a
# pe1.p1#p1.pe1 | s17 vpn_a | group 1 member 1
# p1.p3#p3.p1 | s18 vpn_a | group 1 member 1
# dropped: no active group
ok 3 - customers see no labels
><>";

#[test]
fn policies_before_and_in_a_maintenance(rt: HostRuntime) -> Result<(), Fail> {
    cases_are(
        &rt,
        rt.alloc(),
        guide(),
        &[
            (
                OF_THE_GUIDE,
                None,
                "0<1..3\nok 1 - A arrives\nok 2 - A is never lost\nok 3 - customers see no labels\n><>",
            ),
            (OF_THE_GUIDE, Some("down [p3#pe2]"), WITHOUT_ONE_CABLE),
            (OF_THE_GUIDE, Some("down [pe2#p3]"), WITHOUT_ONE_CABLE),
        ],
    )
}

// Links that fail and are repaired would make this inconclusive.
#[test]
fn policies_are_asked_exactly(rt: HostRuntime) -> Result<(), Fail> {
    let said = audited(
        rt.alloc(),
        n3(),
        b"no <ip1> [x#a] [a#c] [c#a] [a#b] .* <ip1> 5",
        None,
    );
    is_said(&rt, said, "0<1..1\nok 1 - line 1\n><>")
}

// Lines that say nothing, names, and what is given.
const ON_THE_FIRST_NETWORK: &[Case] = &[
    (
        b"yes a#b <ip1> [x#a] .* [b#y] <ip1> 0",
        Some(""),
        "0<1..1\nok 1 - a_b\n><>",
    ),
    (
        b"\r\n \t# c\r\n\tyes\tarrives \t\r<ip1> [x#a] .* [b#y] <ip1> 0\r\n\nno\\<ip1> [x#a] [a#c] .* <ip1> 1 up [a#b]",
        Some(""),
        "0<1..2\nok 1 - arrives\nok 2 - _\n><>",
    ),
    (
        b"no <ip1> [x#a] .* [b#y] <ip1> 0",
        Some(" down [ a#b , a#c ] "),
        "0<1..1\nok 1 - line 1\n><>",
    ),
    (
        b"yes <ip1> [x#a] [a#c] .* <ip1> 1\nyes <ip1> [x#a] [a#c] .* <ip1> 0",
        None,
        "1<1..2\nok 1 - line 1\nnot ok 2 - line 2\n# line 2: yes is expected\n# answer: no\n# nodes: 1\n><>",
    ),
    (
        b"no \xc2\xa0 <ip1> [x#a] .* [b#y] <ip1> 0 down [b#y]",
        None,
        "0<1..1\nok 1 - \u{a0}\n><>",
    ),
];

#[test]
fn policies_on_the_first_network(rt: HostRuntime) -> Result<(), Fail> {
    cases_are(&rt, rt.alloc(), n1(), ON_THE_FIRST_NETWORK)
}

const FAULTS_OF_FILES: &[Case] = &[
    (b"", None, "17<><policies: none\n>"),
    (b"# c\n\n", None, "17<><policies: none\n>"),
    (
        b"yes <ip1> .* <ip1>",
        None,
        "17<><policies: line 1: byte 18: syntax\n>",
    ),
    (
        b"no <ip1> .* <ip1> 0\n# \xff",
        None,
        "17<><policies: line 2: not a policy\n>",
    ),
    (b"# \xff", None, "17<><policies: line 1: not a policy\n>"),
    (
        b"\xef\xbb\xbf# c\n",
        None,
        "17<><policies: line 1: not a policy\n>",
    ),
    (b"\n\x0c\n", None, "17<><policies: line 2: not a policy\n>"),
    (b"yes", None, "17<><policies: line 1: not a policy\n>"),
    (
        b"yes a\tb <ip1> .* <ip1> 0",
        None,
        "17<><policies: line 1: not a policy\n>",
    ),
    (
        b"yesterday <ip1> .* <ip1> 0",
        None,
        "17<><policies: line 1: not a policy\n>",
    ),
    (
        b"yes<ip2> .* <ip1> 0",
        None,
        "17<><policies: line 1: byte 4: unknown label ip2\n>",
    ),
];

const FAULTS_OF_PAIRS: &[Case] = &[
    (
        b"no <ip1> [x#c] .* <ip1> 0",
        None,
        "17<><policies: line 1: byte 10: no link\n>",
    ),
    (
        b"no <ip1> [^ x#c] .* <ip1> 0",
        None,
        "17<><policies: line 1: byte 12: no link\n>",
    ),
    (
        b"no <ip1> . <ip1> 0 down [y#.]",
        None,
        "17<><policies: line 1: byte 25: no link\n>",
    ),
    (
        b"no <ip1> [x#c] <ip1> 0 down [a#b] up [.#b]",
        None,
        "17<><policies: line 1: link a.b#b.a both down and up\n>",
    ),
    (
        b"\nno <ip1> .* <ip1> 0 up [a#b]",
        Some("down [.#b]"),
        "17<><policies: line 2: link a.b#b.a both down and up\n>",
    ),
];

// Each is told before the file of policies is looked at, which has a fault, too.
const FAULTS_OF_GIVEN_LINKS: &[Case] = &[
    (
        b"",
        Some("down [a#b, x#c] up [.#b]"),
        "4<><given: link a.b#b.a both down and up\n>",
    ),
    (
        b"",
        Some("down [x#c] up [q#.]"),
        "4<><given: byte 15: unknown router q\n>",
    ),
    (
        b"",
        Some("down [a.q#b]"),
        "4<><given: byte 8: unknown interface q\n>",
    ),
    (
        b"",
        Some("up [a#b] down [a#c]"),
        "4<><given: byte 9: syntax\n>",
    ),
    (
        b"",
        Some("down [a#b, x#c]"),
        "4<><given: byte 11: no link\n>",
    ),
];

#[test]
fn faults_of_policies(rt: HostRuntime) -> Result<(), Fail> {
    cases_are(&rt, rt.alloc(), n1(), FAULTS_OF_FILES)?;
    cases_are(&rt, rt.alloc(), n1(), FAULTS_OF_PAIRS)?;
    cases_are(&rt, rt.alloc(), n1(), FAULTS_OF_GIVEN_LINKS)
}

#[test]
fn a_file_that_is_too_long(rt: HostRuntime) -> Result<(), Fail> {
    let policies = vec![in rt.alloc(); b'\n'; 1_048_577]?;
    let said = audited(rt.alloc(), n1(), policies.as_slice(), None);
    drop(policies);
    is_said(&rt, said, "17<><policies: over the limit 1048576\n>")
}

#[test]
fn a_given_text_that_is_too_long(rt: HostRuntime) -> Result<(), Fail> {
    let given = " ".repeat(rt.alloc(), 4097)?;
    let said = audited(rt.alloc(), n1(), b"", Some(given.as_str()));
    drop(given);
    is_said(&rt, said, "4<><given: 4097 bytes, limit 4096\n>")
}

// What `audit` ends with where the file of policies isn't there.
fn audited_without_policies(alloc: Global, given: Option<&str>) -> Result<String, Fail> {
    let mut shelf = shelf_with(alloc, n1().as_bytes())?;
    let said = audited_on(alloc, &mut shelf, given, &[]);
    drop(shelf);
    said
}

// The first fault of those of the network, of what is given and of a file that isn't there.
#[test]
fn faults_in_their_order(rt: HostRuntime) -> Result<(), Fail> {
    let said = audited(rt.alloc(), "", b"", Some("down"));
    is_said(&rt, said, "3<><network: file: not JSON\n>")?;
    let said = audited_without_policies(rt.alloc(), Some("down"));
    is_said(&rt, said, "4<><given: byte 4: syntax\n>")?;
    let said = audited_without_policies(rt.alloc(), None);
    is_said(&rt, said, "10<><whatif: cannot read p\n>")
}

const THREE: &[u8] =
    b"yes <ip1> [x#a] .* [b#y] <ip1> 0\nyes b <ip1> [x#a] .* [b#y] <ip1> 0\nno <ip1> [x#a] .* [b#y] <ip1> 0 down [b#y]";

// Which call on standard output fails after how many bytes, and what stands then.
const BROKEN_OFF: &[(FailingPut, &str)] = &[
    (
        FailingPut { call: 0, taken: 2 },
        "10<1.><whatif: cannot print\n>",
    ),
    (
        FailingPut { call: 1, taken: 0 },
        "10<1..3\n><whatif: cannot print\n>",
    ),
    (
        FailingPut { call: 2, taken: 4 },
        "10<1..3\nok 1 - line 1\nok 2><whatif: cannot print\n>",
    ),
    (
        FailingPut { call: 3, taken: 9 },
        "10<1..3\nok 1 - line 1\nok 2 - b\nok 3 - li><whatif: cannot print\n>",
    ),
    (
        FailingPut { call: 4, taken: 0 },
        "0<1..3\nok 1 - line 1\nok 2 - b\nok 3 - line 3\n><>",
    ),
];

#[test]
fn puts_that_fail(rt: HostRuntime) -> Result<(), Fail> {
    for (put, wanted) in BROKEN_OFF {
        let said = audited_over(rt.alloc(), n1(), THREE, None, &[*put]);
        is_said(&rt, said, wanted)?;
    }
    Ok(())
}

const WITH_ONE_THAT_IS_OPEN: &str =
    "2<1..3\nok 1 - line 1\nnot ok 2 - line 2\n# line 2: yes is expected\n# too long: effort 6151, limit 4096\nok 3 - line 3\n><>";

const BESIDE_ONE_THAT_IS_NOT_SO: &str =
    "1<1..2\nnot ok 1 - line 1\n# line 1: yes is expected\n# too long: effort 6151, limit 4096\nnot ok 2 - line 2\n# line 2: no is expected\n# answer: yes\n";

// What `audit` ends with where a label doubles so often that no run can be shown.
fn audited_doubles(alloc: Global, policies: &[u8]) -> Result<String, Fail> {
    let network = doubles(alloc, 11)?;
    let said = audited(alloc, network.as_str(), policies, None);
    drop(network);
    said
}

#[test]
fn a_policy_that_is_open(rt: HostRuntime) -> Result<(), Fail> {
    let said = audited_doubles(
        rt.alloc(),
        b"yes <d0 s1 ip1> .* <s1 ip1> 0\nyes <d11 s1 ip1> .* <s1 ip1> 0\nno <s1 ip1> .* <d0 s1 ip1> 0",
    );
    is_said(&rt, said, WITH_ONE_THAT_IS_OPEN)?;
    let said = audited_doubles(
        rt.alloc(),
        b"yes <d11 s1 ip1> .* <s1 ip1> 0\nno <d0 s1 ip1> .* <s1 ip1> 0",
    );
    begins(&rt, said, BESIDE_ONE_THAT_IS_NOT_SO)
}
