//! Exact answers, the trees that `exact` stores, and what `check-exact` judges.
use crate::called::{Case, begins, is_said, is_said_between, ran, shelf_with, weighed};
use crate::doubles::doubles;
use crate::returns::returns;
use crate::samples::{n1, n2, n3, n6};
use std::alloc::Global;
use std::process::Abort;
use std::test::Fail;
use wi_base::MemoryShelf;

// What comes back to a takes the link that it needed to have failed.
const RETURNING: &str = "<ip1> [x#a] [a#c] [c#a] [a#b] .* <ip1> 5";

const NO_OF_THREE: &str = "1<answer: no\nnodes: 3\n><>";

const ON_N1: &[Case] = &[
    (
        "<ip1> [x#a] [a#c] .* [b#y] <ip1> 1",
        Some("Hops, Distance+3*Tunnels"),
        "0<answer: yes\nweight: 4 12\neffort: 10\nfailed: a.b#b.a\nnodes: 1\nlinks: 4\nx.o#a.x | ip1\na.c#c.a | 30 s10 ip1 | group 2 member 1\nc.b#b.c | s10 ip1 | group 1 member 1\nb.y#y.b | ip1 | group 1 member 1\n><>",
    ),
    (
        "<ip1> [x#a] [a#c] .* [b#y] <ip1> 0",
        None,
        "1<answer: no\nnodes: 1\n><>",
    ),
    ("<30 ip1> .* <.*> 0", None, "1<answer: no\nnodes: 1\n><>"),
    ("<s10 ip1> [a#b] <30> 0", Some("Hops,"), "5<><weights"),
    ("<s10 ip1> [a#b", None, "4<><query"),
];

const ON_N2: &[Case] = &[
    ("<ip1> [x#a] [a#c] .* [b#z] <ip1> 1", None, NO_OF_THREE),
    (
        "<ip1> [x#a] [a#c] .* [b#z] <ip1> 2",
        None,
        "0<answer: yes\nweight: none\neffort: 10\nfailed: a.b#b.a b.y#y.b\nnodes: 1\nlinks: 4\nx.o#a.x | ip1\na.c#c.a | 30 s10 ip1 | group 2 member 1\nc.b#b.c | s10 ip1 | group 1 member 1\nb.z#z.b | ip1 | group 2 member 1\n><>",
    ),
    // A link known to be down isn't counted.
    (
        "<ip1> [x#a] [a#c] .* [b#z] <ip1> 1 down [a#b]",
        None,
        "0<answer: yes\nweight: none\neffort: 10\nfailed: a.b#b.a b.y#y.b\nnodes: 1\nlinks: 4\n",
    ),
    (
        "<ip1> [x#a] [a#c] .* [b#z] <ip1> 2 up [a#b]",
        None,
        "1<answer: no\nnodes: 1\n><>",
    ),
];

const ON_N3: &[Case] = &[(RETURNING, None, NO_OF_THREE)];

// The links to b and to y fail as one, so what goes around the first can't take the second.
const ON_N6: &[Case] = &[("<ip1> [x#a] [a#c] .* [b#y] <ip1> 1", None, NO_OF_THREE)];

// What `exact` ends with that stores its tree in `c`.
fn stored(
    alloc: Global,
    query: &str,
    weights: Option<&str>,
    shelf: &mut MemoryShelf,
) -> Result<String, Fail> {
    match weights {
        Some(text) => ran(
            alloc,
            &[
                "whatif",
                "exact",
                "n",
                query,
                "--certificate",
                "c",
                "--weights",
                text,
            ],
            shelf,
        ),
        None => ran(
            alloc,
            &["whatif", "exact", "n", query, "--certificate", "c"],
            shelf,
        ),
    }
}

// What `check-exact` of `c` ends with.
fn checked(
    alloc: Global,
    query: &str,
    weights: Option<&str>,
    shelf: &mut MemoryShelf,
) -> Result<String, Fail> {
    match weights {
        Some(text) => ran(
            alloc,
            &["whatif", "check-exact", "n", query, "c", "--weights", text],
            shelf,
        ),
        None => ran(alloc, &["whatif", "check-exact", "n", query, "c"], shelf),
    }
}

// What `exact` ends with over a network.
fn answered(
    alloc: Global,
    network: &str,
    query: &str,
    weights: Option<&str>,
) -> Result<String, Fail> {
    let mut shelf = shelf_with(alloc, network.as_bytes())?;
    let said = stored(alloc, query, weights, &mut shelf);
    drop(shelf);
    said
}

// What `check-exact` ends with after `exact` on one shelf.
fn stored_and_checked(
    alloc: Global,
    network: &str,
    query: &str,
    weights: Option<&str>,
) -> Result<String, Fail> {
    let mut shelf = shelf_with(alloc, network.as_bytes())?;
    if let Err(fail) = stored(alloc, query, weights, &mut shelf) {
        drop(shelf);
        return Err(fail);
    }
    let said = checked(alloc, query, weights, &mut shelf);
    drop(shelf);
    said
}

// What is accepted of what was answered: nothing is stored with a refusal.
fn accepted(answered: &str) -> &str {
    if answered.starts_with("0<") {
        "0<accepted: yes\n><>"
    } else if answered.starts_with("1<") {
        "0<accepted: no\n><>"
    } else {
        answered
    }
}

fn cases_are(rt: &impl Abort, alloc: Global, network: &str, cases: &[Case]) -> Result<(), Fail> {
    for (query, weights, wanted) in cases {
        let said = answered(alloc, network, query, *weights);
        begins(rt, said, wanted)?;
        let said = stored_and_checked(alloc, network, query, *weights);
        begins(rt, said, accepted(wanted))?;
    }
    Ok(())
}

#[test]
fn exact_answers_are_shown_by_trees(rt: HostRuntime) -> Result<(), Fail> {
    cases_are(&rt, rt.alloc(), n1(), ON_N1)?;
    cases_are(&rt, rt.alloc(), n2(), ON_N2)?;
    cases_are(&rt, rt.alloc(), n3(), ON_N3)?;
    cases_are(&rt, rt.alloc(), n6(), ON_N6)
}

// How many places there are where a packet may come back, and whether it comes back at one. That it doesn't is shown of each place by
// itself, where its link is down and where it is up: so each place doubles the nodes.
const BACK_AT_ONE: &[(usize, Case)] = &[
    (
        2,
        (
            "<ip1> [x.e#a0] .* [c0#a0, c1#a1] .* [.#y] <ip1> 2",
            None,
            "1<answer: no\nnodes: 7\n><>",
        ),
    ),
    (
        8,
        (
            "<ip1> [x.e#a0] .* [c0#a0, c1#a1, c2#a2, c3#a3, c4#a4, c5#a5, c6#a6, c7#a7] .* [.#y] <ip1> 8",
            None,
            "1<answer: no\nnodes: 511\n><>",
        ),
    ),
];

#[test]
fn nodes_double_with_each_place(rt: HostRuntime) -> Result<(), Fail> {
    for (places, case) in BACK_AT_ONE {
        let text = returns(rt.alloc(), *places)?;
        let outcome = cases_are(&rt, rt.alloc(), text.as_str(), &[*case]);
        drop(text);
        outcome?;
    }
    Ok(())
}

// What goes back from c to a counts on one failure, and takes the link that failed; what goes on to b counts on two.
const BACK_OR_ON: Case = (
    "<ip1> [x#a] [a#c] .* [b#y] <ip1> 2",
    Some("Failures"),
    "0<answer: yes\nweight: 2\neffort: 10\nfailed: a.b#b.a c.a2#a.c2\nnodes: 3\nlinks: 4\nx.o#a.x | ip1\na.c#c.a | 30 s10 ip1 | group 2 member 1\nc.b#b.c | s10 ip1 | group 2 member 1\nb.y#y.b | ip1 | group 1 member 1\n><>",
);

fn back_or_on(rt: &impl Abort, alloc: Global, network: &str) -> Result<(), Fail> {
    let said = weighed(alloc, network.as_bytes(), BACK_OR_ON.0, BACK_OR_ON.1);
    begins(rt, said, "2<answer: inconclusive\nweight: 1\neffort: 11\n")?;
    cases_are(rt, alloc, network, &[BACK_OR_ON])
}

#[test]
fn a_dearer_run_fits_where_the_least_does_not(rt: HostRuntime) -> Result<(), Fail> {
    let text = n3().replace(
        rt.alloc(),
        r#"[[{"out":"a2","ops":[["swap","31"]]}]]"#,
        r#"[[{"out":"a2","ops":[["swap","31"]]}],[{"out":"b","ops":[["pop"]]}]]"#,
    )?;
    let outcome = back_or_on(&rt, rt.alloc(), text.as_str());
    drop(text);
    outcome
}

// The number of a network with labels that double, a query, and what is said.
const TOO_LONG_OR_TOO_HEAVY: &[(usize, &str, &str)] = &[
    (
        11,
        "<d11 s1 ip1> .* <s1 ip1> 0",
        "7<><too long: effort 6151, limit 4096\n>",
    ),
    (
        63,
        "<d63 s1 ip1> .* <s1 ip1> 0",
        "6<><overflow: component 1 is 27670116110564327421\n>",
    ),
];

#[test]
fn runs_that_are_too_long_or_too_heavy(rt: HostRuntime) -> Result<(), Fail> {
    for (number, query, wanted) in TOO_LONG_OR_TOO_HEAVY {
        let text = doubles(rt.alloc(), *number)?;
        let mut shelf = shelf_with(rt.alloc(), text.as_bytes())?;
        drop(text);
        let said = ran(rt.alloc(), &["whatif", "exact", "n", query], &mut shelf);
        drop(shelf);
        is_said(&rt, said, wanted)?;
    }
    Ok(())
}

// A query that no packet is in the first header of, and the tree that shows its no.
const NO_PACKET: &str = "<30 ip1> .* <.*> 0";

// The same, where a link may fail.
const NO_PACKET_AT_ONE: &str = "<30 ip1> .* <.*> 1";

const TREE: &str =
    "mpls-whatif-tree 1\nterms 0\nanswer no\nweight none\nfirst none\nsteps 0\nnodes 1\nclosed\nheads 3\n0 0\n3 3\n4 0\npairs 1\n3 0\nrows 0\nend\n";

#[test]
fn the_tree_of_no_packet(rt: HostRuntime) -> Result<(), Fail> {
    let mut shelf = shelf_with(rt.alloc(), n1().as_bytes())?;
    let said = stored(rt.alloc(), NO_PACKET, None, &mut shelf);
    let is_stored = shelf.get("c") == Some(TREE.as_bytes());
    drop(shelf);
    is_said(&rt, said, "1<answer: no\nnodes: 1\n><>")?;
    assert!(rt; is_stored);
    Ok(())
}

const FRONT: &str = "mpls-whatif-tree 1\nterms 0\nanswer no\nweight none\nfirst none\nsteps 0\n";

const LEAF: &str = "closed\nheads 3\n0 0\n3 3\n4 0\npairs 1\n3 0\nrows 0\n";

const WITHOUT_A_HEAD: &str = "closed\nheads 2\n0 0\n3 3\npairs 1\n3 0\nrows 0\n";

// A query, the parts of a tree behind its front, and what is said of it.
const TREES: &[(&str, &[&str], &str)] = &[
    (
        NO_PACKET,
        &["nodes 1\n", LEAF, "end\n"],
        "0<accepted: no\n><>",
    ),
    (
        NO_PACKET_AT_ONE,
        &["nodes 3\nsplit 1\n", LEAF, LEAF, "end\n"],
        "0<accepted: no\n><>",
    ),
    // None may fail.
    (
        NO_PACKET,
        &["nodes 3\nsplit 1\n", LEAF, LEAF, "end\n"],
        "8<><certificate: node 1: bad split\n>",
    ),
    // No link of the network.
    (
        NO_PACKET_AT_ONE,
        &["nodes 3\nsplit 5\n", LEAF, LEAF, "end\n"],
        "8<><certificate: node 1: bad split\n>",
    ),
    // Taken down above, or kept up.
    (
        NO_PACKET_AT_ONE,
        &["nodes 5\nsplit 1\nsplit 1\n", LEAF, LEAF, LEAF, "end\n"],
        "8<><certificate: node 2: bad split\n>",
    ),
    (
        NO_PACKET_AT_ONE,
        &["nodes 5\nsplit 1\n", LEAF, "split 1\n", LEAF, LEAF, "end\n"],
        "8<><certificate: node 3: bad split\n>",
    ),
    // Down has one link, and no place left.
    (
        NO_PACKET_AT_ONE,
        &["nodes 5\nsplit 1\nsplit 2\n", LEAF, LEAF, LEAF, "end\n"],
        "8<><certificate: node 2: bad split\n>",
    ),
    (
        NO_PACKET_AT_ONE,
        &["nodes 5\nsplit 1\n", LEAF, "split 2\n", LEAF, LEAF, "end\n"],
        "0<accepted: no\n><>",
    ),
    // The first node that is bad is told.
    (
        NO_PACKET_AT_ONE,
        &[
            "nodes 5\nsplit 1\n",
            WITHOUT_A_HEAD,
            "split 1\n",
            LEAF,
            LEAF,
            "end\n",
        ],
        "8<><certificate: node 2: head 4 0 missing\n>",
    ),
    (
        NO_PACKET_AT_ONE,
        &[
            "nodes 5\nsplit 1\nsplit 1\n",
            WITHOUT_A_HEAD,
            LEAF,
            LEAF,
            "end\n",
        ],
        "8<><certificate: node 2: bad split\n>",
    ),
    // Nodes that make no tree.
    (
        NO_PACKET_AT_ONE,
        &["nodes 3\nsplit 1\n", LEAF, "end\n"],
        "8<><certificate: line 17\n>",
    ),
    (
        NO_PACKET_AT_ONE,
        &["nodes 2\nsplit 1\n", LEAF, "end\n"],
        "8<><certificate: line 7\n>",
    ),
    (
        NO_PACKET_AT_ONE,
        &["nodes 1\nsplit 1\n", LEAF, LEAF, "end\n"],
        "8<><certificate: line 8\n>",
    ),
    (
        NO_PACKET_AT_ONE,
        &["nodes 3\n", LEAF, LEAF, LEAF, "end\n"],
        "8<><certificate: line 8\n>",
    ),
    (
        NO_PACKET,
        &["nodes 1\n", LEAF],
        "8<><certificate: line 16\n>",
    ),
    // No tree at all.
    (
        NO_PACKET,
        &["heads 3\n0 0\n3 3\n4 0\npairs 1\n3 0\nrows 0\n", "end\n"],
        "8<><certificate: line 7\n>",
    ),
];

fn tree_of(alloc: Global, parts: &[&str]) -> Result<Vec<u8>, Fail> {
    let mut text = Vec::from_slice(alloc, FRONT.as_bytes())?;
    for part in parts {
        text.extend_from_slice(part.as_bytes())?;
    }
    Ok(text)
}

// What is said of a file, for a query of the first network.
fn judged(alloc: Global, query: &str, bytes: &[u8]) -> Result<String, Fail> {
    let mut shelf = shelf_with(alloc, n1().as_bytes())?;
    if let Err(fail) = shelf.insert("c", bytes) {
        drop(shelf);
        return Err(fail.into());
    }
    let said = checked(alloc, query, None, &mut shelf);
    drop(shelf);
    said
}

#[test]
fn trees_are_judged_node_by_node(rt: HostRuntime) -> Result<(), Fail> {
    for (query, parts, wanted) in TREES {
        let text = tree_of(rt.alloc(), parts)?;
        let said = judged(rt.alloc(), query, text.as_slice());
        is_said(&rt, said, wanted)?;
    }
    Ok(())
}

// What stands in the tree, what stands in its place, and what is said.
const CHANGED: &[(&str, &str, &str)] = &[
    (
        "mpls-whatif-tree 1\n",
        "mpls-whatif-certificate 1\n",
        "line 1",
    ),
    ("answer no\n", "answer inconclusive\n", "line 3"),
    ("terms 0\n", "terms 1\n", "terms shown 1, asked 0"),
];

#[test]
fn changed_trees(rt: HostRuntime) -> Result<(), Fail> {
    for (old, new, words) in CHANGED {
        let text = TREE.replace(rt.alloc(), old, new)?;
        let said = judged(rt.alloc(), NO_PACKET, text.as_bytes());
        drop(text);
        is_said_between(&rt, said, "8<><certificate: ", words, "\n>")?;
    }
    Ok(())
}
