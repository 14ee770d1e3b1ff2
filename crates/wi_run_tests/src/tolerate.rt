//! How many failures it takes, and the two trees that `tolerate` stores.
use crate::called::{is_said, ran, ran_over, shelf_with};
use crate::doubles::doubles;
use crate::returns::returns;
use crate::samples::{n1, n2, n3, n6};
use std::alloc::Global;
use std::process::Abort;
use std::test::Fail;
use wi_base::{FailingPut, MemoryShelf};

// The most failures, a query, weights, and what `tolerate` is to end with.
type Case<'a> = (&'a str, &'a str, Option<&'a str>, &'a str);

// The query's own number isn't used.
const ON_N1: &[Case] = &[
    (
        "0",
        "<ip1> [x#a] [a#b] [b#y] <ip1> 7",
        None,
        "0<least: 0\nanswer: yes\nweight: none\neffort: 8\nfailed: none\nnodes: 1\nlinks: 3\nx.o#a.x | ip1\na.b#b.a | s10 ip1 | group 1 member 1\nb.y#y.b | ip1 | group 1 member 1\n><>",
    ),
    (
        "2",
        "<ip1> [x#a] [a#c] .* [b#y] <ip1> 0",
        Some("Hops, Distance+3*Tunnels"),
        "0<least: 1\nanswer: yes\nweight: 4 12\neffort: 10\nfailed: a.b#b.a\nnodes: 1\nlinks: 4\nx.o#a.x | ip1\na.c#c.a | 30 s10 ip1 | group 2 member 1\nc.b#b.c | s10 ip1 | group 1 member 1\nb.y#y.b | ip1 | group 1 member 1\n><>",
    ),
    (
        "0",
        "<ip1> [x#a] [a#c] .* [b#y] <ip1> 1",
        None,
        "1<least: none up to 0\n><>",
    ),
    (
        "65535",
        "<30 ip1> .* <.*> 0",
        None,
        "1<least: none up to 65535\n><>",
    ),
    (
        "1",
        "<ip1> .* <ip1> 65536",
        None,
        "4<><query: byte 15: over the limit 65535\n>",
    ),
    (
        "1",
        "<ip1> .* <ip1> 0",
        Some("Hops,"),
        "5<><weights: byte 5: syntax\n>",
    ),
];

const TWO_FAILURES: &str =
    "0<least: 2\nanswer: yes\nweight: none\neffort: 10\nfailed: a.b#b.a b.y#y.b\nnodes: 1\nlinks: 4\nx.o#a.x | ip1\na.c#c.a | 30 s10 ip1 | group 2 member 1\nc.b#b.c | s10 ip1 | group 1 member 1\nb.z#z.b | ip1 | group 2 member 1\n><>";

const ON_N2: &[Case] = &[
    (
        "3",
        "<ip1> [x#a] [a#c] .* [b#z] <ip1> 0",
        None,
        TWO_FAILURES,
    ),
    (
        "2",
        "<ip1> [x#a] [a#c] .* [b#z] <ip1> 65535",
        None,
        TWO_FAILURES,
    ),
    (
        "65535",
        "<ip1> [x#a] [a#c] .* [b#z] <ip1> 0",
        None,
        TWO_FAILURES,
    ),
    (
        "1",
        "<ip1> [x#a] [a#c] .* [b#z] <ip1> 2",
        None,
        "1<least: none up to 1\n><>",
    ),
    // A link known to be down isn't counted, and one known to be up doesn't fail.
    (
        "1",
        "<ip1> [x#a] [a#c] .* [b#z] <ip1> 0 down [a#b]",
        None,
        "0<least: 1\nanswer: yes\nweight: none\neffort: 10\nfailed: a.b#b.a b.y#y.b\nnodes: 1\nlinks: 4\nx.o#a.x | ip1\na.c#c.a | 30 s10 ip1 | group 2 member 1\nc.b#b.c | s10 ip1 | group 1 member 1\nb.z#z.b | ip1 | group 2 member 1\n><>",
    ),
    (
        "9",
        "<ip1> [x#a] [a#c] .* [b#z] <ip1> 0 up [a#b]",
        None,
        "1<least: none up to 9\n><>",
    ),
];

// What comes back to a takes the link that it needed to have failed.
const ON_N3: &[Case] = &[(
    "5",
    "<ip1> [x#a] [a#c] [c#a] [a#b] .* <ip1> 5",
    None,
    "1<least: none up to 5\n><>",
)];

// The links to b and to y fail as one, so what goes around the first can't take the second.
const ON_N6: &[Case] = &[(
    "5",
    "<ip1> [x#a] [a#c] .* [b#y] <ip1> 0",
    None,
    "1<least: none up to 5\n><>",
)];

// What `tolerate` ends with that stores its trees in `c` and `c.below`.
fn stored(
    alloc: Global,
    limit: &str,
    query: &str,
    weights: Option<&str>,
    shelf: &mut MemoryShelf,
) -> Result<String, Fail> {
    match weights {
        Some(text) => ran(
            alloc,
            &[
                "whatif",
                "tolerate",
                "n",
                query,
                limit,
                "--weights",
                text,
                "--certificate",
                "c",
            ],
            shelf,
        ),
        None => ran(
            alloc,
            &[
                "whatif",
                "tolerate",
                "n",
                query,
                limit,
                "--certificate",
                "c",
            ],
            shelf,
        ),
    }
}

fn case_is(rt: &impl Abort, alloc: Global, network: &str, case: &Case) -> Result<(), Fail> {
    let (limit, query, weights, wanted) = *case;
    let mut shelf = shelf_with(alloc, network.as_bytes())?;
    let said = stored(alloc, limit, query, weights, &mut shelf);
    drop(shelf);
    is_said(rt, said, wanted)
}

fn cases_are(rt: &impl Abort, alloc: Global, network: &str, cases: &[Case]) -> Result<(), Fail> {
    for case in cases {
        case_is(rt, alloc, network, case)?;
    }
    Ok(())
}

#[test]
fn the_least_number_of_failures(rt: HostRuntime) -> Result<(), Fail> {
    cases_are(&rt, rt.alloc(), n1(), ON_N1)?;
    cases_are(&rt, rt.alloc(), n2(), ON_N2)?;
    cases_are(&rt, rt.alloc(), n3(), ON_N3)?;
    cases_are(&rt, rt.alloc(), n6(), ON_N6)
}

// The number of a network with labels that double, a query, and what is said.
const NOT_KNOWN: &[(usize, &str, &str)] = &[
    (
        11,
        "<d11 s1 ip1> .* <s1 ip1> 0",
        "7<><too long: effort 6151, limit 4096\n>",
    ),
    (
        63,
        "<d63 s1 ip1> .* <s1 ip1> 0",
        "6<><overflow: component 1 is 27670116110564327421\n>",
    ),
];

#[test]
fn where_no_exact_answer_can_be_shown(rt: HostRuntime) -> Result<(), Fail> {
    for (number, query, wanted) in NOT_KNOWN {
        let text = doubles(rt.alloc(), *number)?;
        let said = case_is(&rt, rt.alloc(), text.as_str(), &("3", query, None, wanted));
        drop(text);
        said?;
    }
    Ok(())
}

const ACCEPTED_YES: &str = "0<accepted: yes\n><>";

const ACCEPTED_NO: &str = "0<accepted: no\n><>";

const NO_SECOND: &str = "10<><whatif: cannot read c.below\n>";

// A query and what `check-exact` is to say of a file for it.
type Judged<'a> = (&'a str, &'a str);

// The most failures and a query, and how the two files are judged then.
type Trees<'a> = (&'a str, &'a str, Judged<'a>, Judged<'a>);

const TREES_ON_N1: &[Trees] = &[(
    "3",
    "<ip1> [x#a] [a#b] [b#y] <ip1> 7",
    ("<ip1> [x#a] [a#b] [b#y] <ip1> 0", ACCEPTED_YES),
    ("<ip1> [x#a] [a#b] [b#y] <ip1> 0", NO_SECOND),
)];

const TREES_ON_N2: &[Trees] = &[
    (
        "3",
        "<ip1> [x#a] [a#c] .* [b#z] <ip1> 0",
        ("<ip1> [x#a] [a#c] .* [b#z] <ip1> 2", ACCEPTED_YES),
        ("<ip1> [x#a] [a#c] .* [b#z] <ip1> 1", ACCEPTED_NO),
    ),
    (
        "1",
        "<ip1> [x#a] [a#c] .* [b#z] <ip1> 0",
        ("<ip1> [x#a] [a#c] .* [b#z] <ip1> 1", ACCEPTED_NO),
        ("<ip1> [x#a] [a#c] .* [b#z] <ip1> 0", NO_SECOND),
    ),
    (
        "65535",
        "<ip1> [x#a] [a#c] .* [b#z] <ip1> 0 up [a#b]",
        (
            "<ip1> [x#a] [a#c] .* [b#z] <ip1> 65535 up [a#b]",
            ACCEPTED_NO,
        ),
        ("<ip1> [x#a] [a#c] .* [b#z] <ip1> 65534 up [a#b]", NO_SECOND),
    ),
];

// A way past three places by the link that is used where the first has failed.
const TREES_ON_FOUR_PLACES: &[Trees] = &[(
    "65535",
    "<ip1> [x.e#a0] [a0.f#a1] [a1.f#a2] [a2.f#a3] .* [.#y] <ip1> 0",
    (
        "<ip1> [x.e#a0] [a0.f#a1] [a1.f#a2] [a2.f#a3] .* [.#y] <ip1> 3",
        ACCEPTED_YES,
    ),
    (
        "<ip1> [x.e#a0] [a0.f#a1] [a1.f#a2] [a2.f#a3] .* [.#y] <ip1> 2",
        ACCEPTED_NO,
    ),
)];

// A packet comes back at none of eight places. With eight failures that takes 511 nodes, so the numbers below are tried one by one.
const TREES_ON_EIGHT_PLACES: &[Trees] = &[(
    "8",
    "<ip1> [x.e#a0] .* [c0#a0, c1#a1, c2#a2, c3#a3, c4#a4, c5#a5, c6#a6, c7#a7] .* [.#y] <ip1> 0",
    (
        "<ip1> [x.e#a0] .* [c0#a0, c1#a1, c2#a2, c3#a3, c4#a4, c5#a5, c6#a6, c7#a7] .* [.#y] <ip1> 8",
        ACCEPTED_NO,
    ),
    (
        "<ip1> [x.e#a0] .* [c0#a0, c1#a1, c2#a2, c3#a3, c4#a4, c5#a5, c6#a6, c7#a7] .* [.#y] <ip1> 7",
        NO_SECOND,
    ),
)];

fn file_is(
    rt: &impl Abort,
    alloc: Global,
    file: &str,
    judged: Judged,
    shelf: &mut MemoryShelf,
) -> Result<(), Fail> {
    let said = ran(
        alloc,
        &["whatif", "check-exact", "n", judged.0, file],
        shelf,
    );
    is_said(rt, said, judged.1)
}

fn trees_stand(
    rt: &impl Abort,
    alloc: Global,
    trees: &Trees,
    shelf: &mut MemoryShelf,
) -> Result<(), Fail> {
    let (limit, query, first, second) = *trees;
    drop(stored(alloc, limit, query, None, shelf)?);
    file_is(rt, alloc, "c", first, shelf)?;
    file_is(rt, alloc, "c.below", second, shelf)
}

fn trees_are(rt: &impl Abort, alloc: Global, network: &str, cases: &[Trees]) -> Result<(), Fail> {
    for trees in cases {
        let mut shelf = shelf_with(alloc, network.as_bytes())?;
        let outcome = trees_stand(rt, alloc, trees, &mut shelf);
        drop(shelf);
        outcome?;
    }
    Ok(())
}

#[test]
fn trees_are_accepted_at_their_numbers(rt: HostRuntime) -> Result<(), Fail> {
    trees_are(&rt, rt.alloc(), n1(), TREES_ON_N1)?;
    trees_are(&rt, rt.alloc(), n2(), TREES_ON_N2)
}

fn places_are(rt: &impl Abort, alloc: Global, places: usize, cases: &[Trees]) -> Result<(), Fail> {
    let text = returns(alloc, places)?;
    let outcome = trees_are(rt, alloc, text.as_str(), cases);
    drop(text);
    outcome
}

#[test]
fn numbers_are_halved_or_tried_one_by_one(rt: HostRuntime) -> Result<(), Fail> {
    places_are(&rt, rt.alloc(), 4, TREES_ON_FOUR_PLACES)?;
    places_are(&rt, rt.alloc(), 8, TREES_ON_EIGHT_PLACES)
}

// Which calls on the shelf and on standard output fail, what `tolerate` ends with then, and whether `c` and `c.below` are there.
type Storing<'a> = (&'a [u64], &'a [FailingPut], &'a str, bool, bool);

const STORING: &[Storing] = &[
    (&[], &[], TWO_FAILURES, true, true),
    (&[0], &[], "10<><whatif: cannot read n\n>", false, false),
    (&[1], &[], "10<><whatif: cannot write c\n>", false, false),
    (
        &[2],
        &[],
        "10<><whatif: cannot write c.below\n>",
        true,
        false,
    ),
    // Both stand where printing fails.
    (
        &[],
        &[FailingPut { call: 0, taken: 5 }],
        "10<least><whatif: cannot print\n>",
        true,
        true,
    ),
];

// A shelf with the second network, the calls on which fail that have these numbers.
fn failing(alloc: Global, calls: &[u64]) -> Result<MemoryShelf, Fail> {
    let calls = Vec::from_slice(alloc, calls)?;
    let mut shelf = MemoryShelf::failing(alloc, calls);
    match shelf.insert("n", n2().as_bytes()) {
        Ok(()) => Ok(shelf),
        Err(fail) => {
            drop(shelf);
            Err(fail.into())
        }
    }
}

fn stores(rt: &impl Abort, alloc: Global, case: &Storing) -> Result<(), Fail> {
    let (calls, out_fails, wanted, first, second) = *case;
    let mut shelf = failing(alloc, calls)?;
    let words = [
        "whatif",
        "tolerate",
        "n",
        "<ip1> [x#a] [a#c] .* [b#z] <ip1> 0",
        "3",
        "--certificate",
        "c",
    ];
    let said = ran_over(alloc, &words, &mut shelf, out_fails, &[]);
    let stand = (shelf.get("c").is_some(), shelf.get("c.below").is_some());
    drop(shelf);
    is_said(rt, said, wanted)?;
    assert_eq!(rt; stand, (first, second));
    Ok(())
}

#[test]
fn the_first_tree_stands_where_the_second_does_not(rt: HostRuntime) -> Result<(), Fail> {
    for case in STORING {
        stores(&rt, rt.alloc(), case)?;
    }
    Ok(())
}
