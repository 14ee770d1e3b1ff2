//! The networks of worked examples, each a constant. In all but the last two, packets go from x over a and b to y, and a way
//! over c protects the link from a to b.
use crate::sample::{Line, RowOf, Sample};
use wi_labels::{Class, Label, Op};

const PUSH_30: Op = Op::Push(Label(0), Class::Mpls);

const PUSH_S10: Op = Op::Push(Label(1), Class::Smpls);

const SWAP_IP1: Op = Op::Swap(Label(2), Class::Ip);

// Where 31 is a label too, s10 and ip1 have higher numbers.
const PUSH_HIGHER_S10: Op = Op::Push(Label(2), Class::Smpls);

const SWAP_31: Op = Op::Swap(Label(1), Class::Mpls);

const X_TO_A: Line = ("x", "o", "a", "x", 1, None);

const A_TO_B: Line = ("a", "b", "b", "a", 1, None);

const A_TO_C: Line = ("a", "c", "c", "a", 2, None);

const C_TO_B: Line = ("c", "b", "b", "c", 2, None);

const B_TO_Y: Line = ("b", "y", "y", "b", 1, None);

const B_TO_Z: Line = ("b", "z", "z", "b", 1, None);

const C_TO_A: Line = ("c", "a2", "a", "c2", 1, None);

// The same links in one risk group.
const A_TO_B_IN_G: Line = ("a", "b", "b", "a", 1, Some("g"));

const A_TO_C_IN_G: Line = ("a", "c", "c", "a", 2, Some("g"));

const B_TO_Y_IN_G: Line = ("b", "y", "y", "b", 1, Some("g"));

const LINKS: &[Line] = &[X_TO_A, A_TO_B, A_TO_C, C_TO_B, B_TO_Y];

const LINKS_FIBER: &[Line] = &[X_TO_A, A_TO_B_IN_G, A_TO_C, C_TO_B, B_TO_Y_IN_G];

const LINKS_TO_Z: &[Line] = &[X_TO_A, A_TO_B, A_TO_C, C_TO_B, B_TO_Y, B_TO_Z];

const LINKS_TO_Z_FIBER: &[Line] = &[X_TO_A, A_TO_B_IN_G, A_TO_C, C_TO_B, B_TO_Y_IN_G, B_TO_Z];

// First to b, else by c in a tunnel.
const AT_A: RowOf = (0, 2, &[&[(1, &[PUSH_S10])], &[(2, &[PUSH_S10, PUSH_30])]]);

const FROM_A: RowOf = (1, 1, &[&[(4, &[Op::Pop])]]);

const AT_C: RowOf = (2, 0, &[&[(3, &[Op::Pop])]]);

const FROM_C: RowOf = (3, 1, &[&[(4, &[Op::Pop])]]);

// From there to y, else to z.
const FROM_C_OR_Z: RowOf = (3, 1, &[&[(4, &[Op::Pop])], &[(5, &[Op::Pop])]]);

const ROWS_OR_Z: &[RowOf] = &[AT_A, FROM_A, AT_C, FROM_C_OR_Z];

// The same rows where 31 is a label too.
const HIGHER_AT_A: RowOf = (
    0,
    3,
    &[
        &[(1, &[PUSH_HIGHER_S10])],
        &[(2, &[PUSH_HIGHER_S10, PUSH_30])],
    ],
);

const HIGHER_FROM_A: RowOf = (1, 2, &[&[(4, &[Op::Pop])]]);

const HIGHER_FROM_C: RowOf = (3, 2, &[&[(4, &[Op::Pop])]]);

const HIGHER_FROM_C_OR_Z: RowOf = (3, 2, &[&[(4, &[Op::Pop])], &[(5, &[Op::Pop])]]);

const HIGHER_ROWS_OR_Z: &[RowOf] = &[HIGHER_AT_A, HIGHER_FROM_A, AT_C, HIGHER_FROM_C_OR_Z];

/// Labels 30, s10 and ip1 by the numbers 0 to 2. Links 0 to 4: from x to a, a to b, a to c, c to b, b to y.
pub const N1: Sample = Sample {
    mpls: &["30"],
    smpls: &["s10"],
    ip: &["ip1"],
    routers: &["x", "a", "b", "c", "y"],
    links: LINKS,
    rows: &[AT_A, FROM_A, AT_C, FROM_C],
};

/// `N1` where the links from a to b and from b to y are one risk group.
pub const N1_FIBER: Sample = Sample {
    links: LINKS_FIBER,
    ..N1
};

/// `N1` where the links from a to b and from a to c are one risk group.
pub const N1_NEAR: Sample = Sample {
    links: &[X_TO_A, A_TO_B_IN_G, A_TO_C_IN_G, C_TO_B, B_TO_Y],
    ..N1
};

/// `N1` with a label 31 that no table names: s10 and ip1 are the labels 2 and 3.
pub const N1_WITH_31: Sample = Sample {
    mpls: &["30", "31"],
    rows: &[HIGHER_AT_A, HIGHER_FROM_A, AT_C, HIGHER_FROM_C],
    ..N1
};

/// `N1_WITH_31` where the links from a to b and from b to y are one risk group.
pub const N1_FIBER_WITH_31: Sample = Sample {
    links: LINKS_FIBER,
    ..N1_WITH_31
};

/// `N1` with a router z and link 5 from b to it. What came to b from c goes to y, else to z.
pub const N2: Sample = Sample {
    routers: &["x", "a", "b", "c", "y", "z"],
    links: LINKS_TO_Z,
    rows: ROWS_OR_Z,
    ..N1
};

/// `N2` where the links from a to b and from b to y are one risk group.
pub const N2_FIBER: Sample = Sample {
    links: LINKS_TO_Z_FIBER,
    ..N2
};

/// `N2` with a label 31 that no table names.
pub const N2_WITH_31: Sample = Sample {
    mpls: &["30", "31"],
    rows: HIGHER_ROWS_OR_Z,
    ..N2
};

/// `N2_WITH_31` where the links from a to b and from b to y are one risk group.
pub const N2_FIBER_WITH_31: Sample = Sample {
    links: LINKS_TO_Z_FIBER,
    ..N2_WITH_31
};

/// `N1_WITH_31` with link 5 from c to a: what came to c goes back to a with 31, and from there to b.
pub const N3: Sample = Sample {
    links: &[X_TO_A, A_TO_B, A_TO_C, C_TO_B, B_TO_Y, C_TO_A],
    rows: &[
        HIGHER_AT_A,
        HIGHER_FROM_A,
        (2, 0, &[&[(5, &[SWAP_31])]]),
        HIGHER_FROM_C,
        (5, 1, &[&[(1, &[Op::Pop])]]),
    ],
    ..N1_WITH_31
};

/// `N1` where both ways out of a are the link to b.
pub const N4: Sample = Sample {
    rows: &[
        (0, 2, &[&[(1, &[SWAP_IP1])], &[(1, &[PUSH_S10])]]),
        FROM_A,
        AT_C,
        FROM_C,
    ],
    ..N1
};

/// `N1` where the first way out of a would push 30 on ip1, which isn't defined.
pub const N5: Sample = Sample {
    rows: &[
        (0, 2, &[&[(1, &[PUSH_30])], &[(2, &[PUSH_S10, PUSH_30])]]),
        FROM_A,
        AT_C,
        FROM_C,
    ],
    ..N1
};

/// The labels of `N1`. Links 0 to 4: from x to a, three from a to y, and from a to c. At a they are ways out in that order.
pub const N6: Sample = Sample {
    routers: &["x", "a", "y", "c"],
    links: &[
        X_TO_A,
        ("a", "y1", "y", "a1", 1, None),
        ("a", "y2", "y", "a2", 1, None),
        ("a", "y3", "y", "a3", 1, None),
        A_TO_C,
    ],
    rows: &[(0, 2, &[&[(1, &[])], &[(2, &[])], &[(3, &[])], &[(4, &[])]])],
    ..N1
};

/// `N1_FIBER` with link 5 from y to y, of distance 7, and without tables.
pub const BESIDE_Y: Sample = Sample {
    links: &[
        X_TO_A,
        A_TO_B_IN_G,
        A_TO_C,
        C_TO_B,
        B_TO_Y_IN_G,
        ("y", "o", "y", "i", 7, None),
    ],
    rows: &[],
    ..N1
};

/// `N1` with a label `ip`, which is the word of its class, and link 5 with names that aren't plain; without tables.
pub const QUOTED_END: Sample = Sample {
    ip: &["ip1", "ip"],
    routers: &["x", "a", "b", "c", "y", "b 1"],
    links: &[
        X_TO_A,
        A_TO_B,
        A_TO_C,
        C_TO_B,
        B_TO_Y,
        ("b 1", "o.1", "x", "a#é", 1, None),
    ],
    rows: &[],
    ..N1
};

/// Two routers, three links and three labels, most with names that have to be quoted; without tables.
pub const QUOTED: Sample = Sample {
    mpls: &["30"],
    smpls: &["s-10"],
    ip: &["ip"],
    routers: &["a", "b 1"],
    links: &[
        ("a", "b", "b 1", "a.0", 1, None),
        ("b 1", "c", "a", "d", 1, None),
        ("a", "é", "a", "e", 1, None),
    ],
    rows: &[],
};
