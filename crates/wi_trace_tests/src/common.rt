//! What several files of tests share: the labels of the networks where 31 is one, and comparisons.
use std::fmt::Debug;
use std::process::Abort;
use wi_labels::{Class, Header, Label, Op};
use wi_net::{FailSet, LinkId};
use wi_samples::{N1_WITH_31, Sample};

pub(crate) const L30: (Label, Class) = (Label(0), Class::Mpls);

pub(crate) const L31: (Label, Class) = (Label(1), Class::Mpls);

pub(crate) const S10: (Label, Class) = (Label(2), Class::Smpls);

pub(crate) const IP1: (Label, Class) = (Label(3), Class::Ip);

pub(crate) const PUSH_S10: Op = Op::Push(Label(2), Class::Smpls);

// The first way out of a has two members, the second of them with an operation that isn't defined.
pub(crate) const TWO_MEMBERS: Sample = Sample {
    rows: &[(0, 3, &[&[(1, &[PUSH_S10]), (2, &[PUSH_S10, PUSH_S10])]])],
    ..N1_WITH_31
};

// One function for all comparisons: a test that asserts by itself takes longer to prove.
pub(crate) fn equal<T: PartialEq + Debug + Drop>(rt: &impl Abort, found: T, wanted: T) {
    assert_eq!(rt; found, wanted);
}

pub(crate) fn header_is(rt: &impl Abort, header: &Header, labels: &[(Label, Class)]) {
    equal(rt, header.len(), labels.len());
    for (i, label) in labels.iter().enumerate() {
        equal(rt, header.at(i), Some(*label));
    }
}

pub(crate) fn set_is(rt: &impl Abort, set: &FailSet, links: &[u32]) {
    equal(rt, set.len(), links.len());
    for (i, link) in links.iter().enumerate() {
        equal(rt, set.at(i), Some(LinkId(*link)));
    }
}
