//! What several files of tests share.
use std::alloc::Global;
use std::fmt::Debug;
use std::process::Abort;
use std::test::Fail;
use wi_base::Listed;
use wi_labels::{Class, Label, Op, Ops};
use wi_net::{FailSet, Group, LinkId, Member};
use wi_samples::Way;

pub(crate) const L30: Label = Label(0);

pub(crate) const S10: Label = Label(1);

pub(crate) const IP1: Label = Label(2);

pub(crate) const PUSH_30: Op = Op::Push(Label(0), Class::Mpls);

pub(crate) const PUSH_S10: Op = Op::Push(Label(1), Class::Smpls);

// One function for all comparisons: a test that asserts by itself takes longer to prove.
pub(crate) fn equal<T: PartialEq + Debug + Drop>(rt: &impl Abort, found: T, wanted: T) {
    assert_eq!(rt; found, wanted);
}

pub(crate) fn set(alloc: Global, links: &[u32]) -> Result<FailSet, Fail> {
    let mut set = FailSet::new(alloc);
    for link in links {
        set.insert(LinkId(*link))?;
    }
    Ok(set)
}

pub(crate) fn set_is(rt: &impl Abort, set: &FailSet, links: &[u32]) {
    equal(rt, set.len(), links.len());
    for (i, link) in links.iter().enumerate() {
        equal(rt, set.at(i), Some(LinkId(*link)));
    }
    equal(rt, set.at(links.len()), None);
}

fn member(alloc: Global, link: u32, ops: &[Op]) -> Result<Member, Fail> {
    Ok(Member {
        link: LinkId(link),
        ops: Ops::from_slice(alloc, ops)?,
    })
}

pub(crate) fn group(alloc: Global, ways: &[Way]) -> Result<Group, Fail> {
    let mut members = Vec::new(alloc);
    for (link, ops) in ways {
        members.push(member(alloc, *link, ops)?)?;
    }
    Ok(Listed::of(members))
}

pub(crate) fn groups(alloc: Global, ways: &[&[Way]]) -> Result<Vec<Group>, Fail> {
    let mut groups = Vec::new(alloc);
    for members in ways {
        groups.push(group(alloc, members)?)?;
    }
    Ok(groups)
}
