//! Headers and operations by example.
use crate::common::equal;
use std::alloc::Global;
use std::process::Abort;
use std::test::Fail;
use wi_labels::{Applied, Class, Header, Label, Op, Ops};

const T30: (Label, Class) = (Label(30), Class::Mpls);

const T31: (Label, Class) = (Label(31), Class::Mpls);

const S10: (Label, Class) = (Label(10), Class::Smpls);

const S11: (Label, Class) = (Label(11), Class::Smpls);

const IP1: (Label, Class) = (Label(1), Class::Ip);

const IP2: (Label, Class) = (Label(2), Class::Ip);

const PUSH_30: Op = Op::Push(Label(30), Class::Mpls);

const PUSH_S10: Op = Op::Push(Label(10), Class::Smpls);

const PUSH_S11: Op = Op::Push(Label(11), Class::Smpls);

const PUSH_IP1: Op = Op::Push(Label(1), Class::Ip);

const SWAP_31: Op = Op::Swap(Label(31), Class::Mpls);

// The labels of a header, from the top.
type Stack<'a> = &'a [(Label, Class)];

// A header, operations, what is answered, and the header after them.
type Application<'a> = (Stack<'a>, &'a [Op], Applied, Stack<'a>);

const HIGH: Stack = &[T30, S10, IP1];

const APPLICATIONS: &[Application] = &[
    (HIGH, &[Op::Pop, Op::Pop], Applied::Done, &[IP1]),
    (
        HIGH,
        &[Op::Pop, Op::Pop, Op::Pop],
        Applied::Undefined(2),
        HIGH,
    ),
    (&[IP1], &[PUSH_S10, PUSH_30], Applied::Done, HIGH),
    (&[IP1], &[PUSH_30], Applied::Undefined(0), &[IP1]),
    (&[IP1], &[PUSH_IP1], Applied::Undefined(0), &[IP1]),
    // An smpls label is the lowest of its stack.
    (&[S10, IP1], &[PUSH_S11], Applied::Undefined(0), &[S10, IP1]),
    (&[IP1], &[PUSH_S10, PUSH_S11], Applied::Undefined(1), &[IP1]),
    (&[IP1], &[], Applied::Done, &[IP1]),
    (HIGH, &[SWAP_31], Applied::Done, &[T31, S10, IP1]),
];

fn header_is(rt: &impl Abort, header: &Header, labels: Stack) {
    equal(rt, header.len(), labels.len());
    for (i, label) in labels.iter().enumerate() {
        equal(rt, header.at(i), Some(*label));
    }
    equal(rt, header.at(labels.len()), None);
}

fn applies(rt: &impl Abort, alloc: Global, case: &Application) -> Result<(), Fail> {
    let (labels, ops, answer, left) = *case;
    let mut header = Header::from_labels(alloc, labels)?;
    equal(rt, header.apply(ops)?, answer);
    header_is(rt, &header, left);
    Ok(())
}

#[test]
fn operations_are_done_in_order_or_not_at_all(rt: HostRuntime) -> Result<(), Fail> {
    for case in APPLICATIONS {
        applies(&rt, rt.alloc(), case)?;
    }
    Ok(())
}

// An operation, the class of a top, and whether it is defined there.
const ALLOWED: &[(Op, Class, bool)] = &[
    (PUSH_30, Class::Mpls, true),
    (PUSH_30, Class::Smpls, true),
    (PUSH_30, Class::Ip, false),
    (PUSH_S10, Class::Mpls, false),
    (PUSH_S10, Class::Smpls, false),
    (PUSH_S10, Class::Ip, true),
    (PUSH_IP1, Class::Mpls, false),
    (PUSH_IP1, Class::Smpls, false),
    (PUSH_IP1, Class::Ip, false),
    (SWAP_31, Class::Mpls, true),
    (SWAP_31, Class::Smpls, false),
    (SWAP_31, Class::Ip, false),
    (Op::Pop, Class::Mpls, true),
    (Op::Pop, Class::Smpls, true),
    (Op::Pop, Class::Ip, false),
];

#[test]
fn an_operation_is_allowed_on_some_classes(rt: HostRuntime) {
    for (op, top, allowed) in ALLOWED {
        equal(&rt, op.allowed(*top), *allowed);
    }
}

// Labels, and whether they are a valid header.
const STACKS: &[(Stack, bool)] = &[
    (&[IP1], true),
    (&[S10, IP1], true),
    (&[T30, T30, S10, IP1], true),
    (&[], false),
    (&[T30], false),
    (&[T30, IP1], false),
    (&[S10], false),
    (&[S10, S10, IP1], false),
    (&[S10, S11, IP1], false),
    (&[IP1, IP1], false),
    (&[S10, IP1, IP2], false),
];

fn is_valid_or_not(rt: &impl Abort, alloc: Global, labels: Stack, valid: bool) -> Result<(), Fail> {
    let header = Header::from_labels(alloc, labels)?;
    equal(rt, header.is_valid(), valid);
    header_is(rt, &header.twin()?, labels);
    Ok(())
}

#[test]
fn a_header_is_an_ip_label_or_a_tunnel_on_one(rt: HostRuntime) -> Result<(), Fail> {
    for (labels, valid) in STACKS {
        is_valid_or_not(&rt, rt.alloc(), labels, *valid)?;
    }
    Ok(())
}

const LISTED: &[Op] = &[Op::Pop, Op::Swap(Label(1), Class::Ip), Op::Pop];

fn pushed(alloc: Global, listed: &[Op]) -> Result<Ops, Fail> {
    let mut ops = Ops::new(alloc);
    for op in listed {
        ops.push(*op)?;
    }
    Ok(ops)
}

#[test]
fn operation_lists_keep_their_order(rt: HostRuntime) -> Result<(), Fail> {
    equal(&rt, pushed(rt.alloc(), LISTED)?.as_slice() == LISTED, true);
    equal(
        &rt,
        Ops::from_slice(rt.alloc(), LISTED)?.as_slice() == LISTED,
        true,
    );
    Ok(())
}
