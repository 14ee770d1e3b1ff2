//! The cases of a test on one network: each is tried, and the network is let go. What a case needs to end a test is its own, of whatever
//! type: nothing here ends one.
use crate::sample::{Sample, network};
use std::alloc::Global;
use std::test::Fail;
use wi_net::Network;

/// A case of a test.
pub trait TestCase<R> {
    /// Tries it on a network.
    fn is_met(&self, rt: &R, alloc: Global, net: &Network) -> Result<(), Fail>;
}

/// Tries each case on the network of a sample.
pub fn are_met<R, C: TestCase<R>>(
    rt: &R,
    alloc: Global,
    sample: &Sample,
    cases: &[C],
) -> Result<(), Fail> {
    let net = network(alloc, sample)?;
    let outcome = are_met_on(rt, alloc, &net, cases);
    drop(net);
    outcome
}

/// Tries each case on a network.
pub fn are_met_on<R, C: TestCase<R>>(
    rt: &R,
    alloc: Global,
    net: &Network,
    cases: &[C],
) -> Result<(), Fail> {
    for case in cases {
        case.is_met(rt, alloc, net)?;
    }
    Ok(())
}
