//! Policies that are asked of a network, and what is printed of each.
ghost use Rattle.std.specs.Prelude.{List, ℕ};
ghost use Rattle.wi_policy.specs.Policies.{HasPolicies};
ghost use Rattle.wi_world.specs.Moves.{AreBounds};

use std::alloc::Global;
use std::process::Abort;
use std::str::from_utf8;
use std::test::Fail;
use wi_audit::{Fulfilment, Test, audited, plan_text};
use wi_net::{Bounds, Network};
use wi_policy::{Policy, read_policies};
use wi_query::read_given;
use wi_samples::{N1, N3, TestCase, are_met};

// A text that gives links as down and up, a line of a policy, and what is printed of it; whether it is as expected.
#[derive(Clone, Copy)]
struct Case<'a>(&'a str, &'a [u8], Fulfilment, &'a str);

fn is_told(
    rt: &impl Abort,
    audited: &Test,
    fulfilment: Fulfilment,
    text: &str,
) -> Result<(), Fail> {
    assert_eq!(rt; audited.fulfilment, fulfilment);
    assert_eq!(rt; from_utf8(audited.text.as_bytes()), Ok(text));
    Ok(())
}

// The first policy is asked as the third of a file.
fn first_is(
    rt: &impl Abort,
    alloc: Global,
    net: &Network,
    given: &Bounds,
    policies: &[Policy],
    case: &Case,
) -> Result<(), Fail>
    requires bounds { AreBounds net.now given.now }
    requires policies { (bytes : List ℕ) × HasPolicies net.now given.now bytes policies.now }
{
    let Some(policy) = policies.first() else {
        assert!(rt; false);
        return Ok(());
    };
    let audited = audited(alloc, net, given, 3, policy)?;
    let outcome = is_told(rt, &audited, case.2, case.3);
    drop(audited);
    outcome
}

fn file_is(
    rt: &impl Abort,
    alloc: Global,
    net: &Network,
    given: &Bounds,
    case: &Case,
) -> Result<(), Fail>
    requires { AreBounds net.now given.now }
{
    let Ok(policies) = read_policies(alloc, net, given, case.1) else {
        assert!(rt; false);
        return Ok(());
    };
    let outcome = first_is(rt, alloc, net, given, policies.as_slice(), case);
    drop(policies);
    outcome
}

impl<R: Abort> TestCase<R> for Case<'_> {
    fn is_met(&self, rt: &R, alloc: Global, net: &Network) -> Result<(), Fail> {
        let Ok(given) = read_given(alloc, net, self.0) else {
            assert!(rt; false);
            return Ok(());
        };
        let outcome = file_is(rt, alloc, net, &given, self);
        drop(given);
        outcome
    }
}

const ON_THE_FIRST_NETWORK: &[Case] = &[
    Case(
        "",
        b"yes it arrives <ip1> [x#a] .* [b#y] <ip1> 0",
        Fulfilment::AsExpected,
        "ok 3 - it arrives\n",
    ),
    Case(
        "",
        b"# c\n\nno <ip1> [x#a] .* [b#y] <ip1> 0",
        Fulfilment::Unexpected,
        "not ok 3 - line 3\n# line 3: no is expected\n# answer: yes\n# weight: none\n# effort: 8\n# failed: none\n# nodes: 1\n# links: 3\n# x.o#a.x | ip1\n# a.b#b.a | s10 ip1 | group 1 member 1\n# b.y#y.b | ip1 | group 1 member 1\n",
    ),
    Case(
        "down [a#b]",
        b"yes a#\\ <ip1> [x#a] [a#b] .* <ip1> 0",
        Fulfilment::Unexpected,
        "not ok 3 - a__\n# line 1: yes is expected\n# answer: no\n# nodes: 1\n",
    ),
    Case(
        "up [a#b]",
        b"no detour <ip1> [x#a] [a#c] .* <ip1> 1",
        Fulfilment::AsExpected,
        "ok 3 - detour\n",
    ),
];

#[test]
fn policies_of_the_first_network(rt: HostRuntime) -> Result<(), Fail> {
    are_met(&rt, rt.alloc(), &N1, ON_THE_FIRST_NETWORK)
}

// For links that fail and are repaired this is inconclusive.
const ON_THE_DETOUR: &[Case] = &[Case(
    "",
    b"no <ip1> [x#a] [a#c] [c#a] [a#b] .* <ip1> 5",
    Fulfilment::AsExpected,
    "ok 3 - line 1\n",
)];

#[test]
fn a_policy_is_asked_exactly(rt: HostRuntime) -> Result<(), Fail> {
    are_met(&rt, rt.alloc(), &N3, ON_THE_DETOUR)
}

#[test]
fn the_plan_comes_first(rt: HostRuntime) -> Result<(), Fail> {
    let plan = plan_text(rt.alloc(), 12)?;
    assert_eq!(rt; from_utf8(plan.as_bytes()), Ok("1..12\n"));
    Ok(())
}
