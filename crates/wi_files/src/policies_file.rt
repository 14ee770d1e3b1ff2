//! What is given is read before the file of policies is fetched, so that its faults come first. A fault becomes its text while the
//! network is there, since it may name a link.
ghost use Rattle.std.specs.Prelude.{◌≡◌, ◌≤◌, ◌<◌, true, Some, length, IfOk, IfErr};
ghost use Rattle.wi_net.specs.declared.bounds.Bounds.{Bounds};
ghost use Rattle.wi_net.specs.Net.{Net};
ghost use Rattle.wi_query.specs.Given.{IsGiven};
ghost use Rattle.wi_policy.specs.Policies.{HasPolicies};
ghost use Rattle.wi_files.specs.Policies.{ArePolicies, FromPolicies, FromPoliciesFile, FromPoliciesOver, HoldsPolicies, IsBadGiven};
ghost use Rattle.wi_files.specs.Shelves.{AllStand, IsCalm};
ghost use Rattle.wi_files.specs.private.Stages.{FromPolicyBytes};

use crate::fetch::{LINES_LIMIT, bytes_within, network};
use std::alloc::Global;
use wi_base::{Listed, Shelf};
use wi_faults::{given_fault_text, policies_fault_text};
use wi_net::{Bounds, Network};
use wi_outcome::Refusal;
use wi_policy::{PoliciesRefused, Policy, read_policies};
use wi_query::{QueryFault, StrictFault, read_given};

/// The policies of a file over a network, with the links that are given as down and up.
#[derive(Drop)]
pub struct Policies {
    pub net: Network,
    pub given: Bounds,
    pub listed: Listed<Policy>,
}

/// The policies that a file has over the network of another file, where a text gives links as down and up; or the first of them that has
/// a fault, in this order: the network's file, the text, the file of policies.
pub fn fetch_policies<'a, S: Shelf>(
    alloc: Global,
    network_name: &'a str,
    text: &str,
    name: &'a str,
    shelf: &mut S,
) -> Result<Policies, Refusal<'a>>
    ensures told { (S.seen shelf.new).told ≡ (S.seen shelf.old).told }
    ensures files { AllStand (S.seen shelf.old) (S.seen shelf.new) }
    ensures calm { IfOk result (λ _. IsCalm (S.seen shelf.old) (S.seen shelf.new)) }
    ensures read { IfOk result (λ policies. ArePolicies (S.seen shelf.old) network_name.now text.now name.now policies.net policies.given policies.listed) }
    ensures refused { IfErr result (FromPolicies (S.seen shelf.old) (S.seen shelf.new) network_name.now text.now name.now) }
{
    let net = network(alloc, network_name, shelf)?;
    match policies_over(alloc, &net, text, name, shelf) {
        Ok((given, listed)) => Ok(Policies { net, given, listed }),
        Err(refusal) => {
            drop(net);
            Err(refusal)
        }
    }
}

// What a text gives over a network, and the policies of a file.
fn policies_over<'a, S: Shelf>(
    alloc: Global,
    net: &Network,
    text: &str,
    name: &'a str,
    shelf: &mut S,
) -> Result<(Bounds, Listed<Policy>), Refusal<'a>>
    ensures told { (S.seen shelf.new).told ≡ (S.seen shelf.old).told }
    ensures files { AllStand (S.seen shelf.old) (S.seen shelf.new) }
    ensures calm { IfOk result (λ _. IsCalm (S.seen shelf.old) (S.seen shelf.new)) }
    ensures given { IfOk result (λ found. IsGiven net.now text.now found.0) }
    ensures held { IfOk result (λ found. HoldsPolicies (S.seen shelf.old) name.now net.now found.0 found.1) }
    ensures refused { IfErr result (FromPoliciesOver (S.seen shelf.old) (S.seen shelf.new) net.now text.now name.now) }
{
    let given = given_in(alloc, net, text)?;
    match policies_in(alloc, net, &given, name, shelf) {
        Ok(listed) => Ok((given, listed)),
        Err(refusal) => {
            drop(given);
            Err(refusal)
        }
    }
}

// The links that a text gives, or what is wrong with it.
fn given_in<'a>(alloc: Global, net: &Network, text: &str) -> Result<Bounds, Refusal<'a>>
    ensures read { IfOk result (λ given. IsGiven net.now text.now given) }
    ensures refused { IfErr result (λ refusal. IsBadGiven net.now text.now refusal) }
{
    match read_given(alloc, net, text) {
        Ok(given) => Ok(given),
        Err(StrictFault::InQuery(QueryFault::Memory)) => Err(Refusal::Memory),
        Err(fault) => Err(Refusal::Given(given_fault_text(alloc, net, &fault)?)),
    }
}

// The policies of a file, or what is wrong with it.
fn policies_in<'a, S: Shelf>(
    alloc: Global,
    net: &Network,
    given: &Bounds,
    name: &'a str,
    shelf: &mut S,
) -> Result<Listed<Policy>, Refusal<'a>>
    ensures told { (S.seen shelf.new).told ≡ (S.seen shelf.old).told }
    ensures files { AllStand (S.seen shelf.old) (S.seen shelf.new) }
    ensures calm { IfOk result (λ _. IsCalm (S.seen shelf.old) (S.seen shelf.new)) }
    ensures held { IfOk result (λ policies. HoldsPolicies (S.seen shelf.old) name.now net.now given.now policies) }
    ensures refused { IfErr result (λ refusal. FromPoliciesFile (S.seen shelf.old) (S.seen shelf.new) net.now given.now name.now refusal) }
{
    let bytes = policies_bytes(alloc, name, shelf)?;
    listed(alloc, net, given, bytes.as_slice())
}

// The bytes of a file of policies, for a network and what is given.
fn policies_bytes<'a, S: Shelf>(
    alloc: Global,
    name: &'a str,
    shelf: &mut S,
) -> Result<Vec<u8>, Refusal<'a>>
    ensures told { (S.seen shelf.new).told ≡ (S.seen shelf.old).told }
    ensures files { AllStand (S.seen shelf.old) (S.seen shelf.new) }
    ensures calm { IfOk result (λ _. IsCalm (S.seen shelf.old) (S.seen shelf.new)) }
    ensures short { IfOk result (λ bytes. length bytes.items ≤ LINES_LIMIT) }
    ensures found { (S.seen shelf.old).told ≡ true → IfOk result (λ bytes. (S.seen shelf.old).file name.now ≡ Some bytes.items) }
    ensures refused { (net : Net) (given : Bounds) → IfErr result (λ refusal. FromPoliciesFile (S.seen shelf.old) (S.seen shelf.new) net given name.now refusal) }
{
    match bytes_within(alloc, name, LINES_LIMIT, shelf)? {
        Some(bytes) => Ok(bytes),
        None => Err(Refusal::LongPolicies),
    }
}

// The policies of the bytes of a file.
fn listed<'a>(
    alloc: Global,
    net: &Network,
    given: &Bounds,
    bytes: &[u8],
) -> Result<Listed<Policy>, Refusal<'a>>
    ensures read { IfOk result (λ policies. HasPolicies net.now given.now bytes.now policies) }
    ensures some { IfOk result (λ policies. 0 < length policies) }
    ensures refused { IfErr result (λ refusal. FromPolicyBytes net.now given.now bytes.now refusal) }
{
    match read_policies(alloc, net, given, bytes) {
        Ok(policies) => Ok(policies),
        Err(PoliciesRefused::Memory) => Err(Refusal::Memory),
        Err(refused) => Err(Refusal::Policies(policies_fault_text(alloc, net, &refused)?)),
    }
}
