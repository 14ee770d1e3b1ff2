//! Each line is judged by itself, as it comes: what is kept of it is its policy, without the query's automata, which are made
//! to judge the query and let go. Bytes are cut into lines before they are taken for text, so that a line that isn't UTF-8 is a
//! fault of that line, and those before it are read.
ghost use Rattle.std.specs.Prelude.{◌≡◌, ◌<◌, ◌++◌, ◌∷◌, [], false, length, string_bytes, IfOk, IfErr, OnOk, Some, option_map};
ghost use Rattle.wi_policy.specs.declared.policy.LineFault.TheVariants.{InQuery, DownAndUp};
ghost use Rattle.wi_policy.specs.Line.{says_nothing};
ghost use Rattle.wi_policy.specs.Policies.{HasNoPolicies, HasPolicies, joined, torn};
ghost use Rattle.wi_policy.specs.private.Reading.{is_want, statement_said, IsWrong};
ghost use Rattle.wi_policy.specs.private.Walking.{Adds, IsLineRead, IsPolicyOrFault, IsRefusedLine};

use crate::bounds::{first_torn, join};
use crate::line::{Said, query_text, said_on, says_nothing};
use crate::policy::{LineFault, PoliciesRefused, Policy};
use std::alloc::Global;
use std::str::from_utf8;
use wi_base::{Listed, NoMemory};
use wi_net::{Bounds, Network};
use wi_query::{Query, QueryFault, StrictFault, read_strictly};
use wi_text::next_line;

/// The policies that a file has over a network, where some links are given as down or up. A line is `yes NAME QUERY` or
/// `no NAME QUERY`, where the query begins with the first `<`; a line on which nothing stands, or a comment, is passed over. All
/// lines are judged; the automata of a policy are made anew when it is asked, so that no more than one policy's stand in memory.
pub fn read_policies(
    alloc: Global,
    net: &Network,
    given: &Bounds,
    bytes: &[u8],
) -> Result<Listed<Policy>, PoliciesRefused>
    ensures read { IfOk result (λ policies. HasPolicies net.now given.now bytes.now policies) }
    ensures some { IfOk result (λ policies. 0 < length policies) }
    ensures refused { IfErr result (λ refused. HasNoPolicies net.now given.now bytes.now refused) }
{
    let mut policies = Vec::new(alloc);
    if let Err(refused) = read_lines(alloc, net, given, bytes, &mut policies) {
        drop(policies);
        return Err(refused);
    }
    if policies.is_empty() {
        drop(policies);
        return Err(PoliciesRefused::NoPolicy);
    }
    Ok(Listed::of(policies))
}

// Adds the policies of all lines to a list that is empty.
fn read_lines(
    alloc: Global,
    net: &Network,
    given: &Bounds,
    bytes: &[u8],
    policies: &mut Vec<Policy>,
) -> Result<(), PoliciesRefused>
    requires { policies.old.items ≡ [] }
    ensures read { OnOk result (HasPolicies net.now given.now bytes.now policies.new.items) }
    ensures refused { IfErr result (λ refused. HasNoPolicies net.now given.now bytes.now refused) }
{
    let mut left = bytes;
    let mut number = 1;
    while let Some((line, rest)) = next_line(left) {
        add_line(alloc, net, given, number, line, policies)?;
        left = rest;
        number += 1;
    }
    add_line(alloc, net, given, number, left, policies)
}

// Adds the policy of a line, if it is one.
fn add_line(
    alloc: Global,
    net: &Network,
    given: &Bounds,
    number: usize,
    line: &[u8],
    policies: &mut Vec<Policy>,
) -> Result<(), PoliciesRefused>
    ensures added { OnOk result (Adds net.now given.now number line.now policies.old.items policies.new.items) }
    ensures refused { IfErr result (λ refused. IsRefusedLine net.now given.now number line.now refused) }
{
    match read_line(alloc, net, given, number, line)? {
        None => Ok(()),
        Some(policy) => Ok(add(policies, policy)?),
    }
}

// Adds a policy.
fn add(policies: &mut Vec<Policy>, policy: Policy) -> Result<(), NoMemory>
    ensures { OnOk result (policies.new.items ≡ policies.old.items ++ policy ∷ []) }
{
    policies.push(policy)?;
    Ok(())
}

// The policy that a line is, or none where it says nothing.
fn read_line(
    alloc: Global,
    net: &Network,
    given: &Bounds,
    number: usize,
    line: &[u8],
) -> Result<Option<Policy>, PoliciesRefused>
    ensures { IsLineRead net.now given.now number line.now result }
{
    match from_utf8(line) {
        Ok(text) if says_nothing(text) => Ok(None),
        Ok(text) => Ok(Some(policy_on(alloc, net, given, number, text)?)),
        Err(_) => Err(PoliciesRefused::AtLine(number, LineFault::NotAPolicy)),
    }
}

// The policy that a line is.
fn policy_on(
    alloc: Global,
    net: &Network,
    given: &Bounds,
    number: usize,
    line: &str,
) -> Result<Policy, PoliciesRefused>
    requires { says_nothing line.now ≡ false }
    ensures { IsPolicyOrFault net.now given.now number line.now result }
{
    let Some(said) = said_on(line) else {
        return Err(PoliciesRefused::AtLine(number, LineFault::NotAPolicy));
    };
    let query = query_text(alloc, said)?;
    match wrong_with(alloc, net, given, query.as_str()) {
        Ok(None) => Ok(policy_of(alloc, number, said, query)?),
        Ok(Some(fault)) => {
            drop(query);
            Err(PoliciesRefused::AtLine(number, fault))
        }
        Err(error) => {
            drop(query);
            Err(PoliciesRefused::from(error))
        }
    }
}

// The policy of what a line says.
fn policy_of(alloc: Global, number: usize, said: Said, query: String) -> Result<Policy, NoMemory>
    ensures line { IfOk result (λ policy. policy.line ≡ number) }
    ensures word { IfOk result (λ policy. policy.word ≡ (statement_said said.entry).word) }
    ensures name { IfOk result (λ policy. string_bytes policy.name ≡ (statement_said said.entry).name) }
    ensures query { IfOk result (λ policy. policy.query ≡ query) }
{
    match String::from_str(alloc, said.name) {
        Ok(name) => Ok(Policy {
            line: number,
            word: said.word,
            name,
            query,
        }),
        Err(_) => {
            drop(query);
            Err(NoMemory::Memory)
        }
    }
}

// What is wrong with the text of a query, if something is.
fn wrong_with(
    alloc: Global,
    net: &Network,
    given: &Bounds,
    text: &str,
) -> Result<Option<LineFault>, NoMemory>
    ensures { IfOk result (λ wrong. IsWrong net.now given.now text.now wrong) }
{
    match read_strictly(alloc, net, text) {
        Ok(query) => torn_by(query, given),
        Err(fault) => in_query(fault),
    }
}

// The least link that is both down and up, if there is one.
fn torn_by(query: Query, given: &Bounds) -> Result<Option<LineFault>, NoMemory>
    ensures { IfOk result (λ wrong. wrong ≡ option_map DownAndUp (torn (joined query.bounds given.now))) }
{
    let Query {
        first,
        path,
        last,
        drops: _,
        mut bounds,
    } = query;
    drop((first, path, last));
    match join(&mut bounds, given) {
        Ok(()) => {
            let link = first_torn(&bounds);
            drop(bounds);
            Ok(link.map(LineFault::DownAndUp))
        }
        Err(error) => {
            drop(bounds);
            Err(error)
        }
    }
}

// The fault of a query's text, unless it is that memory was wanting.
fn in_query(fault: StrictFault) -> Result<Option<LineFault>, NoMemory>
    ensures told { IfOk result (λ wrong. wrong ≡ Some (InQuery fault)) }
    ensures fault { IfOk result (λ wrong. is_want fault ≡ false) }
{
    if is_want(&fault) {
        drop(fault);
        return Err(NoMemory::Memory);
    }
    Ok(Some(LineFault::InQuery(fault)))
}

// Whether memory was wanting.
fn is_want(fault: &StrictFault) -> bool
    ensures { result ≡ is_want fault.now }
{
    matches!(fault, StrictFault::InQuery(QueryFault::Memory))
}
