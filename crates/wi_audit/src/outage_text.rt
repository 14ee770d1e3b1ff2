//! A line names the whole risk group that is out, so that it can be seen which cables share a duct; each line behind it names one policy
//! that doesn't hold then.
ghost use Rattle.std.specs.Prelude.{◌≡◌, ◌<◌, ◌∷◌, [], ◌++◌, codes, map, length, is_some, slice_get, Some, IfOk, OnOk};
ghost use Rattle.std.specs.Fmt.{decimal};
ghost use Rattle.std.specs.List.{list_any};
ghost use Rattle.wi_audit.specs.Outages.{bracketed, complaint, complaint_of, complaints, description_of, found_shown, fulfilment_in, fulfilments, outage_lines, outage_shown, outage_text, skip_mark};
ghost use Rattle.wi_audit.specs.Outcomes.{worst};
ghost use Rattle.wi_audit.specs.Texts.{safe_byte, test_line};
ghost use Rattle.wi_audit.specs.private.Trials.{IsShown};

use crate::outcome::Fulfilment;
use crate::series::{Test, worse};
use crate::text::{put, put_number, put_safe, word_text};
use std::alloc::Global;
use wi_base::{NoMemory, write_decimal};
use wi_faults::{put_router, put_sources};
use wi_net::Network;
use wi_outage::Outage;
use wi_policy::Policy;
use wi_settle::Found;
use wi_text::Text;
use wi_world::Word;

/// The test of an outage with its number, from 1, where this was found of each policy.
pub(crate) fn test_of(
    alloc: Global,
    net: &Network,
    number: usize,
    outage: &Outage,
    policies: &[Policy],
    tried: &[Option<Found>],
) -> Result<Test, NoMemory>
    requires outage { IsShown net.now outage.now }
    requires tried { length tried.now ≡ length policies.now }
    ensures text { IfOk result (λ test. test.text ≡ outage_text net.now number outage.now policies.now tried.now) }
    ensures fulfilment { IfOk result (λ test. test.fulfilment ≡ worst (fulfilments policies.now tried.now)) }
{
    let fulfilment = worst_of(policies, tried);
    let mut lines = Vec::new(alloc);
    put_lines(
        alloc, fulfilment, net, number, outage, policies, tried, &mut lines,
    )?;
    Ok(Test {
        text: Text::of(lines),
        fulfilment,
    })
}

// The worst of what was found.
fn worst_of(policies: &[Policy], tried: &[Option<Found>]) -> Fulfilment
    requires { length tried.now ≡ length policies.now }
    ensures { result ≡ worst (fulfilments policies.now tried.now) }
{
    let mut worst = Fulfilment::AsExpected;
    for (i, policy) in policies.iter().enumerate() {
        let found = found_at(tried, i);
        worst = worse(worst, fulfilment_in(policy.word, found));
    }
    worst
}

// What is found of the policy at a place.
fn found_at(tried: &[Option<Found>], i: usize) -> Option<Found>
    requires { i < length tried.now }
    ensures { slice_get tried.now i ≡ Some result }
{
    tried[i]
}

// Whether what is found is what is expected with a word. What isn't asked breaks nothing.
fn fulfilment_in(word: Word, tried: Option<Found>) -> Fulfilment
    ensures { result ≡ fulfilment_in word tried }
{
    match (word, tried) {
        (_, None) => Fulfilment::AsExpected,
        (_, Some(Found::Open)) => Fulfilment::Undecided,
        (Word::Yes, Some(Found::Yes)) | (Word::No, Some(Found::No)) => Fulfilment::AsExpected,
        (_, Some(_)) => Fulfilment::Unexpected,
    }
}

// Adds the lines of an outage, by the worst of what was found.
fn put_lines(
    alloc: Global,
    fulfilment: Fulfilment,
    net: &Network,
    number: usize,
    outage: &Outage,
    policies: &[Policy],
    tried: &[Option<Found>],
    to: &mut Vec<u8>,
) -> Result<(), NoMemory>
    requires outage { IsShown net.now outage.now }
    requires tried { length tried.now ≡ length policies.now }
    ensures { OnOk result (to.new.items ≡ to.old.items ++ outage_lines fulfilment net.now number outage.now policies.now tried.now) }
{
    match fulfilment {
        Fulfilment::AsExpected => put_outage_line(alloc, "ok ", net, number, outage, tried, to),
        Fulfilment::Unexpected | Fulfilment::Undecided => {
            put_outage_line(alloc, "not ok ", net, number, outage, tried, to)?;
            put_complaints(policies, tried, to)
        }
    }
}

// Adds the test line of an outage, which begins so.
fn put_outage_line(
    alloc: Global,
    word: &str,
    net: &Network,
    number: usize,
    outage: &Outage,
    tried: &[Option<Found>],
    to: &mut Vec<u8>,
) -> Result<(), NoMemory>
    requires { IsShown net.now outage.now }
    ensures { OnOk result (to.new.items ≡ to.old.items ++ test_line word.now number (description_of net.now outage.now tried.now)) }
{
    put_number(word, number, to)?;
    put_outage(alloc, net, outage, to)?;
    put("down", to)?;
    put(skip_mark(tried), to)?;
    put("\n", to)
}

// Adds what is down, with a space behind each name.
fn put_outage(
    alloc: Global,
    net: &Network,
    outage: &Outage,
    to: &mut Vec<u8>,
) -> Result<(), NoMemory>
    requires { IsShown net.now outage.now }
    ensures { OnOk result (to.new.items ≡ to.old.items ++ map safe_byte (outage_shown net.now outage.now)) }
{
    let shown = outage_shown(alloc, net, outage)?;
    let done = put_safe(shown.as_bytes(), to);
    drop(shown);
    done
}

// What is down, with a space behind each name.
fn outage_shown(alloc: Global, net: &Network, outage: &Outage) -> Result<Text, NoMemory>
    requires { IsShown net.now outage.now }
    ensures { IfOk result (λ text. text ≡ outage_shown net.now outage.now) }
{
    let mut text = Text::new(alloc);
    match outage.router {
        Some(router) => {
            put_router(net, router, &mut text)?;
            text.put(" ")?;
        }
        None => put_sources(net, &outage.links, &mut text)?,
    }
    Ok(text)
}

// What stands behind a test in which no policy is asked.
fn skip_mark(tried: &[Option<Found>]) -> &'static str
    ensures { result.now ≡ skip_mark tried.now }
{
    if is_asked(tried) {
        ""
    } else {
        " # SKIP not asked"
    }
}

// Whether some policy is asked.
fn is_asked(tried: &[Option<Found>]) -> bool
    ensures { result ≡ list_any is_some tried.now }
{
    tried.iter().any(|found| found.is_some())
}

// Adds a line for each policy that isn't as expected.
fn put_complaints(
    policies: &[Policy],
    tried: &[Option<Found>],
    to: &mut Vec<u8>,
) -> Result<(), NoMemory>
    requires { length tried.now ≡ length policies.now }
    ensures { OnOk result (to.new.items ≡ to.old.items ++ complaints policies.now tried.now) }
{
    for (i, policy) in policies.iter().enumerate() {
        put_complaint(policy, found_at(tried, i), to)?;
    }
    Ok(())
}

// Adds the line of a policy, if it isn't as expected.
fn put_complaint(policy: &Policy, tried: Option<Found>, to: &mut Vec<u8>) -> Result<(), NoMemory>
    ensures { OnOk result (to.new.items ≡ to.old.items ++ complaint_of policy.now tried) }
{
    let Some(found) = tried else {
        return Ok(());
    };
    match fulfilment_in(policy.word, tried) {
        Fulfilment::AsExpected => Ok(()),
        Fulfilment::Unexpected | Fulfilment::Undecided => put_unexpected(policy, found, to),
    }
}

// Adds what is found of a policy, and what is expected.
fn put_unexpected(policy: &Policy, found: Found, to: &mut Vec<u8>) -> Result<(), NoMemory>
    ensures { OnOk result (to.new.items ≡ to.old.items ++ complaint policy.now found) }
{
    put("# line ", to)?;
    write_decimal(policy.line as u128, to)?;
    put_bracketed(&policy.name, to)?;
    put(": ", to)?;
    put(found_text(found), to)?;
    put(", ", to)?;
    put(word_text(policy.word), to)?;
    put(" is expected\n", to)
}

// Adds a name in brackets, unless it is empty.
fn put_bracketed(name: &str, to: &mut Vec<u8>) -> Result<(), NoMemory>
    ensures { OnOk result (to.new.items ≡ to.old.items ++ bracketed name.now) }
{
    if name.is_empty() {
        return Ok(());
    }
    put(" (", to)?;
    put_safe(name.as_bytes(), to)?;
    put(")", to)
}

fn found_text(found: Found) -> &'static str
    ensures { result.now ≡ found_shown found }
{
    match found {
        Found::Yes => "yes",
        Found::No => "no",
        Found::Open => "open",
    }
}
