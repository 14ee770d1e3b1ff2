//! A report is made whole before anything is printed, so that a refusal on the way puts nothing on standard output: it costs
//! the report in memory. What the run needs is gathered anew and not copied from the verdict, so that `failed:` and `needs:`
//! are one definition; that is one more walk along the run.
ghost use Rattle.std.specs.Prelude.{◌≡◌, ◌++◌, ◌+◌, true, length, codes, IfOk, OnOk, IfSome};
ghost use Rattle.std.specs.List.{list_all};
ghost use Rattle.std.specs.Fmt.{decimal};
ghost use Rattle.wi_net.specs.Net.{is_link, labels_known};
ghost use Rattle.wi_world.specs.Moves.{AreBounds};
ghost use Rattle.wi_world.specs.Runs.{needs};
ghost use Rattle.wi_quantity.specs.Weighing.{components};
ghost use Rattle.wi_faults.specs.Shown.{link_shown, links_shown, place_shown};
ghost use Rattle.wi_report.specs.Reports.{IsKnownRun, answer_line, terms_shown, weight_shown, verdict_shown, member_shown, step_shown, undefined_operation, inactive_shown, undefined_shown, end_shown, steps_shown, run_shown, links_listed, fare_shown, found_shown, heading_of, word_shown, report_with, report_of, exact_report_of, accepted_text};
ghost use Rattle.wi_report.specs.private.Modes.{mode_line};

use std::alloc::Global;
use wi_base::NoMemory;
use wi_build::Problem;
use wi_faults::{put_counted, put_known, put_links, put_location, put_values};
use wi_labels::{Applied, Header, Op};
use wi_net::{Bounds, FailSet, Group, LinkId, Member, Network};
use wi_quantity::Weight;
use wi_text::Text;
use wi_trace::{Answer, Location, follow, groups_of, member_at, needs, twin_of};
use wi_world::{End, Run, Step, Verdict, Word};

/// The report on an answer to a problem. Its first line is `answer:` and the answer's word.
/// Where the answer shows a run, then come `weight:` and the values of the vector's terms, or `none` where it has no term;
/// `effort:`; `failed:` and the links that must fail, or `needs:` and these and then `cause:` and why they may not;
/// `moving: yes`; `links:` and how many links the run has; and a line for each of these: the link, the header, and the group
/// and the member, from 1, that led there. If the packet is dropped, `dropped:` tells last by what: no group of the last entry, or
/// no active one, or an operation of a member that isn't defined. Where it shows none, the second line is `moving: no`.
pub fn report(alloc: Global, problem: &Problem<'_>, answer: &Answer) -> Result<Text, NoMemory>
    requires { IfSome answer.now.run (IsKnownRun problem.now.net) }
    ensures { IfOk result (λ text. text ≡ report_of problem.now.net problem.now.bounds (length problem.now.vector) answer.now) }
{
    report_in(Mode::Moving, alloc, problem, answer)
}

/// The report on an exact answer to a problem. It is that of `report` with `nodes:` and how many nodes the answer's tree has in the
/// place of `moving: yes` and of `moving: no`.
pub fn exact_report(
    alloc: Global,
    problem: &Problem<'_>,
    answer: &Answer,
    nodes: usize,
) -> Result<Text, NoMemory>
    requires { IfSome answer.now.run (IsKnownRun problem.now.net) }
    ensures { IfOk result (λ text. text ≡ exact_report_of problem.now.net problem.now.bounds (length problem.now.vector) answer.now nodes) }
{
    report_in(Mode::Exact(nodes), alloc, problem, answer)
}

/// How an answer was found, which one line of its report tells.
#[derive(Clone, Copy)]
pub(crate) enum Mode {
    /// While links fail and are repaired under way: the line tells whether there is a run.
    Moving,
    /// For links that stay as they are, by a tree of so many nodes.
    Exact(usize),
}

// The report on an answer that was found in this way.
fn report_in(
    mode: Mode,
    alloc: Global,
    problem: &Problem<'_>,
    answer: &Answer,
) -> Result<Text, NoMemory>
    requires { IfSome answer.now.run (IsKnownRun problem.now.net) }
    ensures { IfOk result (λ text. text ≡ report_with (mode_line mode) problem.now.net problem.now.bounds (length problem.now.vector) answer.now) }
{
    let mut text = Text::new(alloc);
    put_report(mode, alloc, problem, answer, &mut text)?;
    Ok(text)
}

/// Adds the report on an answer that was found in this way.
pub(crate) fn put_report(
    mode: Mode,
    alloc: Global,
    problem: &Problem<'_>,
    answer: &Answer,
    text: &mut Text,
) -> Result<(), NoMemory>
    requires { IfSome answer.now.run (IsKnownRun problem.now.net) }
    ensures { OnOk result (text.new ≡ text.old ++ report_with (mode_line mode) problem.now.net problem.now.bounds (length problem.now.vector) answer.now) }
{
    put_answered(answer.word, text)?;
    put_found(mode, alloc, problem, answer, text)
}

/// Adds the line of the answer's word.
pub(crate) fn put_answered(word: Word, text: &mut Text) -> Result<(), NoMemory>
    ensures { OnOk result (text.new ≡ text.old ++ answer_line word) }
{
    text.put("answer: ")?;
    put_word(word, text)?;
    text.put("\n")
}

/// What is said of a certificate that is accepted: the word of its answer.
pub fn accepted_text(alloc: Global, word: Word) -> Result<Text, NoMemory>
    ensures { IfOk result (λ text. text ≡ accepted_text word) }
{
    let mut text = Text::new(alloc);
    text.put("accepted: ")?;
    put_word(word, &mut text)?;
    text.put("\n")?;
    Ok(text)
}

fn put_word(word: Word, text: &mut Text) -> Result<(), NoMemory>
    ensures { OnOk result (text.new ≡ text.old ++ word_shown word) }
{
    match word {
        Word::Yes => text.put("yes"),
        Word::No => text.put("no"),
        Word::Inconclusive => text.put("inconclusive"),
    }
}

/// Adds what a report on an answer to a problem says before the line of how the answer was found: the lines `answer:` and, where the
/// answer shows a run, `weight:`, `effort:`, and `failed:` or `needs:` and `cause:`.
pub fn put_heading(
    alloc: Global,
    problem: &Problem<'_>,
    answer: &Answer,
    text: &mut Text,
) -> Result<(), NoMemory>
    ensures { OnOk result (text.new ≡ text.old ++ heading_of problem.now.net problem.now.bounds (length problem.now.vector) answer.now) }
{
    put_answered(answer.word, text)?;
    match (&answer.weight, &answer.run, &answer.verdict) {
        (Some(weight), Some(run), Some(verdict)) => {
            put_fare(alloc, problem, weight, run, verdict, text)
        }
        _ => Ok(()),
    }
}

// Adds what a run weighs, and how it fares.
fn put_fare(
    alloc: Global,
    problem: &Problem<'_>,
    weight: &Weight,
    run: &Run,
    verdict: &Verdict,
    text: &mut Text,
) -> Result<(), NoMemory>
    ensures { OnOk result (text.new ≡ text.old ++ fare_shown problem.now.net problem.now.bounds (length problem.now.vector) weight.now run.now verdict.now) }
{
    problem.keeps();
    put_weight(problem.terms(), weight, text)?;
    put_verdict(alloc, problem.net(), problem.bounds(), run, verdict, text)
}

// Adds what an answer shows besides its word.
fn put_found(
    mode: Mode,
    alloc: Global,
    problem: &Problem<'_>,
    answer: &Answer,
    text: &mut Text,
) -> Result<(), NoMemory>
    requires { IfSome answer.now.run (IsKnownRun problem.now.net) }
    ensures { OnOk result (text.new ≡ text.old ++ found_shown (mode_line mode) problem.now.net problem.now.bounds (length problem.now.vector) answer.now.weight answer.now.run answer.now.verdict) }
{
    match (&answer.weight, &answer.run, &answer.verdict) {
        (Some(weight), Some(run), Some(verdict)) => {
            put_fare(alloc, problem, weight, run, verdict, text)?;
            put_mode(mode, true, text)?;
            put_listed(problem.net(), run, text)
        }
        _ => put_mode(mode, false, text),
    }
}

/// Adds what a run weighs.
pub(crate) fn put_weight(terms: usize, weight: &Weight, text: &mut Text) -> Result<(), NoMemory>
    ensures { OnOk result (text.new ≡ text.old ++ weight_shown terms weight.now) }
{
    text.put("weight:")?;
    put_terms(terms, weight, text)?;
    text.put("\neffort: ")?;
    text.put_number(weight.second.count)?;
    text.put("\n")
}

// Adds the values of so many terms.
fn put_terms(terms: usize, weight: &Weight, text: &mut Text) -> Result<(), NoMemory>
    ensures { OnOk result (text.new ≡ text.old ++ terms_shown terms (components weight.now)) }
{
    if terms == 0 {
        return text.put(" none");
    }
    put_values(weight, terms, text)
}

// Adds how a run fares.
#[tactic(auto, using(crate::proofs::ReportLemmas::needs_known))]
fn put_verdict(
    alloc: Global,
    net: &Network,
    bounds: &Bounds,
    run: &Run,
    verdict: &Verdict,
    text: &mut Text,
) -> Result<(), NoMemory>
    requires { AreBounds net.now bounds.now }
    ensures { OnOk result (text.new ≡ text.old ++ verdict_shown net.now bounds.now.k (needs net.now bounds.now run.now) verdict.now) }
{
    let needs = needs(alloc, net, run, bounds)?;
    put_judged(net, bounds.k, &needs, verdict, text)
}

// Adds how a run fares that needs these links to fail, where k risk groups may.
fn put_judged(
    net: &Network,
    k: u32,
    needs: &FailSet,
    verdict: &Verdict,
    text: &mut Text,
) -> Result<(), NoMemory>
    requires { list_all (is_link net.now) needs.now ≡ true }
    ensures { OnOk result (text.new ≡ text.old ++ verdict_shown net.now k needs.now verdict.now) }
{
    match verdict {
        Verdict::Fits(_) => put_fits(net, needs, text),
        Verdict::Exceeds(count) => put_exceeds(net, needs, *count, k, text),
        Verdict::UsesFailed(link) => put_uses_failed(net, needs, *link, text),
    }
}

fn put_fits(net: &Network, needs: &FailSet, text: &mut Text) -> Result<(), NoMemory>
    requires { list_all (is_link net.now) needs.now ≡ true }
    ensures { OnOk result (text.new ≡ text.old ++ (codes "failed: " ++ links_shown net.now needs.now ++ codes "\n")) }
{
    text.put("failed: ")?;
    put_links(net, needs, text)?;
    text.put("\n")
}

fn put_exceeds(
    net: &Network,
    needs: &FailSet,
    count: usize,
    k: u32,
    text: &mut Text,
) -> Result<(), NoMemory>
    requires { list_all (is_link net.now) needs.now ≡ true }
    ensures { OnOk result (text.new ≡ text.old ++ (codes "needs: " ++ links_shown net.now needs.now ++ codes "\ncause: needs " ++ decimal count ++ codes ", allowed " ++ decimal k ++ codes "\n")) }
{
    text.put("needs: ")?;
    put_links(net, needs, text)?;
    text.put("\ncause: needs ")?;
    text.put_number(count as u128)?;
    text.put(", allowed ")?;
    text.put_number(u128::from(k))?;
    text.put("\n")
}

fn put_uses_failed(
    net: &Network,
    needs: &FailSet,
    link: LinkId,
    text: &mut Text,
) -> Result<(), NoMemory>
    requires { list_all (is_link net.now) needs.now ≡ true }
    ensures { OnOk result (text.new ≡ text.old ++ (codes "needs: " ++ links_shown net.now needs.now ++ codes "\ncause: uses " ++ link_shown net.now link ++ codes "\n")) }
{
    text.put("needs: ")?;
    put_links(net, needs, text)?;
    text.put("\ncause: uses ")?;
    put_known(net, link, text)?;
    text.put("\n")
}

// Adds the line of how an answer was found, by whether a run is shown.
fn put_mode(mode: Mode, found: bool, text: &mut Text) -> Result<(), NoMemory>
    ensures { OnOk result (text.new ≡ text.old ++ mode_line mode found) }
{
    match (mode, found) {
        (Mode::Moving, true) => text.put("moving: yes\n"),
        (Mode::Moving, false) => text.put("moving: no\n"),
        (Mode::Exact(nodes), _) => put_counted("nodes: ", nodes, "\n", text),
    }
}

// Adds how many links a run has, these, and its end.
fn put_listed(net: &Network, run: &Run, text: &mut Text) -> Result<(), NoMemory>
    requires { IsKnownRun net.now run.now }
    ensures { OnOk result (text.new ≡ text.old ++ links_listed net.now run.now) }
{
    put_length(run.steps.as_slice(), text)?;
    put_run(net, run, text)
}

// Adds how many links a run has: one more than steps.
fn put_length(steps: &[Step], text: &mut Text) -> Result<(), NoMemory>
    ensures { OnOk result (text.new ≡ text.old ++ (codes "links: " ++ decimal (length steps.now + 1) ++ codes "\n")) }
{
    put_counted("links: ", steps.len() + 1, "\n", text)
}

// Adds a line for each link of a run, and that of its end.
fn put_run(net: &Network, run: &Run, text: &mut Text) -> Result<(), NoMemory>
    requires { IsKnownRun net.now run.now }
    ensures { OnOk result (text.new ≡ text.old ++ run_shown net.now run.now) }
{
    let at = (run.first, twin_of(&run.header)?);
    put_location(net, at.0, &at.1, text)?;
    text.put("\n")?;
    put_steps(net, at, run.steps.as_slice(), run.end, text)
}

// Adds a line for each step from a place on, and that of the end.
fn put_steps(
    net: &Network,
    mut at: Location,
    steps: &[Step],
    end: End,
    text: &mut Text,
) -> Result<(), NoMemory>
    requires link { is_link net.now at.0 ≡ true }
    requires header { labels_known net.now at.1 ≡ true }
    ensures { OnOk result (text.new ≡ text.old ++ steps_shown net.now end at steps.now) }
{
    net.keeps();
    for step in steps {
        if !follow(net, &mut at, *step)? {
            return Ok(());
        }
        put_step_line(net, &at, *step, text)?;
    }
    put_end(net, &at, end, text)
}

// Adds the line of a step that led here.
fn put_step_line(net: &Network, at: &Location, step: Step, text: &mut Text) -> Result<(), NoMemory>
    requires link { is_link net.now at.now.0 ≡ true }
    requires header { labels_known net.now at.now.1 ≡ true }
    ensures { OnOk result (text.new ≡ text.old ++ (place_shown net.now at.now ++ step_shown step ++ codes "\n")) }
{
    put_location(net, at.0, &at.1, text)?;
    text.put(" |")?;
    put_member(step, text)?;
    text.put("\n")
}

/// Adds the line of how a packet is dropped where it is, if it is: `dropped:` and by what.
pub fn put_end(net: &Network, at: &Location, end: End, text: &mut Text) -> Result<(), NoMemory>
    ensures { OnOk result (text.new ≡ text.old ++ end_shown net.now end at.now) }
{
    match end {
        End::Arrives => Ok(()),
        End::Inactive => put_inactive(groups_of(net, at), text),
        End::Undefined(step) => match member_at(net, at, step) {
            Some(member) => put_undefined(&at.1, step, member, text),
            None => Ok(()),
        },
    }
}

// Adds the line of a packet for which none of these groups is active.
fn put_inactive(groups: &[Group], text: &mut Text) -> Result<(), NoMemory>
    ensures { OnOk result (text.new ≡ text.old ++ (codes "dropped: " ++ inactive_shown groups.now ++ codes "\n")) }
{
    text.put("dropped: ")?;
    if groups.is_empty() {
        text.put("no group")?;
    } else {
        text.put("no active group")?;
    }
    text.put("\n")
}

// Adds the line of a packet that is dropped on the way through a member.
fn put_undefined(
    header: &Header,
    step: Step,
    member: &Member,
    text: &mut Text,
) -> Result<(), NoMemory>
    ensures { OnOk result (text.new ≡ text.old ++ (codes "dropped:" ++ undefined_shown header.now step member.now ++ codes "\n")) }
{
    let operation = undefined_operation(member.ops.as_slice(), header)?;
    text.put("dropped:")?;
    put_member(step, text)?;
    text.put(" operation ")?;
    text.put_number(operation as u128)?;
    text.put(" undefined\n")
}

// Which of the operations isn't defined, from 1: the one behind them where all are.
fn undefined_operation(ops: &[Op], header: &Header) -> Result<usize, NoMemory>
    ensures { IfOk result (λ n. n ≡ undefined_operation ops.now header.now) }
{
    let mut header = twin_of(header)?;
    match header.apply(ops) {
        Ok(Applied::Done) => Ok(ops.len() + 1),
        Ok(Applied::Undefined(i)) => Ok(i + 1),
        Err(_) => Err(NoMemory::Memory),
    }
}

// Adds the group and the member of a step, from 1.
fn put_member(step: Step, text: &mut Text) -> Result<(), NoMemory>
    ensures { OnOk result (text.new ≡ text.old ++ member_shown step) }
{
    text.put(" group ")?;
    text.put_number(step.group as u128 + 1)?;
    text.put(" member ")?;
    text.put_number(step.member as u128 + 1)
}
