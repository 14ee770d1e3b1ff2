//! A run is gone along once, and what stands on each link is gathered on the way, so that the line of a link is one look-up.
ghost use Rattle.std.specs.Prelude.{◌≡◌, ◌++◌, ℕ, Ok, None, Some, List, true, false, length, [], slice_index_or, IfOk, OnOk, IfSome};
ghost use Rattle.std.specs.List.{list_all};
ghost use Rattle.wi_net.specs.Net.{Net, is_link, labels_known};
ghost use Rattle.wi_world.specs.Runs.{locations};
ghost use Rattle.wi_report.specs.Reports.{IsKnownRun, end_shown, heading_of};
ghost use Rattle.wi_draw.specs.Dot.{one_line};
ghost use Rattle.wi_draw.specs.Drawings.{dropped_by, last_place, no_picture, picture_of, place_label, run_picture, with_line};
ghost use Rattle.wi_draw.specs.private.Marks.{AreMarks, ArePlaced, IsPlaced};

use crate::dot::{one_line, put_escaped};
use std::alloc::Global;
use wi_base::NoMemory;
use wi_build::Problem;
use wi_faults::put_header;
use wi_net::{FailSet, Network, RouterId};
use wi_report::{put_end, put_heading};
use wi_text::Text;
use wi_trace::{Answer, Location, follow, needs, twin_of};
use wi_world::{End, Run, Step};

/// What is drawn over a network.
#[derive(Drop)]
pub(crate) struct Marks {
    /// What stands above the graph.
    pub heading: Option<Text>,
    /// What stands on each link, by its number; nothing on those past the last.
    pub labels: Vec<Text>,
    /// The links that have failed.
    pub failed: FailSet,
    /// The router where a packet is dropped, and the words that tell how.
    pub dropped: Option<(RouterId, Text)>,
}

/// Nothing but the network, whichever it is. It takes no memory.
pub(crate) fn no_marks(alloc: Global) -> Marks
    ensures { (net : Net) → AreMarks net result no_picture }
{
    Marks {
        heading: None,
        labels: Vec::new(alloc),
        failed: FailSet::new(alloc),
        dropped: None,
    }
}

/// What is drawn of an answer to a problem.
pub(crate) fn answer_marks(
    alloc: Global,
    problem: &Problem<'_>,
    answer: &Answer,
) -> Result<Marks, NoMemory>
    requires { IfSome answer.now.run (IsKnownRun problem.now.net) }
    ensures { IfOk result (λ marks. AreMarks problem.now.net marks (picture_of problem.now.net problem.now.bounds (length problem.now.vector) answer.now)) }
{
    let mut marks = no_marks(alloc);
    match mark(alloc, problem, answer, &mut marks) {
        Ok(()) => Ok(marks),
        Err(refused) => {
            drop(marks);
            Err(refused)
        }
    }
}

// Draws an answer over a network of which nothing else is drawn.
fn mark(
    alloc: Global,
    problem: &Problem<'_>,
    answer: &Answer,
    marks: &mut Marks,
) -> Result<(), NoMemory>
    requires run { IfSome answer.now.run (IsKnownRun problem.now.net) }
    requires blank { AreMarks problem.now.net marks.old no_picture }
    ensures { OnOk result (AreMarks problem.now.net marks.new (picture_of problem.now.net problem.now.bounds (length problem.now.vector) answer.now)) }
{
    marks.heading = Some(heading_of(alloc, problem, answer)?);
    match &answer.run {
        Some(run) => mark_run(alloc, problem, run, marks),
        None => Ok(()),
    }
}

// What stands above the graph.
fn heading_of(alloc: Global, problem: &Problem<'_>, answer: &Answer) -> Result<Text, NoMemory>
    ensures { IfOk result (λ line. line ≡ one_line (heading_of problem.now.net problem.now.bounds (length problem.now.vector) answer.now)) }
{
    let mut lines = Text::new(alloc);
    put_heading(alloc, problem, answer, &mut lines)?;
    one_line(alloc, lines.as_bytes())
}

// Draws a run below the heading that stands.
fn mark_run(
    alloc: Global,
    problem: &Problem<'_>,
    run: &Run,
    marks: &mut Marks,
) -> Result<(), NoMemory>
    requires { IsKnownRun problem.now.net run.now }
    ensures { (heading : List ℕ) → marks.old.heading ≡ Some heading → OnOk result (AreMarks problem.now.net marks.new (run_picture problem.now.net problem.now.bounds heading run.now)) }
{
    problem.keeps();
    let net = problem.net();
    marks.failed = needs(alloc, net, run, problem.bounds())?;
    marks.labels = no_labels(alloc, net.counts().links)?;
    let mut at = (run.first, twin_of(&run.header)?);
    marks.dropped = if mark_places(alloc, net, &mut at, run.steps.as_slice(), &mut marks.labels)? {
        dropped_by(alloc, net, &at, run.end)?
    } else {
        None
    };
    Ok(())
}

// So many links on which nothing stands.
fn no_labels(alloc: Global, count: u32) -> Result<Vec<Text>, NoMemory>
    ensures { IfOk result (λ labels. (length labels.items ≡ count) × ((n : ℕ) → slice_index_or labels.items n [] ≡ [])) }
{
    let mut labels = Vec::new(alloc);
    for _ in 0..count {
        labels.push(Text::new(alloc))?;
    }
    Ok(labels)
}

// Writes the places of a packet on their links, from the one where it is, and leaves it at the last; it answers whether the steps lead
// there.
fn mark_places(
    alloc: Global,
    net: &Network,
    at: &mut Location,
    steps: &[Step],
    labels: &mut Vec<Text>,
) -> Result<bool, NoMemory>
    requires link { is_link net.now at.old.0 ≡ true }
    requires header { labels_known net.now at.old.1 ≡ true }
    requires count { length labels.old.items ≡ length net.now.links }
    ensures labels { OnOk result (ArePlaced net.now 1 (locations net.now at.old steps.now) labels.old.items labels.new.items) }
    ensures on { result ≡ Ok true → last_place net.now at.old steps.now ≡ Some at.new }
    ensures known { result ≡ Ok true → is_link net.now at.new.0 ≡ true }
    ensures off { result ≡ Ok false → last_place net.now at.old steps.now ≡ None }
{
    net.keeps();
    for (i, step) in steps.iter().enumerate() {
        mark_place(alloc, net, i as u128 + 1, at, labels)?;
        if !follow(net, at, *step)? {
            return Ok(false);
        }
    }
    mark_place(alloc, net, steps.len() as u128 + 1, at, labels)?;
    Ok(true)
}

// Writes the place of this number on its link.
fn mark_place(
    alloc: Global,
    net: &Network,
    number: u128,
    at: &Location,
    labels: &mut Vec<Text>,
) -> Result<(), NoMemory>
    requires link { is_link net.now at.now.0 ≡ true }
    requires header { labels_known net.now at.now.1 ≡ true }
    requires count { length labels.old.items ≡ length net.now.links }
    ensures { OnOk result (IsPlaced net.now number at.now labels.old.items labels.new.items) }
{
    put_place(alloc, net, number, at, &mut labels[at.0.0 as usize])
}

// Adds the place of this number to what stands on its link.
fn put_place(
    alloc: Global,
    net: &Network,
    number: u128,
    at: &Location,
    label: &mut Text,
) -> Result<(), NoMemory>
    requires { labels_known net.now at.now.1 ≡ true }
    ensures { OnOk result (label.new ≡ with_line label.old (place_label net.now number at.now)) }
{
    begin_line(label)?;
    label.put_number(number)?;
    label.put(":")?;
    let mut header = Text::new(alloc);
    put_header(net, &at.1, &mut header)?;
    put_escaped(header.as_bytes(), label)
}

// Adds a line break where a line stands already.
fn begin_line(label: &mut Text) -> Result<(), NoMemory>
    ensures { (line : List ℕ) (whole : List ℕ) → whole ≡ label.new ++ line → OnOk result (whole ≡ with_line label.old line) }
{
    if label.as_bytes().is_empty() {
        Ok(())
    } else {
        label.put("\\n")
    }
}

// How a packet that is here is dropped, if it is.
fn dropped_by(
    alloc: Global,
    net: &Network,
    at: &Location,
    end: End,
) -> Result<Option<(RouterId, Text)>, NoMemory>
    requires { is_link net.now at.now.0 ≡ true }
    ensures { IfOk result (λ dropped. dropped ≡ dropped_by net.now at.now (end_shown net.now end at.now)) }
{
    let mut lines = Text::new(alloc);
    put_end(net, at, end, &mut lines)?;
    if lines.as_bytes().is_empty() {
        return Ok(None);
    }
    let words = one_line(alloc, lines.as_bytes())?;
    Ok(Some((net.link(at.0).to, words)))
}
