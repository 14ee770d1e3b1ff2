//! A summary has the sizes of a network and not its names, so it is as long for each. It costs one walk along the run.
ghost use Rattle.std.specs.Prelude.{◌≡◌, ◌++◌, length, codes, IfOk, OnOk};
ghost use Rattle.std.specs.Fmt.{decimal};
ghost use Rattle.wi_world.specs.Moves.{AreBounds};
ghost use Rattle.wi_world.specs.Runs.{needs};
ghost use Rattle.wi_report.specs.Summaries.{parts_shown, run_summed, seed_shown, summary_of};

use crate::reports::{put_answered, put_weight};
use std::alloc::Global;
use wi_base::NoMemory;
use wi_build::Problem;
use wi_faults::put_counted;
use wi_net::{Bounds, Network};
use wi_text::Text;
use wi_trace::{Answer, needs};
use wi_world::Run;

/// The summary of a network that was generated from a seed and a size, and of the answer to a problem of it. Its lines are `gen:`
/// with both; `routers:`, `links:`, `labels:` and `entries:` with how many there are; `answer:` and the answer's word; `weight:`
/// and the values of the vector's terms, `effort:`, and `failed:` with how many links the run needs to have failed, each `none`
/// for a no; and that the answer's certificate was accepted, which the caller has seen.
pub fn summary(
    alloc: Global,
    ring: (u64, u32),
    problem: &Problem<'_>,
    answer: &Answer,
) -> Result<Text, NoMemory>
    ensures { IfOk result (λ text. text ≡ summary_of ring.0 ring.1 problem.now.net problem.now.bounds (length problem.now.vector) answer.now) }
{
    let mut text = Text::new(alloc);
    put_seed(ring.0, ring.1, &mut text)?;
    put_parts(problem.net(), &mut text)?;
    put_answered(answer.word, &mut text)?;
    put_run_summed(alloc, problem, answer, &mut text)?;
    text.put("certificate: accepted\n")?;
    Ok(text)
}

// Adds of what seed and size the network is.
fn put_seed(seed: u64, size: u32, text: &mut Text) -> Result<(), NoMemory>
    ensures { OnOk result (text.new ≡ text.old ++ seed_shown seed size) }
{
    text.put("gen: seed ")?;
    text.put_number(u128::from(seed))?;
    text.put(" size ")?;
    text.put_number(u128::from(size))?;
    text.put("\n")
}

// Adds how many there are of each part.
fn put_parts(net: &Network, text: &mut Text) -> Result<(), NoMemory>
    ensures { OnOk result (text.new ≡ text.old ++ parts_shown net.now) }
{
    let counts = net.counts();
    text.put("routers: ")?;
    text.put_number(u128::from(counts.routers))?;
    text.put("\nlinks: ")?;
    text.put_number(u128::from(counts.links))?;
    text.put("\nlabels: ")?;
    text.put_number(u128::from(counts.labels))?;
    text.put("\nentries: ")?;
    text.put_number(u128::from(counts.rows))?;
    text.put("\n")
}

// Adds what an answer shows besides its word.
fn put_run_summed(
    alloc: Global,
    problem: &Problem<'_>,
    answer: &Answer,
    text: &mut Text,
) -> Result<(), NoMemory>
    ensures { OnOk result (text.new ≡ text.old ++ run_summed problem.now.net problem.now.bounds (length problem.now.vector) answer.now.weight answer.now.run) }
{
    problem.keeps();
    match (&answer.weight, &answer.run) {
        (Some(weight), Some(run)) => {
            put_weight(problem.terms(), weight, text)?;
            put_failed(alloc, problem.net(), problem.bounds(), run, text)
        }
        _ => text.put("weight: none\neffort: none\nfailed: none\n"),
    }
}

// Adds how many links a run needs to have failed.
fn put_failed(
    alloc: Global,
    net: &Network,
    bounds: &Bounds,
    run: &Run,
    text: &mut Text,
) -> Result<(), NoMemory>
    requires { AreBounds net.now bounds.now }
    ensures { OnOk result (text.new ≡ text.old ++ (codes "failed: " ++ decimal (length (needs net.now bounds.now run.now)) ++ codes "\n")) }
{
    let needed = needs(alloc, net, run, bounds)?.len();
    put_counted("failed: ", needed, "\n", text)
}
