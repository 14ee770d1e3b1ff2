//! The report on the exact answer is added behind the line of the least number, and isn't made as a text of its own first: it is
//! written once, and nothing is copied.
ghost use Rattle.std.specs.Prelude.{◌≡◌, length, IfOk, IfSome};
ghost use Rattle.wi_report.specs.Reports.{IsKnownRun};
ghost use Rattle.wi_report.specs.Tolerances.{none_up_to_text, tolerance_report_of};

use crate::reports::{Mode, put_report};
use std::alloc::Global;
use wi_base::NoMemory;
use wi_build::Problem;
use wi_faults::put_counted;
use wi_text::Text;
use wi_trace::Answer;

/// The report on how many failures it takes for a yes to a problem. Its first line is `least:` and the number; then come the lines of `exact_report` on the exact answer there, whose tree has so many nodes.
pub fn tolerance_report(
    alloc: Global,
    problem: &Problem<'_>,
    k: u32,
    answer: &Answer,
    nodes: usize,
) -> Result<Text, NoMemory>
    requires { IfSome answer.now.run (IsKnownRun problem.now.net) }
    ensures { IfOk result (λ text. text ≡ tolerance_report_of problem.now.net problem.now.bounds (length problem.now.vector) k answer.now nodes) }
{
    let mut text = Text::new(alloc);
    put_counted("least: ", k as usize, "\n", &mut text)?;
    put_report(Mode::Exact(nodes), alloc, problem, answer, &mut text)?;
    Ok(text)
}

/// What is said where no number of failures up to the most that are asked for is enough: the line `least:` with `none up to` and
/// this number.
pub fn none_up_to_text(alloc: Global, most: u32) -> Result<Text, NoMemory>
    ensures { IfOk result (λ text. text ≡ none_up_to_text most) }
{
    let mut text = Text::new(alloc);
    put_counted("least: none up to ", most as usize, "\n", &mut text)?;
    Ok(text)
}
