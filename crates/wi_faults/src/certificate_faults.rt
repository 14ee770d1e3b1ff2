//! A certificate's numbers are told as they stand in it, and not by the names of the network's parts: it is a text of numbers, and
//! whoever looks for the fault looks there. Of a weight the terms are shown that were asked for, and the effort behind them.
ghost use Rattle.std.specs.Prelude.{◌≡◌, ◌++◌, codes, IfOk, OnOk};
ghost use Rattle.std.specs.Fmt.{decimal};
ghost use Rattle.wi_faults.specs.CertificateFaults.{part_number, components_listed, two_shown, closed_words, node_words, fault_words, certificate_fault_text, bad_line_text};

use crate::numbers::{put_numbers, put_values};
use crate::shown::put_counted;
use std::alloc::Global;
use wi_base::NoMemory;
use wi_cert::{CheckRefused, ClosedRefused, RunPart};
use wi_quantity::Weight;
use wi_text::Text;

/// What is said of a certificate or a tree that isn't believed, where runs are weighed by so many terms.
pub fn certificate_fault_text(
    alloc: Global,
    fault: &CheckRefused,
    terms: usize,
) -> Result<Text, NoMemory>
    ensures { IfOk result (λ text. text ≡ certificate_fault_text terms fault.now) }
{
    let mut text = Text::new(alloc);
    text.put("certificate: ")?;
    put_fault(fault, terms, &mut text)?;
    text.put("\n")?;
    Ok(text)
}

/// What is said of bytes that aren't the text of a certificate: the number of their first bad line, from 1.
pub fn bad_line_text(alloc: Global, line: u128) -> Result<Text, NoMemory>
    ensures { IfOk result (λ text. text ≡ bad_line_text line) }
{
    let mut text = Text::new(alloc);
    text.put("certificate: line ")?;
    text.put_number(line)?;
    text.put("\n")?;
    Ok(text)
}

// Adds what is at fault.
fn put_fault(fault: &CheckRefused, terms: usize, text: &mut Text) -> Result<(), NoMemory>
    ensures { OnOk result (text.new ≡ text.old ++ fault_words terms fault.now) }
{
    match fault {
        CheckRefused::OfAnotherQuestion => text.put("of another question"),
        CheckRefused::TermsDiffer { shown, asked } => {
            put_counted("terms shown ", *shown as usize, ", asked ", text)?;
            text.put_number(*asked as u128)
        }
        CheckRefused::StepNotInTable(step) => {
            put_counted("step ", *step as usize, " not in table", text)
        }
        CheckRefused::NoMatch(part) => {
            put_counted("part ", part_number(*part), " does not match", text)
        }
        CheckRefused::WeightDiffers { shown, counted } => {
            put_differing(shown, counted, terms, text)
        }
        CheckRefused::WrongAnswer => text.put("wrong answer"),
        CheckRefused::Unbounded(refused) => put_closed(refused, terms, text),
        CheckRefused::BadSplit(node) => {
            put_node(*node, text)?;
            text.put("bad split")
        }
        CheckRefused::Leaf(node, refused) => {
            put_node(*node, text)?;
            put_closed(refused, terms, text)
        }
        CheckRefused::Memory => text.put("out of memory"),
    }
}

// Adds why heads, pairs and rows don't bound every run.
fn put_closed(refused: &ClosedRefused, terms: usize, text: &mut Text) -> Result<(), NoMemory>
    ensures { OnOk result (text.new ≡ text.old ++ closed_words terms refused.now) }
{
    match refused {
        ClosedRefused::HeadMissing(p, g) => put_missing("head ", *p, *g, text),
        ClosedRefused::PairMissing(u, v) => put_missing("pair ", u64::from(*u), *v, text),
        ClosedRefused::GoalBelow(weight) => {
            text.put("goal at")?;
            put_components(weight, terms, text)
        }
        ClosedRefused::NotClosed { head, target, sum } => {
            put_open(*head, *target, text)?;
            put_components(sum, terms, text)
        }
    }
}

// Adds which node of a tree is meant.
fn put_node(number: u32, text: &mut Text) -> Result<(), NoMemory>
    ensures { OnOk result (text.new ≡ text.old ++ node_words number) }
{
    put_counted("node ", number as usize, ": ", text)
}

// The number of a part of a run, from 1.
fn part_number(part: RunPart) -> usize
    ensures { result ≡ part_number part }
{
    match part {
        RunPart::First => 1,
        RunPart::Path => 2,
        RunPart::Last => 3,
    }
}

// Adds two weights that ought to be one.
fn put_differing(
    shown: &Weight,
    counted: &Weight,
    terms: usize,
    text: &mut Text,
) -> Result<(), NoMemory>
    ensures { OnOk result (text.new ≡ text.old ++ (codes "weight shown" ++ components_listed terms shown.now ++ codes ", counted" ++ components_listed terms counted.now)) }
{
    text.put("weight shown")?;
    put_components(shown, terms, text)?;
    text.put(", counted")?;
    put_components(counted, terms, text)
}

// Adds the values of so many terms and the effort, each after a space.
fn put_components(weight: &Weight, terms: usize, text: &mut Text) -> Result<(), NoMemory>
    ensures { OnOk result (text.new ≡ text.old ++ components_listed terms weight.now) }
{
    put_values(weight, terms, text)?;
    put_numbers(&[weight.second.count], text)
}

// Adds two numbers with a space between.
fn put_two(first: u64, second: u32, text: &mut Text) -> Result<(), NoMemory>
    ensures { OnOk result (text.new ≡ text.old ++ two_shown first second) }
{
    text.put_number(u128::from(first))?;
    text.put(" ")?;
    text.put_number(u128::from(second))
}

// Adds what is missing.
fn put_missing(what: &str, first: u64, second: u32, text: &mut Text) -> Result<(), NoMemory>
    ensures { OnOk result (text.new ≡ text.old ++ (what.now ++ two_shown first second ++ codes " missing")) }
{
    text.put(what)?;
    put_two(first, second, text)?;
    text.put(" missing")
}

// Adds the head and the target whose row is lacking, up to its weight.
fn put_open(head: (u64, u32), target: u64, text: &mut Text) -> Result<(), NoMemory>
    ensures { OnOk result (text.new ≡ text.old ++ (codes "not closed at " ++ two_shown head.0 head.1 ++ codes " to " ++ decimal target ++ codes ", sum")) }
{
    text.put("not closed at ")?;
    put_two(head.0, head.1, text)?;
    put_counted(" to ", target as usize, ", sum", text)
}
