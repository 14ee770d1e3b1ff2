//! What is printed is what readers of the Test Anything Protocol, version 12, take: they know a test line by its first words, and
//! whatever stands behind `#` is for people. Lines are put together in one list of bytes.
ghost use Rattle.std.specs.Prelude.{◌≡◌, true, ◌∷◌, [], ◌++◌, map, codes, IfOk, OnOk};
ghost use Rattle.std.specs.Fmt.{decimal};
ghost use Rattle.wi_report.specs.Reports.{word_shown};
ghost use Rattle.wi_audit.specs.Texts.{called, cause_text, commented, diagnostics, lines_by, outcome_text, plan_text, policy_line, safe_byte};
ghost use Rattle.wi_audit.specs.private.Shows.{IsShowable, mark};

use crate::outcome::{Fulfilment, Outcome};
use std::alloc::Global;
use wi_base::{NoMemory, write_decimal};
use wi_branch::AnswerRefused;
use wi_build::Problem;
use wi_cert::NODE_LIMIT;
use wi_faults::{nodes_over_limit_text, overflow_text, too_long_text};
use wi_policy::Policy;
use wi_report::exact_report;
use wi_text::Text;
use wi_world::Word;

/// The first line of so many tests.
pub fn plan_text(alloc: Global, count: usize) -> Result<Text, NoMemory>
    ensures { IfOk result (λ text. text ≡ plan_text count) }
{
    let mut text = Text::new(alloc);
    text.put("1..")?;
    text.put_number(count as u128)?;
    text.put("\n")?;
    Ok(text)
}

/// The lines of a policy with its number, by whether it is as expected.
pub(crate) fn lines_by(
    alloc: Global,
    fulfilment: Fulfilment,
    problem: &Problem<'_>,
    number: usize,
    policy: &Policy,
    outcome: &Outcome,
) -> Result<Text, NoMemory>
    requires { IsShowable problem.now.net outcome.now }
    ensures { IfOk result (λ text. text ≡ lines_by fulfilment problem.now number policy.now outcome.now) }
{
    match fulfilment {
        Fulfilment::AsExpected => ok_line(alloc, number, policy),
        Fulfilment::Unexpected | Fulfilment::Undecided => {
            not_ok_lines(alloc, problem, number, policy, outcome)
        }
    }
}

// The line of a policy that is as expected.
fn ok_line(alloc: Global, number: usize, policy: &Policy) -> Result<Text, NoMemory>
    ensures { IfOk result (λ text. text ≡ policy_line (codes "ok ") number policy.now) }
{
    let mut line = Vec::new(alloc);
    put_policy_line("ok ", number, policy, &mut line)?;
    Ok(Text::of(line))
}

// The lines of one that isn't.
fn not_ok_lines(
    alloc: Global,
    problem: &Problem<'_>,
    number: usize,
    policy: &Policy,
    outcome: &Outcome,
) -> Result<Text, NoMemory>
    requires { IsShowable problem.now.net outcome.now }
    ensures { IfOk result (λ text. text ≡ policy_line (codes "not ok ") number policy.now ++ diagnostics problem.now policy.now outcome.now) }
{
    let mut lines = Vec::new(alloc);
    put_policy_line("not ok ", number, policy, &mut lines)?;
    put_diagnostics(alloc, problem, policy, outcome, &mut lines)?;
    Ok(Text::of(lines))
}

// Adds a policy's own test line, which begins so.
fn put_policy_line(
    word: &str,
    number: usize,
    policy: &Policy,
    to: &mut Vec<u8>,
) -> Result<(), NoMemory>
    ensures { OnOk result (to.new.items ≡ to.old.items ++ policy_line word.now number policy.now) }
{
    put_number(word, number, to)?;
    put_called(policy.line, &policy.name, to)?;
    put("\n", to)
}

/// Adds the words before a test's description.
pub(crate) fn put_number(word: &str, number: usize, to: &mut Vec<u8>) -> Result<(), NoMemory>
    ensures { OnOk result (to.new.items ≡ to.old.items ++ (word.now ++ decimal number ++ codes " - ")) }
{
    put(word, to)?;
    write_decimal(number as u128, to)?;
    put(" - ", to)
}

// Adds what a policy is called, or where it stands.
fn put_called(line: usize, name: &str, to: &mut Vec<u8>) -> Result<(), NoMemory>
    ensures { OnOk result (to.new.items ≡ to.old.items ++ called line name.now) }
{
    if name.is_empty() {
        put("line ", to)?;
        write_decimal(line as u128, to)
    } else {
        put_safe(name.as_bytes(), to)
    }
}

/// Adds the bytes of a name, with `_` for those that a reader may take for more.
pub(crate) fn put_safe(name: &[u8], to: &mut Vec<u8>) -> Result<(), NoMemory>
    ensures { OnOk result (to.new.items ≡ to.old.items ++ map safe_byte name.now) }
{
    for byte in name {
        to.push(safe_byte(*byte))?;
    }
    Ok(())
}

fn safe_byte(byte: u8) -> u8
    ensures { result ≡ safe_byte byte }
{
    match byte {
        b'#' | b'\\' => b'_',
        other => other,
    }
}

// Adds what is expected, and what became of it.
fn put_diagnostics(
    alloc: Global,
    problem: &Problem<'_>,
    policy: &Policy,
    outcome: &Outcome,
    to: &mut Vec<u8>,
) -> Result<(), NoMemory>
    requires { IsShowable problem.now.net outcome.now }
    ensures { OnOk result (to.new.items ≡ to.old.items ++ diagnostics problem.now policy.now outcome.now) }
{
    put("# line ", to)?;
    write_decimal(policy.line as u128, to)?;
    put(": ", to)?;
    put(word_text(policy.word), to)?;
    put(" is expected\n", to)?;
    let text = outcome_text(alloc, problem, outcome)?;
    put_commented(text.as_bytes(), to)
}

// Adds lines, each behind `# `.
fn put_commented(bytes: &[u8], to: &mut Vec<u8>) -> Result<(), NoMemory>
    ensures { OnOk result (to.new.items ≡ to.old.items ++ commented true bytes.now) }
{
    let mut begins = true;
    for byte in bytes {
        put_behind(begins, *byte, to)?;
        begins = *byte == b'\n';
    }
    Ok(())
}

// Adds a byte, behind `# ` where a line begins.
fn put_behind(begins: bool, byte: u8, to: &mut Vec<u8>) -> Result<(), NoMemory>
    ensures { OnOk result (to.new.items ≡ to.old.items ++ (mark begins ++ byte ∷ [])) }
{
    if begins {
        put("# ", to)?;
    }
    to.push(byte)?;
    Ok(())
}

/// Adds a piece.
pub(crate) fn put(piece: &str, to: &mut Vec<u8>) -> Result<(), NoMemory>
    ensures { OnOk result (to.new.items ≡ to.old.items ++ piece.now) }
{
    to.extend_from_slice(piece.as_bytes())?;
    Ok(())
}

/// The word of an answer.
pub(crate) fn word_text(word: Word) -> &'static str
    ensures { result.now ≡ word_shown word }
{
    match word {
        Word::Yes => "yes",
        Word::No => "no",
        Word::Inconclusive => "inconclusive",
    }
}

// The report on an outcome.
fn outcome_text(alloc: Global, problem: &Problem<'_>, outcome: &Outcome) -> Result<Text, NoMemory>
    requires { IsShowable problem.now.net outcome.now }
    ensures { IfOk result (λ text. text ≡ outcome_text problem.now outcome.now) }
{
    match outcome {
        Outcome::Answered(answer, nodes) => exact_report(alloc, problem, answer, *nodes),
        Outcome::Open(cause) => cause_text(alloc, cause),
    }
}

// Why there is no exact answer.
fn cause_text(alloc: Global, cause: &AnswerRefused) -> Result<Text, NoMemory>
    ensures { IfOk result (λ text. text ≡ cause_text cause.now) }
{
    match cause {
        AnswerRefused::Overflow(overflow) => overflow_text(alloc, &overflow.weight, 0),
        AnswerRefused::TooLong(effort) => too_long_text(alloc, *effort),
        AnswerRefused::NodeLimit => nodes_over_limit_text(alloc, NODE_LIMIT),
        AnswerRefused::Memory => Ok(Text::new(alloc)),
    }
}
