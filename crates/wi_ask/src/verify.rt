//! The report is made before the certificate is stored, and both before anything is printed: so whatever is refused has stored
//! nothing, and what is printed has its certificate. What `packets` and `draw` print is made here, too: they ask the same, and print
//! another text of the same answer.
ghost use Rattle.std.specs.Prelude.{◌≡◌, option_map, IfOk, IfErr, IfSome};
ghost use Rattle.wi_cert.specs.Text.{IsWritable};
ghost use Rattle.wi_report.specs.Reports.{IsKnownRun};
ghost use Rattle.wi_files.specs.Certificates.{IsKept, FromKeeping};
ghost use Rattle.wi_files.specs.Shelves.{IsCalm, IsLeft, OthersStand};
ghost use Rattle.wi_ask.specs.Certificates.{FromStore};
ghost use Rattle.wi_ask.specs.Decided.{FromDecision, IsReported, printed_by, status_for};
ghost use Rattle.wi_ask.specs.Wanted.{FromAnswer};

use crate::decided::decided;
use std::alloc::Global;
use wi_base::{NoMemory, Shelf};
use wi_build::Problem;
use wi_cert::Certificate;
use wi_draw::answer_drawing;
use wi_files::store_certificate;
use wi_outcome::{Printed, Refusal};
use wi_report::{packets, report};
use wi_text::Text;
use wi_trace::Answer;
use wi_words::Content;
use wi_world::Word;

/// What is printed of the answer to a problem, or why there is none. Its certificate is stored under a name, if there is one.
pub fn verify<'a, S: Shelf>(
    alloc: Global,
    problem: &Problem<'_>,
    content: Content,
    file: Option<&'a str>,
    shelf: &mut S,
) -> Result<Printed, Refusal<'a>>
    ensures told { (S.seen shelf.new).told ≡ (S.seen shelf.old).told }
    ensures others { OthersStand (option_map (λ s. s.now) file.entry) (S.seen shelf.old) (S.seen shelf.new) }
    ensures left { IfErr result (λ refusal. IsLeft refusal (S.seen shelf.old) (S.seen shelf.new)) }
    ensures calm { IfOk result (λ _. IsCalm (S.seen shelf.old) (S.seen shelf.new)) }
    ensures reported { IfOk result (λ printed. IsReported content problem.now (option_map (λ s. s.now) file.entry) (S.seen shelf.new) printed.status printed.text) }
    ensures refused { IfErr result (FromAnswer FromDecision (FromStore (option_map (λ s. s.now) file.entry)) (S.seen shelf.old) (S.seen shelf.new) problem.now) }
{
    let (answer, certificate) = decided(alloc, problem)?;
    let printed = stored(alloc, problem, content, &answer, &certificate, file, shelf);
    drop((answer, certificate));
    printed
}

// What is printed of an answer, once its certificate is stored, if there is a name for it.
fn stored<'a, S: Shelf>(
    alloc: Global,
    problem: &Problem<'_>,
    content: Content,
    answer: &Answer,
    certificate: &Certificate,
    file: Option<&'a str>,
    shelf: &mut S,
) -> Result<Printed, Refusal<'a>>
    requires run { IfSome answer.now.run (IsKnownRun problem.now.net) }
    requires certificate { IsWritable certificate.now }
    ensures told { (S.seen shelf.new).told ≡ (S.seen shelf.old).told }
    ensures others { OthersStand (option_map (λ s. s.now) file.entry) (S.seen shelf.old) (S.seen shelf.new) }
    ensures left { IfErr result (λ refusal. IsLeft refusal (S.seen shelf.old) (S.seen shelf.new)) }
    ensures calm { IfOk result (λ _. IsCalm (S.seen shelf.old) (S.seen shelf.new)) }
    ensures status { IfOk result (λ printed. printed.status ≡ status_for answer.now.word) }
    ensures text { IfOk result (λ printed. printed.text ≡ printed_by content problem.now answer.now) }
    ensures kept { IfOk result (λ _. IsKept (option_map (λ s. s.now) file.entry) (S.seen shelf.new) certificate.now) }
    ensures refused { IfErr result (λ refusal. FromKeeping (S.seen shelf.old) (S.seen shelf.new) (option_map (λ s. s.now) file.entry) certificate.now refusal) }
{
    let text = text_by(alloc, problem, answer, content)?;
    if let Some(name) = file {
        store_certificate(alloc, certificate, name, shelf)?;
    }
    Ok(Printed {
        status: status_for(answer.word),
        text,
    })
}

// The text that is printed of an answer.
fn text_by(
    alloc: Global,
    problem: &Problem<'_>,
    answer: &Answer,
    content: Content,
) -> Result<Text, NoMemory>
    requires { IfSome answer.now.run (IsKnownRun problem.now.net) }
    ensures { IfOk result (λ text. text ≡ printed_by content problem.now answer.now) }
{
    match content {
        Content::Report => report(alloc, problem, answer),
        Content::Packets => packets(alloc, problem, answer),
        Content::Drawing => answer_drawing(alloc, problem, answer),
    }
}

/// The exit status of an answer.
pub fn status_for(word: Word) -> u8
    ensures { result ≡ status_for word }
{
    match word {
        Word::Yes => 0,
        Word::No => 1,
        Word::Inconclusive => 2,
    }
}
