//! The certificate is held against the network, the query and the weights that are given, and against nothing that wrote it.
ghost use Rattle.std.specs.Prelude.{◌≡◌, IfOk, IfErr, OnOk};
ghost use Rattle.wi_cert.specs.Text.{IsWritable};
ghost use Rattle.wi_accept.specs.Answers.{word_of};
ghost use Rattle.wi_report.specs.Reports.{accepted_text};
ghost use Rattle.wi_cert.specs.declared.certificate.Certificate.{Certificate};
ghost use Rattle.wi_files.specs.Shelves.{AllStand, IsCalm};
ghost use Rattle.wi_ask.specs.Certificates.{FromCertificate, IsBelieved, IsBelievedFile};
ghost use Rattle.wi_ask.specs.private.Stages.{FromJudging};

use std::alloc::Global;
use wi_base::Shelf;
use wi_build::Problem;
use wi_cert::{Certificate, CheckRefused};
use wi_check::check as check_certificate;
use wi_files::fetch_certificate;
use wi_outcome::{Printed, Refusal};
use wi_report::accepted_text;
use wi_world::Word;

/// That the certificate of a file is accepted for a problem, or why not.
pub fn check<'a, S: Shelf>(
    alloc: Global,
    problem: &Problem<'_>,
    file: &'a str,
    shelf: &mut S,
) -> Result<Printed, Refusal<'a>>
    ensures told { (S.seen shelf.new).told ≡ (S.seen shelf.old).told }
    ensures files { AllStand (S.seen shelf.old) (S.seen shelf.new) }
    ensures calm { IfOk result (λ _. IsCalm (S.seen shelf.old) (S.seen shelf.new)) }
    ensures believed { IfOk result (λ printed. (c : Certificate) × IsBelievedFile (S.seen shelf.old) problem.now file.now c × (printed.status ≡ 0) × (printed.text ≡ accepted_text (word_of c.shown.claim))) }
    ensures refused { IfErr result (λ refusal. FromCertificate (S.seen shelf.old) (S.seen shelf.new) problem.now file.now refusal) }
{
    problem.keeps();
    let certificate = fetch_certificate(alloc, file, shelf)?;
    let printed = believed(alloc, problem, &certificate);
    drop(certificate);
    printed
}

// That a certificate is believed.
fn believed<'a>(
    alloc: Global,
    problem: &Problem<'_>,
    certificate: &Certificate,
) -> Result<Printed, Refusal<'a>>
    requires { IsWritable certificate.now }
    ensures status { IfOk result (λ printed. printed.status ≡ 0) }
    ensures text { IfOk result (λ printed. printed.text ≡ accepted_text (word_of certificate.now.shown.claim)) }
    ensures believed { OnOk result (IsBelieved problem.now certificate.now) }
    ensures refused { IfErr result (FromJudging problem.now certificate.now) }
{
    let word = accepted_word(alloc, problem, certificate)?;
    let text = accepted_text(alloc, word)?;
    Ok(Printed { status: 0, text })
}

/// The word of a certificate's answer, if nothing speaks against the certificate.
pub fn accepted_word<'a>(
    alloc: Global,
    problem: &Problem<'_>,
    certificate: &Certificate,
) -> Result<Word, Refusal<'a>>
    requires { IsWritable certificate.now }
    ensures word { IfOk result (λ word. word ≡ word_of certificate.now.shown.claim) }
    ensures believed { OnOk result (IsBelieved problem.now certificate.now) }
    ensures refused { IfErr result (FromJudging problem.now certificate.now) }
{
    problem.keeps();
    match check_certificate(alloc, problem, certificate) {
        Ok(accepted) => Ok(accepted.word),
        Err(CheckRefused::Memory) => Err(Refusal::Memory),
        Err(fault) => Err(Refusal::NotAccepted(fault, problem.terms())),
    }
}
