//! A ring is asked by its texts, as a user would ask, and its certificate is held against it, so that one command tries the whole
//! way. The network is let go before anything is printed.
ghost use Rattle.std.specs.Prelude.{◌≡◌, ◌≤◌, string_bytes, length, IfOk, IfErr, OnOk};
ghost use Rattle.wi_cert.specs.Text.{IsWritable};
ghost use Rattle.wi_gen.specs.Ring.{net_of, ring_of};
ghost use Rattle.wi_gen.specs.Texts.{query_text, weights_text};
ghost use Rattle.wi_report.specs.Summaries.{summary_of};
ghost use Rattle.wi_ask.specs.Certificates.{IsBelieved};
ghost use Rattle.wi_ask.specs.Decided.{FromDecision};
ghost use Rattle.wi_ask.specs.Generated.{FromRing, IsSummary, IsSummed};
ghost use Rattle.wi_ask.specs.private.Stages.{FromJudging};

use crate::check::accepted_word;
use crate::decided::decided;
use std::alloc::Global;
use wi_build::Problem;
use wi_cert::Certificate;
use wi_files::read_texts;
use wi_gen::{Generated, generate, the_texts_have_no_fault};
use wi_outcome::{Printed, Refusal};
use wi_report::summary;
use wi_trace::Answer;

/// The summary of a ring that is generated and of the answer to what is asked of it, or why there is none.
pub fn summary_of_ring<'a>(alloc: Global, seed: u64, size: u32) -> Result<Printed, Refusal<'a>>
    requires least { 4 ≤ size }
    requires most { size ≤ 2000 }
    ensures status { IfOk result (λ printed. printed.status ≡ 0) }
    ensures summary { IfOk result (λ printed. IsSummary seed size printed.text) }
    ensures refused { IfErr result (FromRing seed size) }
{
    let generated = generate(alloc, seed, size)?;
    let printed = summary_of_generated(alloc, (seed, size), &generated);
    drop(generated);
    printed
}

// The summary of what was generated.
fn summary_of_generated<'a>(
    alloc: Global,
    ring: (u64, u32),
    generated: &Generated,
) -> Result<Printed, Refusal<'a>>
    requires least { 4 ≤ ring.1 }
    requires most { ring.1 ≤ 2000 }
    requires network { generated.now.network ≡ net_of (ring_of ring.0 ring.1) }
    requires query { string_bytes generated.now.query ≡ query_text (ring_of ring.0 ring.1) }
    requires weights { string_bytes generated.now.weights ≡ weights_text }
    ensures status { IfOk result (λ printed. printed.status ≡ 0) }
    ensures summary { IfOk result (λ printed. IsSummary ring.0 ring.1 printed.text) }
    ensures refused { IfErr result (FromRing ring.0 ring.1) }
{
    the_texts_have_no_fault();
    let net = &generated.network;
    let asked = read_texts(alloc, net, &generated.query, Some(&generated.weights))?;
    let problem = Problem::of(net, &asked.query, &asked.vector);
    let printed = summary_of_asked(alloc, ring, &problem);
    drop(asked);
    printed
}

// The summary, for a problem of it.
fn summary_of_asked<'a>(
    alloc: Global,
    ring: (u64, u32),
    problem: &Problem<'_>,
) -> Result<Printed, Refusal<'a>>
    ensures status { IfOk result (λ printed. printed.status ≡ 0) }
    ensures summed { IfOk result (λ printed. IsSummed ring.0 ring.1 problem.now printed.text) }
    ensures refused { IfErr result (FromDecision problem.now) }
{
    let (answer, certificate) = decided(alloc, problem)?;
    let printed = summary_if_accepted(alloc, ring, problem, &answer, &certificate);
    drop(certificate);
    drop(answer);
    printed
}

// The summary, if the certificate is accepted.
fn summary_if_accepted<'a>(
    alloc: Global,
    ring: (u64, u32),
    problem: &Problem<'_>,
    answer: &Answer,
    certificate: &Certificate,
) -> Result<Printed, Refusal<'a>>
    requires { IsWritable certificate.now }
    ensures status { IfOk result (λ printed. printed.status ≡ 0) }
    ensures text { IfOk result (λ printed. printed.text ≡ summary_of ring.0 ring.1 problem.now.net problem.now.bounds (length problem.now.vector) answer.now) }
    ensures believed { OnOk result (IsBelieved problem.now certificate.now) }
    ensures refused { IfErr result (FromJudging problem.now certificate.now) }
{
    accepted_word(alloc, problem, certificate)?;
    let text = summary(alloc, ring, problem, answer)?;
    Ok(Printed { status: 0, text })
}
