//! Of an answer no more is kept than the links that failed and those that the run uses.
ghost use Rattle.std.specs.Prelude.{◌≡◌, ◌≢◌, Some, IfOk, OnOk};
ghost use Rattle.wi_settle.specs.private.Asking.{IsReply, reply_by};

use crate::settled::{Reply, Witness};
use crate::used::used_by;
use std::alloc::Global;
use wi_base::NoMemory;
use wi_branch::{AnswerRefused, exact_answer};
use wi_build::Problem;
use wi_cert::NODE_LIMIT;
use wi_net::{FailSet, Network};
use wi_trace::Answer;
use wi_world::{Run, Verdict};

/// Asks for the exact answer to a problem.
pub(crate) fn ask(alloc: Global, problem: &Problem<'_>) -> Result<Reply, NoMemory>
    ensures { IfOk result (IsReply problem.now) }
{
    match exact_answer(alloc, problem, problem.bounds().k, NODE_LIMIT) {
        Ok((answer, _nodes)) => reply_of(alloc, problem.net(), answer),
        Err(cause) => open_for(cause),
    }
}

// What an exact answer tells.
fn reply_of(alloc: Global, net: &Network, answer: Answer) -> Result<Reply, NoMemory>
    ensures { IfOk result (λ reply. reply ≡ reply_by net.now answer.run answer.verdict) }
{
    let Answer { run, verdict, .. } = answer;
    match run {
        Some(run) => reply_by(alloc, net, run, verdict),
        None => {
            drop(verdict);
            Ok(Reply::No)
        }
    }
}

// What an exact answer with a run tells.
fn reply_by(
    alloc: Global,
    net: &Network,
    run: Run,
    verdict: Option<Verdict>,
) -> Result<Reply, NoMemory>
    ensures { IfOk result (λ reply. reply ≡ reply_by net.now (Some run) verdict) }
{
    match verdict {
        Some(Verdict::Fits(fails)) => seen(alloc, net, run, fails),
        Some(Verdict::Exceeds(_) | Verdict::UsesFailed(_)) | None => {
            drop(run);
            Ok(Reply::No)
        }
    }
}

// A run that was found, while these links have failed.
fn seen(alloc: Global, net: &Network, run: Run, fails: FailSet) -> Result<Reply, NoMemory>
    ensures { IfOk result (λ reply. reply ≡ reply_by net.now (Some run) (Some (Verdict.Fits fails))) }
{
    let used = used_by(alloc, net, &run);
    drop(run);
    match used {
        Ok(used) => Ok(Reply::Yes(Witness { fails, used })),
        Err(error) => {
            drop(fails);
            Err(error)
        }
    }
}

// No exact answer, for this reason. Want of memory is none.
fn open_for(cause: AnswerRefused) -> Result<Reply, NoMemory>
    ensures open { IfOk result (λ reply. reply ≡ Reply.Open) }
    ensures decided { OnOk result (cause ≢ AnswerRefused.Memory) }
{
    match cause {
        AnswerRefused::Memory => Err(NoMemory::Memory),
        _ => Ok(Reply::Open),
    }
}
