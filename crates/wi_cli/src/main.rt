//! The program at its real edge: the words it was started with, the files of the system and the standard streams.
#![tactic(auto)]

ghost use Rattle.std.specs.Prelude.{◌≡◌, ◌<◌, ◌-◌, ◌^◌, codes, [], IfOk, IfErr, IsErr, IsOkAnd};
ghost use Rattle.std.specs.IoError.{error_kind};
ghost use Rattle.std.specs.Vec.Iter.{into_iter_items};
ghost use Rattle.wi_outcome.specs.Edges.{Says};

use std::alloc::Global;
use std::env::{self, Args};
use std::io::{self, ErrorKind};
use std::process::ExitCode;
use std::rt::Env;
use wi_base::{NoMemory, PutRefused, Sink};
use wi_system::{FileShelf, StreamSink};

fn main(rt: HostRuntime) -> ExitCode {
    let mut err = StreamSink::new(rt.stderr());
    let Ok(words) = words_of(&rt) else {
        return ExitCode::from(say_no_memory(&mut err));
    };
    let mut shelf = FileShelf::new(rt.alloc(), &rt);
    let mut out = StreamSink::new(rt.stdout());
    ExitCode::from(wi_app::run(rt.alloc(), &words, &mut shelf, &mut out, &mut err))
}

// The words that the program was started with.
fn words_of<R: Env + AllocGlobal>(rt: &R) -> Result<Vec<String>, NoMemory> {
    words_in(rt.alloc(), env::args(rt))
}

// The words that the system gave. Where one of them isn't UTF-8 they are no command, as no words are; else memory ran out.
fn words_in(alloc: Global, given: io::Result<Args>) -> Result<Vec<String>, NoMemory>
    ensures words { IfOk given (λ all. IfOk result (λ words. words.items ≡ into_iter_items all)) }
    ensures no_text { IfErr given (λ error. error_kind error ≡ ErrorKind.InvalidData → IsOkAnd result (λ words. words.items ≡ [])) }
    ensures memory { IfErr given (λ error. (error_kind error ≡ ErrorKind.InvalidData → ⊥) → IsErr result) }
{
    match given {
        Ok(words) => Ok(words.collect(alloc)?),
        Err(error) if error.kind() == ErrorKind::InvalidData => Ok(Vec::new(alloc)),
        Err(_) => Err(NoMemory::Memory),
    }
}

// Says what `run` would say, and gives the exit status that it would give.
fn say_no_memory<E: Sink>(err: &mut E) -> u8
    requires { (E.seen err.old).faults < 2 ^ 64 - 1 }
    ensures { Says (codes "whatif: out of memory\n") 11 (E.seen err.old) (E.seen err.new) result }
{
    match err.put(b"whatif: out of memory\n") {
        Ok(()) | Err(PutRefused::Memory) => 11,
        Err(PutRefused::Failed) => 10,
    }
}
