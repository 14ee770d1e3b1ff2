//! A fault of a script is told by its line and by constant words, so that neither the script nor the network is asked for its
//! text. Operations count from 1 here, as groups and members do in scripts.
ghost use Rattle.std.specs.Prelude.{◌≡◌, ◌++◌, ◌+◌, codes, IfOk, OnOk};
ghost use Rattle.std.specs.Fmt.{decimal};
ghost use Rattle.wi_faults.specs.ScriptFaults.{cause_words, script_fault_text};

use crate::shown::put_counted;
use std::alloc::Global;
use wi_base::NoMemory;
use wi_script::{ScriptCause, ScriptRefused};
use wi_text::Text;

/// What is said of a fault of a script: its line, from 1, and what is wrong with it.
pub fn script_fault_text(alloc: Global, refused: &ScriptRefused) -> Result<Text, NoMemory>
    ensures { IfOk result (λ text. text ≡ script_fault_text refused.now) }
{
    let mut text = Text::new(alloc);
    match refused {
        ScriptRefused::BadLine(line, cause) => put_line(*line, *cause, &mut text)?,
        ScriptRefused::Memory => text.put("whatif: out of memory\n")?,
    }
    Ok(text)
}

fn put_line(line: usize, cause: ScriptCause, text: &mut Text) -> Result<(), NoMemory>
    ensures { OnOk result (text.new ≡ text.old ++ ((codes "script: line " ++ decimal line ++ codes ": ") ++ cause_words cause ++ codes "\n")) }
{
    put_counted("script: line ", line, ": ", text)?;
    put_cause(cause, text)?;
    text.put("\n")
}

fn put_cause(cause: ScriptCause, text: &mut Text) -> Result<(), NoMemory>
    ensures { OnOk result (text.new ≡ text.old ++ cause_words cause) }
{
    match cause {
        ScriptCause::NotAnEvent => text.put("not an event"),
        ScriptCause::UnknownName => text.put("unknown name"),
        ScriptCause::BadHeader => text.put("bad header"),
        ScriptCause::AlreadyFailed => text.put("already failed"),
        ScriptCause::NotFailed => text.put("not failed"),
        ScriptCause::TooManyFailed => text.put("too many failed"),
        ScriptCause::NoSuchGroup => text.put("no such group"),
        ScriptCause::NoSuchMember => text.put("no such member"),
        ScriptCause::NotFirstActive => text.put("not the first active group"),
        ScriptCause::LinkFailed => text.put("link failed"),
        ScriptCause::Undefined(operation) => put_undefined(operation, text),
    }
}

// Operations are counted from 1.
fn put_undefined(operation: usize, text: &mut Text) -> Result<(), NoMemory>
    ensures { OnOk result (text.new ≡ text.old ++ (codes "operation " ++ decimal (operation + 1) ++ codes " undefined")) }
{
    text.put("operation ")?;
    text.put_number(operation as u128 + 1)?;
    text.put(" undefined")
}
