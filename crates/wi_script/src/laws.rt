//! That a line is written in one way, and that a script has one first fault, is shown of the definitions: so an answer of the
//! reader is the only right one, want of memory apart. The laws run no code.
ghost use Rattle.std.specs.Prelude.{◌≡◌, ℕ, List, Bool};
ghost use Rattle.wi_net.specs.Net.{Net};
ghost use Rattle.wi_script.specs.declared.script.Script.{Script};
ghost use Rattle.wi_script.specs.declared.script.ScriptCause.{ScriptCause};
ghost use Rattle.wi_script.specs.Lines.{Line, IsLine};
ghost use Rattle.wi_script.specs.declared.script.ScriptRefused.{ScriptRefused};
ghost use Rattle.wi_script.specs.Scripts.{IsBadLine, IsNoScript, IsScript};

/// A line is written in one way only. So what a script means and its first fault are determined, as the next laws say.
pub fn a_line_is_written_one_way()
    ensures { (first : Bool) (text : List ℕ) (v w : Line) → IsLine first text v → IsLine first text w → v ≡ w }
{}

/// Bytes are a script of a network in one way, and then no line has a fault.
pub fn a_script_is_read_one_way()
    ensures alone { (net : Net) (text : List ℕ) (s t : Script) → IsScript net text s → IsScript net text t → s ≡ t }
    ensures fine { (net : Net) (text : List ℕ) (s : Script) (n : ℕ) (cause : ScriptCause) → IsScript net text s → IsBadLine net text n cause → ⊥ }
{}

/// Bytes have at most one first line with a fault, and it has one first cause: but for want of memory, only one refusal may be
/// answered.
pub fn a_script_has_one_first_fault()
    ensures { (net : Net) (bytes : List ℕ) (n m : ℕ) (cause other : ScriptCause) → IsNoScript net bytes (ScriptRefused.BadLine n cause) → IsNoScript net bytes (ScriptRefused.BadLine m other) → (n ≡ m) × (cause ≡ other) }
{}
