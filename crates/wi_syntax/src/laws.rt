//! The grammar goes from what is written to tokens, so that a text with two readings would show at once. This law says that
//! there is none. It runs no code.
ghost use Rattle.std.specs.Prelude.{◌≡◌, ℕ, List};
ghost use Rattle.wi_syntax.specs.Grammar.{Reads};
ghost use Rattle.wi_syntax.specs.declared.written.Written.{Written};

/// A text is written in one way only.
pub fn a_text_is_read_one_way()
    ensures { (text : List ℕ) (v w : Written) → Reads text v → Reads text w → v ≡ w }
{}
