//! Texts are taken line by line, whatever is asked of a line. The loops over a text's bytes stand once, in `feeder`, and use what
//! is said here of one line. It costs no call through a pointer: each loop is built for its text.
ghost use Rattle.std.specs.Prelude.{◌≡◌, ◌+◌, ◌^◌, ◌<◌, true, false, Some, None, IfOk, if◌then◌else◌, ℕ};
ghost use Rattle.wi_cert.specs.Reading.{Form};

use wi_base::NoMemory;

// What takes the lines of a text.
pub(crate) trait TakeLines {
    // What a whole text spells.
    type Made;

    // What lines are asked, and what they leave.
    ghost form: { Form Self Self.Made };

    // How many lines lead to it.
    ghost count: { Self → ℕ };

    // The second may come of the first by taking lines, also where memory ran out within a line.
    ghost Follows: { Self → Self → Type 0 };

    // How many lines were taken.
    fn line_count(&self) -> u128
        ensures count { result ≡ count self.now }
        ensures small { result < 2 ^ 100 };

    // Takes a line of the form asked. It tells whether the line is of that form.
    fn take_line(&mut self, line: &[u8]) -> Result<bool, NoMemory>
        ensures ok { IfOk result (λ taken. (if taken then Some self.new else None) ≡ form.asked self.old line.now) }
        ensures taken { IfOk result (λ taken. taken ≡ true → count self.new ≡ count self.old + 1) }
        ensures kept { IfOk result (λ taken. taken ≡ false → count self.new ≡ count self.old) }
        ensures follows { (mark : Self) → Follows mark self.old → Follows mark self.new };
}
