//! A law on what bytes mean runs no code.
ghost use Rattle.std.specs.Prelude.{◌≡◌, ◌++◌, ℕ, List, codes};
ghost use Rattle.wi_net.specs.Net.{Net};
ghost use Rattle.wi_planjson.specs.Plan.{plan_in};

/// A file has the same plan with a line feed at its end.
pub fn a_line_feed_changes_no_plan()
    ensures { (net : Net) (bytes : List ℕ) → plan_in net (bytes ++ codes "\n") ≡ plan_in net bytes }
{}
