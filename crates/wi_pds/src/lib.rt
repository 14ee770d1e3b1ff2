//! Weighted pushdown systems: rules, runs, closed heads and closed rows, and the law that closed rows bound every run.
//! Schwoon 2002, "Model-Checking Pushdown Systems".
#![tactic(auto)]

mod heads;
mod laws;
mod rule;
mod rule_list;
mod system;

pub use heads::Heads;
pub use laws::rows_bound_runs;
pub use rule::{Rule, RuleId, Word2};
pub use rule_list::RuleList;
pub use system::System;
