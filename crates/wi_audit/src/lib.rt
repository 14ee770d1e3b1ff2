//! Audits: policies that are asked of a network, by themselves or in each outage, and what is printed of that.
#![tactic(auto)]

mod asked;
mod outage_puts;
mod outage_text;
mod outcome;
mod puts;
mod question;
mod series;
mod text;
mod trying;

pub use asked::audited;
pub use outage_puts::outages;
pub use outcome::{Fulfilment, Outcome};
pub use puts::audit;
pub use question::{Question, question_of};
pub use series::Test;
pub use text::plan_text;
pub use trying::found_during;
