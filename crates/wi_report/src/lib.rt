//! What the program prints of answers: reports, packets, states and label stacks.
#![tactic(auto)]

mod packet_lines;
mod reports;
mod stacks;
mod state_lines;
mod summaries;
mod tolerances;

pub use packet_lines::packets;
pub use reports::{accepted_text, exact_report, put_end, put_heading, report};
pub use stacks::stack_text;
pub use state_lines::states;
pub use summaries::summary;
pub use tolerances::{none_up_to_text, tolerance_report};
