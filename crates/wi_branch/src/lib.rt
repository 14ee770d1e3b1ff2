//! Exact answers: never inconclusive. Where the least run doesn't fit, what may fail is split in two by a link that the run needs,
//! and each part is searched by itself.
#![tactic(auto)]

mod answers;
mod branches;
mod counting;
mod course;
mod finding;
mod opened;
mod refused;
mod tolerance;
mod tree;

pub use answers::{exact, exact_answer};
pub use counting::tolerate;
pub use opened::Opened;
pub use refused::{AnswerRefused, ExactRefused};
pub use tolerance::{Tolerance, TolerateRefused};
