//! The commands that ask nothing: each makes one text of a file, or of what stands in the words, or is refused.
#![tactic(auto)]

mod bypass_file;
mod hex_text;
mod network_file;
mod plan_file;
mod script_file;

pub use bypass_file::bypass;
pub use hex_text::stack;
pub use network_file::draw;
pub use plan_file::protect;
pub use script_file::play;
