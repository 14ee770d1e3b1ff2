//! Scripts of the moving world: each is read on a network and played event by event, or has a first line with a fault.
#![tactic(auto)]

mod laws;
mod line;
mod meaning;
mod plays;
mod read;
mod script;
mod sets;

pub use laws::{a_line_is_written_one_way, a_script_has_one_first_fault, a_script_is_read_one_way};
pub use plays::play;
pub use read::read_script;
pub use script::{Script, ScriptCause, ScriptRefused};
pub use wi_world::{Event, State};
