//! Texts: kinds of characters, lines, tokens, where a text stops being one of a language, and texts that are put together.
#![tactic(auto)]

mod characters;
mod lines;
mod text;

pub use characters::{are_name_bytes, is_letter, is_number, is_plain, is_plain_name, is_space};
pub use lines::next_line;
pub use text::Text;
