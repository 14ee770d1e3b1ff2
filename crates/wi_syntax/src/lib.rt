//! The syntax of queries: each text is of the form of a query in one way, or has a byte at which it stops being so.
#![tactic(auto)]

mod laws;
mod name;
mod parser;
mod phrase;
mod places;
mod reader;
mod token;
mod written;

pub use laws::a_text_is_read_one_way;
pub use name::Name;
pub use reader::{SyntaxRefused, read_written};
pub use written::{End, Known, LabelAtom, Last, LinkAtom, Pair, Sign, Written};
