//! What is read from files and texts, and what is stored under a name. Each is done within its limits, or refused.
#![tactic(auto)]

mod certificate_file;
mod fetch;
mod laws;
mod policies_file;
mod store;
mod texts;
mod tree_file;
mod trees_file;

pub use certificate_file::{READ_LIMIT, WRITTEN_LIMIT, fetch_certificate, store_certificate};
pub use fetch::{LINES_LIMIT, bytes_within, network, network_bytes};
pub use laws::limits_have_these_numbers;
pub use policies_file::{Policies, fetch_policies};
pub use texts::{Asked, read_texts};
pub use tree_file::{fetch_tree, store_tree};
pub use trees_file::store_trees;
