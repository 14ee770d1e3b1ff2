//! Certificates and tree certificates as text: what a checker needs to believe an answer of the search, written down number by
//! number.
#![tactic(auto)]

mod certificate;
mod check_refused;
mod closed;
mod decode_refused;
mod draft;
mod encode_refused;
mod feeder;
mod laws;
mod line;
mod row;
mod shown;
mod take_lines;
mod tree;
mod tree_draft;
mod tree_feeder;
mod tree_writer;
mod writer;

pub use certificate::Certificate;
pub use check_refused::{CheckRefused, ClosedRefused, RunPart, Weight};
pub use closed::Closed;
pub use decode_refused::DecodeRefused;
pub use encode_refused::EncodeRefused;
pub use feeder::{Feeder, decode};
pub use laws::{
    a_text_has_one_certificate, a_text_has_one_tree, bad_lines_are_told, limits_have_these_numbers,
    nodes_can_make_trees, pieces_are_bytes, texts_are_read, trees_are_read,
};
pub use row::{Numbers, Row};
pub use shown::{Claim, Dropped, Shown};
pub use tree::{NODE_LIMIT, Node, TreeCertificate};
pub use tree_feeder::{TreeFeeder, decode_tree};
pub use tree_writer::{encode_tree, encode_tree_within};
pub use writer::{encode, encode_within};
