//! A network, and an answer to a problem of it, as a graph in the DOT language of Graphviz, which draws it.
#![tactic(auto)]

mod dot;
mod drawing;
mod marks;

pub use drawing::{answer_drawing, network_drawing};
