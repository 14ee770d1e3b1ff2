//! Plans of label-switched paths with facility backup (RFC 4090): what a plan is over a network. It has types and definitions, and
//! no code that runs.

mod plan;

pub use plan::{Bypass, Path, Plan};
