//! The answer to a query: whether a packet can take such a route while links fail, by what least run, and how that run fares. The
//! search for a least run goes within any bounds and below a cut.
#![tactic(auto)]

mod certificate;
mod decision;
mod laws;
mod refused;
mod searching;
mod spelling;

pub use certificate::shown_of;
pub use decision::decide;
pub use laws::{limits_have_these_numbers, overflows_show};
pub use refused::SearchRefused;
pub use searching::{EFFORT_LIMIT, Evidence, LeastRun, Searched, search};
pub use spelling::run_of;
