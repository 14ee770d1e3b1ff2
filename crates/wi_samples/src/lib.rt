//! Small networks that the tests of several crates stand on, in one place, so that each is written and proved once. They are
//! tables of constants, and one function builds them all: a network costs its caller one call.
#![tactic(auto)]

mod cases;
mod doubles;
mod networks;
mod returns;
mod sample;

pub use cases::{TestCase, are_met, are_met_on};
pub use doubles::doubling;
pub use networks::{
    BESIDE_Y, N1, N1_FIBER, N1_FIBER_WITH_31, N1_NEAR, N1_WITH_31, N2, N2_FIBER, N2_FIBER_WITH_31,
    N2_WITH_31, N3, N4, N5, N6, QUOTED, QUOTED_END,
};
pub use returns::returning;
pub use sample::{Line, RowOf, Sample, Way, add_class, fill, network};
