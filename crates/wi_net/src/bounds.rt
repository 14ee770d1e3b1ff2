//! The number of failures and what is known of links stand in one value, so that queries, searches and replays are judged by
//! one definition. A copy costs in the size of the two sets.
ghost use Rattle.std.specs.Prelude.{◌≡◌, IfOk};

use crate::fails::FailSet;
use wi_base::NoMemory;

/// What may fail: at most `k` risk groups besides those of `down`, which are down, and none of those of `up`.
#[derive(Drop)]
pub struct Bounds {
    pub k: u32,
    pub down: FailSet,
    pub up: FailSet,
}

impl Bounds {
    /// Equal bounds.
    pub fn twin(&self) -> Result<Bounds, NoMemory>
        ensures { IfOk result (λ bounds. bounds ≡ self.now) }
    {
        let down = self.down.twin()?;
        let up = self.up.twin()?;
        Ok(Bounds {
            k: self.k,
            down,
            up,
        })
    }
}
