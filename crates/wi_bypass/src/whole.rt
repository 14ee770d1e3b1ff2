//! What was found stands behind what a plan has, so that a planner's own bypasses keep their places.
ghost use Rattle.std.specs.Prelude.{◌≡◌, ◌++◌, IfOk, OnOk};
ghost use Rattle.wi_bypass.specs.Bypasses.{with_found};

use wi_base::{Listed, NoMemory};
use wi_plan::{Bypass, Plan};

/// A plan with the bypasses that were found for it behind its own.
pub fn with_found(plan: Plan, found: Listed<Bypass>) -> Result<Plan, NoMemory>
    ensures { IfOk result (λ whole. whole ≡ with_found plan found) }
{
    let Plan { paths, bypasses } = plan;
    let mut bypasses = bypasses.into_vec();
    match push_all(&mut bypasses, found.into_vec()) {
        Ok(()) => Ok(Plan {
            paths,
            bypasses: Listed::of(bypasses),
        }),
        Err(error) => {
            drop((paths, bypasses));
            Err(error)
        }
    }
}

// Puts bypasses behind others.
fn push_all(bypasses: &mut Vec<Bypass>, found: Vec<Bypass>) -> Result<(), NoMemory>
    ensures { OnOk result (bypasses.new.items ≡ bypasses.old.items ++ found.items) }
{
    for bypass in found {
        bypasses.push(bypass)?;
    }
    Ok(())
}
