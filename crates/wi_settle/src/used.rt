//! The links that a run uses are gathered in one walk, along which the packet moves in place.
ghost use Rattle.std.specs.Prelude.{◌≡◌, ◌∷◌, [], ◌++◌, IfOk, OnOk};
ghost use Rattle.wi_world.specs.Runs.{used_along, used_by, used_to_end};

use std::alloc::Global;
use wi_base::{Listed, NoMemory};
use wi_net::{LinkId, Network};
use wi_trace::{Location, follow, member_at, twin_of};
use wi_world::{End, Run, Step};

/// The links that a run uses: those that it is on, in order, and that of its end's member, if there is one.
pub(crate) fn used_by(alloc: Global, net: &Network, run: &Run) -> Result<Listed<LinkId>, NoMemory>
    ensures { IfOk result (λ used. used ≡ used_by net.now run.now) }
{
    let header = twin_of(&run.header)?;
    let used = used_along(
        alloc,
        net,
        run.end,
        (run.first, header),
        run.steps.as_slice(),
    )?;
    Ok(Listed::of(used))
}

// The links that a packet uses, from a place on.
#[tactic(auto, using(crate::proofs::Walking::used_laws))]
fn used_along(
    alloc: Global,
    net: &Network,
    end: End,
    mut at: Location,
    steps: &[Step],
) -> Result<Vec<LinkId>, NoMemory>
    ensures { IfOk result (λ used. used.items ≡ used_along net.now end at steps.now) }
{
    let mut used = Vec::new(alloc);
    for step in steps {
        used.push(at.0)?;
        if !follow(net, &mut at, *step)? {
            return Ok(used);
        }
    }
    used.push(at.0)?;
    put_end(net, end, &at, &mut used)?;
    Ok(used)
}

// Adds the link of an end's member, if there is one.
fn put_end(net: &Network, end: End, at: &Location, used: &mut Vec<LinkId>) -> Result<(), NoMemory>
    ensures { OnOk result (used.new.items ≡ used.old.items ++ used_to_end net.now at.now end) }
{
    let End::Undefined(step) = end else {
        return Ok(());
    };
    if let Some(member) = member_at(net, at, step) {
        used.push(member.link)?;
    }
    Ok(())
}
