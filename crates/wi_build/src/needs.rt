//! What must have failed grows from group to group, so it is kept as risk groups, by their least links, and added to: nothing
//! is widened to links, or counted anew for each member. It takes up to two numbers for each risk group that the groups before
//! have.
ghost use Rattle.std.specs.Prelude.{◌≡◌, OnOk};
ghost use Rattle.wi_build.specs.private.Needs.{no_needs, with_need, with_members, may_be_down, may_be_up};

use std::alloc::Global;
use wi_base::NoMemory;
use wi_net::{Bounds, FailSet, LinkId, Member, Network};

/// The risk groups of the links of the groups before one, each by its least link.
#[derive(Drop)]
pub(crate) struct Needs {
    pub risks: FailSet,
    /// Those of them that aren't known to be down.
    pub extra: FailSet,
    /// Whether none of them is known to be up.
    pub spared: bool,
}

impl Needs {
    /// Nothing must have failed.
    pub fn none(alloc: Global) -> Needs
        ensures { result ≡ no_needs }
    {
        Needs {
            risks: FailSet::new(alloc),
            extra: FailSet::new(alloc),
            spared: true,
        }
    }

    // Adds the risk group that a link names.
    fn add(&mut self, bounds: &Bounds, risk: LinkId) -> Result<(), NoMemory>
        ensures { OnOk result (self.new ≡ with_need bounds.now self.old risk) }
    {
        self.risks.insert(risk)?;
        if !bounds.down.contains(risk) {
            self.extra.insert(risk)?;
        }
        self.spared = self.spared && !bounds.up.contains(risk);
        Ok(())
    }

    /// Adds the risk groups of the links of a group.
    pub fn add_members(
        &mut self,
        net: &Network,
        bounds: &Bounds,
        members: &[Member],
    ) -> Result<(), NoMemory>
        ensures { OnOk result (self.new ≡ with_members net.now bounds.now self.old members.now) }
    {
        for member in members {
            self.add(bounds, net.risk(member.link))?;
        }
        Ok(())
    }

    /// Whether all of them may be down at once.
    pub fn may_be_down(&self, bounds: &Bounds) -> bool
        ensures { result ≡ may_be_down bounds.now self.now }
    {
        self.extra.len() <= bounds.k as usize && self.spared
    }

    /// Whether a link may be up while they are down.
    pub fn may_be_up(&self, net: &Network, bounds: &Bounds, link: LinkId) -> bool
        ensures { result ≡ may_be_up net.now bounds.now self.now link }
    {
        !self.risks.contains(net.risk(link)) && !bounds.down.contains(link)
    }
}
