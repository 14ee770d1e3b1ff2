//! Branches wait on a stack, and none is copied: a child is made when its parent is split, and let go when it was opened. The best
//! run is kept whole. Nodes are kept only for a tree, each leaf as it was found: a leaf takes as much memory as its search.
ghost use Rattle.std.specs.Prelude.{◌≡◌, ◌∷◌, ◌++◌, ◌<◌, [], None, option_map, MatchOption, OnOk, IfOk};
ghost use Rattle.wi_quantity.specs.Weighing.{components};
ghost use Rattle.wi_world.specs.Moves.{AreBounds};
ghost use Rattle.wi_branch.specs.private.Courses.{MaySplit, after_told, cut_of, with_node};

use crate::finding::Told;
use crate::opened::Opened;
use std::alloc::Global;
use std::marker::Model;
use wi_base::NoMemory;
use wi_cert::Closed;
use wi_decide::LeastRun;
use wi_net::{Bounds, LinkId, Network};
use wi_quantity::Weight;
use wi_trees::{with_down, with_up};

/// The best run that fitted so far, how many nodes were opened, these in preorder, if they are kept, and the branches that are left.
#[derive(Drop)]
pub(crate) struct Course {
    pub(crate) best: Option<LeastRun>,
    pub(crate) count: u32,
    keeps: bool,
    pub(crate) nodes: Vec<Opened>,
    // The next one last.
    left: Vec<Bounds>,
}

impl Model for Course {
    ghost use Rattle.std.specs.Prelude.{reverse};
    ghost use Rattle.wi_branch.specs.private.Courses.{Opening};

    ghost Value = { Opening };

    ghost view = { λ c. record { best = c.best; count = c.count; keeps = c.keeps; nodes = c.nodes.items; left = reverse c.left.items } };
}

impl Course {
    /// Nothing was opened yet. `keeps` says whether nodes are kept.
    pub(crate) fn new(alloc: Global, whole: Bounds, keeps: bool) -> Result<Course, NoMemory>
        ensures { IfOk result (λ course. course ≡ record { best = None; count = 0; keeps = keeps; nodes = []; left = whole ∷ [] }) }
    {
        let mut left = Vec::new(alloc);
        put(&mut left, whole)?;
        Ok(Course {
            best: None,
            count: 0,
            keeps,
            nodes: Vec::new(alloc),
            left,
        })
    }

    /// The weight of the best run so far.
    pub(crate) fn cut(&self) -> Option<Weight>
        ensures { option_map components result ≡ cut_of self.now.best }
    {
        match &self.best {
            Some(found) => Some(found.weight),
            None => None,
        }
    }

    /// Takes the next branch.
    pub(crate) fn next(&mut self) -> Option<Bounds>
        ensures { MatchOption result ((self.old.left ≡ []) × (self.new ≡ self.old)) (λ branch. self.old ≡ record self.new { left = branch ∷ self.new.left }) }
    {
        self.left.pop()
    }

    /// Notes what a branch told; the children of a split are the next ones.
    pub(crate) fn note(
        &mut self,
        alloc: Global,
        net: &Network,
        branch: &Bounds,
        told: Told,
    ) -> Result<(), NoMemory>
        requires bounds { AreBounds net.now branch.now }
        requires split { MaySplit branch.now told }
        requires room { self.old.count < 4294967295 }
        ensures { OnOk result (self.new ≡ after_told net.now self.old branch.now told) }
    {
        match told {
            Told::Nothing(leaf) => self.keep(Opened::Closed(leaf)),
            Told::Fitting(found, leaf) => self.improve(found, leaf),
            Told::Splitting(link) => self.split(alloc, net, branch, link),
        }
    }

    // One node more.
    fn keep(&mut self, node: Opened) -> Result<(), NoMemory>
        requires { self.old.count < 4294967295 }
        ensures { OnOk result (self.new ≡ with_node self.old node) }
    {
        self.count += 1;
        if self.keeps {
            put(&mut self.nodes, node)
        } else {
            drop(node);
            Ok(())
        }
    }

    // A better run.
    fn improve(&mut self, found: LeastRun, leaf: Closed) -> Result<(), NoMemory>
        requires { self.old.count < 4294967295 }
        ensures { OnOk result (self.new ≡ record (with_node self.old (Opened.Fits found.weight leaf)) { best = Some found }) }
    {
        self.keep(Opened::Fits(found.weight, leaf))?;
        self.best = Some(found);
        Ok(())
    }

    // Leaves the two children of a branch.
    fn split(
        &mut self,
        alloc: Global,
        net: &Network,
        branch: &Bounds,
        link: LinkId,
    ) -> Result<(), NoMemory>
        requires bounds { AreBounds net.now branch.now }
        requires splits { 0 < branch.now.k }
        requires room { self.old.count < 4294967295 }
        ensures { OnOk result (self.new ≡ after_told net.now self.old branch.now (Told.Splitting link)) }
    {
        self.keep(Opened::Split(link))?;
        put(&mut self.left, with_up(alloc, net, branch, link)?)?;
        put(&mut self.left, with_down(alloc, net, branch, link)?)
    }
}

/// Puts one more at the end.
pub(crate) fn put<T: Drop>(items: &mut Vec<T>, item: T) -> Result<(), NoMemory>
    ensures { OnOk result (items.new.items ≡ items.old.items ++ item ∷ []) }
{
    match items.push(item) {
        Ok(()) => Ok(()),
        Err(_failed) => Err(NoMemory::Memory),
    }
}
