//! A path's first and last link have no bypass in a plan's network, so only those between them are asked about. Paths share links, and
//! each is asked about once.
ghost use Rattle.std.specs.Prelude.{◌≡◌, ◌++◌, true, IfOk, OnOk};
ghost use Rattle.std.specs.List.{flat_map, list_all};
ghost use Rattle.wi_plan.specs.declared.plan.Path.{Path};
ghost use Rattle.wi_plan.specs.Plans.{is_path_of};
ghost use Rattle.wi_protect.specs.OneWay.{inner};
ghost use Rattle.wi_bypass.specs.Bypasses.{inner_links};
ghost use Rattle.wi_bypass.specs.private.Marks.{no_marks, have_marks, once_by};

use crate::marks::{is_marked, mark, no_marks};
use std::alloc::Global;
use wi_base::NoMemory;
use wi_net::{LinkId, Network};
use wi_plan::Path;

/// The inner links of paths, each once. It costs in the number of links of the paths, and a mark for each link of the network.
pub fn inner_links(alloc: Global, net: &Network, paths: &[Path]) -> Result<Vec<LinkId>, NoMemory>
    requires { list_all (is_path_of net.now) paths.now ≡ true }
    ensures { IfOk result (λ links. links.items ≡ inner_links paths.now) }
{
    let all = all_inner(alloc, paths)?;
    once(alloc, net.counts().links as usize, &all)
}

// The inner links of paths, as often as they come.
fn all_inner(alloc: Global, paths: &[Path]) -> Result<Vec<LinkId>, NoMemory>
    ensures { IfOk result (λ links. links.items ≡ flat_map (λ (path : Path). inner path.links) paths.now) }
{
    let mut all = Vec::new(alloc);
    for path in paths {
        push_inner(&mut all, path.links.as_slice())?;
    }
    Ok(all)
}

// Puts the links between the first and the last at the end of a list.
fn push_inner(all: &mut Vec<LinkId>, links: &[LinkId]) -> Result<(), NoMemory>
    ensures { OnOk result (all.new.items ≡ all.old.items ++ inner links.now) }
{
    if links.len() > 2 {
        all.extend_from_slice(&links[1..links.len() - 1])?;
    }
    Ok(())
}

// Each link once, of links with numbers below a count.
fn once(alloc: Global, count: usize, links: &[LinkId]) -> Result<Vec<LinkId>, NoMemory>
    requires { have_marks count links.now ≡ true }
    ensures { IfOk result (λ left. left.items ≡ once_by (no_marks count) links.now) }
{
    let mut marks = no_marks(alloc, count)?;
    let mut left = Vec::new(alloc);
    for link in links {
        if !is_marked(&marks, *link) {
            mark(&mut marks, *link);
            left.push(*link)?;
        }
    }
    Ok(left)
}
