//! Whether a link was met before, or has a bypass, is one look-up: a mark for each link of the network, made once. Without them each
//! link of a path would go over all bypasses.
ghost use Rattle.std.specs.Prelude.{◌≡◌, ◌<◌, length, IfOk};
ghost use Rattle.wi_bypass.specs.private.Marks.{no_marks, is_marked, marked, unmarked};

use std::alloc::{AllocError, Global};
use wi_base::NoMemory;
use wi_net::LinkId;

/// No mark, for so many links.
pub fn no_marks(alloc: Global, count: usize) -> Result<Vec<bool>, AllocError>
    ensures { IfOk result (λ marks. marks.items ≡ no_marks count) }
{
    (0..count).map(|_| false).collect(alloc)
}

/// Whether a link is marked.
pub fn is_marked(marks: &[bool], link: LinkId) -> bool
    ensures { result ≡ is_marked marks.now link }
{
    match marks.get(link.0 as usize) {
        Some(mark) => *mark,
        None => false,
    }
}

/// Marks a link.
pub fn mark(marks: &mut Vec<bool>, link: LinkId)
    requires { link.0 < length marks.old.items }
    ensures { marks.new.items ≡ marked marks.old.items link }
{
    marks[link.0 as usize] = true;
}

/// The links that aren't marked, in their order.
pub fn unmarked(alloc: Global, marks: &[bool], links: &[LinkId]) -> Result<Vec<LinkId>, NoMemory>
    ensures { IfOk result (λ left. left.items ≡ unmarked marks.now links.now) }
{
    let mut left = Vec::new(alloc);
    for link in links {
        if !is_marked(marks, *link) {
            left.push(*link)?;
        }
    }
    Ok(left)
}
