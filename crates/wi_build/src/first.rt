//! The links on which a packet may set out are found once: they are the same for each header, and a query mostly names few.
ghost use Rattle.std.specs.Prelude.{◌≡◌, IfOk};
ghost use Rattle.wi_build.specs.Encodings.{encoding_of};
ghost use Rattle.wi_build.specs.private.First.{first_links, may_set_out};

use crate::problem::Problem;
use crate::states::after;
use std::alloc::Global;
use wi_base::NoMemory;
use wi_net::LinkId;

// Whether a packet may set out on a link.
fn may_set_out(problem: &Problem<'_>, link: LinkId) -> bool
    ensures { result ≡ may_set_out (encoding_of problem.now) link }
{
    if problem.bounds().down.contains(link) {
        return false;
    }
    problem.keeps();
    let mut states = after(&problem.query().path, 0, link.0);
    states.next().is_some()
}

/// The links on which a packet may set out.
pub(crate) fn first_links(alloc: Global, problem: &Problem<'_>) -> Result<Vec<LinkId>, NoMemory>
    ensures { IfOk result (λ links. links.items ≡ first_links (encoding_of problem.now)) }
{
    let all = (0..problem.net().counts().links).map(LinkId);
    let first = all.filter(|link| may_set_out(problem, *link));
    Ok(first.collect(alloc)?)
}
