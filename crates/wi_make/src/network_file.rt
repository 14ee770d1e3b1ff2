//! A network is drawn without a question, so nothing is decided.
ghost use Rattle.std.specs.Prelude.{◌≡◌, IfOk, IfErr};
ghost use Rattle.wi_files.specs.Networks.{FromNetwork};
ghost use Rattle.wi_files.specs.Shelves.{AllStand, IsCalm};
ghost use Rattle.wi_make.specs.Drawn.{IsDrawn};

use std::alloc::Global;
use wi_base::Shelf;
use wi_draw::network_drawing;
use wi_files::network;
use wi_outcome::{Printed, Refusal};

/// The drawing of the network of a file, or why there is none.
pub fn draw<'a, S: Shelf>(
    alloc: Global,
    name: &'a str,
    shelf: &mut S,
) -> Result<Printed, Refusal<'a>>
    ensures told { (S.seen shelf.new).told ≡ (S.seen shelf.old).told }
    ensures files { AllStand (S.seen shelf.old) (S.seen shelf.new) }
    ensures calm { IfOk result (λ _. IsCalm (S.seen shelf.old) (S.seen shelf.new)) }
    ensures status { IfOk result (λ printed. printed.status ≡ 0) }
    ensures drawn { IfOk result (λ printed. IsDrawn (S.seen shelf.old) name.now printed.text) }
    ensures refused { IfErr result (FromNetwork (S.seen shelf.old) (S.seen shelf.new) name.now) }
{
    let net = network(alloc, name, shelf)?;
    let text = network_drawing(alloc, &net);
    drop(net);
    Ok(Printed {
        status: 0,
        text: text?,
    })
}
