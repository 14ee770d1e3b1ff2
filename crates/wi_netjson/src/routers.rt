//! Routers come first, since links and tables name them. A router costs one look-up, for a name that came before.
ghost use Rattle.std.specs.Prelude.{◌≡◌, ◌+◌, ◌<◌, ◌≤◌, OnOk, length};
ghost use Rattle.serde_json.specs.View.{view, items_view};
ghost use Rattle.wi_netjson.specs.Reading.{Gives, each};
ghost use Rattle.wi_netjson.specs.private.Refusals.{router_fault};
ghost use Rattle.wi_netjson.specs.Routers.{router_at, routers_of};

use crate::fault::{NetFault, Place};
use crate::shape::{limited, list, text};
use serde_json::Value;
use wi_net::{BuildRefused, NetworkBuilder, ROUTER_LIMIT};

/// Adds the routers of a file.
#[tactic(auto, unfolding(crate::specs::Routers::routers_of))]
pub fn routers(builder: &mut NetworkBuilder, file: &Value) -> Result<(), NetFault>
    ensures answer { Gives (λ _. builder.new) result (routers_of builder.old (view file.now)) }
    ensures classes { OnOk result (builder.new.net.classes ≡ builder.old.net.classes) }
{
    let values = list(Place::Routers, file.get("routers"))?;
    limited(Place::Routers, ROUTER_LIMIT, builder.router_count(), values)?;
    each_router(builder, values)
}

fn each_router(builder: &mut NetworkBuilder, values: &[Value]) -> Result<(), NetFault>
    requires { length builder.old.net.routers + length values.now ≤ ROUTER_LIMIT }
    ensures answer { Gives (λ _. builder.new) result (each router_at builder.old 0 (items_view values.now)) }
    ensures classes { OnOk result (builder.new.net.classes ≡ builder.old.net.classes) }
{
    for (i, value) in values.iter().enumerate() {
        router(builder, i, value)?;
    }
    Ok(())
}

#[tactic(auto, unfolding(crate::specs::Routers::router_at, wi_net::specs::Builder::add_router))]
fn router(builder: &mut NetworkBuilder, i: usize, value: &Value) -> Result<(), NetFault>
    requires { length builder.old.net.routers < ROUTER_LIMIT }
    ensures answer { Gives (λ _. builder.new) result (router_at builder.old i (view value.now)) }
    ensures count { OnOk result (length builder.new.net.routers ≡ length builder.old.net.routers + 1) }
    ensures classes { OnOk result (builder.new.net.classes ≡ builder.old.net.classes) }
{
    let name = text(Place::Router(i), Some(value))?;
    match builder.router(name) {
        Ok(_) => Ok(()),
        Err(refused) => Err(router_fault(i, refused)),
    }
}

fn router_fault(i: usize, refused: BuildRefused) -> NetFault
    ensures { result ≡ router_fault i refused }
{
    match refused {
        BuildRefused::BadName(_) => NetFault::BadName(Place::Router(i)),
        BuildRefused::Repeated => NetFault::RepeatedRouter(Place::Router(i)),
        BuildRefused::Limit(_, limit) => NetFault::OverLimit(Place::Routers, limit),
        _ => NetFault::Memory,
    }
}
