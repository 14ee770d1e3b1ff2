//! The parts of a file are read in one fixed order, so that of several faults the same one is told each time. The JSON value takes far
//! more memory than the network, so each of its tables is let go once it is read. Files over 64 MiB are refused before.
ghost use Rattle.std.specs.Prelude.{◌≡◌, option_map};
ghost use Rattle.serde_json.specs.View.{view};
ghost use Rattle.wi_net.specs.Builder.{empty, found_or};
ghost use Rattle.wi_netjson.specs.Reading.{Gives};
ghost use Rattle.wi_netjson.specs.File.{json_of, has_groups, file_of, network_of, few_bytes};

use crate::fault::{NetFault, Place};
use crate::labels::labels;
use crate::links::links;
use crate::routers::routers;
use crate::shape::{object, text};
use crate::tables::tables;
use serde_json::Value;
use std::alloc::Global;
use wi_net::{Network, NetworkBuilder};

/// The most bytes of a network file.
pub const NETWORK_LIMIT: u32 = 67_108_864;

/// The network that bytes mean, or their first fault. Routers, links, labels and tables are numbered as in the file.
#[tactic(auto, unfolding(crate::specs::File::network_of))]
pub fn read_network(alloc: Global, bytes: &[u8]) -> Result<Network, NetFault>
    ensures { Gives (λ network. network) result (network_of bytes.now) }
{
    few_bytes(bytes)?;
    let value = value_of(alloc, bytes)?;
    let builder = file_of(alloc, value)?;
    Ok(builder.finish()?)
}

fn few_bytes(bytes: &[u8]) -> Result<(), NetFault>
    ensures { Gives (λ u. u) result (few_bytes bytes.now) }
{
    if bytes.len() <= NETWORK_LIMIT as usize {
        Ok(())
    } else {
        Err(NetFault::OverLimit(Place::File, NETWORK_LIMIT))
    }
}

// The value that bytes read as.
fn value_of(alloc: Global, bytes: &[u8]) -> Result<Value, NetFault>
    ensures { Gives view result (found_or (NetFault.NotJson Place.File) (json_of bytes.now)) }
{
    match Value::from_slice(alloc, bytes) {
        Ok(value) => Ok(value),
        Err(error) => {
            if error.is_memory() {
                Err(NetFault::Memory)
            } else {
                Err(NetFault::NotJson(Place::File))
            }
        }
    }
}

// The network that a value means.
fn file_of(alloc: Global, value: Value) -> Result<NetworkBuilder, NetFault>
    ensures { Gives (λ b. b) result (file_of empty (view value)) }
{
    let mut builder = NetworkBuilder::new(alloc);
    match fill(alloc, &mut builder, value) {
        Ok(()) => Ok(builder),
        Err(fault) => {
            drop(builder);
            Err(fault)
        }
    }
}

// Adds all of a file.
#[tactic(auto, unfolding(crate::specs::File::file_of))]
fn fill(alloc: Global, builder: &mut NetworkBuilder, value: Value) -> Result<(), NetFault>
    requires { builder.old ≡ empty }
    ensures { Gives (λ _. builder.new) result (file_of builder.old (view value)) }
{
    let file = object(Place::File, Some(&value))?;
    let has_groups = has_groups(file.get("format"))?;
    routers(builder, file)?;
    labels(builder, file)?;
    links(builder, has_groups, file)?;
    tables(alloc, builder, value)
}

// Whether links of the format name risk groups.
#[tactic(auto, unfolding(crate::specs::File::has_groups))]
fn has_groups(value: Option<&Value>) -> Result<bool, NetFault>
    ensures { Gives (λ b. b) result (has_groups (option_map (λ v. view v.now) value.entry)) }
{
    let format = text(Place::Format, value)?;
    if format == "mpls-whatif-1" {
        Ok(false)
    } else if format == "mpls-whatif-2" {
        Ok(true)
    } else {
        Err(NetFault::UnknownFormat(Place::Format))
    }
}
