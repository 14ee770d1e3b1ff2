//! A file over its limit could be read, so that is a fault of the file and no failed call. The limit is given to the shelf, so
//! that it needn't read a longer file to its end. A network's bytes are in memory until it is read.
ghost use Rattle.std.specs.Prelude.{◌≡◌, true, ◌≤◌, ℕ, List, Ok, Some, IfOk, IfErr, IfSome, MatchOption, vec_len, length};
ghost use Rattle.wi_base.specs.Shelf.{IsLonger};
ghost use Rattle.wi_netjson.specs.File.{network_of};
ghost use Rattle.wi_netjson.specs.Reading.{Fails};
ghost use Rattle.wi_files.specs.Networks.{FromNetwork, HoldsNetwork};
ghost use Rattle.wi_files.specs.Shelves.{AllStand, IsCalm, IsUnread};

use std::alloc::Global;
use wi_base::{FetchRefused, Shelf};
use wi_net::Network;
use wi_netjson::{NETWORK_LIMIT, NetFault, Place, read_network};
use wi_outcome::{Refusal, cannot_read};

/// The most bytes of a script, and of a file of policies.
pub const LINES_LIMIT: u32 = 1_048_576;

/// The network that a file means.
pub fn network<'a, S: Shelf>(
    alloc: Global,
    name: &'a str,
    shelf: &mut S,
) -> Result<Network, Refusal<'a>>
    ensures told { (S.seen shelf.new).told ≡ (S.seen shelf.old).told }
    ensures files { AllStand (S.seen shelf.old) (S.seen shelf.new) }
    ensures calm { IfOk result (λ _. IsCalm (S.seen shelf.old) (S.seen shelf.new)) }
    ensures held { (S.seen shelf.old).told ≡ true → IfOk result (λ net. HoldsNetwork ((S.seen shelf.old).file name.now) net) }
    ensures refused { IfErr result (λ refusal. FromNetwork (S.seen shelf.old) (S.seen shelf.new) name.now refusal) }
{
    let bytes = network_bytes(alloc, name, shelf)?;
    match read_network(alloc, bytes.as_slice()) {
        Ok(net) => Ok(net),
        Err(fault) => Err(Refusal::Network(fault)),
    }
}

/// The bytes of a network file.
pub fn network_bytes<'a, S: Shelf>(
    alloc: Global,
    name: &'a str,
    shelf: &mut S,
) -> Result<Vec<u8>, Refusal<'a>>
    ensures told { (S.seen shelf.new).told ≡ (S.seen shelf.old).told }
    ensures files { AllStand (S.seen shelf.old) (S.seen shelf.new) }
    ensures calm { IfOk result (λ _. IsCalm (S.seen shelf.old) (S.seen shelf.new)) }
    ensures found { (S.seen shelf.old).told ≡ true → IfOk result (λ bytes. (S.seen shelf.old).file name.now ≡ Some bytes.items) }
    ensures refused { IfErr result (λ refusal. FromNetwork (S.seen shelf.old) (S.seen shelf.new) name.now refusal) }
{
    match bytes_within(alloc, name, NETWORK_LIMIT, shelf)? {
        Some(bytes) => Ok(bytes),
        None => Err(Refusal::Network(NetFault::OverLimit(Place::File, NETWORK_LIMIT))),
    }
}

/// The bytes of a file, or none where there are more than so many.
pub fn bytes_within<'a, S: Shelf>(
    alloc: Global,
    name: &'a str,
    limit: u32,
    shelf: &mut S,
) -> Result<Option<Vec<u8>>, Refusal<'a>>
    ensures told { (S.seen shelf.new).told ≡ (S.seen shelf.old).told }
    ensures files { AllStand (S.seen shelf.old) (S.seen shelf.new) }
    ensures calm { IfOk result (λ _. IsCalm (S.seen shelf.old) (S.seen shelf.new)) }
    ensures short { IfOk result (λ found. IfSome found (λ bytes. length bytes.items ≤ limit)) }
    ensures found { (S.seen shelf.old).told ≡ true → IfOk result (λ found. MatchOption found (IsLonger ((S.seen shelf.old).file name.now) limit) (λ bytes. (S.seen shelf.old).file name.now ≡ Some bytes.items)) }
    ensures refused { IfErr result (λ refusal. IsUnread (S.seen shelf.old) (S.seen shelf.new) name.now refusal) }
{
    let unread = cannot_read(alloc, name)?;
    match shelf.fetch(name, limit as u64) {
        Ok(bytes) => Ok(Some(bytes)),
        Err(FetchRefused::Failed) => Err(Refusal::CannotRead(unread)),
        Err(FetchRefused::TooBig) => Ok(None),
        Err(FetchRefused::Memory) => Err(Refusal::Memory),
    }
}
