//! Rings that are generated.
ghost use Rattle.std.specs.Prelude.{◌≤◌};

use crate::called::{is_said, ran};
use std::alloc::Global;
use std::process::Abort;
use std::test::Fail;
use wi_base::MemoryShelf;
use wi_gen::generate;
use wi_netjson::{read_network, write_network};

// A seed, a size, and what `gen` is to end with.
const RINGS: &[(&str, &str, &str)] = &[
    (
        "0",
        "4",
        "0<gen: seed 0 size 4\nrouters: 6\nlinks: 10\nlabels: 5\nentries: 9\nanswer: yes\nweight: 1 6\neffort: 12\nfailed: 1\ncertificate: accepted\n><>",
    ),
    (
        "5",
        "5",
        "0<gen: seed 5 size 5\nrouters: 7\nlinks: 12\nlabels: 9\nentries: 21\nanswer: yes\nweight: 1 9\neffort: 15\nfailed: 1\ncertificate: accepted\n><>",
    ),
    (
        "18446744073709551615",
        "5",
        "0<gen: seed 18446744073709551615 size 5\nrouters: 7\nlinks: 12\nlabels: 5\nentries: 11\nanswer: yes\nweight: 1 7\neffort: 13\nfailed: 1\ncertificate: accepted\n><>",
    ),
    (
        "7",
        "1000",
        "0<gen: seed 7 size 1000\nrouters: 1002\nlinks: 2002\nlabels: 19\nentries: 9001\nanswer: yes\nweight: 1 1009\neffort: 1015\nfailed: 1\ncertificate: accepted\n><>",
    ),
];

// What `gen` ends with, on a shelf with nothing on it.
fn generated(alloc: Global, seed: &str, size: &str) -> Result<String, Fail> {
    let mut shelf = MemoryShelf::new(alloc);
    let said = ran(alloc, &["whatif", "gen", seed, size], &mut shelf);
    drop(shelf);
    said
}

#[test]
fn rings_are_answered_and_checked(rt: HostRuntime) -> Result<(), Fail> {
    for (seed, size, wanted) in RINGS {
        is_said(&rt, generated(rt.alloc(), seed, size), wanted)?;
    }
    Ok(())
}

// The canonical text of the ring of seed 0 and size 4.
fn ring_of_four() -> &'static str {
    r#"{"format":"mpls-whatif-1","labels":{"ip":["ip0"],"mpls":["b0","b1"],"smpls":["s1","s2"]},"links":[{"distance":1,"from":"s","in":"o","out":"o","to":"r0"},{"distance":32,"from":"r2","in":"x","out":"x","to":"t"},{"distance":63,"from":"r0","in":"f","out":"f","to":"r1"},{"distance":94,"from":"r1","in":"f","out":"f","to":"r2"},{"distance":28,"from":"r2","in":"f","out":"f","to":"r3"},{"distance":59,"from":"r3","in":"f","out":"f","to":"r0"},{"distance":90,"from":"r1","in":"g","out":"g","to":"r0"},{"distance":24,"from":"r2","in":"g","out":"g","to":"r1"},{"distance":55,"from":"r3","in":"g","out":"g","to":"r2"},{"distance":86,"from":"r0","in":"g","out":"g","to":"r3"}],"routers":["s","t","r0","r1","r2","r3"],"tables":[{"at":"r0","groups":[[{"ops":[["push","s1"]],"out":"f"}],[{"ops":[["push","s1"],["push","b0"]],"out":"g"}]],"in":"o","label":"ip0"},{"at":"r1","groups":[[{"ops":[["swap","s2"]],"out":"f"}],[{"ops":[["swap","s2"],["push","b1"]],"out":"g"}]],"in":"f","label":"s1"},{"at":"r1","groups":[[{"ops":[["swap","s2"]],"out":"f"}],[{"ops":[["swap","s2"],["push","b1"]],"out":"g"}]],"in":"g","label":"s1"},{"at":"r2","groups":[[{"ops":[["pop"]],"out":"x"}]],"in":"f","label":"s2"},{"at":"r2","groups":[[{"ops":[["pop"]],"out":"x"}]],"in":"g","label":"s2"},{"at":"r3","groups":[[{"ops":[["swap","b0"]],"out":"g"}]],"in":"g","label":"b0"},{"at":"r2","groups":[[{"ops":[["pop"]],"out":"g"}]],"in":"g","label":"b0"},{"at":"r0","groups":[[{"ops":[["swap","b1"]],"out":"g"}]],"in":"g","label":"b1"},{"at":"r3","groups":[[{"ops":[["pop"]],"out":"g"}]],"in":"g","label":"b1"}]}"#
}

// The canonical text of a ring.
fn written(alloc: Global, seed: u64, size: u32) -> Result<Vec<u8>, Fail>
    requires least { 4 ≤ size }
    requires most { size ≤ 2000 }
{
    let ring = generate(alloc, seed, size)?;
    let text = write_network(alloc, &ring.network);
    drop(ring);
    Ok(text?)
}

// The canonical text of the network that a text is.
fn rewritten(alloc: Global, bytes: &[u8]) -> Result<Vec<u8>, Fail> {
    match read_network(alloc, bytes) {
        Ok(network) => {
            let text = write_network(alloc, &network);
            drop(network);
            Ok(text?)
        }
        Err(fault) => Err(fault.into()),
    }
}

#[test]
fn a_ring_is_the_network_that_is_stated(rt: HostRuntime) -> Result<(), Fail> {
    let text = written(rt.alloc(), 0, 4)?;
    assert!(rt; text.as_slice() == ring_of_four().as_bytes());
    Ok(())
}

fn is_read_again(rt: &impl Abort, alloc: Global, seed: u64, size: u32) -> Result<(), Fail>
    requires least { 4 ≤ size }
    requires most { size ≤ 2000 }
{
    let text = written(alloc, seed, size)?;
    let again = rewritten(alloc, text.as_slice())?;
    assert!(rt; text.as_slice() == again.as_slice(), "{seed} {size}");
    Ok(())
}

#[test]
fn rings_are_read_again(rt: HostRuntime) -> Result<(), Fail> {
    is_read_again(&rt, rt.alloc(), 0, 4)?;
    is_read_again(&rt, rt.alloc(), 5, 5)?;
    is_read_again(&rt, rt.alloc(), u64::MAX, 5)?;
    is_read_again(&rt, rt.alloc(), 7, 1000)
}
