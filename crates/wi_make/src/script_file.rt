//! The network is read before the script is fetched, so that its faults come first, and is let go before anything is printed.
//! All states are in memory while their text is made.
ghost use Rattle.std.specs.Prelude.{◌≡◌, ◌≤◌, true, Some, ℕ, List, length, IfOk, IfErr};
ghost use Rattle.wi_make.specs.Scripts.{FromPlaying, FromScript, IsPlay, IsPlayed};
ghost use Rattle.wi_net.specs.Net.{Net};
ghost use Rattle.wi_files.specs.Shelves.{AllStand, IsCalm};
ghost use Rattle.wi_make.specs.private.Stages.{FromBytes};

use std::alloc::Global;
use wi_base::Shelf;
use wi_files::{LINES_LIMIT, bytes_within, network};
use wi_net::Network;
use wi_outcome::{Printed, Refusal};
use wi_report::states;
use wi_script::{play as states_of, read_script};

/// The states of the moving world while the script of a file is played, or why not.
pub fn play<'a, S: Shelf>(
    alloc: Global,
    name: &'a str,
    script: &'a str,
    k: u32,
    shelf: &mut S,
) -> Result<Printed, Refusal<'a>>
    ensures told { (S.seen shelf.new).told ≡ (S.seen shelf.old).told }
    ensures files { AllStand (S.seen shelf.old) (S.seen shelf.new) }
    ensures calm { IfOk result (λ _. IsCalm (S.seen shelf.old) (S.seen shelf.new)) }
    ensures status { IfOk result (λ printed. printed.status ≡ 0) }
    ensures played { IfOk result (λ printed. IsPlayed (S.seen shelf.old) name.now script.now k printed.text) }
    ensures refused { IfErr result (FromPlaying (S.seen shelf.old) (S.seen shelf.new) name.now script.now k) }
{
    let net = network(alloc, name, shelf)?;
    let printed = play_on(alloc, &net, script, k, shelf);
    drop(net);
    printed
}

// The states on a network.
fn play_on<'a, S: Shelf>(
    alloc: Global,
    net: &Network,
    script: &'a str,
    k: u32,
    shelf: &mut S,
) -> Result<Printed, Refusal<'a>>
    ensures told { (S.seen shelf.new).told ≡ (S.seen shelf.old).told }
    ensures files { AllStand (S.seen shelf.old) (S.seen shelf.new) }
    ensures calm { IfOk result (λ _. IsCalm (S.seen shelf.old) (S.seen shelf.new)) }
    ensures status { IfOk result (λ printed. printed.status ≡ 0) }
    ensures played { IfOk result (λ printed. (bytes : List ℕ) × ((S.seen shelf.old).told ≡ true → (S.seen shelf.old).file script.now ≡ Some bytes) × IsPlay net.now k bytes printed.text) }
    ensures refused { IfErr result (λ refusal. FromScript (S.seen shelf.old) (S.seen shelf.new) net.now script.now k refusal) }
{
    let bytes = script_bytes(alloc, script, shelf)?;
    played(alloc, net, bytes.as_slice(), k)
}

// The bytes of a script, for a network.
fn script_bytes<'a, S: Shelf>(
    alloc: Global,
    name: &'a str,
    shelf: &mut S,
) -> Result<Vec<u8>, Refusal<'a>>
    ensures told { (S.seen shelf.new).told ≡ (S.seen shelf.old).told }
    ensures files { AllStand (S.seen shelf.old) (S.seen shelf.new) }
    ensures calm { IfOk result (λ _. IsCalm (S.seen shelf.old) (S.seen shelf.new)) }
    ensures short { IfOk result (λ bytes. length bytes.items ≤ LINES_LIMIT) }
    ensures found { (S.seen shelf.old).told ≡ true → IfOk result (λ bytes. (S.seen shelf.old).file name.now ≡ Some bytes.items) }
    ensures refused { (net : Net) (k : ℕ) → IfErr result (λ refusal. FromScript (S.seen shelf.old) (S.seen shelf.new) net name.now k refusal) }
{
    match bytes_within(alloc, name, LINES_LIMIT, shelf)? {
        Some(bytes) => Ok(bytes),
        None => Err(Refusal::LongScript),
    }
}

// The states, for the bytes of a script.
fn played<'a>(alloc: Global, net: &Network, bytes: &[u8], k: u32) -> Result<Printed, Refusal<'a>>
    requires { length bytes.now ≤ LINES_LIMIT }
    ensures status { IfOk result (λ printed. printed.status ≡ 0) }
    ensures played { IfOk result (λ printed. IsPlay net.now k bytes.now printed.text) }
    ensures refused { IfErr result (λ refusal. FromBytes net.now k bytes.now refusal) }
{
    net.keeps();
    let script = match read_script(alloc, net, bytes) {
        Ok(script) => script,
        Err(refused) => return Err(Refusal::Script(refused)),
    };
    match states_of(alloc, net, k, &script) {
        Ok(moments) => {
            let text = states(alloc, net, moments.as_slice())?;
            Ok(Printed { status: 0, text })
        }
        Err(refused) => Err(Refusal::Script(refused)),
    }
}
