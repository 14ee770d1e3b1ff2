//! Each way to end without an answer is a case here, with one text and one status, so that none can be added without both. A
//! text that is constant is put as it stands, and takes no memory; where there is none for another, a constant one is put in
//! its place. What is said of a failed call is made before the call, so that no memory can be wanting for it afterwards.
ghost use Rattle.std.specs.Prelude.{◌≡◌, ◌⊎◌, ◌++◌, ◌<◌, ◌-◌, ◌^◌, ℕ, List, codes, IfOk};
ghost use Rattle.wi_outcome.specs.Edges.{Says, SaysWhy, kept};
ghost use Rattle.wi_outcome.specs.Texts.{cannot_read_text, cannot_write_text, status_of};

use std::alloc::Global;
use wi_base::{NoMemory, PutRefused, Sink};
use wi_cert::{CheckRefused, NODE_LIMIT};
use wi_faults::{
    bad_line_text, certificate_fault_text, network_fault_text, nodes_over_limit_text,
    overflow_text, plan_fault_text, protect_fault_text, script_fault_text, stack_refused_text,
    too_long_text, weight_fault_text,
};
use wi_netjson::NetFault;
use wi_planjson::PlanRefused;
use wi_protect::ProtectRefused;
use wi_quantity::{Weight, WeightFault};
use wi_script::ScriptRefused;
use wi_text::Text;
use wi_wire::StackRefused;

// What is said where the words are no command.
const USAGE: &[u8] =
    b"usage: whatif verify NETWORK QUERY [--weights W] [--certificate FILE]\n       whatif check NETWORK QUERY CERTIFICATE [--weights W]\n       whatif play NETWORK SCRIPT K\n       whatif gen SEED SIZE\n       whatif exact NETWORK QUERY [--weights W] [--certificate FILE]\n       whatif check-exact NETWORK QUERY CERTIFICATE [--weights W]\n       whatif tolerate NETWORK QUERY LIMIT [--weights W] [--certificate FILE]\n       whatif protect PLAN\n       whatif packets NETWORK QUERY [--weights W]\n       whatif stack HEX\n       whatif audit NETWORK POLICIES [--given TEXT]\n       whatif outages NETWORK POLICIES [--given TEXT] [--routers]\n       whatif bypass PLAN\n       whatif draw NETWORK [QUERY [--weights W]]\n";

// What is said where memory ran out.
const NO_MEMORY: &[u8] = b"whatif: out of memory\n";

/// Why nothing is printed.
#[derive(Drop)]
pub enum Refusal<'a> {
    /// The words are no command.
    Usage,
    /// The call that was to fetch a file failed, of which this is said.
    CannotRead(Text),
    /// The call that was to store under this name failed, of which this is said.
    CannotWrite(&'a str, Text),
    /// The first of two trees is stored under this name, and the call that was to store the second failed, of which this is said.
    CannotWriteBelow(&'a str, Text),
    /// The first of two trees is stored under this name, and memory ran out for the second.
    NoMemoryBelow(&'a str),
    /// The network file has this fault.
    Network(NetFault),
    /// The text of the query has a fault, of which this is said.
    Query(Text),
    /// The text of the weights has this fault.
    Weights(WeightFault),
    /// The text of what is given has a fault, of which this is said.
    Given(Text),
    /// A summary has this weight, which doesn't fit; so many terms of it are shown.
    Overflow(Weight, usize),
    /// The least run has this effort, which is too much.
    TooLong(u64),
    /// The script has this fault, or an event that isn't allowed.
    Script(ScriptRefused),
    /// The script has too many bytes.
    LongScript,
    /// The certificate has too many bytes.
    LargeCertificate,
    /// The certificate has this first bad line.
    BadLine(u128),
    /// This speaks against the certificate; so many terms of weights are shown.
    NotAccepted(CheckRefused, usize),
    /// The certificate would be too long, so it isn't written.
    NotWritten,
    /// An exact answer would take more nodes than the limit.
    ManyNodes,
    /// The tree would be too large, so it isn't written.
    TreeNotWritten,
    /// The file has no plan over its network, for this reason.
    Plan(PlanRefused),
    /// The network that the plan asks for can't be made.
    Unprotected(ProtectRefused),
    /// Its text would be too long for a network file.
    LargeNetwork,
    /// The text isn't bytes in hexadecimal.
    NotHex,
    /// The bytes begin with no label stack.
    BadStack(StackRefused),
    /// The file of policies has too many bytes.
    LongPolicies,
    /// The file of policies has a fault, or no policy, of which this is said.
    Policies(Text),
    /// The call that was to print failed.
    CannotPrint,
    /// Memory ran out.
    Memory,
}

impl From<NoMemory> for Refusal<'_> {
    ghost use Rattle.std.specs.Prelude.{◌≡◌};
    ghost use Rattle.wi_outcome.specs.declared.refusal.Refusal.{Refusal};

    ghost from_gives = { λ _ r. r ≡ Refusal.Memory };

    fn from(_error: NoMemory) -> Self {
        Refusal::Memory
    }
}

/// The exit status.
pub fn status_of(refusal: &Refusal<'_>) -> u8
    ensures { result ≡ status_of refusal.now }
{
    match refusal {
        Refusal::Network(NetFault::Memory) => 11,
        Refusal::Network(_) => 3,
        Refusal::Query(_) => 4,
        Refusal::Weights(WeightFault::Memory) => 11,
        Refusal::Weights(_) => 5,
        Refusal::Given(_) => 4,
        Refusal::Overflow(_, _) => 6,
        Refusal::TooLong(_) => 7,
        Refusal::Usage => 9,
        Refusal::CannotRead(_) => 10,
        Refusal::CannotWrite(_, _) => 10,
        Refusal::CannotWriteBelow(_, _) => 10,
        Refusal::NoMemoryBelow(_) => 11,
        Refusal::CannotPrint => 10,
        Refusal::Script(ScriptRefused::Memory) => 11,
        Refusal::Script(_) => 12,
        Refusal::LongScript => 12,
        Refusal::LargeCertificate => 8,
        Refusal::BadLine(_) => 8,
        Refusal::NotAccepted(_, _) => 8,
        Refusal::NotWritten => 14,
        Refusal::ManyNodes => 13,
        Refusal::TreeNotWritten => 14,
        Refusal::Plan(PlanRefused::Memory) => 11,
        Refusal::Plan(_) => 15,
        Refusal::Unprotected(ProtectRefused::Memory) => 11,
        Refusal::Unprotected(_) => 15,
        Refusal::LargeNetwork => 15,
        Refusal::NotHex => 16,
        Refusal::BadStack(StackRefused::Memory) => 11,
        Refusal::BadStack(_) => 16,
        Refusal::LongPolicies => 17,
        Refusal::Policies(_) => 17,
        Refusal::Memory => 11,
    }
}

/// Says on `err` why, and gives the exit status: another one only where that can't be said.
pub fn say<E: Sink>(alloc: Global, refusal: Refusal<'_>, err: &mut E) -> u8
    requires { (E.seen err.old).faults < 2 ^ 64 - 1 }
    ensures told { (E.seen err.new).told ≡ (E.seen err.old).told }
    ensures said { SaysWhy refusal.entry (E.seen err.old) (E.seen err.new) result }
{
    let status = status_of(&refusal);
    match refusal {
        Refusal::Usage => put(USAGE, status, err),
        Refusal::CannotRead(text) => put(text.as_bytes(), status, err),
        Refusal::CannotWrite(_, text) => put(text.as_bytes(), status, err),
        Refusal::CannotWriteBelow(_, text) => put(text.as_bytes(), status, err),
        Refusal::NoMemoryBelow(_) => put(NO_MEMORY, status, err),
        Refusal::Network(fault) => put_made(network_fault_text(alloc, fault), status, err),
        Refusal::Query(text) => put(text.as_bytes(), status, err),
        Refusal::Weights(fault) => put_made(weight_fault_text(alloc, &fault), status, err),
        Refusal::Given(text) => put(text.as_bytes(), status, err),
        Refusal::Overflow(weight, terms) => {
            put_made(overflow_text(alloc, &weight, terms), status, err)
        }
        Refusal::TooLong(effort) => put_made(too_long_text(alloc, effort), status, err),
        Refusal::Script(refused) => put_made(script_fault_text(alloc, &refused), status, err),
        Refusal::LongScript => put(b"script: over the limit 1048576\n", status, err),
        Refusal::LargeCertificate => {
            put(b"certificate: over the limit 268435456\n", status, err)
        }
        Refusal::BadLine(line) => put_made(bad_line_text(alloc, line), status, err),
        Refusal::NotAccepted(fault, terms) => {
            put_made(certificate_fault_text(alloc, &fault, terms), status, err)
        }
        Refusal::NotWritten => {
            put(
                b"certificate: over the limit 268000000, not written\n",
                status,
                err,
            )
        }
        Refusal::ManyNodes => put_made(nodes_over_limit_text(alloc, NODE_LIMIT), status, err),
        Refusal::TreeNotWritten => {
            put(
                b"certificate: over the limit 268435456, not written\n",
                status,
                err,
            )
        }
        Refusal::Plan(refused) => put_made(plan_fault_text(alloc, refused), status, err),
        Refusal::Unprotected(refused) => put_made(protect_fault_text(alloc, refused), status, err),
        Refusal::LargeNetwork => put(b"plan: file: over the limit 67108864\n", status, err),
        Refusal::NotHex => put(b"wire: not hex\n", status, err),
        Refusal::BadStack(refused) => put_made(stack_refused_text(alloc, &refused), status, err),
        Refusal::LongPolicies => put(b"policies: over the limit 1048576\n", status, err),
        Refusal::Policies(text) => put(text.as_bytes(), status, err),
        Refusal::CannotPrint => put(b"whatif: cannot print\n", status, err),
        Refusal::Memory => put(NO_MEMORY, status, err),
    }
}

// Puts a text that was put together, which takes memory; or else that there was none for it.
fn put_made<E: Sink>(text: Result<Text, NoMemory>, status: u8, err: &mut E) -> u8
    requires { (E.seen err.old).faults < 2 ^ 64 - 1 }
    ensures told { (E.seen err.new).told ≡ (E.seen err.old).told }
    ensures said { (wanted : List ℕ) → IfOk text (λ t. t ≡ wanted) → Says wanted status (E.seen err.old) (E.seen err.new) result ⊎ Says (codes "whatif: out of memory\n") 11 (E.seen err.old) (E.seen err.new) result }
{
    match text {
        Ok(text) => put(text.as_bytes(), status, err),
        Err(NoMemory::Memory) => put(NO_MEMORY, 11, err),
    }
}

// Puts a text on `err`, and gives the exit status.
fn put<E: Sink>(text: &[u8], status: u8, err: &mut E) -> u8
    requires { (E.seen err.old).faults < 2 ^ 64 - 1 }
    ensures told { (E.seen err.new).told ≡ (E.seen err.old).told }
    ensures said { Says text.now status (E.seen err.old) (E.seen err.new) result }
{
    match err.put(text) {
        Ok(()) => status,
        Err(PutRefused::Failed) => 10,
        Err(PutRefused::Memory) => kept(status),
    }
}

// The status where memory runs out: that of a failed call stays.
fn kept(status: u8) -> u8
    ensures { result ≡ kept status }
{
    if status == 10 { 10 } else { 11 }
}

/// What is to be said if a file can't be read.
pub fn cannot_read(alloc: Global, name: &str) -> Result<Text, NoMemory>
    ensures { IfOk result (λ text. text ≡ cannot_read_text name.now) }
{
    cannot(alloc, "whatif: cannot read ", name)
}

/// What is to be said if nothing can be stored under a name.
pub fn cannot_write(alloc: Global, name: &str) -> Result<Text, NoMemory>
    ensures { IfOk result (λ text. text ≡ cannot_write_text name.now) }
{
    cannot(alloc, "whatif: cannot write ", name)
}

// What is said of a call that failed, with the name of its file.
fn cannot(alloc: Global, what: &str, name: &str) -> Result<Text, NoMemory>
    ensures { IfOk result (λ text. text ≡ what.now ++ name.now ++ codes "\n") }
{
    let mut text = Text::new(alloc);
    text.put(what)?;
    text.put(name)?;
    text.put("\n")?;
    Ok(text)
}
