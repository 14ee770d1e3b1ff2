//! Contracts can speak of what files hold only over a shelf that tells it, and this one does. It also fails at the calls whose
//! numbers it was given, so that tests reach each way out. A name is looked for along the list of files, and each fetch copies
//! its file.
ghost use Rattle.std.specs.Prelude.{◌≡◌, ◌≢◌, ◌≤◌, ◌<◌, ◌⊎◌, ◌+◌, ◌-◌, ◌^◌, ℕ, min, [], ◌∷◌, ◌++◌, drop, length, take, true, false, List, None, Some, IfOk, OnOk, OnErr, IsErrOf, vec_len, string_bytes, option_map};
ghost use Rattle.std.specs.List.{position};
ghost use Rattle.std.specs.Str.{bytes_eq};
ghost use Rattle.wi_base.specs.declared.shelf.CallKind.{CallKind};
ghost use Rattle.wi_base.specs.Shelf.{after_fetch, after_store, BeginsAt, IsLonger, IsPart};
ghost use Rattle.wi_base.specs.FailedCalls.{calls_of};
ghost use Rattle.wi_base.specs.MemoryShelf.{file_in, with_file, is_to_fail};
ghost use Rattle.wi_base.specs.private.MemoryShelf.{file_of, files_of};

use crate::failed_call::{FailedCall, room_to_note};
use crate::no_memory::NoMemory;
use crate::shelf::{CallKind, FetchRefused, Shelf, StoreRefused};
use std::alloc::Global;
use std::marker::Model;

// A file with its name.
#[derive(Drop)]
struct NamedFile {
    name: String,
    bytes: Vec<u8>,
}

/// Files in memory, in the order in which they were first put there. It tells what it holds.
/// Calls of `fetch`, `fetch_part` and `store` are numbered together from 0, and those with a number in its list fail.
#[derive(Drop)]
pub struct MemoryShelf {
    files: Vec<NamedFile>,
    failed: Vec<FailedCall>,
    failing: Vec<u64>,
    calls: u64,
}

impl Model for MemoryShelf {
    ghost use Rattle.wi_base.specs.FailedCalls.{calls_of};
    ghost use Rattle.wi_base.specs.MemoryShelf.{Contents};
    ghost use Rattle.wi_base.specs.private.MemoryShelf.{files_of};

    ghost Value = { Contents };

    ghost view = { λ s. record { files = files_of s.files.items; failed = calls_of s.failed.items; failing = s.failing.items; calls = s.calls } };
}

impl MemoryShelf {
    /// No files, and no call that is to fail.
    pub fn new(alloc: Global) -> MemoryShelf
        ensures { result ≡ record { files = []; failed = []; failing = []; calls = 0 } }
    {
        MemoryShelf::failing(alloc, Vec::new(alloc))
    }

    /// No files, and a list of the calls that are to fail, by their numbers from 0.
    pub fn failing(alloc: Global, calls: Vec<u64>) -> MemoryShelf
        ensures { result ≡ record { files = []; failed = []; failing = calls.items; calls = 0 } }
    {
        MemoryShelf {
            files: Vec::new(alloc),
            failed: Vec::new(alloc),
            failing: calls,
            calls: 0,
        }
    }

    /// Puts bytes under a name. It is no call that could fail.
    pub fn insert(&mut self, name: &str, bytes: &[u8]) -> Result<(), NoMemory>
        ensures ok { OnOk result (self.new ≡ record self.old { files = with_file self.old.files name.now bytes.now }) }
        ensures err { OnErr result (self.new ≡ self.old) }
    {
        put_file(&mut self.files, name, bytes)
    }

    /// The bytes under a name.
    pub fn get(&self, name: &str) -> Option<&[u8]>
        ensures { option_map (λ bytes. bytes.now) result ≡ file_in self.now.files name.now }
    {
        bytes_under(&self.files, name)
    }

    /// The calls that failed, in their order.
    pub fn failed(&self) -> &[FailedCall]
        ensures { calls_of result.now ≡ self.now.failed }
    {
        &self.failed
    }

    // The number of this call.
    fn next_call(&mut self) -> u64
        ensures call { result ≡ self.old.calls }
        ensures counted { self.new ≡ record self.old { calls = min (self.old.calls + 1) (2 ^ 64 - 1) } }
    {
        let call = self.calls;
        self.calls = call.saturating_add(1);
        call
    }
}

impl Shelf for MemoryShelf {
    ghost seen = { λ s. record { told = true; file = file_in s.files; failed = s.failed } };

    fn fetch(&mut self, name: &str, limit: u64) -> Result<Vec<u8>, FetchRefused>
        ensures files { (other : List ℕ) → file_in self.new.files other ≡ file_in self.old.files other }
        ensures short { IfOk result (λ bytes. vec_len bytes ≤ limit) }
        ensures found { IfOk result (λ bytes. file_in self.old.files name.now ≡ Some bytes.items) }
        ensures too_big { IsErrOf result FetchRefused.TooBig → IsLonger (file_in self.old.files name.now) limit }
        ensures failed { self.new.failed ≡ after_fetch result name.now self.old.failed }

        // What is to fail fails, unless memory runs out. Nothing else does, but for a name with no file.
        ensures to_fail { is_to_fail self.old.failing self.old.calls ≡ true → IsErrOf result FetchRefused.Failed ⊎ IsErrOf result FetchRefused.Memory }
        ensures sure { is_to_fail self.old.failing self.old.calls ≡ false → IsErrOf result FetchRefused.Failed → file_in self.old.files name.now ≡ None }
        ensures kept { self.new.files ≡ self.old.files }
        ensures list { self.new.failing ≡ self.old.failing }
        ensures calls { self.new.calls ≡ min (self.old.calls + 1) (2 ^ 64 - 1) }
    {
        let call = self.next_call();
        let bytes = fetched(&self.files, &self.failing, call, &mut self.failed, name)?;
        copy_within(*self.failing.allocator(), bytes, limit)
    }

    fn fetch_part(&mut self, name: &str, at: u64, most: u32) -> Result<Vec<u8>, FetchRefused>
        ensures files { (other : List ℕ) → file_in self.new.files other ≡ file_in self.old.files other }
        ensures short { IfOk result (λ bytes. vec_len bytes ≤ most) }
        ensures part { IfOk result (λ bytes. IsPart (file_in self.old.files name.now) at most bytes.items) }
        ensures too_big { IsErrOf result FetchRefused.TooBig → ⊥ }
        ensures failed { self.new.failed ≡ after_fetch result name.now self.old.failed }

        // As many bytes as were asked for, where there are so many. What fails is said as for `fetch`.
        ensures full { IfOk result (λ bytes. option_map (λ file. take most (drop at file)) (file_in self.old.files name.now) ≡ Some bytes.items) }
        ensures to_fail { is_to_fail self.old.failing self.old.calls ≡ true → IsErrOf result FetchRefused.Failed ⊎ IsErrOf result FetchRefused.Memory }
        ensures sure { is_to_fail self.old.failing self.old.calls ≡ false → IsErrOf result FetchRefused.Failed → file_in self.old.files name.now ≡ None }
        ensures kept { self.new.files ≡ self.old.files }
        ensures list { self.new.failing ≡ self.old.failing }
        ensures calls { self.new.calls ≡ min (self.old.calls + 1) (2 ^ 64 - 1) }
    {
        let call = self.next_call();
        let bytes = fetched(&self.files, &self.failing, call, &mut self.failed, name)?;
        copy_part(*self.failing.allocator(), bytes, at, most)
    }

    #[tactic(auto, using(crate::proofs::Files::puts))]
    fn store(&mut self, name: &str, bytes: &[u8]) -> Result<(), StoreRefused>
        ensures others { (other : List ℕ) → other ≢ name.now → file_in self.new.files other ≡ file_in self.old.files other }
        ensures stored { OnOk result (file_in self.new.files name.now ≡ Some bytes.now) }
        ensures memory { IsErrOf result StoreRefused.Memory → file_in self.new.files name.now ≡ file_in self.old.files name.now }
        ensures failed { self.new.failed ≡ after_store result name.now self.old.failed }

        // What is to fail fails, unless memory runs out, and nothing else does.
        ensures to_fail { is_to_fail self.old.failing self.old.calls ≡ true → IsErrOf result StoreRefused.Failed ⊎ IsErrOf result StoreRefused.Memory }
        ensures sure { is_to_fail self.old.failing self.old.calls ≡ false → IsErrOf result StoreRefused.Failed → ⊥ }
        ensures put { OnOk result (self.new.files ≡ with_file self.old.files name.now bytes.now) }
        ensures kept { OnErr result (self.new.files ≡ self.old.files) }
        ensures list { self.new.failing ≡ self.old.failing }
        ensures calls { self.new.calls ≡ min (self.old.calls + 1) (2 ^ 64 - 1) }
    {
        let call = self.next_call();
        let Ok(noted) = room_to_note(&mut self.failed, CallKind::Store, name) else {
            return Err(StoreRefused::Memory);
        };
        if is_to_fail(&self.failing, call) {
            self.failed.push_reserved(noted);
            return Err(StoreRefused::Failed);
        }
        match put_file(&mut self.files, name, bytes) {
            Ok(()) => Ok(()),
            Err(NoMemory::Memory) => Err(StoreRefused::Memory),
        }
    }
}

// The bytes that a call of this number fetches from, if it doesn't fail. A call that fails is noted.
fn fetched<'a>(
    files: &'a [NamedFile],
    failing: &[u64],
    call: u64,
    failed: &mut Vec<FailedCall>,
    name: &str,
) -> Result<&'a [u8], FetchRefused>
    ensures found { IfOk result (λ bytes. file_in (files_of files.now) name.now ≡ Some bytes.now) }
    ensures failed { calls_of failed.new.items ≡ after_fetch result name.now (calls_of failed.old.items) }
    ensures to_fail { is_to_fail failing.now call ≡ true → IsErrOf result FetchRefused.Failed ⊎ IsErrOf result FetchRefused.Memory }
    ensures sure { is_to_fail failing.now call ≡ false → IsErrOf result FetchRefused.Failed → file_in (files_of files.now) name.now ≡ None }
    ensures too_big { IsErrOf result FetchRefused.TooBig → ⊥ }
{
    let Ok(noted) = room_to_note(failed, CallKind::Fetch, name) else {
        return Err(FetchRefused::Memory);
    };
    if is_to_fail(failing, call) {
        failed.push_reserved(noted);
        return Err(FetchRefused::Failed);
    }
    let Some(bytes) = bytes_under(files, name) else {
        failed.push_reserved(noted);
        return Err(FetchRefused::Failed);
    };
    Ok(bytes)
}

// A call of this number is to fail.
fn is_to_fail(failing: &[u64], call: u64) -> bool
    ensures { result ≡ is_to_fail failing.now call }
{
    failing.contains(&call)
}

// The place of the file of that name.
fn place_of(files: &[NamedFile], name: &str) -> Option<usize>
    ensures { result ≡ position (λ file. bytes_eq name.now (string_bytes file.name)) files.now }
{
    files.iter().position(|file| name == file.name.as_str())
}

// The bytes under a name.
#[tactic(auto, using(crate::proofs::Files::places))]
fn bytes_under<'a>(files: &'a [NamedFile], name: &str) -> Option<&'a [u8]>
    ensures { option_map (λ bytes. bytes.now) result ≡ file_in (files_of files.now) name.now }
{
    let place = place_of(files, name)?;
    Some(files[place].bytes.as_slice())
}

// Puts bytes under a name, in the place of those that are there.
fn put_file(files: &mut Vec<NamedFile>, name: &str, bytes: &[u8]) -> Result<(), NoMemory>
    ensures ok { OnOk result (files_of files.new.items ≡ with_file (files_of files.old.items) name.now bytes.now) }
    ensures err { OnErr result (files_of files.new.items ≡ files_of files.old.items) }
{
    let alloc = *files.allocator();
    let bytes = Vec::from_slice(alloc, bytes)?;
    match place_of(files, name) {
        Some(place) => files[place].bytes = bytes,
        None => {
            let name = String::from_str(alloc, name)?;
            files.push(NamedFile { name, bytes })?;
        }
    }
    Ok(())
}

// The bytes of a file, if they aren't more than the limit.
fn copy_within(alloc: Global, bytes: &[u8], limit: u64) -> Result<Vec<u8>, FetchRefused>
    ensures copy { IfOk result (λ copy. copy.items ≡ bytes.now) }
    ensures short { IfOk result (λ copy. vec_len copy ≤ limit) }
    ensures too_big { IsErrOf result FetchRefused.TooBig → limit < length bytes.now }
    ensures failed { IsErrOf result FetchRefused.Failed → ⊥ }
{
    if bytes.len() as u64 > limit {
        return Err(FetchRefused::TooBig);
    }
    match Vec::from_slice(alloc, bytes) {
        Ok(copy) => Ok(copy),
        Err(_) => Err(FetchRefused::Memory),
    }
}

// The bytes of a file from a place on, `most` of them at most.
fn copy_part(alloc: Global, bytes: &[u8], at: u64, most: u32) -> Result<Vec<u8>, FetchRefused>
    ensures copy { IfOk result (λ part. part.items ≡ take most (drop at bytes.now)) }
    ensures short { IfOk result (λ part. vec_len part ≤ most) }
    ensures begins { IfOk result (λ part. BeginsAt bytes.now at most part.items) }
    ensures too_big { IsErrOf result FetchRefused.TooBig → ⊥ }
    ensures failed { IsErrOf result FetchRefused.Failed → ⊥ }
{
    let rest = &bytes[bytes.len().min(at as usize)..];
    match Vec::from_slice(alloc, &rest[..rest.len().min(most as usize)]) {
        Ok(part) => Ok(part),
        Err(_) => Err(FetchRefused::Memory),
    }
}
