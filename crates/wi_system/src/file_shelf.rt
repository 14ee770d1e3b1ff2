//! Files of the system are touched here and in `store` alone. No contract can say what they hold, so this shelf tells nothing,
//! and notes what fails; room for a note is made first, and where there is none, no file is touched.
ghost use Rattle.std.specs.Prelude.{◌≡◌, ◌≤◌, ◌<◌, [], None, false, IfOk, IsErrOf, vec_len, vec_capacity, string_bytes};
ghost use Rattle.wi_base.specs.Shelf.{after_fetch};
ghost use Rattle.wi_base.specs.FailedCalls.{calls_of};
ghost use Rattle.wi_base.specs.declared.shelf.CallKind.{CallKind};

use crate::store::store_file;
use crate::transfer::{read_part, read_within};
use std::alloc::Global;
use std::fs;
use std::marker::Model;
use std::rt::Files;
use wi_base::{CallKind, FailedCall, FetchRefused, Shelf, StoreRefused, room_to_note};

/// The files of the system, by their paths. It doesn't tell what they hold. It notes its failed calls, and makes room
/// for the note first: where there is none, no file is touched.
#[derive(Drop)]
pub struct FileShelf<R: Files + Drop> {
    alloc: Global,
    files: R,
    failed: Vec<FailedCall>,
}

impl<R: Files + Drop> Model for FileShelf<R> {
    ghost use Rattle.std.specs.Prelude.{ℕ, List};
    ghost use Rattle.wi_base.specs.declared.shelf.CallKind.{CallKind};
    ghost use Rattle.wi_base.specs.FailedCalls.{calls_of};

    ghost Value = { List (CallKind × List ℕ) };

    ghost view = { λ s. calls_of s.failed.items };
}

impl<R: Files + Drop> FileShelf<R> {
    ghost use Rattle.wi_base.specs.FailedCalls.{calls_of};

    /// No call has failed yet.
    pub fn new(alloc: Global, files: R) -> FileShelf<R>
        ensures { result ≡ [] }
    {
        FileShelf {
            alloc,
            files,
            failed: Vec::new(alloc),
        }
    }

    /// The calls that failed, in their order.
    pub fn failed(&self) -> &[FailedCall]
        ensures { calls_of result.now ≡ self.now }
    {
        &self.failed
    }
}

impl<R: Files + Drop> Shelf for FileShelf<R> {
    ghost seen = { λ s. record { told = false; file = λ _. None; failed = s } };

    fn fetch(&mut self, name: &str, limit: u64) -> Result<Vec<u8>, FetchRefused> {
        let Ok(this_fetch) = room_to_note(&mut self.failed, CallKind::Fetch, name) else {
            return Err(FetchRefused::Memory);
        };
        let fetched = fetch_file(self.alloc, &self.files, name, limit);
        noting(&mut self.failed, this_fetch, fetched)
    }

    fn fetch_part(&mut self, name: &str, at: u64, most: u32) -> Result<Vec<u8>, FetchRefused> {
        let Ok(this_fetch) = room_to_note(&mut self.failed, CallKind::Fetch, name) else {
            return Err(FetchRefused::Memory);
        };
        let fetched = fetch_part_of_file(self.alloc, &self.files, name, at, most);
        noting(&mut self.failed, this_fetch, fetched)
    }

    fn store(&mut self, name: &str, bytes: &[u8]) -> Result<(), StoreRefused> {
        let Ok(this_store) = room_to_note(&mut self.failed, CallKind::Store, name) else {
            return Err(StoreRefused::Memory);
        };
        let stored = store_file(self.alloc, &self.files, name, bytes);
        if stored == Err(StoreRefused::Failed) {
            self.failed.push_reserved(this_store);
        }
        stored
    }
}

// What a call fetched. There is room to note it if it failed.
fn noting(
    failed: &mut Vec<FailedCall>,
    this_fetch: FailedCall,
    fetched: Result<Vec<u8>, FetchRefused>,
) -> Result<Vec<u8>, FetchRefused>
    requires room { vec_len failed.old < vec_capacity failed.old }
    requires kind { this_fetch.kind ≡ CallKind.Fetch }
    ensures fetched { result ≡ fetched }
    ensures noted { calls_of failed.new.items ≡ after_fetch fetched (string_bytes this_fetch.name) (calls_of failed.old.items) }
{
    if fetched == Err(FetchRefused::Failed) {
        failed.push_reserved(this_fetch);
    }
    fetched
}

// The bytes of a file.
fn fetch_file<R: Files>(
    alloc: Global,
    files: &R,
    name: &str,
    limit: u64,
) -> Result<Vec<u8>, FetchRefused>
    ensures { IfOk result (λ bytes. vec_len bytes ≤ limit) }
{
    match fs::open(files, name) {
        Ok(mut file) => read_within(alloc, &mut file, limit),
        Err(_) => Err(FetchRefused::Failed),
    }
}

// The bytes of a file from a place on.
fn fetch_part_of_file<R: Files>(
    alloc: Global,
    files: &R,
    name: &str,
    at: u64,
    most: u32,
) -> Result<Vec<u8>, FetchRefused>
    ensures short { IfOk result (λ bytes. vec_len bytes ≤ most) }
    ensures too_big { IsErrOf result FetchRefused.TooBig → ⊥ }
{
    match fs::open(files, name) {
        Ok(mut file) => read_part(alloc, &mut file, at, most),
        Err(_) => Err(FetchRefused::Failed),
    }
}
