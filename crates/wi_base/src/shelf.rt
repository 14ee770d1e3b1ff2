//! Small files go whole, each taking its length in memory; one that may be large is fetched a part at a time, so that it never
//! stands in memory at once. A shelf notes its failed calls, since a body that always answers `Failed` would otherwise keep
//! every contract: it costs a list of these calls.
ghost use Rattle.std.specs.Prelude.{◌≡◌, ◌≢◌, ◌≤◌, ℕ, true, List, Some, IfOk, OnOk, IsErrOf, vec_len};
ghost use Rattle.wi_base.specs.Shelf.{ShelfSeen, after_fetch, after_store, IsLonger, IsPart};

/// What a call on a shelf was to do. A part is fetched as a whole file is.
#[derive(Clone, Copy, PartialEq, Eq, Debug)]
pub enum CallKind {
    Fetch,
    Store,
}

/// Why a file wasn't fetched.
#[derive(Clone, Copy, PartialEq, Eq, Debug)]
pub enum FetchRefused {
    /// The call failed, and the shelf has noted it.
    Failed,
    /// The file is longer than the limit.
    TooBig,
    /// Memory ran out.
    Memory,
}

/// Why a file wasn't stored.
#[derive(Clone, Copy, PartialEq, Eq, Debug)]
pub enum StoreRefused {
    /// The call failed, and the shelf has noted it. Nothing is known of the file of that name.
    Failed,
    /// Memory ran out. Nothing has changed.
    Memory,
}

/// Files by name. A shelf may tell what it holds; one on a disk doesn't. Each notes its failed calls.
pub trait Shelf {
    /// What is seen of the shelf.
    ghost seen: { Self → ShelfSeen };

    /// The bytes of a file, `limit` bytes at most. No file changes.
    fn fetch(&mut self, name: &str, limit: u64) -> Result<Vec<u8>, FetchRefused>
        ensures told { (seen self.new).told ≡ (seen self.old).told }
        ensures files { (other : List ℕ) → (seen self.new).file other ≡ (seen self.old).file other }
        ensures short { IfOk result (λ bytes. vec_len bytes ≤ limit) }
        ensures found { (seen self.old).told ≡ true → IfOk result (λ bytes. (seen self.old).file name.now ≡ Some bytes.items) }
        ensures too_big { (seen self.old).told ≡ true → IsErrOf result FetchRefused.TooBig → IsLonger ((seen self.old).file name.now) limit }
        ensures failed { (seen self.new).failed ≡ after_fetch result name.now (seen self.old).failed };

    /// The next bytes of a file from a place on, `most` of them at most: fewer where it ends before, and perhaps elsewhere, but
    /// none only from its end on. It is never `TooBig`. No file changes.
    fn fetch_part(&mut self, name: &str, at: u64, most: u32) -> Result<Vec<u8>, FetchRefused>
        ensures told { (seen self.new).told ≡ (seen self.old).told }
        ensures files { (other : List ℕ) → (seen self.new).file other ≡ (seen self.old).file other }
        ensures short { IfOk result (λ bytes. vec_len bytes ≤ most) }
        ensures part { (seen self.old).told ≡ true → IfOk result (λ bytes. IsPart ((seen self.old).file name.now) at most bytes.items) }
        ensures too_big { IsErrOf result FetchRefused.TooBig → ⊥ }
        ensures failed { (seen self.new).failed ≡ after_fetch result name.now (seen self.old).failed };

    /// Puts bytes under a name, in the place of those that are there. Files of other names stand.
    fn store(&mut self, name: &str, bytes: &[u8]) -> Result<(), StoreRefused>
        ensures told { (seen self.new).told ≡ (seen self.old).told }
        ensures others { (other : List ℕ) → other ≢ name.now → (seen self.new).file other ≡ (seen self.old).file other }
        ensures stored { (seen self.old).told ≡ true → OnOk result ((seen self.new).file name.now ≡ Some bytes.now) }
        ensures memory { IsErrOf result StoreRefused.Memory → (seen self.new).file name.now ≡ (seen self.old).file name.now }
        ensures failed { (seen self.new).failed ≡ after_store result name.now (seen self.old).failed };
}
