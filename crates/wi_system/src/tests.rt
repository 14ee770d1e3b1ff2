//! The real edge: files of the system and a standard stream. What the tests write lies where they run. What owns much ends by
//! `drop`, and no `?` stands beside it, since each way out at which it falls out of scope is proved by itself.
ghost use Rattle.std.specs.Prelude.{◌≤◌, IfOk};

use crate::file_shelf::FileShelf;
use crate::stream_sink::StreamSink;
use crate::transfer::{read_within, write_whole};
use std::alloc::{Allocator, Global};
use std::fmt::Debug;
use std::fs::{self, Metadata, OpenFile, OpenOptions, Permissions};
use std::io::{self, ErrorKind, Read, Seek, SeekFrom, Write};
use std::os::unix::fs::{PermissionsExt, symlink};
use std::process::Abort;
use std::rt::Files;
use std::test::Fail;
use wi_base::{CallKind, FailedCall, FetchRefused, PutRefused, Shelf, Sink, StoreRefused};

// One function for all comparisons: a test that asserts by itself takes longer to prove.
fn equal<T: PartialEq + Debug + Drop>(rt: &impl Abort, found: T, wanted: T) {
    assert_eq!(rt; found, wanted);
}

// A failed call: what it was to do, and on which file.
type Noted<'a> = (CallKind, &'a str);

fn are_noted(rt: &impl Abort, failed: &[FailedCall], noted: &[Noted]) {
    equal(rt, failed.len(), noted.len());
    for (call, noted) in failed.iter().zip(noted) {
        equal(rt, (call.kind, call.name.as_str()), *noted);
    }
}

fn is_fetched(
    rt: &impl Abort,
    fetched: Result<Vec<u8>, FetchRefused>,
    wanted: Result<&[u8], FetchRefused>,
) {
    match fetched {
        Ok(bytes) => {
            equal(rt, Ok(bytes.as_slice()), wanted);
            drop(bytes);
        }
        Err(refused) => equal(rt, Err(refused), wanted),
    }
}

// A file, a limit, and what is fetched.
type Fetched<'a> = (&'a str, u64, Result<&'a [u8], FetchRefused>);

fn are_fetched<R: Files + Drop>(rt: &impl Abort, shelf: &mut FileShelf<R>, files: &[Fetched]) {
    for (name, limit, wanted) in files {
        is_fetched(rt, shelf.fetch(name, *limit), *wanted);
    }
}

// What a new shelf fetches, and the calls that failed.
fn fetches<R: Files + Abort>(rt: &R, alloc: Global, files: &[Fetched], noted: &[Noted]) {
    let mut shelf = FileShelf::new(alloc, rt);
    are_fetched(rt, &mut shelf, files);
    are_noted(rt, shelf.failed(), noted);
    drop(shelf);
}

#[test]
fn a_file_is_fetched_whole(rt: HostRuntime) -> Result<(), Fail> {
    // More than one read gives.
    let bytes = vec![in rt.alloc(); b'w'; 150_000]?;
    let said = fetches_whole(&rt, rt.alloc(), bytes.as_slice());
    drop(bytes);
    said
}

fn fetches_whole(rt: &(impl Files + Abort), alloc: Global, bytes: &[u8]) -> Result<(), Fail> {
    fs::write(rt, "fetched", bytes)?;
    fetches(rt, alloc, &[("fetched", 150_000, Ok(bytes))], &[]);
    fs::remove_file(rt, "fetched")?;
    Ok(())
}

const MISSING: &[Fetched] = &[("missing", 9, Err(FetchRefused::Failed))];

#[test]
fn a_missing_file_fails_and_is_noted(rt: HostRuntime) {
    let noted = (CallKind::Fetch, "missing");
    fetches(&rt, rt.alloc(), MISSING, &[noted]);
}

const FOLDER: &[Fetched] = &[("/", 9, Err(FetchRefused::Failed))];

#[test]
fn a_folder_fails_as_a_file(rt: HostRuntime) {
    fetches(&rt, rt.alloc(), FOLDER, &[(CallKind::Fetch, "/")]);
}

// The last is a file without an end.
const LIMITS: &[Fetched] = &[
    ("long", 7, Ok(b"seven..")),
    ("long", 6, Err(FetchRefused::TooBig)),
    ("/dev/zero", 1_000_000, Err(FetchRefused::TooBig)),
];

#[test]
fn a_file_over_the_limit_is_too_big(rt: HostRuntime) -> Result<(), Fail> {
    fs::write(&rt, "long", "seven..")?;
    fetches(&rt, rt.alloc(), LIMITS, &[]);
    fs::remove_file(&rt, "long")?;
    Ok(())
}

// A place in `seven..`, the most bytes that are wanted, and those that are given.
type Part<'a> = (u64, u32, &'a [u8]);

const PARTS: &[Part] = &[
    (0, 7, b"seven.."),
    (0, 9, b"seven.."),
    (3, 2, b"en"),
    (5, 9, b".."),
    (7, 9, b""),
    (8, 0, b""),
];

fn gives_parts<R: Files + Drop>(rt: &impl Abort, shelf: &mut FileShelf<R>) {
    for (at, most, wanted) in PARTS {
        is_fetched(rt, shelf.fetch_part("parts", *at, *most), Ok(*wanted));
    }
}

#[test]
fn a_file_is_fetched_in_parts(rt: HostRuntime) -> Result<(), Fail> {
    let mut shelf = FileShelf::new(rt.alloc(), &rt);
    let said = fetches_parts(&rt, &mut shelf);
    drop(shelf);
    said
}

fn fetches_parts<R: Files + Drop>(
    rt: &(impl Files + Abort),
    shelf: &mut FileShelf<R>,
) -> Result<(), Fail> {
    fs::write(rt, "parts", "seven..")?;
    gives_parts(rt, shelf);
    fs::remove_file(rt, "parts")?;
    are_noted(rt, shelf.failed(), &[]);
    let gone = shelf.fetch_part("parts", 0, 1);
    is_fetched(rt, gone, Err(FetchRefused::Failed));
    are_noted(rt, shelf.failed(), &[(CallKind::Fetch, "parts")]);
    Ok(())
}

// The second takes the place of the first, which is longer.
const TEXTS: &[&str] = &["the first text\n", "the second\n"];

// What a file has.
fn has(rt: &(impl Files + Abort), alloc: Global, name: &str, text: &str) -> Result<(), Fail> {
    let read = io::read_to_string(alloc, fs::open(rt, name)?)?;
    equal(rt, read.as_str(), text);
    drop(read);
    Ok(())
}

fn is_absent(rt: &(impl Files + Abort), name: &str) -> Result<(), Fail> {
    equal(rt, fs::exists(rt, name)?, false);
    Ok(())
}

fn is_stored<R: Files + Drop>(
    rt: &(impl Files + Abort),
    alloc: Global,
    shelf: &mut FileShelf<R>,
    name: &str,
    text: &str,
) -> Result<(), Fail> {
    equal(rt, shelf.store(name, text.as_bytes()), Ok(()));
    has(rt, alloc, name, text)
}

fn stores<R: Files + Drop>(
    rt: &(impl Files + Abort),
    alloc: Global,
    shelf: &mut FileShelf<R>,
) -> Result<(), Fail> {
    for text in TEXTS {
        is_stored(rt, alloc, shelf, "stored", text)?;
        is_absent(rt, "stored.part0")?;
    }
    fs::remove_file(rt, "stored")?;
    are_noted(rt, shelf.failed(), &[]);
    Ok(())
}

#[test]
fn what_is_stored_is_read_back(rt: HostRuntime) -> Result<(), Fail> {
    let mut shelf = FileShelf::new(rt.alloc(), &rt);
    let said = stores(&rt, rt.alloc(), &mut shelf);
    drop(shelf);
    said
}

#[test]
fn what_a_kill_left_stands_and_is_in_nobodys_way(rt: HostRuntime) -> Result<(), Fail> {
    let mut shelf = FileShelf::new(rt.alloc(), &rt);
    let said = stores_beside(&rt, rt.alloc(), &mut shelf);
    drop(shelf);
    said
}

fn stores_beside<R: Files + Drop>(
    rt: &(impl Files + Abort),
    alloc: Global,
    shelf: &mut FileShelf<R>,
) -> Result<(), Fail> {
    fs::write(rt, "killed.part0", "a part")?;
    is_stored(rt, alloc, shelf, "killed", "whole")?;
    has(rt, alloc, "killed.part0", "a part")?;
    is_absent(rt, "killed.part1")?;
    fs::remove_file(rt, "killed.part0")?;
    fs::remove_file(rt, "killed")?;
    Ok(())
}

#[test]
fn a_link_stays_and_permissions_do(rt: HostRuntime) -> Result<(), Fail> {
    let mut shelf = FileShelf::new(rt.alloc(), &rt);
    let said = stores_behind_a_link(&rt, rt.alloc(), &mut shelf);
    drop(shelf);
    said
}

// The permissions are such as no new file has.
fn stores_behind_a_link<R: Files + Drop>(
    rt: &(impl Files + Abort),
    alloc: Global,
    shelf: &mut FileShelf<R>,
) -> Result<(), Fail> {
    fs::write(rt, "behind", "the older one")?;
    fs::set_permissions(rt, "behind", Permissions::from_mode(0o606))?;
    symlink(rt, "behind", "link")?;
    is_stored(rt, alloc, shelf, "link", "the newer one")?;
    has(rt, alloc, "behind", "the newer one")?;
    equal(rt, fs::symlink_metadata(rt, "link")?.is_symlink(), true);
    let mode = fs::metadata(rt, "behind")?.permissions().mode();
    equal(rt, mode & 0o777, 0o606);
    fs::remove_file(rt, "link")?;
    fs::remove_file(rt, "behind")?;
    Ok(())
}

// Two can't be made, and one takes no byte. With each, the failed calls up to it.
const NOT_STORED: &[(&str, &[Noted])] = &[
    (
        "no such folder/file",
        &[(CallKind::Store, "no such folder/file")],
    ),
    (
        "/dev/full",
        &[
            (CallKind::Store, "no such folder/file"),
            (CallKind::Store, "/dev/full"),
        ],
    ),
    (
        "",
        &[
            (CallKind::Store, "no such folder/file"),
            (CallKind::Store, "/dev/full"),
            (CallKind::Store, ""),
        ],
    ),
];

fn are_not_stored<R: Files + Drop>(rt: &impl Abort, shelf: &mut FileShelf<R>) {
    for (name, noted) in NOT_STORED {
        equal(rt, shelf.store(name, b"bytes"), Err(StoreRefused::Failed));
        are_noted(rt, shelf.failed(), noted);
    }
}

#[test]
fn a_store_that_fails_is_noted_and_leaves_nothing(rt: HostRuntime) -> Result<(), Fail> {
    let mut shelf = FileShelf::new(rt.alloc(), &rt);
    are_not_stored(&rt, &mut shelf);
    drop(shelf);
    is_absent(&rt, ".part0")
}

// What fails on a disk.
#[derive(Clone, Copy, PartialEq)]
enum Fault {
    // It is full once a write has taken five bytes.
    Full,
    // Nothing is renamed.
    Mounted,
}

// A file on such a disk.
#[derive(Drop)]
struct FaultyFile<F: Drop> {
    file: F,
    fault: Fault,
}

impl<F: Read + Drop> Read for FaultyFile<F> {
    fn read(&mut self, buf: &mut [u8]) -> io::Result<usize> {
        self.file.read(buf)
    }
}

impl<F: Write + Drop> Write for FaultyFile<F> {
    fn write(&mut self, buf: &[u8]) -> io::Result<usize> {
        match (self.fault, buf.get(..5)) {
            (Fault::Mounted, _) => self.file.write(buf),
            (Fault::Full, Some(five)) => self.file.write(five),
            (Fault::Full, None) => Err(io::Error::from(ErrorKind::StorageFull)),
        }
    }

    fn flush(&mut self) -> io::Result<()> {
        self.file.flush()
    }
}

impl<F: Seek + Drop> Seek for FaultyFile<F> {
    fn seek(&mut self, to: SeekFrom) -> io::Result<u64> {
        self.file.seek(to)
    }
}

impl<F: OpenFile + Drop> OpenFile for FaultyFile<F> {
    fn metadata(&self) -> io::Result<Metadata> {
        self.file.metadata()
    }

    fn set_len(&self, size: u64) -> io::Result<()> {
        self.file.set_len(size)
    }

    fn sync_all(&self) -> io::Result<()> {
        self.file.sync_all()
    }

    fn sync_data(&self) -> io::Result<()> {
        self.file.sync_data()
    }

    fn set_permissions(&self, perm: Permissions) -> io::Result<()> {
        self.file.set_permissions(perm)
    }
}

// Files of the system, on a disk with a fault.
#[derive(Drop)]
struct FaultyDisk<'a, R> {
    files: &'a R,
    fault: Fault,
}

impl<'a, R: Files> Files for FaultyDisk<'a, R> {
    type File = FaultyFile<R::File>;

    type Dir = R::Dir;

    fn open_file(&self, how: &OpenOptions, path: &str) -> io::Result<FaultyFile<R::File>> {
        let file = self.files.open_file(how, path)?;
        Ok(FaultyFile {
            file,
            fault: self.fault,
        })
    }

    fn open_dir(&self, path: &str) -> io::Result<R::Dir> {
        self.files.open_dir(path)
    }

    fn metadata(&self, path: &str) -> io::Result<Metadata> {
        self.files.metadata(path)
    }

    fn symlink_metadata(&self, path: &str) -> io::Result<Metadata> {
        self.files.symlink_metadata(path)
    }

    fn copy(&self, from: &str, to: &str) -> io::Result<u64> {
        self.files.copy(from, to)
    }

    fn rename(&self, from: &str, to: &str) -> io::Result<()> {
        match self.fault {
            Fault::Full => self.files.rename(from, to),
            Fault::Mounted => Err(io::Error::from(ErrorKind::ResourceBusy)),
        }
    }

    fn remove_file(&self, path: &str) -> io::Result<()> {
        self.files.remove_file(path)
    }

    fn create_dir(&self, path: &str) -> io::Result<()> {
        self.files.create_dir(path)
    }

    fn remove_dir(&self, path: &str) -> io::Result<()> {
        self.files.remove_dir(path)
    }

    fn remove_dir_all<B: Allocator>(&self, alloc: B, path: &str) -> io::Result<()> {
        self.files.remove_dir_all(alloc, path)
    }
}

// What fails, what a store of `the newer one` says then, and what stands after it in the place of `the older one`.
const FAULTS: &[(Fault, Result<(), StoreRefused>, &str)] = &[
    (Fault::Full, Err(StoreRefused::Failed), "the older one"),
    (Fault::Mounted, Ok(()), "the newer one"),
];

fn stores_on<R: Files + Abort>(
    rt: &R,
    alloc: Global,
    fault: Fault,
    said: Result<(), StoreRefused>,
    stands: &str,
) -> Result<(), Fail> {
    fs::write(rt, "faulty", "the older one")?;
    let mut shelf = FileShelf::new(alloc, FaultyDisk { files: rt, fault });
    let stored = shelf.store("faulty", b"the newer one");
    drop(shelf);
    equal(rt, stored, said);
    has(rt, alloc, "faulty", stands)?;
    is_absent(rt, "faulty.part0")?;
    fs::remove_file(rt, "faulty")?;
    Ok(())
}

#[test]
fn a_full_disk_leaves_the_older_file_and_a_mounted_one_is_written_where_it_stands(
    rt: HostRuntime,
) -> Result<(), Fail> {
    for (fault, said, stands) in FAULTS {
        stores_on(&rt, rt.alloc(), *fault, *said, stands)?;
    }
    Ok(())
}

// Pieces, and what a put of each answers.
type Put<'a> = (&'a [u8], Result<(), PutRefused>);

fn takes<W: Write + Drop>(rt: &impl Abort, out: &mut StreamSink<W>, puts: &[Put], faults: u64) {
    for (piece, wanted) in puts {
        equal(rt, out.put(piece), *wanted);
    }
    equal(rt, out.faults(), faults);
}

const LINE: &[Put] = &[(b"a line on standard output\n", Ok(()))];

#[test]
fn standard_output_takes_bytes(rt: HostRuntime) {
    let mut out = StreamSink::new(rt.stdout());
    takes(&rt, &mut out, LINE, 0);
    drop(out);
}

const TO_FULL: &[Put] = &[
    (b"", Ok(())),
    (b"bytes", Err(PutRefused::Failed)),
    (b"bytes", Err(PutRefused::Failed)),
];

#[test]
fn a_stream_that_fails_is_counted(rt: HostRuntime) -> Result<(), Fail> {
    let full = fs::File::options().write(true).open(&rt, "/dev/full")?;
    let mut out = StreamSink::new(full);
    takes(&rt, &mut out, TO_FULL, 2);
    drop(out);
    Ok(())
}

// A stream that gives or takes a byte a call, as long as it is to, and then fails, or gives and takes nothing.
#[derive(Drop)]
struct Drip {
    bytes: u8,
    fails: bool,
}

impl Drip {
    fn one(&mut self) -> io::Result<usize>
        ensures { IfOk result (λ n. n ≤ 1) }
    {
        if self.bytes > 0 {
            self.bytes -= 1;
            return Ok(1);
        }
        if self.fails {
            return Err(io::Error::from(ErrorKind::BrokenPipe));
        }
        Ok(0)
    }
}

impl Read for Drip {
    fn read(&mut self, buf: &mut [u8]) -> io::Result<usize> {
        match buf.first_mut() {
            Some(byte) => {
                *byte = b'd';
                self.one()
            }
            None => Ok(0),
        }
    }
}

impl Write for Drip {
    fn write(&mut self, buf: &[u8]) -> io::Result<usize> {
        if buf.is_empty() { Ok(0) } else { self.one() }
    }

    fn flush(&mut self) -> io::Result<()> {
        Ok(())
    }
}

// It has five bytes.
fn of_five_bytes(fails: bool) -> Drip {
    Drip { bytes: 5, fails }
}

// Whether the stream fails in the end, a limit, and what is read.
const READS: &[(bool, u64, Result<&[u8], FetchRefused>)] = &[
    (false, 5, Ok(b"ddddd")),
    (false, 4, Err(FetchRefused::TooBig)),
    (true, 5, Err(FetchRefused::Failed)),
];

// Whether the stream fails in the end, a piece, and whether it is written whole.
const WRITES: &[(bool, &[u8], bool)] = &[
    (true, b"ddddd", true),
    (true, b"dddddd", false),
    (false, b"dddddd", false),
];

fn is_written(fails: bool, piece: &[u8]) -> bool {
    match write_whole(&mut of_five_bytes(fails), piece) {
        Ok(()) => true,
        Err(refused) => {
            drop(refused);
            false
        }
    }
}

#[test]
fn parts_make_a_whole_and_a_failure_between_them_fails(rt: HostRuntime) {
    for (fails, limit, wanted) in READS {
        let read = read_within(rt.alloc(), &mut of_five_bytes(*fails), *limit);
        is_fetched(&rt, read, *wanted);
    }
    for (fails, piece, wanted) in WRITES {
        equal(&rt, is_written(*fails, piece), *wanted);
    }
}
