//! A disk that gives orders.
ghost use Rattle.std.specs.Prelude.{◌≡◌, ◌∷◌, ◌++◌, [], IfOk, IsSome, OnErr, OnOk, map};
ghost use Rattle.std.specs.String.{string_bytes};
ghost use Rattle.std.proofs.Props.{props};
ghost use Rattle.raft_env.specs.Refusal.{no_refusals};
ghost use Rattle.raft_disk.specs.Mirror.{mirror_directory, mirror_moments, mirror_refusals};
ghost use Rattle.raft_memory.specs.Memory.{memory_directory};
ghost use Rattle.raft_memory.specs.Settled.{settled_files};
ghost use Rattle.raft_orders.specs.Order.{order_bytes, order_of};

use raft_base::History;
use raft_codec::number::push_u64;
use raft_disk::{Call, Disk, Mirror, is_plain};
use raft_env::{FsFault, IoKind};
use raft_memory::{MemoryFileSystem, NotedBytes};
use std::alloc::{AllocError, Global};

/// Orders by which a caller makes its files those of an image. Each is written to a descriptor
/// before it is noted, in the bytes of `order_bytes`.
#[derive(Drop)]
pub struct Orders {
    alloc: Global,
    /// None: nobody carries the orders out, and none is written.
    out: Option<i32>,
    buffer: Vec<u8>,
    /// The orders and the bytes that were written, only for clauses, as the files that were found.
    told: History<Call>,
    written: History<NotedBytes>,
    found: History<MemoryFileSystem>,
    ghost in_bytes: { IsSome out → ∥ written.items ≡ map order_bytes told.items ∥₁ },
}

/// A file that is open to be changed.
#[derive(Drop)]
pub struct OrderedFile {
    path: String,
}

const CREATE: u8 = 1;

const DELETE: u8 = 2;

const RENAME: u8 = 3;

const MAKE_FOLDER: u8 = 4;

const WRITE: u8 = 5;

const TRUNCATE: u8 = 6;

const ALLOCATE: u8 = 7;

const SYNC: u8 = 8;

// Puts an order in place of what the buffer holds.
fn put(
    buffer: &mut Vec<u8>,
    kind: u8,
    number: u64,
    first: &[u8],
    second: &[u8],
) -> Result<(), AllocError>
    ensures ok { OnOk result (buffer.new.items ≡ order_of kind number first.now second.now) }
{
    buffer.clear();
    buffer.push(kind)?;
    push_u64(buffer, number)?;
    push_u64(buffer, first.len() as u64)?;
    push_u64(buffer, second.len() as u64)?;
    buffer.extend_from_slice(first)?;
    buffer.extend_from_slice(second)
}

impl Orders {
    ghost use Rattle.raft_orders.specs.Orders.{goes_to, ordered_of};

    /// Orders to a descriptor, by which the caller keeps files that are these now.
    pub fn new(alloc: Global, out: Option<i32>, files: &MemoryFileSystem) -> Orders
        ensures value { ordered_of result ≡ memory_directory files.now }
        ensures out { goes_to result ≡ out }
    {
        Orders {
            alloc,
            out,
            buffer: Vec::new(alloc),
            told: History::new(),
            written: History::new(),
            found: History::new().with(files),
        }
    }

    // Gives an order, which has these bytes.
    #[tactic(auto, using(crate::proofs::OrderLemmas::written_with))]
    fn give(
        &mut self,
        order: &Call,
        kind: u8,
        number: u64,
        first: &[u8],
        second: &[u8],
    ) -> Result<(), FsFault>
        requires { order_bytes order.now ≡ order_of kind number first.now second.now }
        ensures ok { OnOk result (self.new.told.items ≡ order.now ∷ self.old.told.items) }
        ensures err { OnErr result (self.new.told.items ≡ self.old.told.items) }
        ensures found { self.new.found.items ≡ self.old.found.items }
    {
        let Some(out) = self.out else {
            self.told = self.told.with(order);
            return Ok(());
        };
        if put(&mut self.buffer, kind, number, first, second).is_err() {
            return Err(FsFault::Memory);
        }
        if !io::write_all(out, &self.buffer) {
            return Err(FsFault::Io(IoKind::Other));
        }
        self.written = self.written.with(&NotedBytes::of(&self.buffer));
        self.told = self.told.with(order);
        Ok(())
    }
}

impl Disk for Orders {
    ghost use Rattle.raft_orders.specs.Orders.{ordered_of};

    type File = OrderedFile;

    ghost told = { ordered_of };

    ghost file_path = { λ f. string_bytes f.path };

    fn check_file(&self, path: &str) -> Result<(), FsFault> {
        if is_plain(path) {
            return Ok(());
        }
        Err(FsFault::Io(IoKind::Other))
    }

    fn check_folder(&self, path: &str) -> Result<(), FsFault> {
        if path.is_empty() {
            return Ok(());
        }
        self.check_file(path)
    }

    fn check_rename(&self, _from: &str, _to: &str) -> Result<(), FsFault> {
        Ok(())
    }

    fn create(&mut self, path: &str) -> Result<(), FsFault> {
        let path = path.as_bytes();
        let order = Call::Create(NotedBytes::of(path));
        self.give(&order, CREATE, 0, path, &[])
    }

    fn delete(&mut self, path: &str) -> Result<(), FsFault> {
        let path = path.as_bytes();
        let order = Call::Delete(NotedBytes::of(path));
        self.give(&order, DELETE, 0, path, &[])
    }

    fn rename(&mut self, from: &str, to: &str) -> Result<(), FsFault> {
        let (from, to) = (from.as_bytes(), to.as_bytes());
        let order = Call::Rename(NotedBytes::of(from), NotedBytes::of(to));
        self.give(&order, RENAME, 0, from, to)
    }

    fn make_dir(&mut self, path: &str) -> Result<(), FsFault> {
        let path = path.as_bytes();
        let order = Call::MakeFolder(NotedBytes::of(path));
        self.give(&order, MAKE_FOLDER, 0, path, &[])
    }

    fn path_of<'a>(&self, file: &'a OrderedFile) -> &'a str {
        file.path.as_str()
    }

    fn open(&mut self, path: &str) -> Result<OrderedFile, FsFault> {
        match String::from_str(self.alloc, path) {
            Ok(path) => Ok(OrderedFile { path }),
            Err(_) => Err(FsFault::Memory),
        }
    }

    fn write(&mut self, file: &mut OrderedFile, at: usize, bytes: &[u8]) -> Result<usize, FsFault> {
        let path = file.path.as_bytes();
        let count = bytes.len();
        let order = Call::Write(NotedBytes::of(path), at, NotedBytes::of(bytes), count);
        self.give(&order, WRITE, at as u64, path, bytes)?;
        Ok(count)
    }

    fn truncate(&mut self, file: &mut OrderedFile, size: usize) -> Result<(), FsFault> {
        let path = file.path.as_bytes();
        let order = Call::Truncate(NotedBytes::of(path), size);
        self.give(&order, TRUNCATE, size as u64, path, &[])
    }

    fn allocate(&mut self, file: &mut OrderedFile, at: usize, size: usize) -> Result<(), FsFault> {
        let Some(end) = at.checked_add(size) else {
            return Err(FsFault::Io(IoKind::NoSpace));
        };
        let path = file.path.as_bytes();
        let order = Call::Allocate(NotedBytes::of(path), at, size);
        self.give(&order, ALLOCATE, end as u64, path, &[])
    }

    fn sync(&mut self, file: &mut OrderedFile) -> Result<(), FsFault> {
        let path = file.path.as_bytes();
        let order = Call::Sync(NotedBytes::of(path));
        self.give(&order, SYNC, 0, path, &[])
    }
}

/// Files that a caller keeps by orders, with an image of them for reads.
pub type OrderedFileSystem = Mirror<Orders, MemoryFileSystem>;

/// Files that a caller found by their paths, and folders, which it keeps by the orders to a
/// descriptor.
pub fn ordered_files(
    alloc: Global,
    out: Option<i32>,
    files: Vec<(String, Vec<u8>)>,
    folders: Vec<String>,
) -> Result<OrderedFileSystem, AllocError>
    ensures value { IfOk result (λ m. mirror_directory m
        ≡ settled_files files.items folders.items) }
    ensures any_moment { IfOk result (λ m. mirror_moments m ≡ mirror_directory m ∷ []) }
    ensures counts { IfOk result (λ m. mirror_refusals m ≡ no_refusals) }
{
    let image = MemoryFileSystem::settled(alloc, files, folders)?;
    Ok(Mirror::new(alloc, Orders::new(alloc, out, &image), image))
}
