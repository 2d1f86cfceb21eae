//! Sources of the parts of a log file.
ghost use Rattle.std.specs.Prelude.{◌≡◌, ◌∷◌, List, IfErr, IfOk, OnErr, length};
ghost use Rattle.raft_dump.specs.Parts.{IsReadRefusal};
ghost use Rattle.raft_dump.specs.declared.part_source.FilePart.{FilePart};

use raft_env::{FsFault, IoKind};
use raft_records::Fault;
use std::alloc::Global;

/// A part of a file's bytes.
#[derive(Drop)]
pub struct FilePart {
    /// The place from which on bytes were requested, and how many.
    pub at: usize,
    pub len: usize,
    /// The bytes there, fewer at the end of the file.
    pub bytes: Vec<u8>,
}

/// A file whose bytes are read part by part. No clause can say what a system reads: `given` are the
/// returned parts.
pub trait PartSource {
    /// The parts that were returned, the newest first.
    ghost given: { Self → List FilePart };

    /// So many bytes from a place on, fewer at the end of the file.
    fn read_part(&mut self, at: usize, len: usize) -> Result<FilePart, Fault>
        ensures value { IfOk result (λ part. (part.at ≡ at) × (part.len ≡ len)) }
        ensures ok { IfOk result (λ part. given self.new ≡ part ∷ given self.old) }
        ensures err { OnErr result (given self.new ≡ given self.old) }
        ensures cause { IfErr result IsReadRefusal };
}

/// Exactly so many bytes from a place on. It fails with `Io` if the file ends before, for example
/// because it was cut meanwhile.
pub fn read_whole_part<S: PartSource>(
    alloc: Global,
    path: &str,
    source: &mut S,
    at: usize,
    len: usize,
) -> Result<FilePart, Fault>
    ensures value { IfOk result (λ part. (part.at ≡ at) × (part.len ≡ len)
        × (length part.bytes.items ≡ len)) }
    ensures ok { IfOk result (λ part. S.given source.new ≡ part ∷ S.given source.old) }
    ensures cause { IfErr result IsReadRefusal }
{
    let part = source.read_part(at, len)?;
    if part.bytes.len() == len {
        Ok(part)
    } else {
        Err(FsFault::Io(IoKind::Other).with_path(alloc, path))
    }
}
