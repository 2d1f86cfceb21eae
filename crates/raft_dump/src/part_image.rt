//! A part of a log file after the file's header, as a file in memory.
ghost use Rattle.std.specs.Prelude.{◌≡◌, ◌++◌, IfErr, IfOk};
ghost use Rattle.raft_base.specs.declared.errors.Fault.TheVariants.{Memory};
ghost use Rattle.raft_memory.specs.Memory.{memory_directory};
ghost use Rattle.raft_files.specs.Writer.{bytes_at};

use raft_memory::MemoryFileSystem;
use raft_records::Fault;
use std::alloc::Global;

/// Files in memory; one of them has this path and these bytes.
pub fn image_of_part(
    alloc: Global,
    path: &str,
    header: &[u8],
    part: &[u8],
) -> Result<MemoryFileSystem, Fault>
    ensures value { IfOk result (λ m. bytes_at path.now (memory_directory m)
        ≡ header.now ++ part.now) }
    ensures memory { IfErr result (λ e. e ≡ Memory) }
{
    let mut bytes = Vec::with_capacity(alloc, header.len().saturating_add(part.len()))?;
    bytes.extend_from_slice(header)?;
    bytes.extend_from_slice(part)?;
    let name = String::from_str(alloc, path)?;
    let files = vec![in alloc; (name, bytes)]?;
    Ok(MemoryFileSystem::settled(alloc, files, Vec::new(alloc))?)
}
