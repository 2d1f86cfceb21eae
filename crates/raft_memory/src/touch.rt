//! Memory that is fetched before its use.

/// How many bytes the processor fetches from memory at once.
const LINE: usize = 64;

/// Reads a byte of each line of these parts in one loop, so that the processor waits for all lines
/// at once and not for one after the other. The sum keeps the reads, and has no meaning.
pub(crate) fn touch(bytes: &[u8], parts: &[(usize, usize)]) -> u64 {
    let mut sum = 0u64;
    for part in parts {
        let end = part.1.min(bytes.len());
        let part = bytes.get(part.0..end).unwrap_or(&[]);
        for line in part.chunks(LINE) {
            sum = sum.wrapping_add(line.first().copied().unwrap_or(0) as u64);
        }
    }
    sum
}
