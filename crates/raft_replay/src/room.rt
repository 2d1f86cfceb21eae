//! Room in memory, made ahead of what an opening keeps.

use std::alloc::Global;

/// The number of items after which room is reserved, again and again.
const ITEMS: usize = 4096;

/// The bytes that are requested: more than so many items mostly take.
const BYTES: usize = 4 << 20;

/// Counts items that are taken, and reserves room in memory ahead of them. A thread's own memory
/// grows by a system call for each page, and all threads wait for it. After a larger request, which
/// is freed at once and never written to, it grows in one step.
#[derive(Drop)]
pub(crate) struct RoomAhead {
    left: usize,
}

impl RoomAhead {
    pub(crate) fn new() -> RoomAhead {
        RoomAhead { left: ITEMS }
    }

    /// Counts so many more. A failed request changes nothing.
    pub(crate) fn count(&mut self, alloc: Global, items: usize) {
        if items < self.left {
            self.left -= items;
            return;
        }
        self.left = ITEMS;
        if let Ok(room) = Vec::<u8>::with_capacity(alloc, BYTES) {
            let_go(room);
        }
    }
}

// Apart, or a compiler sees that nothing uses the room and leaves the request out.
#[inline(never)]
fn let_go(_room: Vec<u8>) {}
