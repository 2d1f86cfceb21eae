//! Messages of any bytes, also of none. As an entry such a message has the index 0, as an empty
//! message has.
ghost use Rattle.std.specs.Prelude.{◌≡◌};

use raft_records::{Fault, Message, MessageExt};
use std::alloc::{AllocError, Global};

/// A message: its bytes.
#[derive(Drop)]
pub(crate) struct Plain {
    pub(crate) bytes: Vec<u8>,
}

impl Message for Plain {
    ghost bytes_of = { λ m. m.bytes.items };

    ghost is_parsed = { λ bytes m. m.bytes.items ≡ bytes };

    fn parse(alloc: Global, bytes: &[u8]) -> Result<Plain, Fault> {
        let bytes = bytes.to_vec(alloc)?;
        Ok(Plain { bytes })
    }

    fn to_bytes(&self, buffer: &mut Vec<u8>) -> Result<(), AllocError> {
        buffer.extend_from_slice(&self.bytes)
    }
}

impl MessageExt for Plain {
    type Entry = Plain;

    ghost index_of = { λ _. 0 };

    fn index(_: &Plain) -> u64 {
        0
    }
}
