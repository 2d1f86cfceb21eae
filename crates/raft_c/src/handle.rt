//! What C holds of a log.
ghost use Rattle.std.specs.Prelude.{◌≡◌, IsSome, Option, Some, None};
ghost use Rattle.raft_c.specs.Handle.{handle_owns, log_coded};
ghost use Rattle.raft_c.specs.declared.log.Log.{Log as LogValue};

use crate::log::Log;
use crate::raw_box::RawBox;
use std::alloc::Global;
use std::marker::Model;

/// The address of a log, or null.
#[repr(C)]
#[derive(Drop)]
pub struct Handle {
    at: *mut u8,
    pub(crate) ghost value: { Option LogValue } by { log_coded },
}

impl Model for Handle {
    ghost also_owns = { λ h. handle_owns h.at h.value };
}

impl Handle {
    pub(crate) fn none() -> Handle
        ensures { result.value ≡ None }
    {
        Handle {
            at: std::ptr::null_mut(),
        }
    }

    pub(crate) fn of_box(log: Box<Log>) -> Handle
        ensures { result.value ≡ Some log.value }
    {
        Handle::of_raw(RawBox::from_box(log))
    }

    pub(crate) fn into_box(self, alloc: Global) -> Box<Log>
        requires { IsSome self.value }
        ensures { Some result.value ≡ self.value }
    {
        self.into_raw(alloc).into_box()
    }

    fn of_raw(raw: RawBox<Log, Global>) -> Handle
        ensures { result.value ≡ Some raw.value }
    {
        let RawBox { at, alloc: _ } = raw;
        Handle { at: at as *mut u8 }
    }

    fn into_raw(self, alloc: Global) -> RawBox<Log, Global>
        requires { IsSome self.value }
        ensures { Some result.value ≡ self.value }
    {
        let Handle { at } = self;
        RawBox {
            at: at as *mut Log,
            alloc,
        }
    }
}
