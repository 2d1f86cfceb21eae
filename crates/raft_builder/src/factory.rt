//! A factory of machines.

use raft_records::{Factory, Fault, Fresh};
use std::alloc::Global;

/// Makes machines of any type that has fresh values.
#[derive(Clone, Copy)]
pub struct DefaultMachineFactory {
    alloc: Global,
}

impl DefaultMachineFactory {
    pub fn new(alloc: Global) -> DefaultMachineFactory {
        DefaultMachineFactory { alloc }
    }
}

impl Fresh for DefaultMachineFactory {
    ghost use Rattle.std.specs.Prelude.{⊤};

    ghost is_fresh = { λ _. ⊤ };

    fn fresh(alloc: Global) -> DefaultMachineFactory {
        DefaultMachineFactory::new(alloc)
    }
}

impl<M: Fresh> Factory<M> for DefaultMachineFactory {
    ghost is_new = { λ machine. M.is_fresh machine };

    fn new_target(&self) -> Result<M, Fault> {
        Ok(M::fresh(self.alloc))
    }
}
