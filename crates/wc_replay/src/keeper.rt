use std::alloc::Global;
use wc_outside::{Failed, KeepFault, Keeper};
use wc_scripted::MemoryKeeper;
use wc_text::Text;

/// A keeper in memory, whose reads may find no memory for what they read.
#[derive(Drop)]
pub struct ReplayKeeper {
    keeper: MemoryKeeper,
    starves: bool,
}

impl ReplayKeeper {
    pub fn new(keeper: MemoryKeeper, starves: bool) -> ReplayKeeper {
        ReplayKeeper { keeper, starves }
    }

    /// The bytes that are kept.
    pub fn contents(&self) -> &[u8] {
        self.keeper.contents()
    }
}

impl Keeper for ReplayKeeper {
    ghost contents = { λ keeper. ⟦<MemoryKeeper as Keeper>⟧.contents keeper.keeper };

    ghost faults = { λ keeper. ⟦<MemoryKeeper as Keeper>⟧.faults keeper.keeper };

    fn read_all(&mut self, alloc: Global) -> Result<Text, KeepFault> {
        if self.starves {
            return Err(KeepFault::NoMemory);
        }
        self.keeper.read_all(alloc)
    }

    fn replace(&mut self, bytes: &[u8]) -> Result<(), Failed> {
        self.keeper.replace(bytes)
    }
}
