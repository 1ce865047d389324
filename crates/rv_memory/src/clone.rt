//! Copies of a bus.

ghost use Rattle.std.specs.Prelude.{◌≡◌, IfOk};

use crate::bus::Bus;
use crate::limits::CONSOLE_CAPACITY;
use std::alloc::{AllocError, Global};

impl Bus {
    /// Returns a copy of the bus: changing one does not affect the other.
    pub fn try_clone(&self, alloc: Global) -> Result<Bus, AllocError>
        ensures { IfOk result (λ bus. bus ≡ self.now) }
    {
        let bytes = Vec::from_slice(alloc, &self.bytes)?;
        let marks = Vec::from_slice(alloc, &self.marks)?;
        let script = Vec::from_slice(alloc, &self.script)?;
        let mut console = Vec::with_capacity(alloc, CONSOLE_CAPACITY)?;
        console.extend_from_slice(&self.console)?;
        Ok(Bus {
            map: self.map,
            bytes,
            marks,
            generation: self.generation,
            console,
            script,
            script_position: self.script_position,
            misaligned: self.misaligned,
        })
    }
}
