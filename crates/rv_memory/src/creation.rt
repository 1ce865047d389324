//! New buses, in newly allocated memory or in that of a bus no longer needed.
ghost use Rattle.std.specs.Prelude.{◌≡◌, ◌≤◌, IfOk, vec_len};
ghost use Rattle.rv_memory.specs.Bus.{new_bus};

use crate::access::Misaligned;
use crate::bus::Bus;
use crate::limits::CONSOLE_CAPACITY;
use crate::map::Map;
use crate::marks::next_generation;
use std::alloc::{AllocError, Global};

impl Bus {
    /// Creates a bus over the regions of a map: zeroed memory, no byte stored to, and no output. The script has at most 65,536 bytes.
    // Inlined so that in the callers no branch in the loop of a run ends at a multiple of 32 (docs/PERFORMANCE.md).
    #[inline(always)]
    pub fn new(
        alloc: Global,
        map: Map,
        script: Vec<u8>,
        misaligned: Misaligned,
    ) -> Result<Bus, AllocError>
        requires { vec_len script ≤ 0x1_0000 }
        ensures { IfOk result (λ b. b ≡ new_bus map script.items misaligned) }
    {
        let total = map.total_size();
        let bytes = vec![in alloc; 0u8; total]?;
        let marks = vec![in alloc; 0u16; total]?;
        let console = Vec::with_capacity(alloc, CONSOLE_CAPACITY)?;
        Ok(Bus {
            map,
            bytes,
            marks,
            generation: 1,
            console,
            script,
            script_position: 0,
            misaligned,
        })
    }

    /// Creates a bus like [`Bus::new`], but in the memory of `self` if that has the right size; otherwise the memory of `self` is freed
    /// first.
    pub fn new_reusing(
        self,
        alloc: Global,
        map: Map,
        script: Vec<u8>,
        misaligned: Misaligned,
    ) -> Result<Bus, AllocError>
        requires { vec_len script ≤ 0x1_0000 }
        ensures { IfOk result (λ bus. bus ≡ new_bus map script.items misaligned) }
    {
        if self.bytes.len() != map.total_size() {
            drop(self);
            return Bus::new(alloc, map, script, misaligned);
        }
        let Bus {
            mut bytes,
            marks,
            generation,
            mut console,
            ..
        } = self;
        bytes.fill(0);
        console.clear();
        let (marks, generation) = next_generation(marks, generation);
        Ok(Bus {
            map,
            bytes,
            marks,
            generation,
            console,
            script,
            script_position: 0,
            misaligned,
        })
    }
}
