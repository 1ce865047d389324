//! The console of a bus: its addresses, and word loads and stores.
ghost use Rattle.std.specs.Prelude.{◌≡◌, ◌*◌, ◌^◌, ◌<◌, IfOk, MatchResult, Ok, drop};
ghost use Rattle.rv_memory.specs.Bus.{size_of, console_load, console_store, next_script_byte};

use crate::access::Width;
use crate::bus::Bus;
use crate::faults::BusFault;
use crate::limits::CONSOLE_CAPACITY;

// The address at which a word load reads a script byte, and a word store appends an output byte.
const CONSOLE_DATA: u32 = 0x1000_0000;

// The address at which a word load returns the number of script bytes left.
const SCRIPT_REMAINING: u32 = 0x1000_0004;

impl Bus {
    /// Returns the bytes that were written to the console so far.
    pub fn console(&self) -> &[u8]
        ensures { result.now ≡ self.now.output }
    {
        &self.console
    }

    /// Performs a load whose bytes are not in one region: returns the value if it is a valid load from the console, and otherwise the
    /// reason why it is rejected.
    #[inline]
    pub(crate) fn load_console(&mut self, addr: u32, width: Width) -> Result<u32, BusFault>
        ensures narrow { IfOk result (λ v. v < 2 ^ (8 * size_of width)) }
        ensures value { MatchResult result
            (λ v. console_load self.old addr width ≡ Ok (v, self.new))
            (λ e. (console_load self.old addr width ≡ Err e) × (self.new ≡ self.old)) }
    {
        let Width::Word = width else {
            return Err(BusFault::Access);
        };
        if addr == CONSOLE_DATA {
            return Ok(self.take_script_byte());
        }
        if addr == SCRIPT_REMAINING {
            return Ok((self.script.len() - self.script_position) as u32);
        }
        Err(BusFault::Access)
    }

    // Consumes the next byte of the script and returns it; at the end of the script, returns all ones.
    #[inline]
    fn take_script_byte(&mut self) -> u32
        ensures value { result ≡ next_script_byte self.old.script }
        ensures rest { self.new ≡ record self.old { script = drop 1 self.old.script } }
    {
        if self.script_position == self.script.len() {
            return u32::MAX;
        }
        let byte = self.script[self.script_position];
        self.script_position += 1;
        u32::from(byte)
    }

    /// Performs a store whose bytes are not in one region: appends to the output if it is a valid store to the console, and otherwise
    /// returns the reason why it is rejected.
    #[inline]
    pub(crate) fn store_console(
        &mut self,
        addr: u32,
        width: Width,
        value: u32,
    ) -> Result<(), BusFault>
        ensures { MatchResult result (λ _. console_store self.old addr width value ≡ Ok self.new)
            (λ e. (console_store self.old addr width value ≡ Err e) × (self.new ≡ self.old)) }
    {
        let Width::Word = width else {
            return Err(BusFault::Access);
        };
        if addr != CONSOLE_DATA {
            return Err(BusFault::Access);
        }
        if self.console.len() >= CONSOLE_CAPACITY {
            return Err(BusFault::ConsoleFull);
        }
        self.console.push_reserved((value % 0x100) as u8);
        Ok(())
    }
}
