//! Counts by address.

ghost use Rattle.std.specs.Prelude.{◌≡◌, ◌<◌, ◌≤◌, ◌&&◌, ℕ, length, nat_le, nat_lt, slice_index_or, true};
ghost use Rattle.std.specs.List.{list_any};
ghost use Rattle.rv_count_tables.specs.declared.table.AddressCounts.{AddressCounts as Counts};
ghost use Rattle.rv_count_tables.specs.Table.{executed_at, increase_from, taken_at};

use crate::table::AddressCounts;

/// Returns the counts of the instruction at an address; they are 0 if it was never executed. `counts` is sorted by address.
pub fn counts_at(counts: &[AddressCounts], address: u32) -> AddressCounts
    requires { increase_from 0 counts.now ≡ true }
    ensures { result ≡ record { address = address; executed = executed_at address counts.now; taken = taken_at address counts.now } }
{
    let index = index_of_address(counts, address);
    if index < counts.len() && counts[index].address == address {
        return counts[index];
    }
    AddressCounts {
        address,
        executed: 0,
        taken: 0,
    }
}

/// Whether an instruction was executed at some address in the range `start..end`. `counts` is sorted by address.
pub fn was_executed_within(counts: &[AddressCounts], start: u32, end: u64) -> bool
    requires { increase_from 0 counts.now ≡ true }
    ensures { result ≡ list_any (λ c. nat_le start c.address && nat_lt c.address end) counts.now }
{
    let index = index_of_address(counts, start);
    index < counts.len() && u64::from(counts[index].address) < end
}

/// Returns the index of the first count at or above an address, or the number of counts if there is none. `counts` is sorted by address.
pub fn index_of_address(counts: &[AddressCounts], address: u32) -> usize
    requires { increase_from 0 counts.now ≡ true }
    ensures within { result ≤ length counts.now }
    ensures lower { (k : ℕ) (d : Counts) → k < result → (slice_index_or counts.now k d).address < address }
    ensures higher { (d : Counts) → result < length counts.now
        → address ≤ (slice_index_or counts.now result d).address }
{
    let mut low = 0;
    let mut high = counts.len();
    while low < high {
        let middle = low + (high - low) / 2;
        if counts[middle].address < address {
            low = middle + 1;
        } else {
            high = middle;
        }
    }
    low
}
