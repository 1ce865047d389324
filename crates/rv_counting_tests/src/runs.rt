//! Counts of runs, by the lines of a table: a program, its budget and its counts.
use rv_counting::{Bus, Isa, Machine, Map, Misaligned, Region, count_run};
use samples::{cell_of, check_equal, check_line_count, numbers};
use std::alloc::{AllocError, Global};
use std::test::Fail;

const BASE: u32 = 0x8000_0000;

// Each program starts at 80000000, and `X` is the exit call. Counts were determined by hand: address, how often the instruction was
// executed, how often its branch was taken. An instruction that ends the run counts as executed, unless it could not be fetched. label |
// instruction set | budget | program | counts.
const RUNS: &str = "\
straight line, and the exit call | imc | 9 | 00500513 X | 80000000 1 0, 80000004 1 0, 80000008 1 0
loop of three rounds | imc | 99 | 00300293 fff28293 fe029ee3 X | \
    80000000 1 0, 80000004 3 0, 80000008 3 2, 8000000c 1 0, 80000010 1 0
the budget ends in the second round | imc | 4 | 00300293 fff28293 fe029ee3 X | 80000000 1 0, 80000004 2 0, 80000008 1 1
the budget ends after a branch | imc | 3 | 00300293 fff28293 fe029ee3 X | 80000000 1 0, 80000004 1 0, 80000008 1 1
no budget | imc | 0 | 00500513 X |
branch over an instruction | imc | 9 | 00000463 00000013 X | 80000000 1 1, 80000008 1 0, 8000000c 1 0
branch to the next instruction | imc | 9 | 00000263 X | 80000000 1 0, 80000004 1 0, 80000008 1 0
jump over an instruction | imc | 9 | 0080006f 00000013 X | 80000000 1 0, 80000008 1 0, 8000000c 1 0
compressed loop | imc | 99 | 4409 147d fc7d X | 80000000 1 0, 80000002 2 0, 80000004 2 1, 80000006 1 0, 8000000a 1 0
compressed branch to the next instruction | imc | 9 | c009 X | 80000000 1 0, 80000002 1 0, 80000006 1 0
load from an address without memory | imc | 9 | 00500513 00002283 X | 80000000 1 0, 80000004 1 0
breakpoint | imc | 9 | 00100073 | 80000000 1 0
call that is unknown | imc | 9 | 00000073 | 80000000 1 0
illegal code | imc | 9 | 00500513 00000000 | 80000000 1 0
jump to an address without memory | imc | 9 | 00000067 | 80000000 1 0
misaligned jump | im | 9 | 0020006f | 80000000 1 0
misaligned branch | im | 9 | 00000363 | 80000000 1 0
code that was stored | imc | 9 | 00000297 0052a423 X | 80000000 1 0, 80000004 1 0
code that was stored, after FENCE.I | imc | 99 | 00000297 0102a303 0062aa23 0000100f 00500513 00000000 X | \
    80000000 1 0, 80000004 1 0, 80000008 1 0, 8000000c 1 0, 80000010 1 0, 80000014 1 0, 80000018 1 0, 8000001c 1 0
the budget ends in a block that is known | imc | 9 | 00300293 fff28293 00000013 fe029ce3 X | \
    80000000 1 0, 80000004 3 0, 80000008 3 0, 8000000c 2 2
a fault in a block that is known | imc | 99 | 00000297 0002a303 00000293 ff9ff06f | \
    80000000 1 0, 80000004 2 0, 80000008 1 0, 8000000c 1 0
code that is known, and other code after FENCE.I | imc | 99 | \
    00000297 0182a303 00000013 0062a423 0000100f ff5ff06f 00000a63 X | 80000000 1 0, 80000004 1 0, 80000008 2 1, \
    8000000c 1 0, 80000010 1 0, 80000014 1 0, 8000001c 1 0, 80000020 1 0
counts come in the order of addresses | imc | 9 | 00c0006f X 00000013 ff5ff06f | \
    80000000 1 0, 80000004 1 0, 80000008 1 0, 8000000c 1 0, 80000010 1 0
loop that is entered at its condition | imc | 999 | 0c800293 00c0006f fff28293 00000013 00000013 fe029ae3 X | \
    80000000 1 0, 80000004 1 0, 80000008 200 0, 8000000c 200 0, 80000010 201 0, 80000014 201 200, 80000018 1 0, 8000001c 1 0
the budget ends in the body of such a loop | imc | 701 | 0c800293 00c0006f fff28293 00000013 00000013 fe029ae3 X | \
    80000000 1 0, 80000004 1 0, 80000008 175 0, 8000000c 174 0, 80000010 175 0, 80000014 175 175
two such loops, the one above first | imc | 9999 | 0240006f 12c00293 00c0006f fff28293 00000013 00000013 fe029ae3 X \
    0c800293 00c0006f fff28293 00000013 00000013 fe029ae3 fc9ff06f | 80000000 1 0, 80000004 1 0, 80000008 1 0, \
    8000000c 300 0, 80000010 300 0, 80000014 301 0, 80000018 301 300, 8000001c 1 0, 80000020 1 0, 80000024 1 0, \
    80000028 1 0, 8000002c 200 0, 80000030 200 0, 80000034 201 0, 80000038 201 200, 8000003c 1 0
";

// Returns a machine that starts a program at `BASE`, where it has 4,096 bytes of memory.
fn machine_of(alloc: Global, isa: Isa, program: &str) -> Result<Machine, Fail> {
    let map = Map::of(&[Region {
        base: BASE,
        size: 0x1000,
        writable: true,
    }])?;
    let mut bus = Bus::new(alloc, map, Vec::new(alloc), Misaligned::Fault)?;
    let bytes = numbers(alloc, program)?;
    if bytes.len() > 0x1000 || !bus.map().in_one(BASE, bytes.len() as u32) {
        return Err("the code does not fit in memory".into());
    }
    bus.place(BASE, &bytes);
    Ok(Machine::new(alloc, bus, BASE, isa)?)
}

// Returns the counts of a run of at most `budget` steps, in the form of the last column of `RUNS`.
fn counts_text(alloc: Global, machine: Machine, budget: u32) -> Result<String, AllocError> {
    let mut text = String::new(alloc);
    let addresses = count_run(alloc, machine, budget)?;
    for counts in addresses.as_slice() {
        let comma = if text.is_empty() { "" } else { ", " };
        let (address, executed, taken) = (counts.address, counts.executed, counts.taken);
        write!(text, "{comma}{address:08x} {executed} {taken}")?;
    }
    Ok(text)
}

// Checks that the run that a row describes has the counts of the row.
fn check(alloc: Global, row: &str) -> Result<(), Fail> {
    let isa = if cell_of(row, 1) == "im" {
        Isa::Im
    } else {
        Isa::Imc
    };
    let budget = cell_of(row, 2).parse::<u32>()?;
    let machine = machine_of(alloc, isa, cell_of(row, 3))?;
    check_equal(
        row,
        counts_text(alloc, machine, budget)?.as_str(),
        cell_of(row, 4),
    )
}

// Runs have the counts that were determined by hand.
#[test]
fn runs_are_counted(rt: HostRuntime) -> Result<(), Fail> {
    check_line_count(RUNS, 26)?;
    for row in RUNS.lines() {
        check(rt.alloc(), row)?;
    }
    Ok(())
}
