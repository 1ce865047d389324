//! Tests that parse, format and add tables.

use crate::{ReadError, SumError, add_table, read_table, sum_of_tables, table_text};
use std::alloc::Global;
use std::rt::HostRuntime;
use std::test::Fail;

const A: &str = "\
rvcounts 1
image 428abbe1347171d7e00df3badf31776c1ef4445e0516044cf7a638356db5f470 build/tail2.elf
80000000 1 0
800000aa 89 34
done 1 1
";

const B: &str = "\
rvcounts 1
image 428abbe1347171d7e00df3badf31776c1ef4445e0516044cf7a638356db5f470 build/a.elf
80000004 7 7
800000aa 11 6
image fa5d878384b4165ad613c93c06d8e251eb3c2c4230c67ce1306aa610ced287b5 build/hand.elf
80000074 5 1
done 2 5
";

const B_AND_RUNS: &str = "\
rvcounts 1
image 428abbe1347171d7e00df3badf31776c1ef4445e0516044cf7a638356db5f470 build/a.elf
80000004 7 7
800000aa 11 6
image fa5d878384b4165ad613c93c06d8e251eb3c2c4230c67ce1306aa610ced287b5 build/hand.elf
80000074 5 1
done 2 9
";

const BOTH: &str = "\
rvcounts 1
image 428abbe1347171d7e00df3badf31776c1ef4445e0516044cf7a638356db5f470 build/a.elf
80000000 1 0
80000004 7 7
800000aa 100 40
image fa5d878384b4165ad613c93c06d8e251eb3c2c4230c67ce1306aa610ced287b5 build/hand.elf
80000074 5 1
done 2 6
";

// Checks that the sum of two tables has the expected text, whether the tables are passed by reference or by value.
fn check_sum(alloc: Global, a: &str, b: &str, expected: &str) -> Result<(), Fail> {
    let first = read_table(alloc, a.as_bytes())?;
    let second = read_table(alloc, b.as_bytes())?;
    let sum = sum_of_tables(alloc, &first, &second)?;
    let text = table_text(alloc, &sum)?;
    let same = table_text(alloc, &add_table(alloc, first, second)?)?;
    if text.as_str() == expected && same.as_str() == expected {
        Ok(())
    } else {
        Err(expected.into())
    }
}

// The sum of two tables does not depend on their order, and runs without images are added, too.
#[test]
fn adds_tables(rt: HostRuntime) -> Result<(), Fail> {
    let alloc = rt.alloc();
    check_sum(alloc, A, B, BOTH)?;
    check_sum(alloc, B, A, BOTH)?;
    check_sum(alloc, "rvcounts 1\ndone 0 0\n", A, A)?;
    check_sum(alloc, "rvcounts 1\ndone 0 4\n", B, B_AND_RUNS)?;
    check_sum(alloc, B, "rvcounts 1\ndone 0 4\n", B_AND_RUNS)
}

// Texts that are not tables, each with the line that is rejected, or 0 if the text is truncated.
const REJECTED: [(&str, usize); 16] = [
    ("", 0),
    ("rvcounts 1", 0),
    ("rvcounts 2\n", 1),
    ("rvcounts 1\n", 0),
    ("rvcounts 1\ndone 1 0\n", 2),
    ("rvcounts 1\ndone 0 00\n", 2),
    ("rvcounts 1\ndone 0 0\ndone 0 0\n", 3),
    ("rvcounts 1\ndone 0 18446744073709551616\n", 2),
    ("rvcounts 1\n80000000 1 0\n", 2),
    ("rvcounts 1\nimage 00 a\n", 2),
    (
        "rvcounts 1\nimage 428abbe1347171d7e00df3badf31776c1ef4445e0516044cf7a638356db5f47Z a\n",
        2,
    ),
    (
        "rvcounts 1\nimage 428abbe1347171d7e00df3badf31776c1ef4445e0516044cf7a638356db5f470 a\n80000001 1 0\n",
        3,
    ),
    (
        "rvcounts 1\nimage 428abbe1347171d7e00df3badf31776c1ef4445e0516044cf7a638356db5f470 a\n80000000 0 0\n",
        3,
    ),
    (
        "rvcounts 1\nimage 428abbe1347171d7e00df3badf31776c1ef4445e0516044cf7a638356db5f470 a\n80000000 1 2\n",
        3,
    ),
    (
        "rvcounts 1\nimage 428abbe1347171d7e00df3badf31776c1ef4445e0516044cf7a638356db5f470 a\n80000002 1 0\n80000002 1 0\n",
        4,
    ),
    (
        "rvcounts 1\nimage 428abbe1347171d7e00df3badf31776c1ef4445e0516044cf7a638356db5f470 a\n80000002 1 0\ndone 2 1\n",
        4,
    ),
];

// Each text in `REJECTED` is rejected at its line.
#[test]
fn rejects_texts(rt: HostRuntime) -> Result<(), Fail> {
    for (text, expected) in REJECTED {
        let line = match read_table(rt.alloc(), text.as_bytes()) {
            Err(ReadError::Line(line)) => line,
            Err(ReadError::Truncated) => 0,
            _ => return Err(text.into()),
        };
        if line != expected {
            return Err(text.into());
        }
    }
    Ok(())
}

const FULL: &str = "\
rvcounts 1
image 428abbe1347171d7e00df3badf31776c1ef4445e0516044cf7a638356db5f470 a.elf
80000000 18446744073709551615 0
done 1 18446744073709551615
";

const ONE: &str = "\
rvcounts 1
image 428abbe1347171d7e00df3badf31776c1ef4445e0516044cf7a638356db5f470 a.elf
80000000 1 0
done 1 0
";

// Two tables have no sum if a count or the number of runs would not fit in 64 bits.
#[test]
fn rejects_sums(rt: HostRuntime) -> Result<(), Fail> {
    let full = read_table(rt.alloc(), FULL.as_bytes())?;
    let one = read_table(rt.alloc(), ONE.as_bytes())?;
    let run = read_table(rt.alloc(), b"rvcounts 1\ndone 0 1\n")?;
    match sum_of_tables(rt.alloc(), &full, &one) {
        Err(SumError::Count(0x8000_0000)) => {}
        _ => return Err("a count that does not fit".into()),
    }
    match sum_of_tables(rt.alloc(), &full, &run) {
        Err(SumError::Runs) => {}
        _ => return Err("runs that do not fit".into()),
    }
    match add_table(rt.alloc(), full, run) {
        Err(SumError::Runs) => Ok(()),
        _ => Err("given runs that do not fit".into()),
    }
}

const HIGH: &str = "\
rvcounts 1
image 428abbe1347171d7e00df3badf31776c1ef4445e0516044cf7a638356db5f470 donne.elf
00000000 1 0
d0000000 2 1
fffffffe 18446744073709551615 18446744073709551615
done 1 1
";

const STACKS: &str = "\
rvcounts 1
image 428abbe1347171d7e00df3badf31776c1ef4445e0516044cf7a638356db5f470 build/a.elf
80000074 5 1
spot 0 80000000 1 19 _start
spot 1 00000000 1 12 ?
spot 1 80000060 3 36 sum of all
spot 2 80000060 1 4 sum of all
done 1 1
";

const OTHER: &str = "\
rvcounts 1
image 428abbe1347171d7e00df3badf31776c1ef4445e0516044cf7a638356db5f470 build/a.elf
spot 0 80000000 1 1 _start
spot 1 80000060 2 3 sum of all
spot 1 80000090 2 3 main
spot 2 80000060 1 1 sum of all
spot 0 80000060 1 1 sum of all
done 1 1
";

const BOTH_STACKS: &str = "\
rvcounts 1
image 428abbe1347171d7e00df3badf31776c1ef4445e0516044cf7a638356db5f470 build/a.elf
80000074 5 1
spot 0 80000000 2 20 _start
spot 1 00000000 1 12 ?
spot 1 80000060 5 39 sum of all
spot 2 80000060 1 4 sum of all
spot 1 80000090 2 3 main
spot 2 80000060 1 1 sum of all
spot 0 80000060 1 1 sum of all
done 1 2
";

// The call trees of two tables are added.
#[test]
fn adds_stacks(rt: HostRuntime) -> Result<(), Fail> {
    let alloc = rt.alloc();
    check_sum(alloc, STACKS, OTHER, BOTH_STACKS)?;
    check_sum(alloc, OTHER, STACKS, BOTH_STACKS)?;
    check_sum(alloc, "rvcounts 1\ndone 0 0\n", STACKS, STACKS)
}

const OTHER_NAME: &str = "\
rvcounts 1
image 428abbe1347171d7e00df3badf31776c1ef4445e0516044cf7a638356db5f470 build/a.elf
spot 0 80000060 1 1 add
done 1 1
";

// Two tables have no sum if a function has different names in them.
#[test]
fn rejects_two_names(rt: HostRuntime) -> Result<(), Fail> {
    let first = read_table(rt.alloc(), STACKS.as_bytes())?;
    let second = read_table(rt.alloc(), OTHER_NAME.as_bytes())?;
    match sum_of_tables(rt.alloc(), &first, &second) {
        Err(SumError::Names(0x8000_0060)) => Ok(()),
        _ => Err("two names of one function".into()),
    }
}

// Lines after the line of an image, and the number of the line that is rejected.
const REFUSED_STACKS: [(&str, usize); 13] = [
    ("spot 1 80000000 1 1 a\n", 3),
    ("spot 0 80000000 0 1 a\n", 3),
    ("spot 0 80000000 1 01 a\n", 3),
    ("spot 0 80000000 1 1\n", 3),
    ("spot 0 8000000 1 1 a\n", 3),
    ("function 80000000 a\n", 3),
    ("spot 0 80000000 1 1 a\nspot 2 80000000 1 1 a\n", 4),
    ("spot 0 80000000 1 1 a\nspot 0 80000000 1 1 a\n", 4),
    ("spot 0 80000004 1 1 a\nspot 0 80000000 1 1 b\n", 4),
    ("spot 0 80000000 1 1 a\n80000000 1 0\n", 4),
    ("spot 0 80000000 1 1 a\nspot 1 80000000 1 1 b\n", 4),
    ("spot 0 80000000 1 1 a\nspot 1 80000000 1 1 a \n", 4),
    (
        "spot 0 80000000 1 1 a\nspot 1 80000004 1 1 a\nspot 2 80000000 1 1 \n",
        5,
    ),
];

// Each text in `REFUSED_STACKS` is rejected at its line.
#[test]
fn rejects_stacks(rt: HostRuntime) -> Result<(), Fail> {
    let alloc = rt.alloc();
    for (lines, expected) in REFUSED_STACKS {
        let mut text = String::from_str(alloc, FIRST_LINES)?;
        text.push_str(lines)?;
        match read_table(alloc, text.as_bytes()) {
            Err(ReadError::Line(line)) if line == expected => {}
            _ => return Err(lines.into()),
        }
    }
    Ok(())
}

const FIRST_LINES: &str = "\
rvcounts 1
image 428abbe1347171d7e00df3badf31776c1ef4445e0516044cf7a638356db5f470 a
";

// A table can have the lowest address, the highest one, and an address that begins with the letter `d`, as the last line (`done`) does.
#[test]
fn reads_addresses_from_end_to_end(rt: HostRuntime) -> Result<(), Fail> {
    check_sum(rt.alloc(), HIGH, "rvcounts 1\ndone 0 0\n", HIGH)
}
