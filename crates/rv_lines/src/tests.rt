//! Tests of whole units: the lines of a program that is worked out by hand, and each error of a unit, alone and beside another one.

use crate::{LineTables, SourceLine, StringSections, find_lines, source_path};
use std::alloc::Global;
use std::rt::HostRuntime;
use std::test::Fail;

// A unit of DWARF 2 with the file `a.c`: rows 80000000:5 and 80000004:5, and an end at 80000006.
const UNIT: [u8; 52] = [
    0x30, 0, 0, 0, 2, 0, 0x17, 0, 0, 0, // unit_length, version, header_length
    1, 1, 0xfb, 14, 10, 0, 1, 1, 1, 1, 0, 0, 0, 1, // parameters, standard_opcode_lengths
    0, b'a', b'.', b'c', 0, 0, 0, 0, 0, // no directory, one file
    0, 5, 2, 0, 0, 0, 0x80, 3, 4, 1, 9, 4, 0, 1, 2, 2, 0, 1, 1, // the program
];

// The same rows in DWARF 5, with the directory `d` of number 0.
const UNIT_5: [u8; 65] = [
    0x3d, 0, 0, 0, 5, 0, 4, 0, 0x20, 0, 0, 0, // unit_length, version, sizes, header_length
    1, 1, 1, 0xfb, 14, 10, 0, 1, 1, 1, 1, 0, 0, 0, 1, // parameters, standard_opcode_lengths
    1, 1, 8, 1, b'd', 0, // one directory
    2, 1, 8, 2, 11, 1, b'a', b'.', b'c', 0, 0, // one file
    4, 0, 0, 5, 2, 0, 0, 0, 0x80, 3, 4, 1, 9, 4, 0, 1, 2, 2, 0, 1, 1, // the program
];

const NO_STRINGS: StringSections<'static> = StringSections {
    line_str: &[],
    str: &[],
};

// Returns the name of the error of a unit with some bytes changed, or `none`.
fn error_of(alloc: Global, unit: &[u8], changes: &[(usize, u8)]) -> Result<&'static str, Fail> {
    let mut bytes = unit.to_vec(alloc)?;
    for (at, byte) in changes {
        if *at < bytes.len() {
            bytes[*at] = *byte;
        }
    }
    let tables = tables_of(bytes.as_slice()).ok_or("a long section")?;
    match find_lines(&tables, &[], &mut []).first {
        Some((error, _)) => Ok(error.name()),
        None => Ok("none"),
    }
}

// Returns the tables with these bytes as `.debug_line`.
fn tables_of(bytes: &[u8]) -> Option<LineTables<'_>> {
    if bytes.len() > u32::MAX as usize {
        return None;
    }
    Some(LineTables {
        lines: bytes,
        strings: NO_STRINGS,
    })
}

// Returns the line at an address.
fn line_of(unit: &[u8], address: u32) -> Result<Option<SourceLine>, Fail> {
    let tables = tables_of(unit).ok_or("a long section")?;
    let mut found = [None];
    let rejected = find_lines(&tables, &[address], &mut found);
    if rejected.rejected != 0 {
        return Err("a unit was rejected".into());
    }
    Ok(found[0])
}

#[test]
fn rows_of_the_worked_program(rt: HostRuntime) -> Result<(), Fail> {
    for (address, line) in [
        (0x7fff_ffff, 0),
        (0x8000_0000, 5),
        (0x8000_0003, 5),
        (0x8000_0004, 5),
        (0x8000_0005, 5),
        (0x8000_0006, 0),
    ] {
        assert_eq!(rt;
            line_of(&UNIT, address)?.map_or(0, |found| found.line),
            line
        );
        assert_eq!(rt;
            line_of(&UNIT_5, address)?.map_or(0, |found| found.line),
            line
        );
    }
    Ok(())
}

#[test]
fn rows_below_their_sequence(rt: HostRuntime) -> Result<(), Fail> {
    // The same rows from ffffffff on: the second one has the address 3.
    let mut unit = UNIT;
    for at in 36..40 {
        unit[at] = 0xff;
    }
    for address in [0, 3, 4, 0xffff_ffff] {
        assert!(rt; line_of(&unit, address)?.is_none());
    }
    Ok(())
}

#[test]
fn errors_of_a_header(rt: HostRuntime) -> Result<(), Fail> {
    let alloc = rt.alloc();
    assert_eq!(rt; error_of(alloc, &UNIT, &[])?, "none");
    assert_eq!(rt; error_of(alloc, &UNIT[..3], &[])?, "unit-cut-off");
    assert_eq!(rt; error_of(alloc, &UNIT, &[(0, 0x31)])?, "unit-cut-off");
    assert_eq!(rt;
        error_of(alloc, &UNIT, &[(0, 0xff), (1, 0xff), (2, 0xff), (3, 0xff)])?,
        "dwarf-64"
    );
    assert_eq!(rt;
        error_of(alloc, &UNIT, &[(0, 0xf0), (1, 0xff), (2, 0xff), (3, 0xff)])?,
        "reserved-length"
    );
    assert_eq!(rt; error_of(alloc, &UNIT, &[(4, 6)])?, "version");
    assert_eq!(rt; error_of(alloc, &UNIT, &[(4, 1), (13, 0)])?, "version");
    assert_eq!(rt; error_of(alloc, &UNIT, &[(6, 0x40)])?, "header-cut-off");
    assert_eq!(rt; error_of(alloc, &UNIT, &[(6, 0x16)])?, "header-cut-off");
    assert_eq!(rt; error_of(alloc, &UNIT, &[(13, 0)])?, "line-range");
    assert_eq!(rt; error_of(alloc, &UNIT, &[(13, 0), (14, 0)])?, "line-range");
    assert_eq!(rt; error_of(alloc, &UNIT, &[(14, 0)])?, "opcode-base");
    assert_eq!(rt; error_of(alloc, &UNIT, &[(16, 2)])?, "opcode-lengths");
    Ok(())
}

#[test]
fn errors_of_a_program(rt: HostRuntime) -> Result<(), Fail> {
    let alloc = rt.alloc();
    assert_eq!(rt; error_of(alloc, &UNIT, &[(34, 4)])?, "operation-length");
    assert_eq!(rt;
        error_of(alloc, &UNIT, &[(43, 4), (44, 2), (45, 1)])?,
        "file-number"
    );
    assert_eq!(rt;
        error_of(alloc, &UNIT, &[(43, 4), (44, 2), (45, 1), (49, 2)])?,
        "file-number"
    );
    assert_eq!(rt; error_of(alloc, &UNIT, &[(49, 2)])?, "open-sequence");
    assert_eq!(rt;
        error_of(alloc, &UNIT, &[(49, 2), (50, 0x80), (51, 0x80)])?,
        "operation-cut-off"
    );
    assert_eq!(rt;
        error_of(
            alloc,
            &UNIT,
            &[
                (46, 2),
                (47, 0x80),
                (48, 0x80),
                (49, 0x80),
                (50, 0x80),
                (51, 0x10)
            ]
        )?,
        "number"
    );
    Ok(())
}

#[test]
fn errors_of_a_header_of_dwarf_5(rt: HostRuntime) -> Result<(), Fail> {
    let alloc = rt.alloc();
    assert_eq!(rt; error_of(alloc, &UNIT_5, &[])?, "none");
    assert_eq!(rt; error_of(alloc, &UNIT_5, &[(6, 8)])?, "address-size");
    assert_eq!(rt; error_of(alloc, &UNIT_5, &[(7, 1)])?, "address-size");
    assert_eq!(rt; error_of(alloc, &UNIT_5, &[(13, 2)])?, "operations");
    assert_eq!(rt;
        error_of(alloc, &UNIT_5, &[(13, 2), (16, 0)])?,
        "operations"
    );
    assert_eq!(rt; error_of(alloc, &UNIT_5, &[(29, 11)])?, "entry-form");
    assert_eq!(rt; error_of(alloc, &UNIT_5, &[(29, 0x20)])?, "entry-form");
    assert_eq!(rt; error_of(alloc, &UNIT_5, &[(29, 0x1f)])?, "entry-text");
    assert_eq!(rt; error_of(alloc, &UNIT_5, &[(34, 3)])?, "entry-form");
    assert_eq!(rt; error_of(alloc, &UNIT_5, &[(45, 1)])?, "file-number");
    Ok(())
}

#[test]
fn path_of_a_file(rt: HostRuntime) -> Result<(), Fail> {
    for unit in [UNIT.as_slice(), UNIT_5.as_slice()] {
        let source = line_of(unit, 0x8000_0000)?.ok_or("no line")?;
        let tables = tables_of(unit).ok_or("a long section")?;
        let path = source_path(&tables, source.unit, source.file).ok_or("no path")?;
        assert_eq!(rt; path.name, b"a.c".as_slice());
        assert!(rt; path.directory.is_none());
    }
    Ok(())
}
