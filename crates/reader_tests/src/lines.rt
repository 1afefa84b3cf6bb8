//! Line tables that can't be read, and one that is read where an allocation was refused, worked out
//! by hand from the standard's tables.

use crate::expect::expect;
use dw_bytes::Width;
use dw_forms::{Bases, Tables};
use dw_line::{LineFault, Lines};
use std::alloc::{AllocError, Global};
use std::process::Abort;
use std::test::Fail;
use test_inputs::files::{HEADER, TWO_ROWS, line_table, poked};

const NO_BASES: Bases = Bases {
    str_offsets: None,
    addr: None,
    rnglists: None,
    width: Width::Four,
};

/// Texts to which names of files and directories lead.
const TABLES: Tables<'static> = Tables {
    str: &[],
    line_str: b"/w\0src\0/abs\0b.c\0/b.c\0",
    str_offsets: &[],
    addr: &[],
    rnglists: &[],
};

/// The table at the front of a section. No clause says what it means, so that its callers are
/// proved soon.
fn read<'a>(alloc: Global, section: &'a [u8]) -> Result<Lines<'a>, LineFault> {
    Lines::read(alloc, section, &TABLES, &NO_BASES, None, 0)
}

/// The line of an address, in the same way.
fn line_at(lines: &Lines<'_>, address: u64) -> Option<u64> {
    lines.row(address).map(|row| row.line)
}

/// The path of a file, in the same way.
fn path_of(alloc: Global, lines: &Lines<'_>, n: u64) -> Result<Option<Vec<u8>>, AllocError> {
    lines.path(alloc, n)
}

/// A byte that is changed in the table of a program, and whether it can't be read then.
type Changed = (usize, u8, &'static [u8], Option<LineFault>);

/// The version, 5 at 4, is left as it is where the program can't be read.
static CHANGED: [Changed; 28] = [
    (4, 5, TWO_ROWS, None),
    // the length
    (0, 68, TWO_ROWS, Some(LineFault::Bad)),
    (3, 0xff, TWO_ROWS, Some(LineFault::Bad)),
    // the version
    (4, 4, TWO_ROWS, Some(LineFault::Bad)),
    // the size of addresses
    (6, 4, TWO_ROWS, Some(LineFault::Bad)),
    // header_length
    (8, 66, TWO_ROWS, Some(LineFault::Bad)),
    (8, 0x28, TWO_ROWS, Some(LineFault::Bad)),
    // operations, line_range, opcode_base
    (13, 2, TWO_ROWS, Some(LineFault::Bad)),
    (16, 0, TWO_ROWS, Some(LineFault::Bad)),
    (17, 0, TWO_ROWS, Some(LineFault::Bad)),
    // more directories than bytes are left
    (33, 20, TWO_ROWS, Some(LineFault::Bad)),
    // an unknown form
    (41, 0, TWO_ROWS, Some(LineFault::Bad)),
    // one file too many, and more files than bytes are left
    (42, 3, TWO_ROWS, Some(LineFault::Bad)),
    (42, 11, TWO_ROWS, Some(LineFault::Bad)),
    // the size of segment selectors and default_is_stmt aren't used
    (7, 9, TWO_ROWS, None),
    (14, 0, TWO_ROWS, None),
    (4, 5, &[0, 0], Some(LineFault::Bad)),
    (4, 5, &[0], Some(LineFault::Bad)),
    (4, 5, &[0, 3, 2, 0, 0], Some(LineFault::Bad)),
    (
        4,
        5,
        &[0, 10, 2, 0, 0, 0, 0, 0, 0, 0, 0, 0],
        Some(LineFault::Bad),
    ),
    (4, 5, &[0, 4, 0x80, 0, 0], Some(LineFault::Bad)),
    (4, 5, &[2, 0x80], Some(LineFault::Bad)),
    (4, 5, &[2], Some(LineFault::Bad)),
    (4, 5, &[3, 0x80], Some(LineFault::Bad)),
    (4, 5, &[9, 1], Some(LineFault::Bad)),
    (
        4,
        5,
        &[2, 0xff, 0xff, 0xff, 0xff, 0xff, 0xff, 0xff, 0xff, 0xff, 2],
        Some(LineFault::Bad),
    ),
    (
        4,
        5,
        &[
            0, 9, 2, 0, 0x10, 0x40, 0, 0, 0, 0, 0, 0x14, 0x4b, 2, 0x0a, 0, 1, 1, 0,
        ],
        Some(LineFault::Bad),
    ),
    (4, 5, &[0, 3, 0x80, 0, 0], None),
];

/// Why the table of a program can't be read where a byte is changed.
fn fault_of(alloc: Global, at: usize, byte: u8, program: &[u8]) -> Result<Option<LineFault>, Fail> {
    let table = line_table(alloc, HEADER, program)?;
    let section = poked(alloc, &table, at, byte)?;
    Ok(read(alloc, &section).err())
}

#[test]
fn tables_that_are_changed(rt: HostRuntime) -> Result<(), Fail> {
    for (i, (at, byte, program, fault)) in CHANGED.iter().enumerate() {
        expect(&rt, i, &fault_of(rt.alloc(), *at, *byte, program)?, fault);
    }
    Ok(())
}

/// The row at the k-th address of each sequence is at line k + 1.
const MANY_ROWS: &[u8] = &[
    0, 9, 2, 0, 0x10, 0, 0, 0, 0, 0, 0, 1, 0x21, 0x21, 0x21, 0x21, 0x21, 0x21, 0x21, 0x21, 0x21, 2,
    1, 0, 1, 1, 0, 9, 2, 0, 0x20, 0, 0, 0, 0, 0, 0, 1, 0x21, 0x21, 0x21, 0x21, 0x21, 0x21, 0x21,
    0x21, 0x21, 2, 1, 0, 1, 1,
];

/// A table of 200 rows: the k-th is at 0x1000 + k, and line k + 1.
fn table_of_many_rows(alloc: Global) -> Result<Vec<u8>, AllocError> {
    let mut program = Vec::new(alloc);
    program.extend_from_slice(&[0, 9, 2, 0, 0x10, 0, 0, 0, 0, 0, 0])?;
    for _ in 0..200 {
        program.push(0x21)?;
    }
    program.extend_from_slice(&[2, 1, 0, 1, 1])?;
    line_table(alloc, HEADER, &program)
}

/// How many checkpoints and other things are kept, in the same way.
fn kept_in(lines: &Lines<'_>) -> (usize, usize) {
    (lines.kept(), lines.held())
}

/// Checkpoints are kept of the rows 1, 65, 129 and 193. Besides, one sequence is held, two segments
/// of its index, one directory and two files.
#[test]
fn rows_that_are_kept(rt: HostRuntime) -> Result<(), Fail> {
    let section = table_of_many_rows(rt.alloc())?;
    let lines = read(rt.alloc(), &section)?;
    for (address, line) in [
        (0x1000, None),
        (0x1001, Some(2)),
        (0x1040, Some(65)),
        (0x1041, Some(66)),
        (0x10c8, Some(201)),
        (0x10c9, None),
    ] {
        expect(&rt, address, &line_at(&lines, address), &line);
    }
    expect(&rt, "kept", &kept_in(&lines), &(4, 6));
    Ok(())
}

/// A header whose directories are texts in .debug_line_str and whose files have a name, the number
/// of a directory, 16 bytes and a size.
const PATHS: &[u8] = &[
    5, 0, 8, 0, 0x48, 0, 0, 0, 1, 1, 1, 0xfb, 0x0e, 0x0d, 0, 1, 1, 1, 1, 0, 0, 0, 1, 0, 0, 1, 1, 1,
    0x1f, 3, 0, 0, 0, 0, 3, 0, 0, 0, 7, 0, 0, 0, 3, 2, 0x0b, 1, 0x1f, 4, 0x0f, 5, 1, 12, 0, 0, 0,
    5, 2, 12, 0, 0, 0, 5, 0, 12, 0, 0, 0, 5, 7, 12, 0, 0, 0, 0, 1, 16, 0, 0, 0, 0,
];

/// The fields of a header after header_length up to the number of files: one directory, and files
/// that have a name, the number of a directory and a flag that takes no bytes.
const BEFORE_FILES: &[u8] = &[
    1, 1, 1, 0xfb, 0x0e, 0x0d, 0, 1, 1, 1, 1, 0, 0, 0, 1, 0, 0, 1, 1, 1, 8, 1, b'/', b'w', 0, 3, 1,
    8, 2, 0x0b, 3, 0x19,
];

/// A table of 5,000 files, of which the last has another name than the others.
fn table_of_many_files(alloc: Global) -> Result<Vec<u8>, AllocError> {
    let mut fields = Vec::new(alloc);
    fields.extend_from_slice(BEFORE_FILES)?;
    fields.extend_from_slice(&[0x88, 0x27])?;
    for _ in 0..4999 {
        fields.extend_from_slice(&[b'a', 0, 0])?;
    }
    fields.extend_from_slice(&[b'z', 0, 0])?;
    let mut header = Vec::new(alloc);
    header.extend_from_slice(&[5, 0, 8, 0])?;
    header.extend_from_slice(&u32::try_from(fields.len()).unwrap_or(0).to_le_bytes())?;
    header.extend_from_slice(&fields)?;
    line_table(alloc, &header, TWO_ROWS)
}

#[test]
fn a_table_of_many_files(rt: HostRuntime) -> Result<(), Fail> {
    let section = table_of_many_files(rt.alloc())?;
    let lines = read(rt.alloc(), &section)?;
    for (n, path) in [
        (0, Some(b"/w/a".as_slice())),
        (4998, Some(b"/w/a")),
        (4999, Some(b"/w/z")),
        (5000, None),
    ] {
        expect(&rt, n, &path_of(rt.alloc(), &lines, n)?.as_deref(), &path);
    }
    // one file too many
    let section = poked(rt.alloc(), &section, 44, 0x89)?;
    let fault = read(rt.alloc(), &section).err();
    expect(&rt, "fault", &fault, &Some(LineFault::Bad));
    Ok(())
}

/// The table at the front of a section, read once more where an allocation was refused.
fn read_at_last<'a>(alloc: Global, section: &'a [u8]) -> Result<Lines<'a>, LineFault> {
    let lines = read(alloc, section);
    let Err(LineFault::Memory) = lines else {
        return lines;
    };
    read(alloc, section)
}

/// The path of file 0, made once more where an allocation was refused.
fn path_at_last(alloc: Global, lines: &Lines<'_>) -> Result<Option<Vec<u8>>, AllocError> {
    let Ok(path) = path_of(alloc, lines, 0) else {
        return path_of(alloc, lines, 0);
    };
    Ok(path)
}

/// A table has a row of each sequence, and the path of file 0, which is made once more where an
/// allocation was refused.
fn expect_whole<A: Abort>(rt: &A, alloc: Global, lines: &Lines<'_>) -> Result<(), Fail> {
    expect(rt, "a row", &line_at(lines, 0x2009), &Some(10));
    let path = path_at_last(alloc, lines)?;
    expect(
        rt,
        "path",
        &path.as_deref(),
        &Some(b"/w/src/b.c".as_slice()),
    );
    Ok(())
}

/// A table for which an allocation is refused is out of memory, and so is a path; the next reading,
/// with memory, gives them whole.
#[test]
fn each_allocation_refused(rt: HostRuntime) -> Result<(), Fail> {
    let Ok(section) = line_table(rt.alloc(), PATHS, MANY_ROWS) else {
        return Ok(());
    };
    let lines = read_at_last(rt.alloc(), &section)?;
    expect_whole(&rt, rt.alloc(), &lines)
}
