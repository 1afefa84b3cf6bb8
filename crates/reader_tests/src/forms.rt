//! The value of each form, and tables of declarations, worked out by hand from the standard's
//! tables.

use crate::expect::expect;
use dw_bytes::{Cursor, Width};
use dw_forms::{AbbrevStore, Abbrevs, Decl, FormFault, Spec, Value, read_value};
use dw_model::dwarf::{
    DW_FORM_GNU_ref_alt, DW_FORM_GNU_strp_alt, DW_FORM_addr, DW_FORM_addrx, DW_FORM_addrx1,
    DW_FORM_addrx2, DW_FORM_addrx3, DW_FORM_addrx4, DW_FORM_block, DW_FORM_block1, DW_FORM_block2,
    DW_FORM_block4, DW_FORM_data1, DW_FORM_data2, DW_FORM_data4, DW_FORM_data8, DW_FORM_data16,
    DW_FORM_exprloc, DW_FORM_flag, DW_FORM_indirect, DW_FORM_line_strp, DW_FORM_loclistx,
    DW_FORM_ref_addr, DW_FORM_ref_sig8, DW_FORM_ref_sup4, DW_FORM_ref_sup8, DW_FORM_ref_udata,
    DW_FORM_ref1, DW_FORM_ref2, DW_FORM_ref4, DW_FORM_ref8, DW_FORM_rnglistx, DW_FORM_sdata,
    DW_FORM_sec_offset, DW_FORM_string, DW_FORM_strp, DW_FORM_strp_sup, DW_FORM_strx,
    DW_FORM_strx1, DW_FORM_strx2, DW_FORM_strx3, DW_FORM_strx4, DW_FORM_udata,
};
use std::alloc::{AllocError, Global};
use std::process::Abort;
use std::test::Fail;

/// The value of each form, of bytes that are one spelling of it.
static ROWS: [(u64, &[u8], Value<'static>); 43] = [
    (
        DW_FORM_addr,
        &[1, 2, 3, 4, 5, 6, 7, 8],
        Value::Address(0x0807_0605_0403_0201),
    ),
    (DW_FORM_block2, &[2, 0, 7, 9], Value::Bytes(&[7, 9])),
    (DW_FORM_block4, &[1, 0, 0, 0, 7], Value::Bytes(&[7])),
    (DW_FORM_data2, &[1, 2], Value::Unsigned(0x0201)),
    (DW_FORM_data4, &[1, 2, 3, 4], Value::Unsigned(0x0403_0201)),
    (
        DW_FORM_data8,
        &[1, 2, 3, 4, 5, 6, 7, 8],
        Value::Unsigned(0x0807_0605_0403_0201),
    ),
    (DW_FORM_string, b"ab\0", Value::Inline(b"ab")),
    (DW_FORM_block, &[2, 7, 9], Value::Bytes(&[7, 9])),
    (DW_FORM_block1, &[1, 7], Value::Bytes(&[7])),
    (DW_FORM_data1, &[0xff], Value::Unsigned(0xff)),
    (DW_FORM_flag, &[2], Value::Flag(true)),
    (DW_FORM_sdata, &[0x80, 0x7f], Value::Signed(-128)),
    (DW_FORM_strp, &[1, 2, 3, 4], Value::Str(0x0403_0201)),
    (DW_FORM_udata, &[0xe5, 0x8e, 0x26], Value::Unsigned(624_485)),
    (
        DW_FORM_ref_addr,
        &[1, 2, 3, 4],
        Value::SectionRef(0x0403_0201),
    ),
    (DW_FORM_ref1, &[9], Value::UnitRef(9)),
    (DW_FORM_ref2, &[1, 2], Value::UnitRef(0x0201)),
    (DW_FORM_ref4, &[1, 2, 3, 4], Value::UnitRef(0x0403_0201)),
    (
        DW_FORM_ref8,
        &[1, 0, 0, 0, 0, 0, 0, 0x80],
        Value::UnitRef(0x8000_0000_0000_0001),
    ),
    (DW_FORM_ref_udata, &[0x80, 1], Value::UnitRef(128)),
    (
        DW_FORM_sec_offset,
        &[1, 2, 3, 4],
        Value::SectionOffset(0x0403_0201),
    ),
    (DW_FORM_exprloc, &[1, 0x9c], Value::Bytes(&[0x9c])),
    (DW_FORM_strx, &[5], Value::StrIndex(5)),
    (DW_FORM_addrx, &[5], Value::AddressIndex(5)),
    (DW_FORM_ref_sup4, &[1, 2, 3, 4], Value::Unused(0x0403_0201)),
    (DW_FORM_strp_sup, &[1, 2, 3, 4], Value::Unused(0x0403_0201)),
    (
        DW_FORM_data16,
        &[0, 1, 2, 3, 4, 5, 6, 7, 8, 9, 10, 11, 12, 13, 14, 15],
        Value::Bytes(&[0, 1, 2, 3, 4, 5, 6, 7, 8, 9, 10, 11, 12, 13, 14, 15]),
    ),
    (
        DW_FORM_line_strp,
        &[1, 2, 3, 4],
        Value::LineStr(0x0403_0201),
    ),
    (
        DW_FORM_ref_sig8,
        &[1, 0, 0, 0, 0, 0, 0, 0],
        Value::Unused(1),
    ),
    (DW_FORM_loclistx, &[6], Value::Unused(6)),
    (DW_FORM_rnglistx, &[6], Value::RangeIndex(6)),
    (
        DW_FORM_ref_sup8,
        &[1, 0, 0, 0, 0, 0, 0, 0],
        Value::Unused(1),
    ),
    (DW_FORM_strx1, &[0xfe], Value::StrIndex(0xfe)),
    (DW_FORM_strx2, &[1, 2], Value::StrIndex(0x0201)),
    (DW_FORM_strx3, &[1, 2, 3], Value::StrIndex(0x03_0201)),
    (DW_FORM_strx4, &[1, 2, 3, 4], Value::StrIndex(0x0403_0201)),
    (DW_FORM_addrx1, &[0xfe], Value::AddressIndex(0xfe)),
    (DW_FORM_addrx2, &[1, 2], Value::AddressIndex(0x0201)),
    (DW_FORM_addrx3, &[1, 2, 3], Value::AddressIndex(197_121)),
    (
        DW_FORM_addrx4,
        &[1, 2, 3, 4],
        Value::AddressIndex(0x0403_0201),
    ),
    (
        DW_FORM_GNU_ref_alt,
        &[1, 2, 3, 4],
        Value::Unused(0x0403_0201),
    ),
    (
        DW_FORM_GNU_strp_alt,
        &[1, 2, 3, 4],
        Value::Unused(0x0403_0201),
    ),
    (DW_FORM_indirect, &[0x16, 0x0b, 7], Value::Unsigned(7)),
];

/// The value of a form in the 32-bit format, and how many bytes the cursor has passed then. No
/// clause says what they are, so that its callers are proved soon.
fn value_in(bytes: &[u8], form: u64) -> (Result<Value<'_>, FormFault>, usize) {
    let mut cursor = Cursor::new(bytes);
    let read = read_value(&mut cursor, form, None, Width::Four);
    (read, cursor.at())
}

#[test]
fn value_of_each_form(rt: HostRuntime) {
    for (form, bytes, value) in &ROWS {
        expect(
            &rt,
            form,
            &value_in(bytes, *form),
            &(Ok(*value), bytes.len()),
        );
    }
}

/// Codes 1, 2, 9 and then 2 and 9 once more; the second has the pair of a number in the
/// declaration, the zero of its end is padded.
const TABLE: &[u8] = &[
    0xaa, 1, 0x11, 1, 3, 8, 0, 0, 2, 0x2e, 0, 0x3a, 0x21, 0x7f, 0x80, 0, 0, 9, 0x34, 2, 0, 0, 2, 1,
    0, 0, 0, 9, 2, 0, 0, 0, 0,
];

/// A table of declarations. No clause says what it means, so that its callers are proved soon.
fn table_at<'a>(alloc: Global, section: &'a [u8], offset: u64) -> Result<Abbrevs<'a>, FormFault> {
    Abbrevs::read(alloc, section, offset)
}

/// Bytes, the offset of a table of declarations in them, and why it can't be read, if it can't.
static ENDS: [(&[u8], u64, Option<FormFault>); 11] = [
    (&[], 0, None),
    (&[1, 0x11, 0, 0, 0], 0, None),
    (TABLE, 33, None),
    (TABLE, 34, Some(FormFault::End)),
    (TABLE, u64::MAX, Some(FormFault::End)),
    (&[1, 0x11, 0, 0], 0, Some(FormFault::End)),
    (&[1, 0x11], 0, Some(FormFault::End)),
    (&[1], 0, Some(FormFault::End)),
    (&[1, 0x91], 0, Some(FormFault::End)),
    (&[0x81], 0, Some(FormFault::End)),
    (
        &[
            1, 0xff, 0xff, 0xff, 0xff, 0xff, 0xff, 0xff, 0xff, 0xff, 0xff, 0x7f,
        ],
        0,
        Some(FormFault::Wide),
    ),
];

#[test]
fn tables_that_end(rt: HostRuntime) {
    for (i, (bytes, offset, fault)) in ENDS.iter().enumerate() {
        let read = table_at(rt.alloc(), bytes, *offset);
        expect(&rt, i, &read.err(), fault);
    }
}

/// Declarations without pairs at 0, 5, 10 and 15, and the end of their table at 20. What begins at
/// 1 is a declaration with the pairs 0, 2 and 0x2e, 0, so it ends before the one at 10.
const INSIDE: &[u8] = &[
    1, 0x11, 0, 0, 0, 2, 0x2e, 0, 0, 0, 2, 0x34, 0, 0, 0, 7, 0x35, 0, 0, 0, 0,
];

/// The offset of a table, a code, and the tag of its first declaration there.
static INSIDE_ROWS: [(u64, u64, Option<u64>); 17] = [
    (0, 1, Some(0x11)),
    (0, 2, Some(0x2e)),
    (0, 7, Some(0x35)),
    (0, 3, None),
    (1, 0x11, Some(0)),
    (1, 2, Some(0x34)),
    (1, 7, Some(0x35)),
    (1, 1, None),
    (5, 2, Some(0x2e)),
    (5, 7, Some(0x35)),
    (5, 1, None),
    (10, 2, Some(0x34)),
    (10, 7, Some(0x35)),
    (10, 1, None),
    (15, 7, Some(0x35)),
    (15, 2, None),
    (20, 7, None),
];

/// In which order the tables are asked for.
static ORDERS: [[u64; 6]; 4] = [
    [0, 1, 5, 10, 15, 20],
    [20, 15, 10, 5, 1, 0],
    [10, 0, 20, 1, 15, 5],
    [1, 15, 0, 5, 20, 10],
];

/// The tag of the declaration of a code, in the table at an offset.
fn tag_in(
    alloc: Global,
    store: &mut AbbrevStore<'_>,
    offset: u64,
    code: u64,
) -> Result<Option<u64>, FormFault> {
    let start = store.start(alloc, offset)?;
    let Some(declaration) = store.table(start).get(code) else {
        return Ok(None);
    };
    Ok(Some(declaration.tag))
}

/// The tables are asked for at these offsets, and then have these tags.
fn expect_tags<A: Abort>(
    rt: &A,
    alloc: Global,
    store: &mut AbbrevStore<'_>,
    offsets: &[u64],
) -> Result<(), FormFault> {
    for offset in offsets {
        store.start(alloc, *offset)?;
    }
    for (offset, code, tag) in &INSIDE_ROWS {
        let found = tag_in(alloc, store, *offset, *code)?;
        expect(rt, (*code, *offset), &found, tag);
    }
    Ok(())
}

/// Tables that begin inside one another have what is declared from their beginning on, whichever
/// was read first.
#[test]
fn tables_inside_one_another(rt: HostRuntime) -> Result<(), Fail> {
    for offsets in &ORDERS {
        let mut store = AbbrevStore::new(rt.alloc(), INSIDE);
        expect_tags(&rt, rt.alloc(), &mut store, offsets)?;
    }
    Ok(())
}

/// Codes in no order, one of which has more pairs than are gathered without an allocation.
const MANY: &[u8] = &[
    9, 0x34, 0, 3, 8, 4, 8, 5, 8, 6, 8, 7, 8, 8, 8, 9, 8, 10, 8, 11, 8, 12, 8, 0, 0, 4, 0x35, 1, 0,
    0, 0,
];

/// The declaration of a code, in the same way.
fn declared<'b, 'a>(table: &'b Abbrevs<'a>, code: u64) -> Result<&'b Decl<'a>, Fail> {
    Ok(table.get(code).ok_or("a declaration")?)
}

/// The attributes of a declaration.
fn pairs_of(alloc: Global, declaration: &Decl<'_>) -> Result<Vec<Spec>, AllocError> {
    let mut left = declaration.specs.fork();
    let mut pairs = Vec::new(alloc);
    for _ in 0..declaration.specs.len() {
        let Some(spec) = left.take_first() else {
            break;
        };
        pairs.push(spec)?;
    }
    Ok(pairs)
}

/// The table of these, read once more where an allocation was refused.
fn many_at_last(alloc: Global) -> Result<Abbrevs<'static>, FormFault> {
    let table = table_at(alloc, MANY, 0);
    let Err(FormFault::Memory) = table else {
        return table;
    };
    table_at(alloc, MANY, 0)
}

/// The first declaration has ten pairs.
fn expect_ten<A: Abort>(rt: &A, pairs: &[Spec]) {
    let first = pairs.first().map(|spec| spec.name);
    let last = pairs.last().map(|spec| spec.name);
    expect(rt, "pairs", &pairs.len(), &10);
    expect(rt, "the first", &first, &Some(3));
    expect(rt, "the last", &last, &Some(12));
}

/// A table has all that it declares; its pairs are only looked at where memory is left for them.
fn expect_whole<A: Abort>(rt: &A, alloc: Global, table: &Abbrevs<'_>) -> Result<(), Fail> {
    let first = declared(table, 9)?;
    expect(rt, "code 4", &declared(table, 4)?.tag, &0x35);
    if let Ok(pairs) = pairs_of(alloc, first) {
        expect_ten(rt, &pairs);
    }
    Ok(())
}

/// A table for which an allocation is refused is out of memory, and the next reading, with memory,
/// gives it whole.
#[test]
fn each_allocation_refused(rt: HostRuntime) -> Result<(), Fail> {
    let table = many_at_last(rt.alloc())?;
    expect_whole(&rt, rt.alloc(), &table)
}
