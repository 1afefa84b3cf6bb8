//! Functions of units, worked out by hand, and what no clause says: that calls succeed.

use crate::expect::expect;
use crate::units::units_of;
use dw_elf::OpenFault;
use dw_frames::{EntryId, Tree, TreeFault};
use dw_units::{Kind, Units};
use std::alloc::{AllocError, Global};
use std::process::Abort;
use std::sync::Arc;
use std::test::Fail;
use test_inputs::files::{file_of, sample, unit_of};

/// The units of a file, for trees that keep them.
fn shared_units<'a>(alloc: Global, file: &'a [u8]) -> Result<Arc<Units<'a>>, OpenFault> {
    Ok(Arc::new(alloc, units_of(alloc, file)?)?)
}

/// The functions of the first unit, which isn't skipped.
fn first_tree<'a>(
    alloc: Global,
    units: &Arc<Units<'a>>,
) -> Result<Result<Tree<'a>, TreeFault>, Fail> {
    if units.len() == 0 {
        return Err(Fail::from("a unit"));
    }
    match units.unit(0).kind {
        Kind::Compile | Kind::Partial | Kind::Skeleton => Ok(Tree::read(alloc, units, 0)),
        Kind::Skipped => Err(Fail::from("a unit that isn't skipped")),
    }
}

/// The functions of the first unit of a file.
pub(crate) fn tree_of<'a>(alloc: Global, file: &'a [u8]) -> Result<Tree<'a>, Fail> {
    let units = shared_units(alloc, file)?;
    match first_tree(alloc, &units)? {
        Ok(tree) => Ok(tree),
        Err(fault) => Err(Fail::from(fault)),
    }
}

/// Why the functions of the first unit of a file can't be read.
pub(crate) fn fault_of_first(alloc: Global, file: &[u8]) -> Result<Option<TreeFault>, Fail> {
    let units = shared_units(alloc, file)?;
    Ok(first_tree(alloc, &units)?.err())
}

/// The functions at an address. No clause says which they are, so that its callers are proved soon.
fn chain_at(alloc: Global, tree: &Tree<'_>, a: u64) -> Result<Vec<EntryId>, AllocError> {
    tree.chain(alloc, a)
}

/// The name of a function, in the same way.
fn name_of<'a>(tree: &Tree<'a>, id: EntryId) -> Option<&'a [u8]> {
    tree.name(id)
}

/// Functions are those at these offsets of the first unit, and so many bytes more.
fn expect_functions<A: Abort>(rt: &A, a: u64, chain: &[EntryId], wanted: &[u64], before: u64) {
    expect(rt, a, &chain.len(), &wanted.len());
    for (id, offset) in chain.iter().zip(wanted.iter()) {
        let offset = before.saturating_add(*offset);
        expect(rt, a, &(id.unit, id.offset), &(0, offset));
    }
}

/// The functions at each address are those at these offsets of the first unit, and so many bytes
/// more, innermost first.
pub(crate) fn expect_chains<A: Abort>(
    rt: &A,
    alloc: Global,
    tree: &Tree<'_>,
    chains: &[(u64, &[u64])],
    before: u64,
) -> Result<(), Fail> {
    for (a, wanted) in chains {
        let chain = chain_at(alloc, tree, *a)?;
        expect_functions(rt, *a, &chain, wanted, before);
    }
    Ok(())
}

/// The functions at addresses of the sample's first unit.
static CHAINS: [(u64, &[u64]); 12] = [
    (0x40_0fff, &[]),
    (0x40_1000, &[0x23]),
    (0x40_1001, &[0x23]),
    (0x40_1002, &[0x36, 0x23]),
    (0x40_1004, &[0x47, 0x36, 0x23]),
    (0x40_1005, &[0x47, 0x36, 0x23]),
    (0x40_1006, &[0x36, 0x23]),
    (0x40_1007, &[0x36, 0x23]),
    (0x40_1008, &[0x23]),
    (0x40_100d, &[0x23]),
    (0x40_100e, &[]),
    (u64::MAX, &[]),
];

#[test]
fn functions_of_the_sample(rt: HostRuntime) -> Result<(), Fail> {
    let file = sample(rt.alloc())?;
    let tree = tree_of(rt.alloc(), &file)?;
    expect_chains(&rt, rt.alloc(), &tree, &CHAINS, 0)
}

/// A unit with children; a subprogram with a name; a block with children; a subprogram and a block
/// with a range list; a block with a name.
const SHORT: &[u8] = &[
    1, 0x11, 1, 0, 0, 3, 0x2e, 0, 3, 8, 0, 0, 4, 0x0b, 1, 0, 0, 5, 0x2e, 0, 0x55, 0x17, 0, 0, 6,
    0x0b, 0, 0x55, 0x17, 0, 0, 7, 0x0b, 0, 3, 8, 0, 0, 0,
];

/// How many blocks are in one another below the first entry, what is in the last, and why that
/// unit's functions can't be read, if they can't.
static FAULTS: [(usize, &[u8], Option<TreeFault>); 11] = [
    // entries after the list aren't read
    (0, &[0, 0x7f], None),
    (1, &[0x7f], Some(TreeFault::Entry)),
    // entries that are cut: a function, one that is passed, and its text
    (0, &[3, b'n'], Some(TreeFault::Entry)),
    (0, &[6, 0, 0, 0], Some(TreeFault::Entry)),
    (0, &[7, b'n'], Some(TreeFault::Entry)),
    (511, &[3, b'n', 0, 4], None),
    (512, &[3, b'n', 0], Some(TreeFault::Depth)),
    (512, &[4], Some(TreeFault::Depth)),
    (512, &[7, b'n', 0], Some(TreeFault::Depth)),
    (0, &[5, 0, 0, 0, 0, 0x7f], Some(TreeFault::Ranges)),
    // what isn't a function has ranges that aren't read
    (0, &[6, 0, 0, 0, 0, 0], None),
];

/// A unit with so many blocks in one another, and these bytes in the last.
fn nested(alloc: Global, blocks: usize, last: &[u8]) -> Result<Vec<u8>, AllocError> {
    let mut entries = Vec::new(alloc);
    entries.push(1)?;
    for _ in 0..blocks {
        entries.push(4)?;
    }
    entries.extend_from_slice(last)?;
    unit_of(alloc, &entries)
}

/// Why its functions can't be read.
fn fault_of(alloc: Global, blocks: usize, last: &[u8]) -> Result<Option<TreeFault>, Fail> {
    let info = nested(alloc, blocks, last)?;
    let file = file_of(alloc, &info, SHORT)?;
    fault_of_first(alloc, &file)
}

#[test]
fn faults_of_trees(rt: HostRuntime) -> Result<(), Fail> {
    for (i, (blocks, last, fault)) in FAULTS.iter().enumerate() {
        expect(&rt, i, &fault_of(rt.alloc(), *blocks, last)?, fault);
    }
    Ok(())
}

/// The functions of the first unit, read once more where an allocation was refused.
fn tree_at_last<'a>(alloc: Global, units: &Arc<Units<'a>>) -> Result<Tree<'a>, Fail> {
    let tree = match first_tree(alloc, units)? {
        Err(TreeFault::Memory) => first_tree(alloc, units)?,
        tree => tree,
    };
    match tree {
        Ok(tree) => Ok(tree),
        Err(fault) => Err(Fail::from(fault)),
    }
}

/// The functions at an address, asked for once more where an allocation was refused.
fn chain_at_last(alloc: Global, tree: &Tree<'_>, a: u64) -> Result<Vec<EntryId>, AllocError> {
    let Ok(chain) = chain_at(alloc, tree, a) else {
        return chain_at(alloc, tree, a);
    };
    Ok(chain)
}

/// The innermost of three functions at an address is `leaf`.
fn expect_leaf<A: Abort>(rt: &A, alloc: Global, tree: &Tree<'_>) -> Result<(), Fail> {
    let chain = chain_at_last(alloc, tree, 0x40_1004)?;
    expect(rt, "functions", &chain.len(), &3);
    let innermost = chain.first().copied().ok_or("a function")?;
    let name = name_of(tree, innermost);
    expect(rt, "leaf", &name, &Some(b"leaf".as_slice()));
    Ok(())
}

/// A tree and a chain are whole, where they are asked for once more after an allocation was
/// refused.
fn expect_whole<A: Abort>(rt: &A, alloc: Global, units: &Arc<Units<'_>>) -> Result<(), Fail> {
    let tree = tree_at_last(alloc, units)?;
    expect_leaf(rt, alloc, &tree)
}

/// Where an allocation is refused, a tree and a chain are out of memory, and the same call, with
/// memory, gives them whole.
#[test]
fn each_allocation_refused(rt: HostRuntime) -> Result<(), Fail> {
    let alloc = rt.alloc();
    let Ok(file) = sample(alloc) else {
        return Ok(());
    };
    let Ok(units) = shared_units(alloc, &file) else {
        return Ok(());
    };
    expect_whole(&rt, alloc, &units)
}
