//! The example of the README. `tests/readme.sh` compares the two, line by line.

use crate::expect::expect;
use dw_elf::OpenFault;
use dw_symbols::{Answer, Context, Image};
use std::alloc::Global;
use std::num::NonZeroUsize;
use std::test::Fail;
use test_inputs::files::sample;

/// The name of the innermost function at an address of a program.
fn function_at(alloc: Global, file: &[u8], address: u64) -> Result<Option<&[u8]>, OpenFault> {
    let image = Image::open(alloc, file)?;
    let mut context = Context::new(alloc, &image, NonZeroUsize::MIN)?;
    let Answer::Found { frames, .. } = context.find_frames(address)? else {
        return Ok(None);
    };
    Ok(frames.first().and_then(|frame| frame.name))
}

/// An address, and the name there.
static NAMES: [(u64, Option<&[u8]>); 3] = [
    (0x40_1000, Some(b"main")),
    (0x40_1004, Some(b"leaf")),
    (0x40_100e, None),
];

#[test]
fn of_the_readme(rt: HostRuntime) -> Result<(), Fail> {
    let file = sample(rt.alloc())?;
    for (address, wanted) in &NAMES {
        expect(
            &rt,
            address,
            &function_at(rt.alloc(), &file, *address)?,
            wanted,
        );
    }
    Ok(())
}
