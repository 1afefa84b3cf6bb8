//! Makes the contexts of workers.

use dw_symbols::{Context, Image};
use std::alloc::Global;
use std::num::NonZeroUsize;
use ticket_board::Maker;
use ticket_core::NoMemory;

/// How many of the units that it read each worker keeps.
pub const KEPT_UNITS: usize = 16;

/// Makes the contexts of workers, all over one image.
#[derive(Clone, Copy)]
pub struct Contexts<'b, 'a> {
    pub image: &'b Image<'a>,
}

impl<'b, 'a> Maker<Context<'b, 'a>> for Contexts<'b, 'a> {
    ghost key = { λ maker. maker.image.now };

    fn key(&self) -> &[u8] {
        self.image.bytes()
    }

    fn make(&self, alloc: Global) -> Result<Context<'b, 'a>, NoMemory> {
        let capacity = NonZeroUsize::MIN.saturating_add(KEPT_UNITS - 1);
        Context::new(alloc, self.image, capacity)
    }
}
