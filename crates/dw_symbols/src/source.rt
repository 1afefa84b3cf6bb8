//! The image that a context asks.

ghost use Rattle.std.specs.Prelude.{◌≡◌, IfOk};
ghost use Rattle.dw_symbols.specs.Source.{file_in};

use crate::image::Image;
use std::alloc::AllocError;
use std::sync::Arc;

/// The image of a context: one that stands elsewhere, or one that it shares with others and keeps.
#[derive(Drop)]
pub(crate) enum Source<'b, 'a> {
    Borrowed(&'b Image<'a>),
    Shared(Arc<Image<'a>>),
}

impl<'b, 'a> Source<'b, 'a> {
    /// The image.
    #[inline(always)]
    pub(crate) fn image(&self) -> &Image<'a>
        ensures { result.now ≡ file_in self.now }
    {
        match self {
            Source::Borrowed(image) => image,
            Source::Shared(image) => image,
        }
    }

    /// The same image once more.
    pub(crate) fn again(&self) -> Result<Self, AllocError>
        ensures { IfOk result (λ source. file_in source ≡ file_in self.now) }
    {
        match self {
            Source::Borrowed(image) => Ok(Source::Borrowed(*image)),
            Source::Shared(image) => Ok(Source::Shared(Arc::try_clone(image)?)),
        }
    }
}
