//! How many bytes the values of an entry take, where their forms fix it.

ghost use Rattle.std.specs.Prelude.{◌≡◌, IfSome};
ghost use Rattle.dw_model.specs.Entry.{attributes_at};
ghost use Rattle.dw_bytes.specs.Width.{size_of as offset_size};
ghost use Rattle.dw_forms.specs.Declaration.{spec_shown};
ghost use Rattle.dw_forms.specs.Size.{Skips, value_size, size_in};
ghost use Rattle.dw_forms.specs.Spelling.{size_shown};

use crate::declaration::Spec;
use crate::form::{Size, Spelling, spelling_of};
use crate::pairs::Specs;
use dw_bytes::Width;

/// How many bytes a number of a size has.
fn bytes_of(size: Size) -> usize
    ensures { result ≡ size_shown size }
{
    match size {
        Size::One => 1,
        Size::Two => 2,
        Size::Three => 3,
        Size::Four => 4,
        Size::Eight => 8,
    }
}

/// How many bytes the values of an attribute take, where offsets have a width; `None` where they
/// differ, or can't be read.
pub(crate) fn size_of(spec: &Spec, width: Width) -> Option<usize>
    ensures { result ≡ value_size (offset_size width) (spec_shown spec.now) }
{
    match spelling_of(spec.form)? {
        Spelling::Fixed(size, _) => Some(bytes_of(size)),
        Spelling::Offset(_) => Some(width.size()),
        Spelling::Flag => Some(1),
        Spelling::Block(size) => Some(size),
        Spelling::Implicit => {
            spec.implicit?;
            Some(0)
        }
        Spelling::Present => Some(0),
        Spelling::Uleb(_)
        | Spelling::Sleb
        | Spelling::Counted(_)
        | Spelling::UlebCounted
        | Spelling::Text => None,
    }
}

impl Specs<'_> {
    /// How many bytes the values of an entry with these attributes take, where offsets have a
    /// width and the form of each value has one size: then each entry is read over in one step.
    /// `None` where a form has no fixed size, or the sum doesn't fit 64 bits.
    pub fn size(&self, width: Width) -> Option<usize>
        ensures size { result ≡ size_in (offset_size width) self.now }
        ensures skips { IfSome result (λ n. Skips n (attributes_at (offset_size width) self.now)) }
    {
        let mut size: usize = 0;
        let mut left = self.fork();
        while let Some(spec) = left.take_first() {
            size = size.checked_add(size_of(&spec, width)?)?;
        }
        Some(size)
    }
}
