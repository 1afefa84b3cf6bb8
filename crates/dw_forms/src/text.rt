//! Texts of a file, of which the end is looked for only when they are asked for.

ghost use Rattle.std.specs.Prelude.{◌≡◌, option_map};
ghost use Rattle.dw_model.specs.Reading.{start, text_at};
ghost use Rattle.dw_forms.specs.Text.{text_shown};

use dw_bytes::Cursor;

/// A text, without the zero byte after it. Most names of a program are never asked for, so the end
/// of one needn't have been looked for.
#[derive(Clone, Copy, Debug)]
pub enum Text<'a> {
    /// These bytes.
    Whole(&'a [u8]),
    /// The bytes before the first zero byte among these.
    UpToZero(&'a [u8]),
}

impl<'a> Text<'a> {
    /// The text with which these bytes begin, up to the first zero byte. `None` where none of them
    /// is zero. The first isn't looked for where the last one is, as in the sections of real files.
    pub fn first(bytes: &'a [u8]) -> Option<Self>
        ensures { option_map text_shown result ≡ option_map (λ found. found.0) (text_at (start bytes.now)) }
    {
        if let Some(0) = bytes.last() {
            return Some(Text::UpToZero(bytes));
        }
        let text = Cursor::new(bytes).text()?;
        Some(Text::Whole(text))
    }

    /// Its bytes.
    pub fn bytes(&self) -> &'a [u8]
        ensures { result.now ≡ text_shown self.now }
    {
        match *self {
            Text::Whole(bytes) => bytes,
            Text::UpToZero(bytes) => {
                let Some(text) = Cursor::new(bytes).text() else {
                    return bytes;
                };
                text
            }
        }
    }
}
