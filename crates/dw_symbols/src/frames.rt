//! The frames at an address, from the functions at it.

ghost use Rattle.std.specs.Prelude.{◌≡◌, IfOk, map, option_map};
ghost use Rattle.dw_frames.specs.Told.{described_shown};
ghost use Rattle.dw_line.specs.Lines.{lines_shown};
ghost use Rattle.dw_symbols.specs.Answer.{location_shown, frame_shown};
ghost use Rattle.dw_symbols.specs.Frames.{frames_told};

use crate::answer::{Frame, Location};
use crate::location::call_location;
use dw_frames::Described;
use dw_line::Lines;
use std::alloc::{AllocError, Global};
use std::mem;

/// The frames of functions, innermost first; each but the first is where the one inside it was
/// called. Without functions there is one frame without a name.
pub(crate) fn frames_of<'a>(
    alloc: Global,
    lines: &Option<Lines<'_>>,
    functions: &[Described<'a>],
    location: Location,
) -> Result<Vec<Frame<'a>>, AllocError>
    ensures { IfOk result (λ frames. map frame_shown frames.items
        ≡ frames_told (option_map lines_shown lines.now) (location_shown location)
        (map described_shown functions.now)) }
{
    if functions.len() == 0 {
        let frames = vec![in alloc;
            Frame {
                name: None,
                location
            },
        ]?;
        return Ok(frames);
    }
    let mut location = location;
    let mut frames = Vec::with_capacity(alloc, functions.len())?;
    for function in functions {
        let Described { name, call } = *function;
        let next = call_location(alloc, lines, call.file, call.line, call.column)?;
        frames.push(Frame {
            name,
            location: mem::replace(&mut location, next),
        })?;
    }
    Ok(frames)
}
