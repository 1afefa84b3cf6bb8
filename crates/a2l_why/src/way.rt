//! The way of an address to its answer, step by step.

ghost use Rattle.std.specs.Prelude.{◌≡◌, IfOk, option_and_then, slice_get};
ghost use Rattle.dw_model.specs.Section.{sections};
ghost use Rattle.dw_model.specs.Unit as cut;
ghost use Rattle.dw_model.specs.Answer as model;

use a2l_findings::{Allocated, Note, Scene, steps_through, uncovered_note};
use dw_symbols::Image;

/// The way of an address.
#[derive(Debug, Drop)]
pub struct Way<'a> {
    /// The index of the unit that answers it; `None` where none does.
    pub place: Option<usize>,
    /// The steps in that unit, or why no unit answers.
    pub steps: Vec<Note<'a>>,
}

/// The way of an address, which has no unit exactly where no unit answers the address.
pub(crate) fn way_of<'a>(scene: &Scene<'a>, image: &Image<'a>, address: u64) -> Allocated<Way<'a>>
    ensures { IfOk result (λ way. option_and_then (slice_get (cut.units (sections image.now).info)) way.place
        ≡ model.unit_of (sections image.now) address) }
{
    let Some(found) = image.unit_place(address) else {
        let mut steps = Vec::new(scene.alloc);
        steps.push(uncovered_note(scene, address)?)?;
        let place = None;
        return Ok(Way { place, steps });
    };
    let unit = found.place;
    let steps = steps_through(scene, unit, address)?;
    let place = Some(unit);
    Ok(Way { place, steps })
}
