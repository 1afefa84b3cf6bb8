//! Why no unit answers an address.

use crate::note::{Allocated, Fact, Note, Words};
use crate::scene::{Scene, ranges_in, tell_unit};
use dw_ranges::Range;

/// A range near an address, and the index of its unit.
type Near = Option<(Range, usize)>;

/// The nearest ranges of units before an address and after it, where none holds it.
fn neighbours_of(scene: &Scene<'_>, address: u64) -> Allocated<(Near, Near)> {
    let mut before: Near = None;
    let mut after: Near = None;
    for unit in 0..scene.units.len() {
        for range in ranges_in(scene.alloc, scene.units.at(unit))? {
            let is_before = before.map_or(true, |(nearest, _)| range.end > nearest.end);
            let is_after = after.map_or(true, |(nearest, _)| range.begin < nearest.begin);
            if range.end <= address && is_before {
                before = Some((range, unit));
            } else if range.begin > address && is_after {
                after = Some((range, unit));
            }
        }
    }
    Ok((before, after))
}

/// Adds a range near the address, and its unit.
fn tell_near<'a>(note: &mut Note<'a>, scene: &Scene<'a>, name: Words, near: Near) -> Allocated<()> {
    let Some((range, unit)) = near else {
        return note.say("nothing");
    };
    note.begin_group(name);
    note.span("", range)?;
    if unit >= scene.units.len() {
        return Ok(());
    }
    note.say(" of ")?;
    tell_unit(note, scene.units.at(unit))
}

/// What to do about an address that no section holds.
const ELSEWHERE: &str =
    "take away from the address where the program or library was loaded, as the first line of /proc/PID/maps \
     for the file says it";

/// What to do about an address in a section.
const NO_UNIT: &str =
    "compile the code there with -g -gdwarf-5; code of the linker or of a library without debug information stays `??`";

/// Why no unit answers an address.
pub fn uncovered_note<'a>(scene: &Scene<'a>, address: u64) -> Allocated<Note<'a>> {
    let mut note = Note::new(scene.alloc, "uncovered");
    let words = "no unit that answers has a range that holds ";
    note.place(words, "address", address)?;
    let (before, after) = neighbours_of(scene, address)?;
    note.say("; before it ")?;
    tell_near(&mut note, scene, "before", before)?;
    note.say(", after it ")?;
    tell_near(&mut note, scene, "after", after)?;
    note.begin_group("section");
    let Some(section) = scene.headers.at(address) else {
        note.say("; it lies in no section that is loaded")?;
        note.remedy = Some(ELSEWHERE);
        return Ok(note);
    };
    let name = Fact::Text(scene.headers.name(&section));
    note.tell("; it lies in section ", "name", name)?;
    note.remedy = Some(NO_UNIT);
    Ok(note)
}
