//! The findings in sentences.

use crate::census::Census;
use a2l_findings::{
    Allocated, DW_AT_dwo_name, DW_AT_producer, DW_UT_SPLIT_COMPILE, DW_UT_SPLIT_TYPE, DW_UT_TYPE,
    Fact, Group, Matter, Note, Overlap, Scene, Survey, Words, build_id_in, fault_reason,
    overlap_of, root_text, supplementary, tell_owner, tell_skipped, tell_unit, text_in,
};
use dw_symbols::UnitFault;
use std::alloc::Global;

/// A number of units.
fn tell_units(note: &mut Note<'_>, count: usize) -> Allocated<()> {
    note.count("", "count", count as u64)?;
    note.say(if count == 1 { " unit" } else { " units" })
}

/// How many units there are, and what is done with them.
pub(crate) fn census_note<'a>(alloc: Global, census: &Census) -> Allocated<Note<'a>> {
    let mut note = Note::new(alloc, "units");
    tell_units(&mut note, census.all())?;
    note.count(": ", "answering", census.answering() as u64)?;
    note.count(" answer addresses, ", "partial", census.partial as u64)?;
    note.count(" partial, ", "skipped", census.skipped as u64)?;
    note.say(" skipped")?;
    note.tell("", "compile", Fact::Unsaid(census.compile as u64))?;
    note.tell("", "skeleton", Fact::Unsaid(census.skeleton as u64))?;
    Ok(note)
}

/// What a unit of version 5 is, by its type.
fn type_fact<'a>(unit_type: Option<u8>) -> Fact<'a> {
    match unit_type {
        Some(DW_UT_TYPE) => Fact::Words("type units"),
        Some(DW_UT_SPLIT_COMPILE) => Fact::Words("split units"),
        Some(DW_UT_SPLIT_TYPE) => Fact::Words("split type units"),
        _ => Fact::Nothing,
    }
}

/// What to do about units without ranges.
const NO_RANGES: &str =
    "make the unit's first entry tell DW_AT_ranges, or DW_AT_low_pc with DW_AT_high_pc, as gcc and clang do \
     with -g; of assembler sources the assembler does";

/// What to do about skipped units of a version and a type.
fn skipped_remedy(version: u16, unit_type: Option<u8>) -> Words {
    match unit_type {
        _ if version < 5 => {
            "compile with -gdwarf-5 (rustc: -C dwarf-version=5), libraries and assembler sources too"
        }
        Some(DW_UT_TYPE) => {
            "nothing, where no function is in them; else compile without -fdebug-types-section"
        }
        Some(DW_UT_SPLIT_COMPILE | DW_UT_SPLIT_TYPE) => {
            "ask the program, and not its .dwo or .dwp file"
        }
        _ => "compile with -gdwarf-5, or ask another tool",
    }
}

/// The kind of the note on units, and what to do about them.
fn kind_of(matter: Matter) -> (Words, Words) {
    match matter {
        Matter::Skipped { version, unit_type } => ("skipped", skipped_remedy(version, unit_type)),
        Matter::WithoutRanges => ("without_ranges", NO_RANGES),
        Matter::Skeleton => (
            "skeletons",
            "compile without -gsplit-dwarf, since functions stand in the .dwo file, which isn't read; lines are \
             known",
        ),
        Matter::Supplementary => (
            "supplementary",
            "ask the program as it was before `dwz -m`, since the supplementary file isn't read: names in it are \
             `??`",
        ),
        Matter::Faulty(UnitFault::Line) => (
            "faulty",
            "compile the unit again, by an assembler that writes line tables of version 5 (GNU Binutils 2.35 or \
             later, or clang's own); `readelf --debug-dump=rawline` shows the table",
        ),
        Matter::Faulty(_) => (
            "faulty",
            "compile the unit again, with another compiler if need be; `readelf --debug-dump=info` shows its \
             entries",
        ),
    }
}

/// Adds for what units are reported.
fn tell_matter<'a>(note: &mut Note<'a>, matter: Matter, scene: &Scene<'a>) -> Allocated<()> {
    match matter {
        Matter::Skipped { version, unit_type } => {
            note.count(" of version ", "version", u64::from(version))?;
            note.tell(", which are ", "type", type_fact(unit_type))?;
            note.say(", skipped, so that their addresses are `??:0`")
        }
        Matter::WithoutRanges => {
            note.say(" with code, but without ranges, so that their addresses are `??:0`")
        }
        Matter::Skeleton => note.say(" without functions, since these stand in .dwo files"),
        Matter::Supplementary => {
            note.say(" with values that lead to a supplementary file")?;
            note.tell(", ", "file", Fact::text(supplementary(&scene.headers)))
        }
        Matter::Faulty(fault) => { note.count(" with fault ", "fault", u64::from(fault.number())) }
    }
}

/// Units that are reported for the same.
fn group_note<'a>(scene: &Scene<'a>, group: &Group) -> Allocated<Note<'a>> {
    let (kind, remedy) = kind_of(group.matter);
    let mut note = Note::new(scene.alloc, kind);
    note.remedy = Some(remedy);
    tell_units(&mut note, group.count)?;
    tell_matter(&mut note, group.matter, scene)?;
    if group.first >= scene.units.len() {
        return Ok(note);
    }
    let here = scene.units.at(group.first);
    note.say("; the first: ")?;
    note.begin_group("first");
    if let Matter::Skipped { .. } = group.matter {
        tell_skipped(&mut note, scene, here)?;
        return Ok(note);
    }
    tell_unit(&mut note, here)?;
    match group.matter {
        Matter::Supplementary => {}
        Matter::Skeleton => {
            note.tell(", its file: ", "dwo_name", root_text(here, DW_AT_dwo_name))?;
        }
        _ => note.tell(", made by ", "producer", root_text(here, DW_AT_producer))?,
    }
    if let Matter::Faulty(fault) = group.matter {
        note.reason("; ", fault_reason(scene, here, fault)?)?;
    }
    Ok(note)
}

/// A file without units.
fn no_info_note<'a>(scene: &Scene<'a>) -> Allocated<Note<'a>> {
    let mut note = Note::of(scene.alloc, "no_debug_info", "there is no .debug_info")?;
    note.remedy = Some("compile and link with -g, and don't strip the program");
    if let Some(build_id) = build_id_in(scene.headers.contents(".note.gnu.build-id")) {
        note.tell(", the build id is ", "build_id", Fact::Bytes(build_id))?;
        note.remedy = Some(
            "ask the file of that build id, below /usr/lib/debug/.build-id or from a debuginfod server, or \
             compile with -g",
        );
    }
    if let Some(name) = text_in(scene.headers.contents(".gnu_debuglink")) {
        note.tell(", .gnu_debuglink names ", "debuglink", Fact::Text(name))?;
        note.remedy = Some(
            "ask that file; it mostly lies beside the program, in .debug beside it, or below /usr/lib/debug",
        );
    }
    Ok(note)
}

/// Addresses that are answered by code that isn't there.
fn overlap_note<'a>(scene: &Scene<'a>, kind: Words, overlap: Overlap) -> Allocated<Note<'a>> {
    let mut note = Note::new(scene.alloc, kind);
    note.remedy = Some(
        "link without --gc-sections, or with -no-pie so that no code lies near address 0, or by ld.lld with -z \
     dead-reloc-in-nonalloc=.debug_*=0xffffffffffffffff, which marks dropped code",
    );
    note.count("", "addresses", overlap.addresses)?;
    note.count(" addresses in ", "spans", overlap.spans)?;
    let is_one = overlap.spans == 1;
    note.say(if is_one { " span" } else { " spans" })?;
    note.say(" answered by ranges that begin where no code is, over those of code; the first: ")?;
    note.span("", overlap.first)?;
    note.say(" by ")?;
    note.begin_group("told");
    tell_owner(&mut note, scene, overlap.told as u64)?;
    note.say(", and not by ")?;
    note.begin_group("hidden");
    tell_owner(&mut note, scene, overlap.hidden as u64)?;
    Ok(note)
}

/// Adds the notes on units of a kind, and returns whether there are any.
fn push_groups<'a>(
    scene: &Scene<'a>,
    notes: &mut Vec<Note<'a>>,
    survey: &Survey,
    kind: &str,
) -> Allocated<bool> {
    let before = notes.len();
    for group in survey.groups.as_slice() {
        if kind_of(group.matter).0 == kind {
            notes.push(group_note(scene, group)?)?;
        }
    }
    Ok(notes.len() > before)
}

/// The notes on a file, one for each finding; none where nothing was found.
pub(crate) fn notes_of<'a>(
    scene: &Scene<'a>,
    census: &Census,
    survey: &Survey,
) -> Allocated<Vec<Note<'a>>> {
    let mut notes = Vec::new(scene.alloc);
    if census.all() == 0 {
        notes.push(no_info_note(scene)?)?;
    }
    let _ = push_groups(scene, &mut notes, survey, "skipped")?;
    let is_any = push_groups(scene, &mut notes, survey, "without_ranges")?;
    if !is_any && census.answering() > 0 && survey.ranges.is_empty() {
        let words = "no unit that answers has ranges, so that each address is `??:0`";
        let mut note = Note::of(scene.alloc, "no_ranges", words)?;
        note.remedy = Some(NO_RANGES);
        notes.push(note)?;
    }
    for kind in ["skeletons", "supplementary", "faulty"] {
        let _ = push_groups(scene, &mut notes, survey, kind)?;
    }
    if let Some(overlap) = overlap_of(scene, &survey.ranges)? {
        notes.push(overlap_note(scene, "units_over_units", overlap)?)?;
    }
    if let Some(overlap) = survey.functions_over {
        notes.push(overlap_note(scene, "functions_over_functions", overlap)?)?;
    }
    Ok(notes)
}
