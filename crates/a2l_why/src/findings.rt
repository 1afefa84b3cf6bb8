//! The findings of a file: what of it answers no address, or another one's.

ghost use Rattle.std.specs.Prelude.{◌≡◌, None, OnOk, IfOk, IfErr};
ghost use Rattle.dw_model.specs.Refusal.{refusal};
ghost use Rattle.dw_model.specs.Unit as cut;
ghost use Rattle.dw_elf.specs.OpenFault.{RefusesUnlessMemory};
ghost use Rattle.a2l_why.specs.Census.{IsCensus, listed};

use crate::census::{Census, census_of};
use crate::notes::notes_of;
use a2l_findings::{Allocated, Note, Scene, Survey};
use dw_elf::OpenFault;
use dw_symbols::Image;
use std::alloc::Global;

/// What is called while the units are looked at.
pub trait Progress {
    /// `done` of `all` units have been looked at.
    fn reach(&mut self, done: usize, all: usize);
}

/// What of a file can puzzle a user.
#[derive(Debug, Drop)]
pub struct Findings<'a> {
    /// How many units it has.
    pub census: Census,
    /// A note for each finding; none where nothing was found.
    pub notes: Vec<Note<'a>>,
}

/// Looks at all units.
fn look_at_all<P: Progress>(scene: &Scene<'_>, progress: &mut P) -> Allocated<Survey> {
    let mut survey = Survey::new(scene.alloc);
    for i in 0..scene.units.len() {
        progress.reach(i, scene.units.len());
        survey.look_at(scene, i)?;
    }
    Ok(survey)
}

/// The findings in an open file.
fn findings_in<'a, P: Progress>(scene: &Scene<'a>, progress: &mut P) -> Allocated<Findings<'a>>
    ensures { IfOk result (λ findings. IsCensus (cut.units scene.now.units.value.info) findings.census) }
{
    let survey = look_at_all(scene, progress)?;
    let census = census_of(&scene.units);
    let notes = notes_of(scene, &census, &survey)?;
    Ok(Findings { census, notes })
}

/// The findings of a file. It is refused exactly as a file whose addresses are asked for.
pub fn findings_of<'a, P: Progress>(
    alloc: Global,
    file: &'a [u8],
    progress: &mut P,
) -> Result<Findings<'a>, OpenFault>
    ensures accepted { OnOk result (refusal file.now ≡ None) }
    ensures refused { IfErr result (λ fault. RefusesUnlessMemory fault (refusal file.now)) }
    ensures census { IfOk result (λ findings. IsCensus (listed file.now) findings.census) }
{
    let image = Image::open(alloc, file)?;
    drop(image);
    let scene = Scene::new(alloc, file)?;
    let findings = findings_in(&scene, progress)?;
    Ok(findings)
}
