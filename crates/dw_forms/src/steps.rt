//! The values of no fixed size in the entries of a declaration, from one to the next.

ghost use Rattle.std.specs.Prelude.{◌≡◌, ◌+◌, ℕ, Some, List, IfSome};
ghost use Rattle.dw_model.specs.declared.dwarf.TheConstants.{OFFSET_SIZE_32};
ghost use Rattle.dw_model.specs.Abbrev.{Specification};
ghost use Rattle.dw_model.specs.Answers.{ReadsOn};
ghost use Rattle.dw_model.specs.Entry.{attributes_at};
ghost use Rattle.dw_forms.specs.Fault.{form_fault};
ghost use Rattle.dw_forms.specs.Size.{place_behind, value_size};
ghost use Rattle.dw_forms.specs.Spec.{spec_shown};
ghost use Rattle.dw_forms.specs.Steps.{step_value, AreSteps};
ghost use Rattle.dw_forms.specs.Value.{value_shown};

use crate::declaration::Spec;
use crate::fault::FormFault;
use crate::size::size_of;
use crate::value::{Value, value_ahead};
use dw_bytes::{Cursor, Width};

/// A value of no fixed size in the entries of a declaration, in units of the 32-bit format.
#[derive(Clone, Copy, Debug, Default, PartialEq, Eq)]
pub(crate) struct Step {
    /// How many bytes are between the step before it and this one.
    pub(crate) before: usize,
    pub(crate) spec: Spec,
}

impl Step {
    /// Passes over the bytes before it, and reads it. After a refusal the cursor may be anywhere.
    #[inline(always)]
    fn read<'a>(&self, cursor: &mut Cursor<'a>) -> Result<Value<'a>, FormFault>
        ensures { ReadsOn value_shown form_fault result (step_value self.now cursor.old) cursor.new }
    {
        let _before = cursor.take(self.before).ok_or(FormFault::End)?;
        value_ahead(cursor, self.spec.form, self.spec.implicit, Width::Four)
    }
}

/// How many bytes are passed with the value of an attribute after so many; `None` where it is a
/// step.
pub(crate) fn passed_with(spec: &Spec, passed: usize) -> Option<usize>
    ensures { IfSome result (λ sum. (m : ℕ) × (value_size OFFSET_SIZE_32 (spec_shown spec.now) ≡ Some m)
        × (sum ≡ passed + m)) }
{
    let size = size_of(spec, Width::Four)?;
    passed.checked_add(size)
}

/// Passes over values of an entry, step by step, and then so many bytes. After a refusal the cursor
/// may be anywhere.
#[inline(always)]
pub(crate) fn pass_steps(
    steps: &[Step],
    rest: usize,
    cursor: &mut Cursor<'_>,
) -> Result<(), FormFault>
    ensures { (specs : List Specification) → AreSteps steps.now rest specs
        → ReadsOn (λ done. done) form_fault result (place_behind (attributes_at OFFSET_SIZE_32 specs cursor.old))
        cursor.new }
{
    for step in steps {
        step.read(cursor)?;
    }
    let Some(_) = cursor.take(rest) else {
        return Err(FormFault::End);
    };
    Ok(())
}
