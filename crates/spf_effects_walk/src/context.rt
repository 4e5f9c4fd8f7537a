//! Where forms stand, and the bounds of the slots there.
ghost use Rattle.std.specs.Prelude.{◌≡◌, ℕ, ◌<◌, MatchOption, Some, map, slice_get, slice_set};
ghost use Rattle.std.specs.Prelude.{slice_index_or, if◌then◌else◌, IfOk, List};
ghost use Rattle.spf_region.specs.declared.bound.Bound.{Bound as bound_form};
ghost use Rattle.spf_region.specs.declared.bound.Bound.TheVariants.{Unknown};
ghost use Rattle.spf_ast.specs.View.{function as seen_function};
ghost use Rattle.spf_effects_findings.specs.Forms.{Entered};
ghost use Rattle.spf_effects_findings.specs.Parts.{call_before, entered, own_bounds};
ghost use Rattle.spf_effects_findings.specs.Parts.{parameter_bounds};
ghost use Rattle.spf_effects_walk.specs.SlotSets.{has_slot};
ghost use Rattle.spf_effects_walk.specs.Settings.{never_entered};

use crate::slot_sets::SlotSet;
use spf_ast::syntax::Function;
use spf_region::bound::Bound;
use std::alloc::{AllocError, Global};

/// Where a form stands: the functions that it may call, and the slots that an assignment sets
/// somewhere in the present one.
#[derive(Clone, Copy)]
pub struct Context<'a> {
    /// Where memory is allocated.
    pub alloc: Global,
    /// The program's functions.
    pub functions: &'a [Function],
    /// Functions with an index below this one may be called.
    pub below: usize,
    /// The slots that an assignment sets.
    pub assigned: &'a SlotSet,
}

/// What is known of a slot.
pub(crate) fn bound_of(bounds: &[Bound], slot: u32) -> Bound
    ensures { result ≡ slice_index_or bounds.now slot Unknown }
{
    bounds.get(slot as usize).copied().unwrap_or(Bound::Unknown)
}

/// Makes the bound of a declared slot known, unless an assignment sets the slot somewhere.
pub fn declare(assigned: &SlotSet, slot: u32, bound: Bound, bounds: &mut [Bound])
    ensures { bounds.new
        ≡ (if has_slot assigned.now slot then bounds.old else slice_set bounds.old slot bound) }
{
    let index = slot as usize;
    if assigned.contains(index) {
        return;
    }
    if index < bounds.len() {
        bounds[index] = bound;
    }
}

/// The function that a call reaches, where it stands before the index `below`.
pub(crate) fn callee(functions: &[Function], below: usize, index: usize) -> Option<&Function>
    ensures { MatchOption result ((given : List bound_form)
        → call_before (map seen_function functions.now) below index given ≡ never_entered) (λ f.
        (index < below)
        × (slice_get (map seen_function functions.now) index ≡ Some (seen_function f.now))) }
{
    if index >= below {
        return None;
    }
    if index >= functions.len() {
        return None;
    }
    Some(&functions[index])
}

/// What is known of a parameter whose argument has this bound.
fn parameter_bound(assigned: &SlotSet, slot: usize, bound: Bound) -> Bound
    ensures { result ≡ (if has_slot assigned.now slot then Unknown else bound) }
{
    if assigned.contains(slot) {
        return Bound::Unknown;
    }
    bound
}

/// The bounds of a function's slots where it is entered with arguments of these bounds.
pub(crate) fn own_bounds(
    alloc: Global,
    assigned: &SlotSet,
    count: usize,
    given: &[Bound],
) -> Result<Vec<Bound>, AllocError>
    ensures { IfOk result (λ v. v.items ≡ own_bounds (has_slot assigned.now) count given.now) }
{
    let mut bounds = parameter_bounds(alloc, assigned, given)?;
    bounds.resize(count.max(given.len()), Bound::Unknown)?;
    Ok(bounds)
}

/// The bounds of parameters.
fn parameter_bounds(
    alloc: Global,
    assigned: &SlotSet,
    given: &[Bound],
) -> Result<Vec<Bound>, AllocError>
    ensures { IfOk result (λ v. v.items ≡ parameter_bounds (has_slot assigned.now) 0 given.now) }
{
    let mut bounds = Vec::new(alloc);
    for bound in given {
        let slot = bounds.len();
        bounds.push(parameter_bound(assigned, slot, *bound))?;
    }
    Ok(bounds)
}
