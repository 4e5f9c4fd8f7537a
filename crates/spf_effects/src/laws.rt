//! What is found in worked examples, and how lists grow by forms. Each law is the contract of a
//! function that does nothing.
ghost use Rattle.std.specs.Prelude.{◌≡◌, List, [], ◌∷◌, pos};
ghost use Rattle.spf_region.specs.declared.range.Range.{Range};
ghost use Rattle.spf_region.specs.declared.range.Range.TheVariants.{Affine};
ghost use Rattle.spf_region.specs.Ranges.{joined, offsets_of, wholes_of, in_both, whole_in_both};
ghost use Rattle.spf_effects_findings.specs.Extends.{Extends, Lists};
ghost use Rattle.spf_effects_findings.specs.Found.{nowhere, Finds, ◌then◌, either};
ghost use Rattle.spf_effects.specs.Laws.{EffectsHaveLists};
ghost use Rattle.spf_effects.specs.Examples.{filled_block, short_loop, swept_block, broken_block};
ghost use Rattle.spf_effects.specs.Examples.{inner_break, called_write, branches};

use spf_region::laws::each_list_has_a_normal_form;

/// A body that fills its two elements and then stores into one of them covers what it may write.
pub fn fill_covers()
    ensures may { filled_block.may
        ≡ Affine 0 (pos 2) (pos 0) (pos 1) ∷ Affine 0 (pos 2) (pos 0) (pos 1) ∷ [] }
    ensures uncovered { filled_block.uncovered ≡ [] }
    ensures must { filled_block.must ≡ joined (Affine 0 (pos 2) (pos 0) (pos 1)) nowhere }
{}

/// A loop whose number of turns isn't known writes nothing surely.
pub fn loop_writes_nothing_surely()
    ensures may { short_loop.may ≡ Affine 0 (pos 1) (pos 0) (pos 0) ∷ [] }
    ensures uncovered { short_loop.uncovered ≡ [] }
    ensures must { short_loop.must ≡ nowhere }
{}

/// A loop over the elements of a block, which stores into each, surely writes them.
pub fn sweep_writes_surely()
    ensures may { swept_block.may ≡ Affine 0 (pos 2) (pos 0) (pos 1) ∷ [] }
    ensures must { swept_block.must ≡ joined (Affine 0 (pos 2) (pos 0) (pos 1)) nowhere }
{}

/// A loop that a `break` may end before its last turn writes nothing surely.
pub fn broken_loop_writes_nothing_surely()
    ensures may { broken_block.may ≡ Affine 0 (pos 2) (pos 0) (pos 1) ∷ [] }
    ensures must { broken_block.must ≡ nowhere }
{}

/// A `break` of a loop within a loop ends the inner one alone, and the outer one surely writes what
/// it swept.
pub fn inner_break_doesnt_matter()
    ensures may { inner_break.may ≡ Affine 0 (pos 2) (pos 0) (pos 1) ∷ [] }
    ensures must { inner_break.must ≡ joined (Affine 0 (pos 2) (pos 0) (pos 1)) nowhere }
{}

/// A call is entered: what the function writes at its argument counts, and then the store at its
/// answer.
pub fn call_is_entered()
    ensures may { called_write.may
        ≡ Affine 0 (pos 2) (pos 0) (pos 0) ∷ Affine 0 (pos 2) (pos 1) (pos 1) ∷ [] }
    ensures uncovered { called_write.uncovered ≡ [] }
    ensures must { called_write.must
        ≡ joined (Affine 0 (pos 2) (pos 1) (pos 1))
        (joined (Affine 0 (pos 2) (pos 0) (pos 0)) nowhere) }
{}

/// Of two branches both writes may be made, and a read in the second isn't covered by a write in
/// the first.
pub fn branches_stand_apart()
    ensures may { branches.may
        ≡ Affine 0 (pos 1) (pos 0) (pos 0) ∷ Affine 0 (pos 1) (pos 1) (pos 1) ∷ [] }
    ensures uncovered { branches.uncovered ≡ Affine 0 (pos 1) (pos 0) (pos 0) ∷ [] }
    ensures must { branches.must
        ≡ in_both (joined (Affine 0 (pos 1) (pos 0) (pos 0)) nowhere)
        (joined (Affine 0 (pos 1) (pos 1) (pos 1)) nowhere) }
{}

/// Lists that grow by one form and then by another grow by both in order.
pub fn sequence()
    ensures { (f g : Finds) (old mid new : Lists) → Extends f old mid → Extends g mid new
        → Extends (f then g) old new }
{}

/// Lists that grow by one form, and then by another from what was surely written before both, grow
/// by one of the two, where what both surely write is kept.
pub fn choice()
    ensures { (f g : Finds) (old one two : Lists) (copy common : List Range)
        → offsets_of copy ≡ offsets_of old.written → wholes_of copy ≡ wholes_of old.written
        → Extends f old one
        → Extends g (record { uncovered = one.uncovered; may = one.may; written = copy }) two
        → offsets_of common ≡ in_both (offsets_of one.written) (offsets_of two.written)
        → wholes_of common ≡ whole_in_both (wholes_of one.written) (wholes_of two.written)
        → Extends (either f g) old
        (record { uncovered = two.uncovered; may = two.may; written = common }) }
{}

/// The effects of each part of each construct have lists in normal form.
pub fn each_part_has_effects_in_lists()
    ensures { EffectsHaveLists }
{
    each_list_has_a_normal_form();
}
