//! What holds of lists in normal form, and of sets of offsets. Each law is the contract of a
//! function that does nothing.
ghost use Rattle.std.specs.Prelude.{None, ◌≢◌, ◌≡◌, ℕ, ℤ, List, Bool, true, ◌↔◌, ◌≤ℤ◌};
ghost use Rattle.spf_region.specs.declared.range.Range.{Range};
ghost use Rattle.spf_region.specs.declared.range.Range.TheVariants.{Affine};
ghost use Rattle.spf_region.specs.Ranges.{IsNormal, Offsets, offsets_of, wholes_of, covers};
ghost use Rattle.spf_region.specs.Ranges.{has_array, first_unseparated, first_meeting, separate};
ghost use Rattle.spf_region.specs.Ranges.{disjoint};
ghost use Rattle.spf_region.specs.Cells.{Extent, AreAscending, in_spans};
ghost use Rattle.spf_region.specs.declared.span.Span.{Span};
ghost use Rattle.spf_region.specs.Laws.{HasEntry, AreSeparate, AreDisjoint, LieApart, IsCellAt};
ghost use Rattle.spf_region.specs.Laws.{ListsHaveNormalForms, SetsStayListed};

/// A set of offsets and whole arrays has one list in normal form.
pub fn one_normal_form()
    ensures { (xs ys : List Range) → IsNormal xs → IsNormal ys → offsets_of xs ≡ offsets_of ys
        → wholes_of xs ≡ wholes_of ys → xs ≡ ys }
{}

/// Each list of ranges has a normal form, with the same offsets and whole arrays; and sets of
/// offsets that are made by adding ranges and by taking what two have in common have a list in
/// normal form.
pub fn each_list_has_a_normal_form()
    ensures lists { ListsHaveNormalForms }
    ensures sets { SetsStayListed }
{}

/// A set covers the range of offsets from `l` to `h` exactly where it has each offset between.
pub fn covers_each_offset()
    ensures { (set : Offsets) (a : ℕ) (f l h : ℤ)
        → (covers set (Affine a f l h) ≡ true) ↔ ((o : ℤ) → l ≤ℤ o → o ≤ℤ h → set a f o ≡ true) }
{}

/// A list in normal form has the arrays of its entries.
pub fn arrays_of_entries()
    ensures { (xs : List Range) (a : ℕ) → IsNormal xs
        → (has_array xs a ≡ true) ↔ HasEntry (offsets_of xs) (wholes_of xs) a }
{}

/// No range of a list in normal form is unseparated exactly where its offsets are separate.
pub fn separate_offset_by_offset()
    ensures { (xs : List Range) → IsNormal xs
        → (first_unseparated xs ≡ None) ↔ AreSeparate (offsets_of xs) (wholes_of xs) }
{}

/// No range of a list in normal form meets another list exactly where their offsets are disjoint.
pub fn disjoint_offset_by_offset()
    ensures { (xs ys : List Range) → IsNormal xs → IsNormal ys
        → (first_meeting xs ys ≡ None) ↔ AreDisjoint (offsets_of xs) (wholes_of xs) (has_array xs)
        (offsets_of ys) (wholes_of ys) (has_array ys) }
{}

/// Separate ranges share no cell at different blocks, where the arrays lie apart.
pub fn separate_ranges_share_no_cell()
    ensures { (extents : List Extent) (k j : ℤ) (r s : Range) (cell : ℕ) → LieApart extents → k ≢ j
        → separate r s ≡ true → IsCellAt extents k r cell → IsCellAt extents j s cell → ⊥ }
{}

/// Disjoint ranges share no cell at any blocks, where the arrays lie apart.
pub fn disjoint_ranges_share_no_cell()
    ensures { (extents : List Extent) (k j : ℤ) (r s : Range) (cell : ℕ) → LieApart extents
        → disjoint r s ≡ true → IsCellAt extents k r cell → IsCellAt extents j s cell → ⊥ }
{}

/// Cells have one list of ascending spans with gaps.
pub fn one_ascending_list()
    ensures { (xs ys : List Span) → AreAscending xs → AreAscending ys
        → ((cell : ℕ) → in_spans xs cell ≡ in_spans ys cell) → xs ≡ ys }
{}
