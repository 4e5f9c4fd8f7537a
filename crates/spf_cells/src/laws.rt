//! What holds of plans. A law is the contract of a function that does nothing.
ghost use Rattle.spf_cells.specs.Laws.{AscendingPlansAreDisjoint, SpansCoverTheirCells};

/// `Cells::make` takes a plan whose blocks have ascending spans inside the memory and no cell in
/// common, and a lane has exactly the cells that are in its block's spans.
pub fn ascending_plans_are_disjoint()
    ensures disjoint { AscendingPlansAreDisjoint }
    ensures cells { SpansCoverTheirCells }
{}
