//! The cells of a site.
ghost use Rattle.std.specs.Prelude.{◌≡◌, ℕ, List, IfOk, length};
ghost use Rattle.spf_cells.specs.Spans.{IsDisjointWithin};
ghost use Rattle.spf_cells.specs.Made.{spans_in, setting, new_warden, new_lanes};
ghost use Rattle.spf_speculation_entry.specs.Sites.{entry_at, guess_at, RaisesMispredicted};
ghost use Rattle.spf_chain.specs.Mispredicted.{mispredicted_blocks};

use spf_cells::cells::Cells;
use spf_cells::lane::Lane;
use spf_cells::warden::Warden;
use spf_cells_key::key::GhostKey;
use spf_region::span::Plan;
use spf_speculation_entry::site::Site;
use std::alloc::{AllocError, Global};

/// Makes cells for which the mispredicted blocks of the site may be raised. No code computes which
/// ones: the site exists only in its key.
pub(crate) fn cells_for(
    alloc: Global,
    site: &GhostKey<Site>,
    entry: &[i64],
    plan: &Plan,
) -> Result<(Cells, Warden, Vec<Lane>), AllocError>
    requires disjoint { IsDisjointWithin (spans_in plan.now) (length entry.now) }
    ensures setting { IfOk result
        (λ r. r.0.setting ≡ setting plan.now entry.now (mispredicted_blocks site.now.value)) }
    ensures raisable { IfOk result
        (λ r. RaisesMispredicted (entry_at site.now.value) (guess_at site.now.value) r.0.setting) }
    ensures warden { IfOk result (λ r. r.1 ≡ new_warden r.0 (length (spans_in plan.now))) }
    ensures lanes { IfOk result (λ r. r.2.items ≡ new_lanes r.0 0 (length (spans_in plan.now))) }
{
    make_of(alloc, site, entry, plan)
}

// A call of `Cells::make` whose pick is named by this function's own ghost value.
fn make_of(
    alloc: Global,
    site: &GhostKey<Site>,
    entry: &[i64],
    plan: &Plan,
) -> Result<(Cells, Warden, Vec<Lane>), AllocError>
    ghost raisable: { List ℕ }
    requires disjoint { IsDisjointWithin (spans_in plan.now) (length entry.now) }
    ensures setting { IfOk result (λ r. r.0.setting ≡ setting plan.now entry.now raisable) }
    ensures warden { IfOk result (λ r. r.1 ≡ new_warden r.0 (length (spans_in plan.now))) }
    ensures lanes { IfOk result (λ r. r.2.items ≡ new_lanes r.0 0 (length (spans_in plan.now))) }
{
    let _ = site;
    Cells::make(alloc, entry, plan)
}
