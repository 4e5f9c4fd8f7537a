//! Copies the words of some cells from one memory to another.
ghost use Rattle.std.specs.Prelude.{◌≡◌, ℕ, map, length};
ghost use Rattle.spf_ast.specs.Event.{word_at};
ghost use Rattle.spf_region.specs.Cells.{in_span, in_spans};
ghost use Rattle.spf_replay.specs.Copying.{in_plan, IsCopied};

use crate::steps::{set_word, word_of};
use spf_region::span::{Plan, Span};

/// Copies the words of the cells of a span.
fn copy_span(to: &mut [i64], from: &[i64], span: Span)
    requires same { length to.old ≡ length from.now }
    ensures copied { IsCopied (in_span span) from.now to.old to.new }
    ensures same { length to.new ≡ length to.old }
{
    for cell in span.from..span.to {
        set_word(to, cell, word_of(from, cell));
    }
}

/// Copies the words of the cells of the spans.
pub(crate) fn copy_spans(to: &mut [i64], from: &[i64], spans: &[Span])
    requires same { length to.old ≡ length from.now }
    ensures copied { IsCopied (in_spans spans.now) from.now to.old to.new }
    ensures same { length to.new ≡ length to.old }
{
    for span in spans {
        copy_span(to, from, *span);
    }
}

/// Copies the words of the cells of all blocks of a plan.
pub fn copy_plan(to: &mut [i64], from: &[i64], plan: &Plan)
    requires same { length to.old ≡ length from.now }
    ensures copied { IsCopied (in_plan (map (λ v. v.items) plan.now.blocks.items)) from.now to.old
        to.new }
    ensures same { length to.new ≡ length to.old }
{
    for spans in &plan.blocks {
        copy_spans(to, from, spans);
    }
}
