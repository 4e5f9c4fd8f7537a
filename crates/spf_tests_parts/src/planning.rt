//! Which cells the blocks of worked programs write.

ghost use Rattle.spf_ast.specs.View.{program as seen_program};
ghost use Rattle.spf_ast.specs.Lawful.{IsLawful};

use spf_ast::construct::find_construct;
use spf_check::check::check;
use spf_check::checked::Checked;
use spf_exec_instance::arrays::layout;
use spf_parse::parse;
use spf_region::span::{Plan, Span};
use spf_types::resolve;
use std::alloc::Global;

// The checked program of a text.
fn check_text(alloc: Global, text: &str) -> Option<Checked> {
    let raw = parse(alloc, text.as_bytes()).ok()?;
    let program = resolve(alloc, raw).ok()?;
    check(alloc, program).ok()
}

// The spans of the first two blocks of its first construct, for an empty input, from the block
// number `low` on.
fn plan_of(alloc: Global, checked: &Checked, low: i32) -> Option<Plan> {
    let found = layout(alloc, checked.program(), 0).ok()?;
    // A plan is asked for a construct that is there.
    find_construct(&checked.program().main, 0)?;
    checked.plan(alloc, 0, &found, low as i64, 2).ok()
}

/// Returns whether these are the spans of two blocks.
fn is_plan(plan: &Plan, wanted: [&[Span]; 2]) -> bool {
    plan.blocks.len() == 2 && [plan.blocks[0].as_slice(), plan.blocks[1].as_slice()] == wanted
}

/// Returns whether two blocks, the first one of this number, have these spans.
fn have_spans(alloc: Global, text: &str, low: i32, wanted: [&[Span]; 2]) -> Option<bool> {
    let checked = check_text(alloc, text)?;
    let plan = plan_of(alloc, &checked, low)?;
    Some(is_plan(&plan, wanted))
}

/// Programs, the number of a block, and the spans of this block and the next one.
const PLANS: [(&str, i32, &[Span], &[Span]); 5] = [
    (
        "array a[5]; array out[6]; main { specfold s = 0 for k in 0..3 predict 1 { \
            fill out[2*k..2*k + 2] = 0; out[2*k + (s & 1)] = 7; next s + 1; } }",
        1,
        &[Span { from: 7, to: 9 }],
        &[Span { from: 9, to: 11 }],
    ),
    (
        "array out[6]; main { specfold s = 0 for k in 0..3 predict 1 { \
            fill out[2*k..2*k + 2] = 0; next s + 1; } }",
        -1,
        &[],
        &[Span { from: 0, to: 2 }],
    ),
    (
        "array out[8]; main { specfold s = 0 for k in 0..2 predict 1 { out[4*k] = s; \
            out[4*k + 2] = s; next s; } }",
        0,
        &[Span { from: 0, to: 1 }, Span { from: 2, to: 3 }],
        &[Span { from: 4, to: 5 }, Span { from: 6, to: 7 }],
    ),
    (
        "array out[4]; main { spec x = { out[3] = 1; give 3; } predict 4 { out[0] = x; \
            out[1] = x; } }",
        7,
        &[Span { from: 3, to: 4 }],
        &[Span { from: 0, to: 2 }],
    ),
    (
        "main { specfold s = 0 for k in 0..3 predict 1 { next s + 1; } }",
        0,
        &[],
        &[],
    ),
];

#[test]
fn blocks_have_the_spans_of_what_they_may_write(rt: HostRuntime) {
    for &(text, low, first, second) in &PLANS {
        let right = have_spans(rt.alloc(), text, low, [first, second]);
        assert!(rt; right == Some(true), "{text}");
    }
}
