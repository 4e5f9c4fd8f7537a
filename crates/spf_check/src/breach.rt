//! Whether the effects of a construct break a rule, and by which range.
ghost use Rattle.std.specs.Prelude.{◌≡◌, ◌||◌, not, find, slice_get, option_map, None, Some};
ghost use Rattle.std.specs.Prelude.{if◌then◌else◌, option_to_list};
ghost use Rattle.std.specs.List.{list_any};
ghost use Rattle.spf_region.specs.Ranges.{offsets_of, covers, disjoint, array_of};
ghost use Rattle.spf_region.specs.Ranges.{first_unseparated, IsNormal};
ghost use Rattle.std.specs.Prelude.{MatchOption};
ghost use Rattle.spf_ast.specs.Syntax.{Program as plain_program};
ghost use Rattle.spf_ast.specs.Construct.{Construct};
ghost use Rattle.spf_check_rules.specs.Rules.{KeepsTheRules};
ghost use Rattle.spf_check.specs.Accepting.{IsLowestBroken};
ghost use Rattle.spf_check.specs.Breaches.{breach, is_written, meets, first_overlap, assigns_outer};
ghost use Rattle.spf_check.specs.Breaches.{emits_inside, all_rules, first_broken};
ghost use Rattle.spf_check.specs.Parts.{AreEffectsOf, AreNormal};

use crate::construct::ConstructEffects;
use crate::rule::Rule;
use spf_effects::effects::Effects;
use spf_region::list::RangeList;
use spf_region::range::Range;

/// The rules in their order.
const RULES: [Rule; 7] = [
    Rule::OuterAssign,
    Rule::EmitInside,
    Rule::PredictorWrites,
    Rule::Overlap,
    Rule::PredictorReads,
    Rule::ReadBeforeWrite,
    Rule::NotOverwritten,
];

/// That a rule is broken, and by which range, where the rule is about ranges.
#[derive(Clone, Copy)]
pub(crate) struct Breach {
    pub(crate) range: Option<Range>,
}

/// A rule that isn't about ranges is broken where this holds.
fn plain(is_broken: bool) -> Option<Breach>
    ensures { result ≡ (if is_broken then Some (record { range = None }) else None) }
{
    if is_broken {
        Some(Breach { range: None })
    } else {
        None
    }
}

/// A rule about ranges is broken where there is one that breaks it.
fn by(range: Option<Range>) -> Option<Breach>
    ensures { result ≡ option_map (λ r. record { range = Some r }) range }
{
    match range {
        Some(range) => Some(Breach { range: Some(range) }),
        None => None,
    }
}

/// Returns whether the range shares cells with one of the list.
fn meets(range: &Range, others: &RangeList) -> bool
    ensures { result ≡ meets range.now others.now }
{
    others
        .ranges()
        .iter()
        .any(|other| !range.is_disjoint(other))
}

impl ConstructEffects {
    /// Returns whether the construct may write the array.
    fn is_written(&self, array: u32) -> bool
        ensures { result ≡ is_written self.now array }
    {
        if self.guessed.may.touches(array) {
            return true;
        }
        match &self.producer {
            Some(producer) => producer.may.touches(array),
            None => false,
        }
    }

    /// Returns whether a block part assigns a local that is declared outside of it.
    fn assigns_outer(&self) -> bool
        ensures { result ≡ assigns_outer self.now }
    {
        match &self.producer {
            Some(producer) => self.guessed.assigns_outer || producer.assigns_outer,
            None => self.guessed.assigns_outer,
        }
    }

    /// Returns whether a block part emits.
    fn emits_inside(&self) -> bool
        ensures { result ≡ emits_inside self.now }
    {
        match &self.producer {
            Some(producer) => self.guessed.emits || producer.emits,
            None => self.guessed.emits,
        }
    }

    /// The first range of the list whose array is written.
    fn first_of_written(&self, list: &RangeList) -> Option<Range>
        ensures { result ≡ find (λ r. is_written self.now (array_of r)) list.now }
    {
        list.ranges()
            .iter()
            .copied()
            .find(|range| self.is_written(range.array()))
    }

    /// The first range that blocks share.
    fn first_overlap(&self) -> Option<Range>
        ensures { result ≡ first_overlap self.now }
    {
        match &self.producer {
            None => self.guessed.may.first_unseparated(),
            Some(producer) => first_meeting(&self.guessed.may, producer),
        }
    }

    /// The first range that may be written and isn't surely written.
    fn first_not_overwritten(&self) -> Option<Range>
        ensures { result
            ≡ find (λ r. not (covers (offsets_of self.now.guessed.must) r)) self.now.guessed.may }
    {
        let must = &self.guessed.must;
        self.guessed
            .may
            .ranges()
            .iter()
            .copied()
            .find(|range| !must.covers(range))
    }

    /// Returns whether the rule is broken, and by which range.
    pub(crate) fn breach(&self, rule: Rule) -> Option<Breach>
        ensures { result ≡ breach self.now rule }
    {
        match rule {
            Rule::OuterAssign => plain(self.assigns_outer()),
            Rule::EmitInside => plain(self.emits_inside()),
            Rule::PredictorWrites => by(self.predictor.may.ranges().first().copied()),
            Rule::Overlap => by(self.first_overlap()),
            Rule::PredictorReads => by(self.first_of_written(&self.predictor.uncovered)),
            Rule::ReadBeforeWrite => by(self.first_of_written(&self.guessed.uncovered)),
            Rule::NotOverwritten => by(self.first_not_overwritten()),
        }
    }

    /// The lowest rule that is broken, with its range.
    fn first_broken(&self) -> Option<(Rule, Option<Range>)>
        ensures { result ≡ first_broken self.now all_rules }
    {
        for rule in RULES {
            if let Some(breach) = self.breach(rule) {
                return Some((rule, breach.range));
            }
        }
        None
    }

    /// The lowest rule that the construct breaks, with the range that a refusal names.
    pub(crate) fn lowest_broken(&self) -> Option<(Rule, Option<Range>)>
        ensures { (p : plain_program) (construct : Construct) → AreEffectsOf p construct self.now
            → MatchOption result (KeepsTheRules p construct)
            (λ broken. IsLowestBroken p construct broken.0 broken.1) }
    {
        self.are_normal();
        self.first_broken()
    }

    /// All lists are in normal form, as lists of ranges are.
    pub(crate) fn are_normal(&self)
        ensures { AreNormal self.now }
    {
        are_normal(&self.guessed);
        are_normal(&self.predictor);
        if let Some(producer) = &self.producer {
            are_normal(producer);
        }
    }
}

/// The lists of a part are in normal form.
fn are_normal(found: &Effects)
    ensures uncovered { IsNormal found.now.uncovered }
    ensures may { IsNormal found.now.may }
    ensures must { IsNormal found.now.must }
{
    found.uncovered.ranges();
    found.may.ranges();
    found.must.ranges();
}

/// The first range that a consumer may write and its producer reads or may write.
fn first_meeting(written: &RangeList, producer: &Effects) -> Option<Range>
    ensures { result
        ≡ find (λ r. meets r producer.now.uncovered || meets r producer.now.may) written.now }
{
    written.ranges().iter().copied().find(|range| meets(range, &producer.uncovered)
        || meets(range, &producer.may))
}
