//! The effects of the parts of one construct.

use spf_effects::effects::Effects;

/// The effects of the parts of one construct.
#[derive(Drop)]
pub(crate) struct ConstructEffects {
    /// Those of the part that runs from a guess: of a fold the body, of a pair the consumer.
    pub(crate) guessed: Effects,
    /// Those of the predictor.
    pub(crate) predictor: Effects,
    /// Those of a pair's producer; a fold has none.
    pub(crate) producer: Option<Effects>,
}
