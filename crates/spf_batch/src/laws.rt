//! Laws about batches. Each is the contract of a function that does nothing.
ghost use Rattle.spf_batch.specs.Said.{BatchesAnswerAsSaid};

/// What a batch has put, and what it gives, is a function of what its fetches gave. After a put
/// that failed, or without memory, it has put a prefix of that.
pub fn batches_answer_as_said()
    ensures { BatchesAnswerAsSaid }
{}
