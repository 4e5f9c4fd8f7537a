//! What the words of a command line lead to.

ghost use Rattle.std.specs.Prelude.{◌≡◌, IfOk};
ghost use Rattle.spf_cli_answers.specs.Replying.{reply_of, batch_reply_of, IsBatch};

use crate::answer::{Answer, Exit};
use crate::batch::Batch;

/// What the words of a command line lead to.
#[derive(Drop)]
pub enum Reply {
    /// The whole answer.
    Answer(Answer),
    /// A batch, whose answers go to the output as they come.
    Batch(Batch),
}

/// An answer as a reply.
pub(crate) fn reply_with(answer: Result<Answer, Exit>) -> Result<Reply, Exit>
    ensures reply { result ≡ reply_of answer }
    ensures answer { IfOk result (λ reply. IsBatch reply → ⊥) }
{
    match answer {
        Ok(answer) => Ok(Reply::Answer(answer)),
        Err(exit) => Err(exit),
    }
}

/// A batch as a reply.
pub(crate) fn reply_with_batch(batch: Result<Batch, Exit>) -> Result<Reply, Exit>
    ensures { result ≡ batch_reply_of batch }
{
    match batch {
        Ok(batch) => Ok(Reply::Batch(batch)),
        Err(exit) => Err(exit),
    }
}
