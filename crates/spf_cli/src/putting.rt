//! How an answer is put: its output in pieces, and then its lines.

ghost use Rattle.std.specs.Prelude.{◌≡◌, ◌⊎◌, ◌≤◌, OnOk, IfErr};
ghost use Rattle.spf_edge.specs.Faults.{Rose};
ghost use Rattle.spf_cli_answers.specs.Answering.{lines_of, seen_answer};
ghost use Rattle.spf_cli_answers.specs.Status.{status_number};
ghost use Rattle.spf_cli.specs.Answered.{sinks, IsGiven, IsGivenInPart};
ghost use Rattle.spf_cli.specs.Putting.{put_status as put_status_of};
ghost use Rattle.spf_edge_pieces.specs.Pieces.{AreTaken, AreTakenInPart, IsPutFault};

use spf_cli_answers::{Answer, Status};
use spf_edge::{PutError, Sink};
use spf_edge_pieces::put_pieces;

/// Puts lines, each by a put of its own.
pub(crate) fn put_lines<S: Sink>(sink: &mut S, lines: &[Vec<u8>]) -> Result<(), PutError>
    ensures whole { OnOk result
        (AreTaken (lines_of lines.now) (S.state sink.old) (S.state sink.new)) }
    ensures part { AreTakenInPart (lines_of lines.now) (S.state sink.old) (S.state sink.new) }
    ensures failed { IfErr result
        (IsPutFault (Rose (S.state sink.old).faults (S.state sink.new).faults)) }
    ensures later { (S.state sink.old).faults ≤ (S.state sink.new).faults }
{
    for line in lines {
        sink.put(line)?;
    }
    Ok(())
}

/// The status of a put that failed.
pub(crate) fn put_status(error: PutError) -> Status
    ensures { status_number result ≡ put_status_of error }
{
    match error {
        PutError::Failed => Status::PutFailed,
        PutError::OutOfMemory => Status::NoMemory,
    }
}

/// Puts an answer: its output, and then its lines. After a put that failed nothing more is put.
pub(crate) fn put<S: Sink>(given: &Answer, out: &mut S, err: &mut S) -> Result<(), PutError>
    ensures given { OnOk result (IsGiven (seen_answer given.now) (status_number given.now.status)
        (sinks (S.state out.old) (S.state out.new) (S.state err.old) (S.state err.new))) }
    ensures part { IsGivenInPart (seen_answer given.now)
        (sinks (S.state out.old) (S.state out.new) (S.state err.old) (S.state err.new)) }
    ensures failed { IfErr result (IsPutFault
        (Rose (S.state out.old).faults (S.state out.new).faults
        ⊎ Rose (S.state err.old).faults (S.state err.new).faults)) }
{
    put_pieces(out, &given.output)?;
    put_lines(err, &given.messages)
}
