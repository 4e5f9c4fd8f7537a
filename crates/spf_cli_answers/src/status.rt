//! The statuses with which the program ends.

ghost use Rattle.std.specs.Prelude.{◌≡◌};
ghost use Rattle.spf_cli_answers.specs.Status.{status_number};

use std::alloc::AllocError;

/// How the program ended.
#[derive(Clone, Copy, PartialEq, Eq, Debug)]
pub enum Status {
    /// The command is done.
    Done = 0,
    /// The program trapped.
    Trapped = 1,
    /// The words aren't understood.
    NotUnderstood = 2,
    /// The text has no lawful program.
    NoProgram = 3,
    /// The rules refuse the program.
    Refused = 4,
    /// A file could not be read.
    FileFailed = 5,
    /// A sink failed.
    PutFailed = 6,
    /// A limit was passed, or a host isn't supplied.
    OverLimit = 7,
    /// Memory ran out.
    NoMemory = 8,
    /// A file isn't of its format: HUF1, LEX1, a machine's text, a list of names, or a log.
    WrongFormat = 9,
    /// A log isn't that of a speculative run.
    WrongLog = 10,
}

impl From<AllocError> for Status {
    ghost use Rattle.std.specs.Prelude.{◌≡◌};
    ghost use Rattle.spf_cli_answers.specs.declared.status.Status.TheVariants.{NoMemory};

    ghost from_gives = { λ _ status. status ≡ NoMemory };

    fn from(_: AllocError) -> Self {
        Status::NoMemory
    }
}

/// Returns the number of a status.
pub fn number(status: Status) -> u8
    ensures { result ≡ status_number status }
{
    status as u8
}
