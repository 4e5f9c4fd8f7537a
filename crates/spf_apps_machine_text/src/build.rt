//! The machine of a text.
ghost use Rattle.std.specs.Prelude.{◌≡◌, true, false, IfOk, MatchResult};
ghost use Rattle.spf_apps_machine_text.specs.MachineText.{IsTextOf, IsMachine};
ghost use Rattle.spf_apps_machine_text.specs.Building.{IsRefusedWith};

use crate::reading::read_file;
use crate::show::show_machine;
use spf_apps_formats::laws::files_have_one_verdict;
use spf_apps_formats::lex1::lex1_check;
use std::alloc::{AllocError, Global};
use thiserror::Error;

/// Why there is no machine of a text.
#[derive(Clone, Copy, PartialEq, Eq, Debug, Error)]
pub enum BuildError {
    /// No machine has this text.
    #[error("not a machine")]
    NotMachine,
    /// Memory ran out.
    #[error("out of memory")]
    OutOfMemory,
}

impl From<AllocError> for BuildError {
    ghost use Rattle.std.specs.Prelude.{◌≡◌};
    ghost use Rattle.spf_apps_machine_text.specs.declared.build.BuildError.TheVariants.{OutOfMemory};

    ghost from_gives = { λ _ error. error ≡ OutOfMemory };

    fn from(_: AllocError) -> Self {
        BuildError::OutOfMemory
    }
}

/// Returns whether a file is a machine.
fn is_machine(file: &[u8]) -> bool
    ensures yes { result ≡ true → IsMachine file.now }
    ensures no { result ≡ false → IsMachine file.now → ⊥ }
{
    files_have_one_verdict();
    match lex1_check(file) {
        Ok(_) => true,
        Err(_) => false,
    }
}

/// Returns whether a text is that of a machine.
fn is_text_of(alloc: Global, text: &[u8], file: &[u8]) -> Result<bool, AllocError>
    requires { IsMachine file.now }
    ensures yes { IfOk result (λ same. same ≡ true → IsTextOf text.now file.now) }
    ensures no { IfOk result (λ same. same ≡ false → IsTextOf text.now file.now → ⊥) }
{
    let shown = show_machine(alloc, file)?;
    Ok(shown.as_slice() == text)
}

/// Builds the machine that has this text, as a LEX1 file.
///
/// # Errors
///
/// `NotMachine` exactly if no machine has this text; `OutOfMemory`.
pub fn build_machine(alloc: Global, text: &[u8]) -> Result<Vec<u8>, BuildError>
    ensures { MatchResult result (λ file. IsTextOf text.now file.items) (IsRefusedWith text.now) }
{
    let file = read_file(alloc, text)?;
    if !is_machine(&file) {
        return Err(BuildError::NotMachine);
    }
    if !is_text_of(alloc, text, &file)? {
        return Err(BuildError::NotMachine);
    }
    Ok(file)
}
