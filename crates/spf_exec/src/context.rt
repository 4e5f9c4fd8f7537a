//! What the code of `main` is performed in.

ghost use Rattle.std.specs.Prelude.{◌≡◌, ◌<◌, ◌^◌, length};
ghost use Rattle.spf_ast.specs.Program.{cell_count_of, extents_of};
ghost use Rattle.spf_code_registers.specs.Registers.{rooms};
ghost use Rattle.spf_code.specs.Fits.{FunctionsFit};
ghost use Rattle.spf_exec_instance.specs.Instance.{program_of};
ghost use Rattle.spf_exec_memory.specs.Performs.{AreWithin};
ghost use Rattle.spf_exec_instructions.specs.Instructions.{setting};
ghost use Rattle.spf_exec.specs.Sources.{AgreesWithProgram, IsLowered};

use spf_exec_instance::instance::Instance;
use spf_exec_instructions::context::Context;

/// What the code of `main` is performed in: all functions may be called.
pub(crate) fn context_of<'a>(instance: &'a Instance) -> Context<'a>
    ensures fits { AgreesWithProgram (program_of instance.now) instance.now.input
        (setting result (length result.functions.now)) }
    ensures lowered { IsLowered (program_of instance.now) instance.now.input
        result.functions.now }
    ensures input { result.input.now ≡ instance.now.input }
    ensures extents { result.extents.now
        ≡ extents_of (program_of instance.now) (length instance.now.input) }
    ensures functions { FunctionsFit (rooms (program_of instance.now)) result.functions.now }
    ensures within { AreWithin result.extents.now
        (cell_count_of (program_of instance.now) (length instance.now.input)) }
    ensures short { length result.input.now < 2 ^ 63 }
{
    Context {
        functions: &instance.code().functions,
        extents: instance.layout().extents(),
        input: instance.input(),
    }
}
