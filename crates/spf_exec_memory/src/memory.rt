//! The memory that a form is performed on.

ghost use Rattle.std.specs.Prelude.{◌≡◌, ◌<◌, ℕ, List, [], ◌∷◌, Option, true, false, MatchOption};
ghost use Rattle.spf_ast.specs.Event.{Event, Load, Store, Turn};
ghost use Rattle.spf_ast.specs.Interaction.{reaches};
ghost use Rattle.spf_exec_memory.specs.MemoryLaws.{Laws, IsEmitted};

use spf_ast::outcome::Trap;

/// Why a form was left before its end.
#[derive(Clone, Copy, PartialEq, Eq, Debug)]
pub enum Halt {
    /// The program trapped.
    Trapped(Trap),
    /// A turn's number reached the memory's stopping number.
    Cancelled { seen: u64 },
    /// The output had no memory for a byte.
    NoMemory,
    /// A `break` ends the innermost loop. No whole form is left in this way.
    Broken,
}

/// Says that a form was left before its end. The reason is kept beside it, so that an answer needs
/// two registers and no memory.
#[derive(Clone, Copy)]
pub struct Halted;

/// What became of a byte for the output.
#[derive(Clone, Copy, PartialEq, Eq, Debug)]
pub enum Emitted {
    /// It is the output's last byte now.
    Put,
    /// The output has as many bytes as it may have, and is as before.
    Full,
    /// There was no memory for it, and the output is as before.
    NoMemory,
}

/// Numbered cells, an output, and a poll at each turn. A list of events leads from one state of the
/// memory to another.
pub trait Memory {
    // these events lead from the first state to the second
    ghost leads: { List Event → Self → Self → Type 0 };

    // a turn whose number reaches this stops a performance
    ghost stop: { Self → Option ℕ };

    // the number of cells
    ghost cell_count: { Self → ℕ };

    // the bytes of the output
    ghost output: { Self → List ℕ };

    // whether the output may have no memory for a byte
    ghost may_lack_memory: { Type 0 };

    /// Gives the word of a cell.
    fn load(&mut self, cell: u64) -> i64
        requires { cell < cell_count self.old }
        ensures leads { leads (Load cell result ∷ []) self.old self.new }
        ensures output { output self.new ≡ output self.old };

    /// Stores a word into a cell.
    fn store(&mut self, cell: u64, value: i64)
        requires { cell < cell_count self.old }
        ensures leads { leads (Store cell value ∷ []) self.old self.new }
        ensures output { output self.new ≡ output self.old };

    /// Makes a turn. Gives its number where that stops the performance.
    fn turn(&mut self) -> Option<u64>
        ensures leads { MatchOption result
            ((n : ℕ) × leads (Turn n ∷ []) self.old self.new × (reaches (stop self.old) n ≡ false))
            (λ seen.
            leads (Turn seen ∷ []) self.old self.new × (reaches (stop self.old) seen ≡ true)) }
        ensures output { output self.new ≡ output self.old };

    /// Adds a byte to the output, which may have 67,108,864 bytes.
    fn emit(&mut self, byte: u8) -> Emitted
        ensures leads { leads [] self.old self.new }
        ensures output { IsEmitted may_lack_memory result byte (output self.old)
            (output self.new) };

    ghost laws: { Laws leads stop };

    ghost keeps_cells: { (events : List Event) (before after : Self) → leads events before after
        → cell_count after ≡ cell_count before };
}
