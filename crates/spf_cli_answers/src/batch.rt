//! Batches that can begin.

ghost use Rattle.std.specs.Prelude.{◌≤◌, ◌<◌, length};
ghost use Rattle.spf_ast_lemmas.specs.Limits.{max_workers};
ghost use Rattle.spf_batch.specs.Batch.{max_files};

use spf_check::checked::Checked;

/// A batch that can begin: its program is accepted, its list is read, and no host is missing.
#[derive(Drop)]
pub struct Batch {
    /// The program.
    pub checked: Checked,
    /// The names of the files, in order.
    pub names: Vec<String>,
    /// How many workers run the blocks.
    pub workers: u64,
    ghost few: { length names.items ≤ max_files },
    ghost staffed: { (0 < workers) × (workers ≤ max_workers) },
}
