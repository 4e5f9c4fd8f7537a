//! The registers of a program's `main`, with room for calls.

ghost use Rattle.std.specs.Prelude.{◌≡◌, ℤ, List, [], length, pos, replicate, IfOk};
ghost use Rattle.spf_ast.specs.Carried.{with_carried};
ghost use Rattle.spf_exec_instance.specs.Frame.{frame_size};
ghost use Rattle.spf_exec_instance.specs.Instance.{program_of};

use spf_ast::row::{Row, set_carried};
use spf_exec_instance::instance::Instance;
use std::alloc::{AllocError, Global};
use std::marker::Model;

/// Words that stay free after the registers of a frame: two cache lines. Blocks run at the same
/// time on frames that were made one after another; without the gap their registers would share a
/// line, and each store would slow the others down.
const GAP: usize = 16;

/// Room for `count` registers, with the gap after them.
fn room_for(alloc: Global, count: usize) -> Result<Vec<i64>, AllocError>
    ensures empty { IfOk result (λ room. room.items ≡ []) }
{
    Vec::with_capacity(alloc, count.saturating_add(GAP))
}

/// The registers of a program's `main`, with room for its deepest chain of calls. The first of them
/// are the slots of `main`.
#[derive(Drop)]
pub struct Frame {
    pub(crate) registers: Vec<i64>,
}

impl Model for Frame {
    ghost Value = { List ℤ };

    ghost view = { λ f. f.registers.items };
}

impl Frame {
    /// Makes the frame of a program: all its registers are 0.
    ///
    /// # Errors
    ///
    /// `AllocError` where there is no memory for it.
    pub fn make(alloc: Global, instance: &Instance) -> Result<Frame, AllocError>
        ensures zeros { IfOk result
            (λ f. f ≡ replicate (frame_size (program_of instance.now)) (pos 0)) }
    {
        let size = instance.frame_size();
        let mut registers = room_for(alloc, size)?;
        registers.resize(size, 0)?;
        Ok(Frame { registers })
    }

    /// Puts a carried row into its slots.
    pub(crate) fn set_carried(&mut self, slots: &[u32], row: Row)
        ensures { self.new ≡ with_carried slots.now row self.old }
    {
        set_carried(&mut self.registers, slots, row.words());
    }

    /// Makes an equal frame.
    ///
    /// # Errors
    ///
    /// `AllocError` where there is no memory for it.
    pub fn copy(&self, alloc: Global) -> Result<Frame, AllocError>
        ensures equal { IfOk result (λ f. f ≡ self.now) }
    {
        let mut registers = room_for(alloc, self.registers.len())?;
        registers.extend_from_slice(&self.registers)?;
        Ok(Frame { registers })
    }

    /// Makes this frame equal to another one of the same size. It takes no memory.
    pub fn restore(&mut self, from: &Frame)
        requires size { length from.now ≡ length self.old }
        ensures equal { self.new ≡ from.now }
    {
        self.registers.copy_from_slice(&from.registers);
    }
}
