//! Sets of slots: those that the statements of a block assign, and those that they declare.
ghost use Rattle.std.specs.Prelude.{◌≡◌, ◌<◌, ◌^◌, [], length, OnOk, IfOk};
ghost use Rattle.spf_ast.specs.declared.syntax.Fold.{out-Fold};
ghost use Rattle.spf_ast.specs.declared.syntax.Pair.{out-Pair};
ghost use Rattle.spf_ast.specs.Syntax.{Fold as fold_form, Pair as pair_form};
ghost use Rattle.spf_ast.specs.View.{block as seen_block, statement as seen_statement, fold_head};
ghost use Rattle.spf_ast.specs.View.{pair_head};
ghost use Rattle.spf_effects_walk.specs.SlotSets.{sets_of, has_slot, no_slot, with_slot};
ghost use Rattle.spf_effects_walk.specs.SlotSets.{with_slots, with_statement, with_block};

use spf_ast::syntax::{Fold, Pair, Stmt, StmtKind};
use std::alloc::{AllocError, Global};
use std::marker::Model;

/// A set of slots.
#[derive(Drop)]
pub struct SlotSet {
    flags: Vec<bool>,
}

impl Model for SlotSet {
    ghost use Rattle.std.specs.Prelude.{Bool, List};

    ghost Value = { List Bool };

    ghost view = { λ s. s.flags.items };
}

impl SlotSet {
    /// Makes the empty set. It takes no memory.
    pub fn new(alloc: Global) -> SlotSet
        ensures { result ≡ [] }
    {
        SlotSet {
            flags: Vec::new(alloc),
        }
    }

    /// Returns whether a slot is in the set.
    pub fn contains(&self, slot: usize) -> bool
        ensures { result ≡ has_slot self.now slot }
    {
        self.flags.get(slot).copied().unwrap_or(false)
    }

    /// Puts a slot into the set.
    ///
    /// # Errors
    ///
    /// `AllocError` where there is no memory for its flag.
    pub fn insert(&mut self, slot: u32) -> Result<(), AllocError>
        ensures { OnOk result (has_slot self.new ≡ with_slot slot (has_slot self.old)) }
    {
        let index = slot as usize;
        self.reach(index)?;
        self.flags[index] = true;
        Ok(())
    }

    /// Puts slots into the set.
    ///
    /// # Errors
    ///
    /// `AllocError` where there is no memory for their flags.
    pub fn insert_each(&mut self, slots: &[u32]) -> Result<(), AllocError>
        ensures { OnOk result (has_slot self.new ≡ with_slots slots.now (has_slot self.old)) }
    {
        for slot in slots {
            self.insert(*slot)?;
        }
        Ok(())
    }

    /// Makes room for the flag of a slot.
    fn reach(&mut self, index: usize) -> Result<(), AllocError>
        requires { index < 2 ^ 32 }
        ensures same { OnOk result (has_slot self.new ≡ has_slot self.old) }
        ensures reached { OnOk result (index < length self.new) }
    {
        if index < self.flags.len() {
            return Ok(());
        }
        self.flags.resize(index + 1, false)
    }
}

/// The slots that statements assign, and those that they declare.
#[derive(Drop)]
pub struct Slots {
    /// Those that are assigned.
    pub assigned: SlotSet,
    /// Those that are declared.
    pub declared: SlotSet,
}

/// Returns the slots of a block.
///
/// # Errors
///
/// `AllocError` where there is no memory for the sets.
pub fn slots_in(alloc: Global, statements: &[Stmt]) -> Result<Slots, AllocError>
    ensures { IfOk result (λ s. sets_of s
        ≡ with_block (seen_block statements.now)
        (record { assigned = no_slot; declared = no_slot })) }
{
    let mut slots = Slots {
        assigned: SlotSet::new(alloc),
        declared: SlotSet::new(alloc),
    };
    collect(statements, &mut slots)?;
    Ok(slots)
}

/// Adds the slots of these statements, and of those within them.
#[cycle(collect)]
fn collect(statements: &[Stmt], slots: &mut Slots) -> Result<(), AllocError>
    ensures { OnOk result
        (sets_of slots.new ≡ with_block (seen_block statements.now) (sets_of slots.old)) }
{
    for statement in statements {
        collect_statement(&statement.kind, slots)?;
    }
    Ok(())
}

/// Adds the slots of a statement, and of those within it.
#[cycle(collect)]
fn collect_statement(kind: &StmtKind, slots: &mut Slots) -> Result<(), AllocError>
    ensures { OnOk result
        (sets_of slots.new ≡ with_statement (seen_statement kind.now) (sets_of slots.old)) }
{
    match kind {
        StmtKind::Let(slot, _) => slots.declared.insert(*slot),
        StmtKind::Assign(slot, _) => slots.assigned.insert(*slot),
        StmtKind::If(_, first, second) => {
            collect(first, slots)?;
            collect(second, slots)
        }
        StmtKind::For(slot, _, _, body) => {
            slots.declared.insert(*slot)?;
            collect(body, slots)
        }
        StmtKind::While(_, _, body) => collect(body, slots),
        StmtKind::Fold(fold) => collect_fold(fold, slots),
        StmtKind::Pair(pair) => collect_pair(pair, slots),
        StmtKind::Store(_, _, _)
        | StmtKind::Fill(_, _, _, _)
        | StmtKind::Emit(_)
        | StmtKind::Fail(_)
        | StmtKind::Call(_, _)
        | StmtKind::Break => Ok(()),
    }
}

/// Adds the slots of a fold.
#[cycle(collect)]
fn collect_fold(fold: &Fold, slots: &mut Slots) -> Result<(), AllocError>
    ensures { OnOk result (sets_of slots.new
        ≡ with_statement
        (fold_form (fold_head fold.now) (seen_block (out-Fold fold.now).body.items))
        (sets_of slots.old)) }
{
    slots.declared.insert_each(&fold.carried)?;
    slots.declared.insert(fold.block)?;
    collect(&fold.body, slots)
}

/// Adds the slots of a pair.
#[cycle(collect)]
fn collect_pair(pair: &Pair, slots: &mut Slots) -> Result<(), AllocError>
    ensures { OnOk result (sets_of slots.new ≡ with_statement
        (pair_form (pair_head pair.now) (seen_block (out-Pair pair.now).producer.items)
        (seen_block (out-Pair pair.now).consumer.items)) (sets_of slots.old)) }
{
    slots.declared.insert_each(&pair.carried)?;
    collect(&pair.producer, slots)?;
    collect(&pair.consumer, slots)
}
