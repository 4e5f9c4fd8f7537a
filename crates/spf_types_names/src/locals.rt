//! The locals that may be used at a point, and the slots that are declared so far.

ghost use Rattle.std.specs.Prelude.{◌≡◌, ◌<◌, ◌≤◌, ◌-◌, ◌∷◌, ◌++◌, [], IfOk, IfErr, None, length};
ghost use Rattle.std.specs.Prelude.{map, drop};
ghost use Rattle.spf_ast.specs.View.{name as seen_name};
ghost use Rattle.spf_types_names.specs.Locals.{binding_of, Seen, AreNew};
ghost use Rattle.spf_types_names.specs.Resolved.{with_each, row_slots as slots_of_row};
ghost use Rattle.spf_types_names.specs.declared.fault.TypeError.TheVariants.{OutOfMemory};

use crate::fault::TypeError;
use crate::globals::{later, short};
use spf_ast::syntax::Name;
use std::alloc::Global;
use std::collections::BTreeMap;
use std::marker::Model;

/// The slot of a local, and whether it may not be assigned.
#[derive(Clone, Copy)]
pub struct Binding {
    pub slot: u32,
    pub fixed: bool,
}

/// A local that may be used.
#[derive(Clone, Copy)]
pub(crate) struct Visible<'a> {
    pub name: &'a [u8],
    pub binding: Binding,
}

/// The locals that may be used at a point, the last one that was declared at the end, and the names
/// of all slots so far.
#[derive(Drop)]
pub struct LocalTable<'a> {
    table: BTreeMap<&'a [u8], Binding>,
    visible: Vec<Visible<'a>>,
    slots: Vec<Name>,
}

impl<'a> Model for LocalTable<'a> {
    ghost use Rattle.spf_types_names.specs.Locals.{Seen};

    ghost Value = { Seen };

    ghost use Rattle.spf_types_names.specs.LocalsView.{seen_locals, IsLocalTable};

    ghost view = { seen_locals };

    ghost invariant = { IsLocalTable };
}

impl<'a> LocalTable<'a> {
    /// Makes a table with no locals and no slots.
    pub fn make(alloc: Global) -> Self
        ensures locals { result.locals ≡ [] }
        ensures slots { result.slots ≡ [] }
    {
        LocalTable {
            table: BTreeMap::new(alloc),
            visible: Vec::new(alloc),
            slots: Vec::new(alloc),
        }
    }

    /// Returns the local of a name, where one may be used.
    pub fn find(&self, name: &'a Name) -> Option<Binding>
        ensures { result ≡ binding_of self.now.locals (seen_name name.now) }
    {
        let bytes: &[u8] = &name.bytes;
        self.table.get(&bytes).copied()
    }

    /// Returns how many locals may be used.
    pub fn count(&self) -> usize
        ensures { result ≡ length self.now.locals }
    {
        self.visible.len()
    }

    /// Returns the slot of the next declaration.
    pub fn next_slot(&self) -> Result<u32, TypeError>
        ensures value { IfOk result (λ n. n ≡ length self.now.slots) }
        ensures memory { IfErr result (λ e. e ≡ OutOfMemory) }
    {
        short(self.slots.len())
    }

    /// Declares the next slot, which has this name.
    pub fn declare(&mut self, alloc: Global, name: &Name) -> Result<u32, TypeError>
        ensures slot { IfOk result (λ n. n ≡ length self.old.slots) }
        ensures declared { IfOk result (λ _. self.new
            ≡ record
            { locals = self.old.locals; slots = self.old.slots ++ seen_name name.now ∷ [] }) }
        ensures memory { IfErr result (λ e. e ≡ OutOfMemory) }
    {
        let slot = short(self.slots.len())?;
        let bytes = name.bytes.to_vec(alloc)?;
        self.slots.push(Name { bytes })?;
        Ok(slot)
    }

    /// Makes a local usable whose name isn't that of another.
    pub fn show(&mut self, name: &'a Name, slot: u32, fixed: bool) -> Result<(), TypeError>
        requires { binding_of self.old.locals (seen_name name.now) ≡ None }
        ensures shown { IfOk result (λ _. self.new ≡ record {
          locals = record
              { name = seen_name name.now; slot = slot; fixed = fixed } ∷ self.old.locals;
          slots = self.old.slots;
        }) }
        ensures memory { IfErr result (λ e. e ≡ OutOfMemory) }
    {
        let name: &[u8] = &name.bytes;
        let binding = Binding { slot, fixed };
        self.visible.push(Visible { name, binding })?;
        match self.table.insert(name, binding) {
            Ok(_) => Ok(()),
            Err(_) => {
                let _ = self.visible.pop();
                Err(TypeError::OutOfMemory)
            }
        }
    }

    /// Makes locals usable whose names are new, from left to right; the first one has this slot.
    pub fn show_each(&mut self, names: &'a [Name], first: u32, fixed: bool) -> Result<(), TypeError>
        requires { AreNew self.old.locals (map seen_name names.now) }
        ensures shown { IfOk result (λ _. self.new
            ≡ record {
              locals = with_each fixed self.old.locals first (map seen_name names.now);
              slots = self.old.slots;
            }) }
        ensures memory { IfErr result (λ e. e ≡ OutOfMemory) }
    {
        for (index, name) in names.iter().enumerate() {
            let slot = later(first, index)?;
            self.show(name, slot, fixed)?;
        }
        Ok(())
    }

    /// Removes the last local.
    fn hide(&mut self)
        ensures { self.new ≡ record { locals = drop 1 self.old.locals; slots = self.old.slots } }
    {
        if let Some(local) = self.visible.pop() {
            let _ = self.table.remove(&local.name);
        }
    }

    /// Removes the last locals until `count` are left.
    pub fn close(&mut self, count: usize)
        ensures { self.new
            ≡ record {
              locals = drop (length self.old.locals - count) self.old.locals;
              slots = self.old.slots;
            } }
    {
        while self.count() > count {
            self.hide();
        }
    }

    /// Returns the names of the slots.
    pub fn into_slots(self) -> Vec<Name>
        ensures { map seen_name result.items ≡ self.entry.slots }
    {
        self.slots
    }
}

/// Returns the slots of names, the first of which has this one.
pub fn row_slots(alloc: Global, first: u32, names: &[Name]) -> Result<Vec<u32>, TypeError>
    ensures value { IfOk result (λ v. v.items ≡ slots_of_row first (map seen_name names.now)) }
    ensures memory { IfErr result (λ e. e ≡ OutOfMemory) }
{
    let mut slots = Vec::new(alloc);
    for (index, _) in names.iter().enumerate() {
        let slot = later(first, index)?;
        slots.push(slot)?;
    }
    Ok(slots)
}
