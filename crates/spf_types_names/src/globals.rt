//! The names of arrays and functions, which are visible in the whole program.

ghost use Rattle.std.specs.Prelude.{◌≡◌, ◌+◌, ℕ, IfOk, IfErr, List, map, if◌then◌else◌};
ghost use Rattle.std.specs.Str.{bytes_eq};
ghost use denote.Ref.{Bor};
ghost use Rattle.spf_ast.specs.RawView.{raw_function};
ghost use Rattle.spf_ast.specs.View.{array as seen_array, name as seen_name};
ghost use Rattle.spf_types_names.specs.Globals.{global_named, globals_of, params_of, either};
ghost use Rattle.spf_types_names.specs.Found.{found};
ghost use Rattle.spf_types_names.specs.declared.fault.TypeError.TheVariants.{OutOfMemory};

use crate::fault::TypeError;
use spf_ast::raw::RawFunction;
use spf_ast::syntax::{Array, Name};
use std::alloc::Global;
use std::collections::BTreeMap;
use std::marker::Model;

/// What a name stands for in the whole program: an array or a function, by its index.
#[derive(Clone, Copy)]
pub enum Outer {
    Array(u32),
    Function(u32),
}

/// The names of the arrays and functions of a program.
#[derive(Drop)]
pub struct GlobalTable<'a> {
    arrays: &'a [Array],
    functions: &'a [RawFunction],
    table: BTreeMap<&'a [u8], Outer>,
}

impl<'a> Model for GlobalTable<'a> {
    ghost use Rattle.spf_types_names.specs.Globals.{Globals};

    ghost Value = { Globals };

    ghost use Rattle.spf_types_names.specs.GlobalsView.{seen_globals, IsGlobalTable};

    ghost view = { seen_globals };

    ghost invariant = { IsGlobalTable };
}

/// Converts a count to 32 bits. A longer list would take more memory than there is.
pub fn short(count: usize) -> Result<u32, TypeError>
    ensures value { IfOk result (λ n. n ≡ count) }
    ensures memory { IfErr result (λ e. e ≡ OutOfMemory) }
{
    u32::try_from(count).map_err(|_| TypeError::OutOfMemory)
}

/// Returns the number `count` after `first`.
pub fn later(first: u32, count: usize) -> Result<u32, TypeError>
    ensures value { IfOk result (λ n. n ≡ first + count) }
    ensures memory { IfErr result (λ e. e ≡ OutOfMemory) }
{
    match (first as usize).checked_add(count) {
        Some(sum) => short(sum),
        None => Err(TypeError::OutOfMemory),
    }
}

/// Enters a name, unless it is there.
fn enter<'a>(
    table: &mut BTreeMap<&'a [u8], Outer>,
    name: &'a [u8],
    outer: Outer,
) -> Result<(), TypeError>
    ensures first { IfOk result (λ _. (q : Bor (List ℕ)) → found table.new q
        ≡ either (found table.old q) (if bytes_eq name.now q.now then Some outer else None)) }
    ensures memory { IfErr result (λ e. e ≡ OutOfMemory) }
{
    if table.get(&name).is_none() {
        table.insert(name, outer)?;
    }
    Ok(())
}

impl<'a> GlobalTable<'a> {
    /// Makes the table of these arrays and functions. Where two have one name, it stands for the
    /// first.
    pub fn make(
        alloc: Global,
        arrays: &'a [Array],
        functions: &'a [RawFunction],
    ) -> Result<Self, TypeError>
        ensures value { IfOk result
            (λ t. t ≡ globals_of (map seen_array arrays.now) (map raw_function functions.now)) }
        ensures memory { IfErr result (λ e. e ≡ OutOfMemory) }
    {
        let mut table = BTreeMap::new(alloc);
        for (index, array) in arrays.iter().enumerate() {
            enter(&mut table, &array.name.bytes, Outer::Array(short(index)?))?;
        }
        for (index, function) in functions.iter().enumerate() {
            enter(
                &mut table,
                &function.name.bytes,
                Outer::Function(short(index)?),
            )?;
        }
        Ok(GlobalTable {
            arrays,
            functions,
            table,
        })
    }

    /// Returns what a name stands for.
    pub fn find(&self, name: &'a Name) -> Option<Outer>
        ensures { result ≡ global_named self.now (seen_name name.now) }
    {
        let bytes: &[u8] = &name.bytes;
        self.table.get(&bytes).copied()
    }

    /// Returns how many parameters the function at an index has.
    pub fn params(&self, index: u32) -> usize
        ensures { result ≡ params_of self.now index }
    {
        match self.functions.get(index as usize) {
            Some(function) => function.params.len(),
            None => 0,
        }
    }
}
