//! Names and arrays.
ghost use Rattle.std.specs.Prelude.{◌≡◌, ◌<◌, ◌^◌, map, IfOk};
ghost use Rattle.spf_ast.specs.View.{name as seen_name, array as seen_array};
ghost use Rattle.spf_apps_builder.specs.Built.{array_form};

use spf_ast::syntax::{Array, Name};
use std::alloc::{AllocError, Global};

/// Builds a name.
pub fn name(alloc: Global, text: &[u8]) -> Result<Name, AllocError>
    ensures { IfOk result (λ n. seen_name n ≡ text.now) }
{
    Ok(Name {
        bytes: text.to_vec(alloc)?,
    })
}

/// Builds the names of slots.
pub fn names(alloc: Global, texts: &[&[u8]]) -> Result<Vec<Name>, AllocError>
    ensures { IfOk result (λ names. map seen_name names.items ≡ map (λ t. t.now) texts.now) }
{
    let mut names = Vec::new(alloc);
    for text in texts {
        names.push(name(alloc, text)?)?;
    }
    Ok(names)
}

/// Builds an array whose size is `factor` times the input's length, plus `offset`.
pub fn sized_array(
    alloc: Global,
    text: &[u8],
    factor: u64,
    offset: u64,
    line: u32,
) -> Result<Array, AllocError>
    requires factor { factor < 2 ^ 63 }
    requires offset { offset < 2 ^ 63 }
    ensures { IfOk result (λ a. seen_array a ≡ array_form text.now factor offset line) }
{
    Ok(Array {
        name: name(alloc, text)?,
        factor: factor as i64,
        offset: offset as i64,
        line,
    })
}
