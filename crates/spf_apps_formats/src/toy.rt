//! A small machine, for trials: it marks words, strings, slashes, comments and other signs.
ghost use Rattle.std.specs.Prelude.{◌≡◌, ◌++◌, map, IfOk, OnOk};
ghost use Rattle.std.specs.List.{flat_map, range_with_len};
ghost use Rattle.spf_apps_formats.specs.Toy.{class_of as class, entry_bytes, entries, machine};

use std::alloc::{AllocError, Global};

/// The class of a byte.
fn class_of(byte: u8) -> u8
    ensures { result ≡ class byte }
{
    match byte {
        b'A'..=b'Z' | b'a'..=b'z' | b'0'..=b'9' | b'_' => 1,
        b' ' | b'\t' | b'\n' | b'\r' => 2,
        b'"' => 3,
        b'/' => 4,
        b'*' => 5,
        _ => 0,
    }
}

/// Adds the class of each byte.
fn push_classes(file: &mut Vec<u8>) -> Result<(), AllocError>
    ensures { OnOk result (file.new.items ≡ file.old.items ++ map class (range_with_len 0 256)) }
{
    for byte in 0..256u32 {
        file.push(class_of(byte as u8))?;
    }
    Ok(())
}

/// Adds the entries of each state: the next state and the mark for other bytes, word bytes, blanks,
/// `"`, `/` and `*`.
fn push_entries(file: &mut Vec<u8>) -> Result<(), AllocError>
    ensures { OnOk result
        (file.new.items ≡ file.old.items ++ flat_map (flat_map entry_bytes) entries) }
{
    // Between tokens.
    file.extend_from_slice(&[0, 4, 1, 1, 0, 0, 2, 2, 3, 3, 0, 4])?;
    // In a word.
    file.extend_from_slice(&[0, 4, 1, 0, 0, 0, 2, 2, 3, 3, 0, 4])?;
    // In a string.
    file.extend_from_slice(&[2, 0, 2, 0, 2, 0, 0, 0, 2, 0, 2, 0])?;
    // After a slash.
    file.extend_from_slice(&[0, 4, 1, 1, 0, 0, 2, 2, 3, 3, 4, 0])?;
    // In a comment.
    file.extend_from_slice(&[4, 0, 4, 0, 4, 0, 4, 0, 4, 0, 5, 0])?;
    // After a star in a comment.
    file.extend_from_slice(&[4, 0, 4, 0, 4, 0, 4, 0, 0, 0, 5, 0])?;
    Ok(())
}

/// Returns the file of the toy machine, 334 bytes: a word has kind 1, a string 2, a slash or a
/// comment 3, any other sign 4.
pub fn toy_machine(alloc: Global) -> Result<Vec<u8>, AllocError>
    ensures machine { IfOk result (λ file. file.items ≡ machine) }
{
    let mut file = Vec::new(alloc);
    file.extend_from_slice(b"LEX1")?;
    file.extend_from_slice(&[6, 6])?;
    push_classes(&mut file)?;
    push_entries(&mut file)?;
    Ok(file)
}
