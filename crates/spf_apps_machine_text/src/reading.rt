//! Reads the file of a machine from its text. Nothing is checked here: any text gives some file,
//! and it is up to the caller to check whether the text is that file's.
ghost use Rattle.std.specs.Prelude.{◌≡◌, ◌≤◌, ◌<◌, ◌+◌, ◌-◌, ◌++◌};
ghost use Rattle.std.specs.Prelude.{length, drop, true, false, IfOk, MatchOption};
ghost use Rattle.spf_apps_machine_text.specs.MachineText.{byte_text as byte_text_of};
ghost use Rattle.spf_apps_machine_text.specs.Reading.{
  is_digit as is_digit_test,
  number_at,
  begins,
  bytes_read,
  line_read,
  classes_read,
  entries_read,
  states_read,
  states_count,
  classes_count,
  table_read,
  file_read,
};

use crate::show::byte_text;
use std::alloc::{AllocError, Global};

/// Returns whether a byte is a decimal digit.
fn is_digit(byte: u8) -> bool
    ensures { result ≡ is_digit_test byte }
{
    byte.is_ascii_digit()
}

/// The text after `count` bytes; empty where it is shorter.
fn after(text: &[u8], count: usize) -> &[u8]
    ensures { result.now ≡ drop count text.now }
{
    text.split_at(count.min(text.len())).1
}

/// The number modulo 256 whose digits the text begins with, and the text after them.
fn number(text: &[u8]) -> (u8, &[u8])
    ensures number { result.0 ≡ (number_at text.now).0 }
    ensures rest { result.1.now ≡ (number_at text.now).1 }
{
    let mut value = 0u8;
    for (offset, byte) in text.iter().enumerate() {
        if !is_digit(*byte) {
            return (value, after(text, offset));
        }
        value = value.wrapping_mul(10).wrapping_add(*byte - b'0');
    }
    (value, after(text, text.len()))
}

/// The text after a space and the digits of a byte, if it begins with them.
fn after_byte(text: &[u8], byte: u8) -> Option<&[u8]>
    ensures { MatchOption result (begins (byte_text_of byte) text.now ≡ false)
        (λ rest. (begins (byte_text_of byte) text.now ≡ true) × (rest.now ≡ drop 3 text.now)) }
{
    text.strip_prefix(&byte_text(byte))
}

/// Reads the bytes of a class into the table of classes.
fn read_bytes<'a>(text: &'a [u8], class: u8, table: &mut [u8]) -> &'a [u8]
    requires { length table.old ≡ 256 }
    ensures table { table.new ≡ (bytes_read class 0 table.old text.now).0 }
    ensures rest { result.now ≡ (bytes_read class 0 table.old text.now).1 }
{
    let mut rest = after(text, 0);
    for byte in 0..256usize {
        if let Some(others) = after_byte(rest, byte as u8) {
            table[byte] = class;
            rest = others;
        }
    }
    rest
}

/// Reads the lines of all classes but class 0 into the table of classes.
fn read_classes<'a>(text: &'a [u8], classes: u8, table: &mut [u8]) -> &'a [u8]
    requires { length table.old ≡ 256 }
    ensures { (table.new, result.now) ≡ classes_read (classes - 1) 1 (table.old, text.now) }
{
    let mut rest = after(text, 0);
    for class in 1..classes {
        let (_, members) = number(after(rest, 6));
        rest = after(read_bytes(members, class, table), 1);
    }
    rest
}

/// Appends the bytes of `count` entries.
fn read_entries<'a>(file: &mut Vec<u8>, text: &'a [u8], count: u8) -> Result<&'a [u8], AllocError>
    ensures file { IfOk result (λ _. file.new.items
        ≡ file.old.items ++ (entries_read count text.now).0) }
    ensures rest { IfOk result (λ rest. rest.now ≡ (entries_read count text.now).1) }
{
    let mut rest = after(text, 0);
    for _ in 0..count {
        let (next, others) = number(after(rest, 1));
        let (mark, others) = number(after(others, 1));
        file.push(next)?;
        file.push(mark)?;
        rest = others;
    }
    Ok(rest)
}

/// Appends the bytes of the entries of `count` states.
fn read_states(file: &mut Vec<u8>, text: &[u8], classes: u8, count: u8) -> Result<(), AllocError>
    ensures file { IfOk result (λ _. file.new.items
        ≡ file.old.items ++ (states_read classes count text.now).0) }
{
    let mut rest = after(text, 0);
    for _ in 0..count {
        let (_, entries) = number(after(rest, 6));
        rest = after(read_entries(file, entries, classes)?, 1);
    }
    Ok(())
}

/// The file that is read from a text: a machine's, if the text is a machine's.
pub(crate) fn read_file(alloc: Global, text: &[u8]) -> Result<Vec<u8>, AllocError>
    ensures { IfOk result (λ file. file.items ≡ file_read text.now) }
{
    let (states, rest) = number(after(text, 7));
    let (classes, rest) = number(after(rest, 9));
    let mut table = [0u8; 256];
    let rest = read_classes(after(rest, 1), classes, &mut table);
    let mut file = Vec::new(alloc);
    file.extend_from_slice(b"LEX1")?;
    file.push(states)?;
    file.push(classes)?;
    file.extend_from_slice(&table)?;
    read_states(&mut file, rest, classes, states)?;
    Ok(file)
}
