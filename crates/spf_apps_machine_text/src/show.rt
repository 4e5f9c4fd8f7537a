//! The text of a machine.
ghost use Rattle.std.specs.Prelude.{◌≡◌, ◌≤◌, ◌<◌, ◌+◌, ◌*◌, ◌-◌, ◌++◌, length, IfOk, OnOk};
ghost use Rattle.std.specs.Fmt.{decimal};
ghost use Rattle.std.specs.List.{flat_map, range_with_len};
ghost use Rattle.spf_apps_formats.specs.Lex1.{class_at};
ghost use Rattle.spf_apps_machine_text.specs.MachineText.{
  hex_digit as hex_digit_of,
  byte_text as byte_text_of,
  all_bytes,
  member_text,
  counts_line,
  class_line,
  entry_at,
  entry_text,
  state_line,
  classes_of,
  states_of,
  IsMachine,
  IsTextOf,
};

use std::alloc::{AllocError, Global};

/// Where the class of byte 0 stands in a machine's file.
const CLASSES: usize = 6;

/// Where the first entry stands in a machine's file.
const ENTRIES: usize = 262;

/// A hexadecimal digit, in lower case.
fn hex_digit(number: u8) -> u8
    requires { number < 16 }
    ensures { result ≡ hex_digit_of number }
{
    if number < 10 {
        b'0' + number
    } else {
        b'a' - 10 + number
    }
}

/// A byte, as two hexadecimal digits after a space.
pub(crate) fn byte_text(byte: u8) -> [u8; 3]
    ensures { result ≡ byte_text_of byte }
{
    [b' ', hex_digit(byte / 16), hex_digit(byte % 16)]
}

/// Appends a number.
fn push_number(alloc: Global, text: &mut Vec<u8>, number: u8) -> Result<(), AllocError>
    ensures { OnOk result (text.new.items ≡ text.old.items ++ decimal number) }
{
    let digits = format!(in alloc; "{number}")?;
    text.extend_from_slice(digits.as_bytes())
}

/// Appends the line of the counts.
fn push_counts(alloc: Global, text: &mut Vec<u8>, states: u8, classes: u8) -> Result<(), AllocError>
    ensures { OnOk result (text.new.items ≡ text.old.items ++ counts_line states classes) }
{
    text.extend_from_slice(b"states ")?;
    push_number(alloc, text, states)?;
    text.extend_from_slice(b" classes ")?;
    push_number(alloc, text, classes)?;
    text.extend_from_slice(b"\n")
}

/// Appends the bytes of a class.
fn push_members(text: &mut Vec<u8>, file: &[u8], class: u8) -> Result<(), AllocError>
    requires { class_at 256 ≤ length file.now }
    ensures { OnOk result
        (text.new.items ≡ text.old.items ++ flat_map (member_text file.now class) all_bytes) }
{
    for byte in 0..256usize {
        if file[CLASSES + byte] == class {
            text.extend_from_slice(&byte_text(byte as u8))?;
        }
    }
    Ok(())
}

/// Appends the line of a class.
fn push_class(alloc: Global, text: &mut Vec<u8>, file: &[u8], class: u8) -> Result<(), AllocError>
    requires { class_at 256 ≤ length file.now }
    ensures { OnOk result (text.new.items ≡ text.old.items ++ class_line file.now class) }
{
    text.extend_from_slice(b"class ")?;
    push_number(alloc, text, class)?;
    push_members(text, file, class)?;
    text.extend_from_slice(b"\n")
}

/// Appends the lines of all classes but class 0.
fn push_classes(alloc: Global, text: &mut Vec<u8>, file: &[u8]) -> Result<(), AllocError>
    requires { class_at 256 ≤ length file.now }
    ensures { OnOk result (text.new.items ≡ text.old.items
        ++ flat_map (class_line file.now) (range_with_len 1 (classes_of file.now - 1))) }
{
    for class in 1..file[5] {
        push_class(alloc, text, file, class)?;
    }
    Ok(())
}

/// Appends the entry of a state and a class.
fn push_entry(
    alloc: Global,
    text: &mut Vec<u8>,
    file: &[u8],
    state: u8,
    class: u8,
) -> Result<(), AllocError>
    requires { entry_at file.now state class + 1 < length file.now }
    ensures { OnOk result (text.new.items ≡ text.old.items ++ entry_text file.now state class) }
{
    let offset = ENTRIES + 2 * (state as usize * file[5] as usize + class as usize);
    text.extend_from_slice(b" ")?;
    push_number(alloc, text, file[offset])?;
    text.extend_from_slice(b"/")?;
    push_number(alloc, text, file[offset + 1])
}

/// Appends the entries of a state, by class.
fn push_entries(alloc: Global, text: &mut Vec<u8>, file: &[u8], state: u8) -> Result<(), AllocError>
    requires { entry_at file.now state (classes_of file.now) ≤ length file.now }
    ensures { OnOk result (text.new.items ≡ text.old.items
        ++ flat_map (entry_text file.now state) (range_with_len 0 (classes_of file.now))) }
{
    for class in 0..file[5] {
        push_entry(alloc, text, file, state, class)?;
    }
    Ok(())
}

/// Appends the line of a state.
fn push_state(alloc: Global, text: &mut Vec<u8>, file: &[u8], state: u8) -> Result<(), AllocError>
    requires { entry_at file.now state (classes_of file.now) ≤ length file.now }
    ensures { OnOk result (text.new.items ≡ text.old.items ++ state_line file.now state) }
{
    text.extend_from_slice(b"state ")?;
    push_number(alloc, text, state)?;
    push_entries(alloc, text, file, state)?;
    text.extend_from_slice(b"\n")
}

/// Appends the lines of all states.
fn push_states(alloc: Global, text: &mut Vec<u8>, file: &[u8]) -> Result<(), AllocError>
    requires { length file.now ≡ entry_at file.now (states_of file.now) 0 }
    ensures { OnOk result (text.new.items ≡ text.old.items
        ++ flat_map (state_line file.now) (range_with_len 0 (states_of file.now))) }
{
    for state in 0..file[4] {
        push_state(alloc, text, file, state)?;
    }
    Ok(())
}

/// Returns the text of a machine, whose file is given.
///
/// # Errors
///
/// Running out of memory.
pub fn show_machine(alloc: Global, file: &[u8]) -> Result<Vec<u8>, AllocError>
    requires { IsMachine file.now }
    ensures { IfOk result (λ text. IsTextOf text.items file.now) }
{
    let mut text = Vec::new(alloc);
    push_counts(alloc, &mut text, file[4], file[5])?;
    push_classes(alloc, &mut text, file)?;
    push_states(alloc, &mut text, file)?;
    Ok(text)
}
