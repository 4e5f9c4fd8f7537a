//! Machines as texts.

use spf_apps_formats::lex1::lex1_check;
use spf_apps_formats::toy::toy_machine;
use spf_apps_machine_text::{BuildError, build_machine, show_machine};
use std::alloc::{AllocError, Global};
use std::test::Fail;

/// The text of a machine that marks words of `A`.
const TEXT: &[u8] = b"states 2 classes 2\nclass 1 41\nstate 0 0/0 1/7\nstate 1 0/0 1/0\n";

/// Its file.
fn machine(alloc: Global) -> Result<Vec<u8>, AllocError> {
    let mut file = b"LEX1\x02\x02".to_vec(alloc)?;
    for byte in 0..256 {
        file.push(if byte == 0x41 { 1 } else { 0 })?;
    }
    file.extend_from_slice(&[0, 0, 1, 7, 0, 0, 1, 0])?;
    Ok(file)
}

#[test]
fn a_text_is_built(rt: HostRuntime) -> Result<(), Fail> {
    let alloc = rt.alloc();
    let Ok(file) = build_machine(alloc, TEXT) else {
        return Err(Fail::new("not a machine"));
    };
    assert!(rt; file.as_slice() == machine(alloc)?.as_slice());
    Ok(())
}

#[test]
fn a_machine_is_shown(rt: HostRuntime) -> Result<(), Fail> {
    let alloc = rt.alloc();
    let file = machine(alloc)?;
    if lex1_check(&file).is_err() {
        return Err(Fail::new("not LEX1"));
    }
    let text = show_machine(alloc, &file)?;
    assert!(rt; text.as_slice() == TEXT);
    Ok(())
}

#[test]
fn the_toy_machine_comes_back(rt: HostRuntime) -> Result<(), Fail> {
    let alloc = rt.alloc();
    let file = toy_machine(alloc)?;
    if lex1_check(&file).is_err() {
        return Err(Fail::new("not LEX1"));
    }
    let text = show_machine(alloc, &file)?;
    let Ok(built) = build_machine(alloc, &text) else {
        return Err(Fail::new("not a machine"));
    };
    assert!(rt; built.as_slice() == file.as_slice());
    Ok(())
}

#[test]
fn other_texts_are_refused(rt: HostRuntime) -> Result<(), Fail> {
    let rows: [&[u8]; 10] = [
        b"",
        b"states 2 classes 2",
        b"states 2 classes 2\nclass 1 61 41\nstate 0 0/0 1/7\nstate 1 0/0 1/0\n",
        b"states 2 classes 2\nclass 1 41\nstate 0 0/0 1/7\nstate 1 0/0 1/0",
        b"states 2 classes 2\nclass 1 41\nstate 0 0/0 1/7\nstate 1 0/0 1/0\n\n",
        b"states 02 classes 2\nclass 1 41\nstate 0 0/0 1/7\nstate 1 0/0 1/0\n",
        b"states 2 classes 2\nclass 1 4A\nstate 0 0/0 1/7\nstate 1 0/0 1/0\n",
        b"states 2 classes 2\nclass 1 41\nstate 0 0/0 2/7\nstate 1 0/0 1/0\n",
        b"states 2 classes 2\nclass 1 41\nstate 0 0/0 1/256\nstate 1 0/0 1/0\n",
        b"states 0 classes 2\nclass 1 41\n",
    ];
    for text in rows {
        let built = build_machine(rt.alloc(), text);
        assert!(rt; matches!(built, Err(BuildError::NotMachine)));
    }
    Ok(())
}
