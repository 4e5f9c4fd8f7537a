//! Files of the formats, by hand and from their documents.
ghost use Rattle.std.specs.Prelude.{◌≤◌, ◌<◌, ◌^◌, length};

use spf_apps_formats::encoder::{EncodeError, encode_huf1};
use spf_apps_formats::generate::{Kind, generate};
use spf_apps_formats::huf1::huf1_check;
use spf_apps_formats::lex1::{lex_input, lex1_check};
use spf_apps_formats::toy::toy_machine;
use std::alloc::{AllocError, Global};
use std::test::Fail;

/// The lengths of a code in which these symbols have code words.
fn lengths_with(words: &[(u8, u8)]) -> [u8; 256] {
    let mut lengths = [0; 256];
    for (symbol, length) in words {
        lengths[*symbol as usize] = *length;
    }
    lengths
}

/// A HUF1 header with these lengths, and a count of 0.
fn header_with(alloc: Global, words: &[(u8, u8)]) -> Result<Vec<u8>, AllocError> {
    let mut file = Vec::new(alloc);
    file.extend_from_slice(b"HUF1")?;
    file.extend_from_slice(&lengths_with(words))?;
    file.extend_from_slice(&[0; 4])?;
    Ok(file)
}

/// Files, and where their signatures are wrong.
const SIGNATURES: [(&[u8], u64); 6] = [
    (b"", 0),
    (b"HUF", 3),
    (b"HUF1", 4),
    (b"HUF2", 3),
    (b"huf1", 0),
    (b"HuF", 1),
];

#[test]
fn a_wrong_signature_is_found_at_its_first_byte(rt: HostRuntime) {
    for (file, offset) in &SIGNATURES {
        assert!(rt; huf1_check(file) == Err(*offset), "for {file:?}");
    }
}

/// Lengths, how many bytes of their header are checked, and what the check is to say.
type Header<'a> = (&'a [(u8, u8)], usize, Result<(), u64>);

/// Returns whether the check says what it is to say of the first bytes of a header.
fn is_verdict(alloc: Global, header: Header) -> bool {
    let (words, count, wanted) = header;
    match header_with(alloc, words) {
        Ok(file) => huf1_check(file.get(..count).unwrap_or(&[])) == wanted,
        Err(_) => false,
    }
}

/// Headers with right and wrong lengths.
const HEADERS: [Header<'static>; 8] = [
    (&[], 264, Ok(())),
    (&[(65, 1), (66, 2), (67, 2)], 264, Ok(())),
    (&[(65, 1), (66, 1), (67, 1)], 264, Err(71)),
    (&[(0, 15), (255, 15)], 264, Ok(())),
    (&[(9, 1), (10, 1), (200, 15)], 264, Err(204)),
    (&[(9, 1), (10, 1), (11, 1), (255, 16)], 264, Err(259)),
    (&[(0, 255)], 264, Err(4)),
    (&[], 263, Err(263)),
];

#[test]
fn lengths_over_15_come_before_those_without_room(rt: HostRuntime) {
    for (number, header) in HEADERS.iter().enumerate() {
        assert!(rt; is_verdict(rt.alloc(), *header), "header {number}");
    }
}

/// Returns whether symbols are encoded with these lengths into a file of this size that ends with
/// these bytes.
fn is_encoded(alloc: Global, words: &[(u8, u8)], symbols: &[u8], size: usize, end: &[u8]) -> bool
    requires { length symbols.now < 2 ^ 32 }
{
    let lengths = lengths_with(words);
    match encode_huf1(alloc, &lengths, symbols) {
        Ok(file) => {
            file.len() == size
                && file.starts_with(b"HUF1")
                && file.get(4..260) == Some(lengths.as_slice())
                && file.ends_with(end)
        }
        Err(_) => false,
    }
}

#[test]
fn symbols_are_encoded_by_canonical_words(rt: HostRuntime) {
    let alloc = rt.alloc();
    let three = [(65, 1), (66, 2), (67, 2)];
    // The example of RFC 1951, section 3.2.2: A to H have 010, 011, 100, 101, 110, 00, 1110 and
    // 1111.
    let eight = [
        (b'A', 3),
        (b'B', 3),
        (b'C', 3),
        (b'D', 3),
        (b'E', 3),
        (b'F', 2),
        (b'G', 4),
        (b'H', 4),
    ];
    let coded = [0b0100_1110, 0b0101_1100, 0b0111_0111, 0b1000_0000];
    assert!(rt; is_encoded(alloc, &three, b"ABACAB", 266, &[0, 0, 0, 6, 0x4d, 0x00]));
    assert!(rt; is_encoded(alloc, &eight, b"ABCDEFGH", 268, &coded));
    assert!(rt; is_encoded(alloc, &eight, b"", 264, &[]));
}

/// Why symbols are not encoded with these lengths.
fn refusal(alloc: Global, words: &[(u8, u8)], symbols: &[u8]) -> Option<EncodeError>
    requires { length symbols.now < 2 ^ 32 }
{
    encode_huf1(alloc, &lengths_with(words), symbols).err()
}

#[test]
fn lengths_are_refused_before_symbols(rt: HostRuntime) {
    let alloc = rt.alloc();
    // three words of one bit, and a symbol without a word
    let lengths = refusal(alloc, &[(65, 1), (66, 1), (67, 1)], b"D");
    assert!(rt; lengths == Some(EncodeError::BadLengths { place: 71 }));
    let symbol = refusal(alloc, &[(65, 1), (66, 1)], b"ABDC");
    assert!(rt; symbol == Some(EncodeError::NoCode { at: 2 }));
}

/// Returns whether these are the bytes of the toy machine, as far as its document says them.
fn is_toy_machine(machine: &[u8]) -> bool {
    // An `x` in a gap begins a word; a star in a comment may end it.
    machine.len() == 334
        && machine.get(6 + 0x78) == Some(&1)
        && machine.get(264) == Some(&1)
        && machine.get(265) == Some(&1)
        && machine.ends_with(&[0, 0, 5, 0])
}

/// Returns whether a file is this machine and then the text `a+b`.
fn is_input(file: &[u8], machine: &[u8]) -> bool {
    file.len() == 337 && file.starts_with(machine) && file.ends_with(b"a+b")
}

#[test]
fn the_toy_machine_is_a_machine(rt: HostRuntime) -> Result<(), Fail> {
    let machine = toy_machine(rt.alloc())?;
    assert!(rt; lex1_check(&machine) == Ok((6, 6)));
    assert!(rt; is_toy_machine(&machine));
    let input = lex_input(rt.alloc(), &machine, b"a+b")?;
    assert!(rt; is_input(&input, &machine));
    Ok(())
}

/// What the check says of the first bytes of the toy machine and one more byte, where one byte is
/// set to another.
fn check_changed(
    alloc: Global,
    at: usize,
    byte: u8,
    count: usize,
) -> Result<Result<(u64, u64), u64>, AllocError> {
    let mut file = toy_machine(alloc)?;
    file.push(0)?;
    if let Some(old) = file.get_mut(at) {
        *old = byte;
    }
    Ok(lex1_check(file.get(..count).unwrap_or(&[])))
}

/// Which byte is set to what, how many bytes there are, and the offset of the fault.
const CHANGES: [(usize, u8, usize, u64); 18] = [
    (1, 0, 334, 1),
    (4, 0, 334, 4),
    (4, 65, 334, 4),
    (5, 0, 334, 5),
    (5, 65, 334, 5),
    (5, 7, 334, 334),
    (5, 5, 334, 322),
    (6, 6, 334, 6),
    (332, 6, 334, 332),
    // A wrong length comes before a wrong class.
    (261, 9, 334, 261),
    (261, 9, 335, 334),
    (261, 9, 0, 0),
    (261, 9, 3, 3),
    (261, 9, 4, 4),
    (261, 9, 5, 5),
    (261, 9, 6, 6),
    (261, 9, 262, 262),
    (261, 9, 333, 333),
];

#[test]
fn a_machine_is_refused_at_what_is_wrong_first(rt: HostRuntime) {
    for &(at, byte, count, offset) in &CHANGES {
        let found = check_changed(rt.alloc(), at, byte, count);
        assert!(rt; found == Ok(Err(offset)), "byte {at} of {count} is {byte}");
    }
}

/// Returns whether this input is drawn.
fn is_drawn(alloc: Global, kind: Kind, seed: u64, size: u64, wanted: &[u8]) -> bool
    requires { (1 ≤ size) × (size ≤ 1000000) }
{
    match generate(alloc, kind, seed, size) {
        Ok(file) => file.as_slice() == wanted,
        Err(_) => false,
    }
}

#[test]
fn inputs_are_drawn_from_their_seed(rt: HostRuntime) {
    let alloc = rt.alloc();
    assert!(rt; is_drawn(alloc, Kind::Lex, 0, 2, b"1b"));
    assert!(rt; is_drawn(alloc, Kind::Lex, 7, 24, b"/+cccha g*hgbb\"e\"h 1bc/e"));
    assert!(rt; is_drawn(alloc, Kind::Unpack, 3, 2, &[3, 247, 135, 148, 105]));
    assert!(rt; is_drawn(alloc, Kind::Unpack, 2, 1, &[196, 85]));
}

/// Returns whether these are the bytes of the coded input of 20 symbols.
fn is_coded(file: &[u8]) -> bool {
    file.starts_with(b"HUF1\x01\x02\x03\x04\x04\x00")
        && file.ends_with(&[0, 0, 0, 20, 226, 142, 57, 171, 0])
        && huf1_check(file) == Ok(())
}

#[test]
fn longer_inputs_have_their_size_and_their_ends(rt: HostRuntime) -> Result<(), Fail> {
    let coded = generate(rt.alloc(), Kind::Unhuff, 0, 20)?;
    assert!(rt; is_coded(&coded));
    let long = generate(rt.alloc(), Kind::Unpack, 0, 65)?;
    assert!(rt; long.len() == 65);
    Ok(())
}
