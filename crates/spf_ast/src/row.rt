//! The row that a construct carries from block to block.

ghost use Rattle.std.specs.Prelude.{◌≡◌, ◌<◌, ◌≤◌, ◌∷◌, [], length, pos, slice_index_or, slice_set};
ghost use Rattle.spf_ast.specs.Carried.{IsWidth, no_row, same_carried, with_carried};

use std::marker::Model;

/// The row that a construct carries from block to block: one to four words.
#[derive(Clone, Copy, PartialEq, Eq, Debug)]
pub struct Row {
    parts: [i64; 4],
    width: u32,
}

impl Model for Row {
    ghost use Rattle.std.specs.Prelude.{List, ℤ, take};

    ghost Value = { List ℤ };

    ghost use Rattle.spf_ast.specs.RowFields.{IsRow, fields_of, fields_back};

    ghost view = { λ r. take r.width r.parts };

    ghost inverse = { fields_of };

    ghost invariant = { λ r. IsRow r.parts r.width };

    ghost inverse_ok = { fields_back };
}

impl Row {
    /// Makes the row of one word.
    pub fn one(value: i64) -> Row
        ensures { result ≡ value ∷ [] }
    {
        Row {
            parts: [value, 0, 0, 0],
            width: 1,
        }
    }

    /// Makes the row of these words.
    pub fn of(parts: &[i64]) -> Row
        requires { IsWidth (length parts.now) }
        ensures { result ≡ parts.now }
    {
        match parts {
            [a] => Row::one(*a),
            [a, b] => Row {
                parts: [*a, *b, 0, 0],
                width: 2,
            },
            [a, b, c] => Row {
                parts: [*a, *b, *c, 0],
                width: 3,
            },
            [a, b, c, d] => Row {
                parts: [*a, *b, *c, *d],
                width: 4,
            },
            _ => unreachable!(),
        }
    }

    /// Makes the row of `width` zeros.
    pub fn zeros(width: u32) -> Row
        requires { IsWidth width }
        ensures { result ≡ no_row width }
    {
        Row {
            parts: [0; 4],
            width,
        }
    }

    /// Returns the number of words.
    pub fn width(&self) -> u32
        ensures width { result ≡ length self.now }
        ensures some { IsWidth result }
    {
        self.width
    }

    /// Returns the word at an index.
    pub fn part(&self, index: u32) -> i64
        requires { index < length self.now }
        ensures { result ≡ slice_index_or self.now index (pos 0) }
    {
        self.parts[index as usize]
    }

    /// Returns the words.
    pub fn words(&self) -> &[i64]
        ensures { result.now ≡ self.now }
    {
        &self.parts[..self.width as usize]
    }

    /// Returns whether two rows are equal.
    pub fn is_same(&self, other: &Row) -> bool
        ensures { result ≡ same_carried self.now other.now }
    {
        are_same(self.words(), other.words())
    }
}

/// Returns whether two rows of words are equal.
fn are_same(one: &[i64], other: &[i64]) -> bool
    ensures { result ≡ same_carried one.now other.now }
{
    if one.len() != other.len() {
        return false;
    }
    for i in 0..one.len() {
        if one[i] != other[i] {
            return false;
        }
    }
    true
}

/// Puts a word into a slot; does nothing where there is no such slot.
fn put(slots: &mut [i64], slot: u32, word: i64)
    ensures { slots.new ≡ slice_set slots.old slot word }
{
    let slot = slot as usize;
    if slot < slots.len() {
        slots[slot] = word;
    }
}

/// Puts the words of a row into slots. A slot that doesn't exist is skipped, and one for which the
/// row has no word gets 0.
pub fn set_carried(slots: &mut [i64], carried: &[u32], words: &[i64])
    ensures { slots.new ≡ with_carried carried.now words.now slots.old }
{
    for i in 0..carried.len() {
        put(slots, carried[i], words.get(i).copied().unwrap_or(0));
    }
}
