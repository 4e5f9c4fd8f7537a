//! Writes bits.
ghost use Rattle.std.specs.Prelude.{◌≡◌, ◌<◌, [], ◌∷◌, ◌++◌, if◌then◌else◌, IfOk, OnOk};
ghost use Rattle.spf_apps_formats.specs.Huffman.{bits};
ghost use Rattle.spf_apps_formats.specs.Huf1.{Holds};
ghost use Rattle.spf_apps_formats.specs.Written.{written};

use crate::bits::BitWriter;
use std::alloc::{AllocError, Global};

/// A bit as a number.
fn number_of(bit: bool) -> u32
    ensures { result ≡ (if bit then 1 else 0) }
{
    if bit { 1 } else { 0 }
}

impl BitWriter {
    /// A writer that has written nothing.
    pub(crate) fn new(alloc: Global) -> Self
        ensures { written result ≡ [] }
    {
        BitWriter {
            bytes: Vec::new(alloc),
            partial: 0,
            count: 0,
        }
    }

    /// Writes a bit.
    pub(crate) fn push_bit(&mut self, bit: bool) -> Result<(), AllocError>
        ensures { OnOk result (written self.new ≡ written self.old ++ bit ∷ []) }
    {
        let partial = self.partial * 2 + number_of(bit);
        if self.count == 7 {
            self.bytes.push(partial as u8)?;
            self.partial = 0;
            self.count = 0;
        } else {
            self.partial = partial;
            self.count += 1;
        }
        Ok(())
    }

    /// Writes the lowest `length` bits of a number, the highest of them first.
    pub(crate) fn push_bits(&mut self, number: u32, length: u32) -> Result<(), AllocError>
        requires { length < 32 }
        ensures { OnOk result (written self.new ≡ written self.old ++ bits length number) }
    {
        let mut left = length;
        while left > 0 {
            left -= 1;
            self.push_bit((number >> left) % 2 == 1)?;
        }
        Ok(())
    }

    /// The bytes that hold all bits, with zeros at the end of the last byte.
    pub(crate) fn finish(self) -> Result<Vec<u8>, AllocError>
        ensures { IfOk result (λ bytes. Holds (written self) bytes.items) }
    {
        let mut bytes = self.bytes;
        if self.count > 0 {
            bytes.push((self.partial << (8 - self.count)) as u8)?;
        }
        Ok(bytes)
    }
}
