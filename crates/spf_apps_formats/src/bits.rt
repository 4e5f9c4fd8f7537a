//! Bits in bytes, the highest of each byte first.
ghost use Rattle.std.specs.Prelude.{◌<◌, ◌^◌};

/// Whole bytes, and a partial one.
#[derive(Drop)]
pub(crate) struct BitWriter {
    /// The whole bytes.
    pub(crate) bytes: Vec<u8>,
    /// The bits of the partial byte, as a number.
    pub(crate) partial: u32,
    /// How many bits that byte has, 0 to 7.
    pub(crate) count: u32,
    ghost begun: { count < 8 },
    ghost fits: { partial < 2 ^ count },
}
