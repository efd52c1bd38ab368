// Variable-length integers (varint.rs; RFC 9000, section 16).
ghost use Rattle.std.specs.Prelude.{◌≡◌};
ghost use Rattle.coding.specs.Varint.{var_made, var_sized, var_out};
ghost use Rattle.coding.specs.Writing.{Written};
ghost use Rattle.coding.specs.Said.{made_of, answer_of};

use crate::{MAX_NUMBER, NUMBER_END, Refusal};

// An integer less than 2^62.
#[derive(Clone, Copy, PartialEq, Eq, PartialOrd, Ord)]
pub struct VarInt(pub u64);

impl VarInt {
    // The largest representable value.
    pub const MAX: VarInt = VarInt(MAX_NUMBER);

    // The largest encoded value length.
    pub const MAX_SIZE: usize = 8;

    pub fn from_u32(x: u32) -> VarInt
        ensures { result.0 ≡ x }
    {
        VarInt(x as u64)
    }

    // Succeeds exactly for x < 2^62.
    pub fn from_u64(x: u64) -> Result<VarInt, Refusal>
        ensures { made_of result ≡ var_made x }
    {
        if x < NUMBER_END {
            Ok(VarInt(x))
        } else {
            Err(Refusal::Argument)
        }
    }

    pub fn into_inner(self) -> u64
        ensures { result ≡ self.0 }
    {
        self.0
    }

    // The number of bytes needed to encode this value: 1, 2, 4 and 8 bytes hold up to 6, 14, 30 and 62 bits in use.
    pub fn size(self) -> Result<usize, Refusal>
        ensures { answer_of result ≡ var_sized self.0 }
    {
        let used = 64 - u64::leading_zeros(self.0);
        if used <= 6 {
            return Ok(1);
        }
        if used <= 14 {
            return Ok(2);
        }
        if used <= 30 {
            return Ok(4);
        }
        if used <= 62 {
            return Ok(8);
        }
        Err(Refusal::Argument)
    }

    // Writes the shortest form from byte 0 of buf on, and answers its length.
    pub fn encode(self, buf: &mut [u8]) -> Result<usize, Refusal>
        ensures { Written (var_out self.0) buf.old (answer_of result) buf.new }
    {
        let n = self.size()?;
        if buf.len() < n {
            return Err(Refusal::Room);
        }
        Ok(crate::write_var(buf, 0, self.0))
    }
}
