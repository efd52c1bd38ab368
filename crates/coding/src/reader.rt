// Reading from a place on (coding.rs, BufExt; bytes::Buf).
ghost use Rattle.std.specs.Prelude.{◌≡◌, ◌+◌, ◌≤◌, ◌<◌, ◌*◌, ◌^◌, length, take, drop, IfOk};
ghost use Rattle.coding.specs.Bytes.{be};
ghost use Rattle.coding.specs.Reading.{fixed_at, take_at};
ghost use Rattle.coding.specs.Varint.{var_len, var_at};
ghost use Rattle.coding.specs.Said.{var_value, Reads};

use crate::{Codec, Place, UnexpectedEnd, VarInt};

// A slice, and the place where it is read next. A read that finds its field cut leaves the reader where it stood.
#[derive(Clone, Copy)]
pub struct Reader<'a> {
    pub bytes: &'a [u8],
    pub at: usize,
}

// The number that the n bytes from `at` on make after `first`, most significant first.
fn be_from(s: &[u8], at: usize, n: usize, first: u64) -> u64
    requires { (at + n ≤ length s.now) × ((first + 1) * 256 ^ n ≤ 2 ^ 64) }
    ensures { (result ≡ be first (take n (drop at s.now))) × (result < (first + 1) * 256 ^ n) }
{
    let mut v = first;
    for b in &s[at..at + n] {
        v = v * 256 + *b as u64;
    }
    v
}

// The length that an integer's first byte gives.
fn var_len(first: u8) -> usize
    ensures { (result ≡ var_len first) × ((1 ≤ result) × (result ≤ 8)) }
{
    let tag = first / 64;
    match tag {
        0 => 1,
        1 => 2,
        2 => 4,
        _ => 8,
    }
}

impl<'a> Reader<'a> {
    // The number of n bytes.
    pub(crate) fn be(&mut self, n: usize) -> Result<u64, UnexpectedEnd>
        requires { n ≤ 8 }
        ensures reads { Reads (λ x. x) (fixed_at n self.old.bytes.now self.old.at) self.old result self.new }
        ensures below { IfOk result (λ x. x < 256 ^ n) }
    {
        let Reader { bytes, at } = *self;
        if bytes.len() < at || bytes.len() - at < n {
            return Err(UnexpectedEnd);
        }
        self.at = at + n;
        Ok(be_from(bytes, at, n, 0))
    }

    // The value of a type with a known length.
    pub fn get<T: Codec>(&mut self) -> Result<T, UnexpectedEnd>
        ensures { Reads T.number (fixed_at T.size self.old.bytes.now self.old.at) self.old result self.new }
    {
        T::decode(self)
    }

    // The integer, in any of its forms.
    pub fn get_var(&mut self) -> Result<VarInt, UnexpectedEnd>
        ensures reads { Reads var_value (var_at self.old.bytes.now self.old.at) self.old result self.new }
        ensures below { IfOk result (λ x. x.0 < 2 ^ 62) }
    {
        let Reader { bytes, at } = *self;
        if bytes.len() <= at {
            return Err(UnexpectedEnd);
        }
        let first = bytes[at];
        // most are of one byte, and are read without waiting for a length
        if first < 64 {
            self.at = at + 1;
            return Ok(VarInt(first as u64));
        }
        let n = var_len(first);
        if bytes.len() - at < n {
            return Err(UnexpectedEnd);
        }
        self.at = at + n;
        Ok(VarInt(be_from(bytes, at + 1, n - 1, (first % 64) as u64)))
    }

    // The place of the next n bytes.
    pub fn take(&mut self, n: u64) -> Result<Place, UnexpectedEnd>
        ensures { Reads (λ p. p) (take_at n self.old.bytes.now self.old.at) self.old result self.new }
    {
        let Reader { bytes, at: start } = *self;
        if bytes.len() < start || ((bytes.len() - start) as u64) < n {
            return Err(UnexpectedEnd);
        }
        let len = n as usize;
        self.at = start + len;
        Ok(Place { start, len })
    }
}
