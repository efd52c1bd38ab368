// Numbers of a known length (coding.rs, Codec).
ghost use Rattle.std.specs.Prelude.{◌≡◌, ℕ};
ghost use Rattle.coding.specs.Bytes.{bytes_be};
ghost use Rattle.coding.specs.Reading.{fixed_at};
ghost use Rattle.coding.specs.Said.{Reads};
ghost use Rattle.coding.specs.Writing.{Put};

use crate::{Reader, UnexpectedEnd, put_num};

// What is read and written as so many bytes, most significant first.
pub trait Codec {
    // how many bytes it has
    ghost size: { ℕ };

    // the number that they make
    ghost number: { Self → ℕ };

    // The value that is read next.
    fn decode(r: &mut Reader) -> Result<Self, UnexpectedEnd>
        ensures { Reads number (fixed_at size r.old.bytes.now r.old.at) r.old result r.new };

    // Puts the value at a place, and answers the next; where it does not fit, the place, and buf is as it was.
    fn put(self, buf: &mut [u8], at: usize) -> usize
        ensures { Put (bytes_be size (number self)) buf.old at result buf.new };

    // the number tells the value
    ghost one: { (x y : Self) → number x ≡ number y → x ≡ y };
}

impl Codec for u8 {
    ghost size = { 1 };

    ghost number = { λ x. x };

    ghost one = { λ x y e. e };

    fn decode(r: &mut Reader) -> Result<u8, UnexpectedEnd> {
        let x = r.be(1)?;
        Ok(x as u8)
    }

    fn put(self, buf: &mut [u8], at: usize) -> usize {
        put_num(buf, at, 1, self as u64)
    }
}

impl Codec for u16 {
    ghost size = { 2 };

    ghost number = { λ x. x };

    ghost one = { λ x y e. e };

    fn decode(r: &mut Reader) -> Result<u16, UnexpectedEnd> {
        let x = r.be(2)?;
        Ok(x as u16)
    }

    fn put(self, buf: &mut [u8], at: usize) -> usize {
        put_num(buf, at, 2, self as u64)
    }
}

impl Codec for u32 {
    ghost size = { 4 };

    ghost number = { λ x. x };

    ghost one = { λ x y e. e };

    fn decode(r: &mut Reader) -> Result<u32, UnexpectedEnd> {
        let x = r.be(4)?;
        Ok(x as u32)
    }

    fn put(self, buf: &mut [u8], at: usize) -> usize {
        put_num(buf, at, 4, self as u64)
    }
}

impl Codec for u64 {
    ghost size = { 8 };

    ghost number = { λ x. x };

    ghost one = { λ x y e. e };

    fn decode(r: &mut Reader) -> Result<u64, UnexpectedEnd> {
        r.be(8)
    }

    fn put(self, buf: &mut [u8], at: usize) -> usize {
        put_num(buf, at, 8, self)
    }
}
