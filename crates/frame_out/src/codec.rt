// What is one integer by itself: a frame's type, a stream id, an error code (frame.rs, FrameType; lib.rs, StreamId;
// transport_error.rs, Code).
ghost use Rattle.std.specs.Prelude.{◌≡◌, ℕ};
ghost use Rattle.coding.specs.Varint.{var_at, var_out};
ghost use Rattle.coding.specs.Said.{answer_of, Reads};
ghost use Rattle.coding.specs.Writing.{Written};

use coding::{Reader, Refusal, UnexpectedEnd, VarInt};
use shared::{FrameType, StreamId};

// A value that is written as its number.
pub trait Integer {
    ghost number: { Self → ℕ };

    // The value of a number.
    fn of(x: u64) -> Self
        ensures { number result ≡ x };

    fn number(self) -> u64
        ensures { result ≡ number self };

    // the number tells the value
    ghost one: { (x y : Self) → number x ≡ number y → x ≡ y };
}

impl Integer for FrameType {
    ghost number = { λ ty. ty.0 };

    ghost one = { λ x y e i. record { 0 = e i } };

    fn of(x: u64) -> FrameType {
        FrameType(x)
    }

    fn number(self) -> u64 {
        self.0
    }
}

impl Integer for StreamId {
    ghost number = { λ id. id.0 };

    ghost one = { λ x y e i. record { 0 = e i } };

    fn of(x: u64) -> StreamId {
        StreamId(x)
    }

    fn number(self) -> u64 {
        self.0
    }
}

// An error code.
impl Integer for u64 {
    ghost number = { λ x. x };

    ghost one = { λ x y e. e };

    fn of(x: u64) -> u64 {
        x
    }

    fn number(self) -> u64 {
        self
    }
}

pub fn encode<T: Integer>(x: T, out: &mut [u8]) -> Result<usize, Refusal>
    ensures { Written (var_out (T.number x)) out.old (answer_of result) out.new }
{
    VarInt(x.number()).encode(out)
}

// The value that is read next.
pub fn decode<T: Integer>(r: &mut Reader) -> Result<T, UnexpectedEnd>
    ensures { Reads T.number (var_at r.old.bytes.now r.old.at) r.old result r.new }
{
    let x = r.get_var()?;
    Ok(T::of(x.0))
}
