// The fields that are more than an integer (frame.rs, take_len and take_remaining). A place past the slice reads as a cut field.
#![tactic(auto, using(crate::proofs::Rules::exit_field, crate::proofs::Rules::exit_found, ack::proofs::Tries::went, ack::proofs::Tries::left), unfolding(crate::specs::Format::bytes_at, crate::specs::Format::all_left_at, crate::specs::Format::cid_at, crate::specs::Format::blocks_at, crate::specs::Format::up_to, crate::specs::Format::var_if, crate::specs::Format::data_if, crate::specs::Said::field_of, coding::specs::Words::and_then, coding::specs::Said::answer_of, coding::specs::Said::found_by))]

ghost use Rattle.std.specs.Prelude.{◌≡◌, ◌<◌, ◌≤◌, length};
ghost use Rattle.coding.specs.Words.{max_datagram, number_end};
ghost use Rattle.coding.specs.Said.{found_by, var_value};
ghost use Rattle.frame.specs.Format.{bytes_at, all_left_at, cid_at, blocks_at, var_if, data_if};
ghost use Rattle.frame.specs.Said.{field_of};

use coding::{Place, Reader, Refusal, UnexpectedEnd, VarInt};
use shared::{FullNumber, MAX_CID_SIZE};

// A length, and so many bytes.
pub(crate) fn take_len(r: &mut Reader) -> Result<Place, UnexpectedEnd>
    ensures finds { found_by (λ p. p) result r.new.at ≡ bytes_at r.old.bytes.now r.old.at }
    ensures bytes { r.new.bytes ≡ r.old.bytes }
{
    let n = r.get_var()?;
    r.take(n.0)
}

// All that is left.
pub(crate) fn take_remaining(r: &mut Reader) -> Result<Place, UnexpectedEnd>
    ensures finds { found_by (λ p. p) result r.new.at ≡ all_left_at r.old.bytes.now r.old.at }
    ensures bytes { r.new.bytes ≡ r.old.bytes }
{
    let left = r.bytes.len().saturating_sub(r.at);
    r.take(left as u64)
}

// A length byte of 1 to 20, and so many bytes.
pub(crate) fn cid(r: &mut Reader) -> Result<Place, Refusal>
    ensures reads { field_of result r.new.at ≡ cid_at r.old.bytes.now r.old.at }
    ensures bytes { r.new.bytes ≡ r.old.bytes }
{
    let length = r.get::<u8>()?;
    if length == 0 || MAX_CID_SIZE < length as usize {
        return Err(Refusal::Malformed);
    }
    Ok(r.take(length as u64)?)
}

// A count, and the ACK blocks of so many rounds.
pub(crate) fn ack_blocks(r: &mut Reader, largest: FullNumber) -> Result<Place, Refusal>
    requires { (largest.0 < number_end) × (length r.old.bytes.now ≤ max_datagram) }
    ensures reads { field_of result r.new.at ≡ blocks_at r.old.bytes.now r.old.at largest.0 }
    ensures bytes { r.new.bytes ≡ r.old.bytes }
{
    let count = r.get_var()?;
    let start = r.at;
    r.at = ack::scan_ack_blocks(r.bytes, start, largest, count.0)?;
    Ok(Place {
        start,
        len: r.at - start,
    })
}

// An integer if it is there, else 0.
pub(crate) fn var_if(r: &mut Reader, there: bool) -> Result<VarInt, UnexpectedEnd>
    ensures finds { found_by var_value result r.new.at ≡ var_if there r.old.bytes.now r.old.at }
    ensures bytes { r.new.bytes ≡ r.old.bytes }
{
    if there { r.get_var() } else { Ok(VarInt(0)) }
}

// Bytes with a length if that is there, else all that is left.
pub(crate) fn data_if(r: &mut Reader, there: bool) -> Result<Place, UnexpectedEnd>
    ensures finds { found_by (λ p. p) result r.new.at ≡ data_if there r.old.bytes.now r.old.at }
    ensures bytes { r.new.bytes ≡ r.old.bytes }
{
    if there {
        take_len(r)
    } else {
        take_remaining(r)
    }
}
