// Packet numbers, cut and read back (packet.rs, PacketNumber; RFC 9000, 17.1 and A.3). A cut number outside its kind's
// rule is refused 14 by whatever can refuse.
#![tactic(auto, unfolding(coding::specs::Said::answer_of, crate::specs::Cutting::window_of, crate::specs::Cutting::is_cut, crate::specs::Cutting::cut_to, crate::specs::Cutting::cut_made, crate::specs::Cutting::cut_tag, crate::specs::Cutting::cut_put, crate::specs::Cutting::cut_read, crate::specs::Expanding::decode_a3, crate::specs::Expanding::expanded, crate::specs::Said::full_of))]

mod ends; // ends.rt: the two number ends of a space

ghost use Rattle.std.specs.Prelude.{◌≡◌, ◌^◌, ◌≤◌, ◌<◌};
ghost use Rattle.coding.specs.Words.{number_end};
ghost use Rattle.coding.specs.Bytes.{bytes_be};
ghost use Rattle.coding.specs.Said.{answer_of};
ghost use Rattle.coding.specs.Writing.{Written, Put};
ghost use Rattle.number.specs.Cutting.{window_of, is_cut, bytes_for, cut_made, cut_tag, tag_length, cut_out, cut_put, cut_read};
ghost use Rattle.number.specs.Expanding.{decode_a3, expanded};
ghost use Rattle.number.specs.Said.{fitting, full_of};

use coding::{MAX_NUMBER, NUMBER_END, Refusal};
pub use ends::Space;
use shared::{CutNumber, FullNumber};

// How many values k bytes have; none for a k that is not 1 to 4, and 0 is that count. A match, because a shift by 8 k was
// measured: it takes half as long again to read a number back.
fn window(k: usize) -> u64
    ensures { result ≡ window_of k }
{
    match k {
        1 => 0x100,
        2 => 0x1_0000,
        3 => 0x100_0000,
        4 => 0x1_0000_0000,
        _ => 0,
    }
}

// Whether the length is 1 to 4, and the value has no more bytes. By a shift, because a test against the window was measured:
// expand, which looks the window up too, then takes up to half as long again.
fn is_cut(c: CutNumber) -> bool
    ensures { result ≡ is_cut c }
{
    0 < c.0 && c.0 < 5 && u64::from(c.1) >> (8 * c.0) == 0
}

// The fewest bytes for a range, where four are enough.
fn width(range: u64) -> Option<usize>
    ensures { result ≡ fitting (bytes_for range) }
{
    for k in 1..5 {
        if range < window(k) {
            return Some(k);
        }
    }
    None
}

// The number's last bytes, as many as its distance from the largest acknowledged asks for.
pub fn new(n: FullNumber, largest_acked: FullNumber) -> Result<CutNumber, Refusal>
    ensures { answer_of result ≡ cut_made n.0 largest_acked.0 }
{
    let number = n.0;
    let acked = largest_acked.0;
    if MAX_NUMBER < number || number < acked {
        return Err(Refusal::Argument);
    }
    let Some(k) = width(2 * (number - acked)) else {
        return Err(Refusal::TooFar);
    };
    let value = number % window(k);
    Ok(CutNumber(k, value as u32))
}

pub fn len(c: CutNumber) -> usize
    ensures { result ≡ c.0 }
{
    c.0
}

// Puts the value's bytes at a place; a cut number outside its rule has none. A store for each length, because one for any was
// measured: it takes an eighth longer.
pub fn put(c: CutNumber, buf: &mut [u8], at: usize) -> usize
    ensures { Put (cut_put c) buf.old at result buf.new }
{
    if !is_cut(c) {
        return at;
    }
    let x = u64::from(c.1);
    match c.0 {
        1 => coding::put_num(buf, at, 1, x),
        2 => coding::put_num(buf, at, 2, x),
        3 => coding::put_num(buf, at, 3, x),
        _ => coding::put_num(buf, at, 4, x),
    }
}

// Writes the value's bytes from byte 0 of buf on, and answers their number.
pub fn encode(c: CutNumber, buf: &mut [u8]) -> Result<usize, Refusal>
    ensures { Written (cut_out c) buf.old (answer_of result) buf.new }
{
    if !is_cut(c) {
        return Err(Refusal::Argument);
    }
    if buf.len() < c.0 {
        return Err(Refusal::Room);
    }
    Ok(put(c, buf, 0))
}

// The cut number of the first `len` of a word's four bytes.
pub fn decode(len: usize, word: u32) -> Result<CutNumber, Refusal>
    ensures { answer_of result ≡ cut_read len (bytes_be 4 word) }
{
    if len < 1 || 4 < len {
        return Err(Refusal::Argument);
    }
    Ok(CutNumber(len, word >> (8 * (4 - len))))
}

// The number's length, from byte 0.
pub fn decode_len(tag: u8) -> usize
    ensures { result ≡ tag_length tag }
{
    1 + usize::from(tag & 0x03)
}

// The two low bits of byte 0 for this length.
pub fn tag(c: CutNumber) -> Result<u8, Refusal>
    ensures { answer_of result ≡ cut_tag c }
{
    if !is_cut(c) {
        return Err(Refusal::Argument);
    }
    Ok((c.0 - 1) as u8)
}

// The number with this value in its last bytes that is nearest to the expected one; a window that reaches 2^62 is not added (A.3).
// The first two tests are apart, because joined they were measured to take up to twice as long, where the first is often guessed
// wrong.
fn nearest(win: u64, value: u64, expected: u64) -> u64
    requires { (value < win) × (win ≤ 2 ^ 32) × (expected ≤ number_end) }
    ensures { result ≡ decode_a3 win value expected }
{
    let half = win / 2;
    let candidate = expected - expected % win + value;
    if candidate + half <= expected {
        if candidate + win < NUMBER_END {
            return candidate + win;
        }
        return candidate;
    }
    if expected + half < candidate && win <= candidate {
        return candidate - win;
    }
    candidate
}

pub fn expand(c: CutNumber, expected: u64) -> Result<FullNumber, Refusal>
    ensures { full_of result ≡ expanded c expected }
{
    if !is_cut(c) || NUMBER_END < expected {
        return Err(Refusal::Argument);
    }
    let n = nearest(window(c.0), u64::from(c.1), expected);
    Ok(FullNumber(n))
}
