// What every frame's writer is made of: integers, one after the other, and bytes after them (frame.rs, the encoders;
// coding.rs, write_var). The table of frames says which.
#![tactic(auto)]

ghost use Rattle.std.specs.Prelude.{◌≡◌, true, [], ◌+◌, ◌≤◌, length};
ghost use Rattle.coding.specs.Said.{answer_of};
ghost use Rattle.coding.specs.Writing.{length_of, Written, Put};
ghost use Rattle.row_out.specs.Limits.{below62, vars_bytes, vars_out, stored};

use coding::{MAX_DATAGRAM, Refusal, VarInt};

// The bytes of integers, or 14: one is past 2^62 - 1, or they are more than a frame has.
#[tactic(auto, unfolding(crate::specs::Limits::below62, crate::specs::Limits::vars_bytes))]
#[inline(always)]
pub fn vars_len(vals: &[u64]) -> Result<usize, Refusal>
    ensures { answer_of result ≡ length_of (vars_out vals.now []) }
{
    let mut n = 0;
    for x in vals {
        n += VarInt(*x).size()?;
        if MAX_DATAGRAM < n {
            return Err(Refusal::Argument);
        }
    }
    Ok(n)
}

// Puts integers for which there is room. Not inlined, so that what calls it is small enough to be: how many integers a frame
// has is then known where their bytes are counted.
#[inline(never)]
fn put_each(buf: &mut [u8], at: usize, vals: &[u64]) -> usize
    requires { (below62 vals.now ≡ true) × (at + length (vars_bytes vals.now) ≤ length buf.old) }
    ensures { Put (vars_bytes vals.now) buf.old at result buf.new }
{
    let mut p = at;
    for val in vals {
        p = coding::write_var(buf, p, *val);
    }
    p
}

// Puts integers at a place; nothing where one is past 2^62 - 1, or they are more than a frame has.
pub fn put_vars(buf: &mut [u8], at: usize, vals: &[u64]) -> usize
    ensures { Put (stored (vars_out vals.now [])) buf.old at result buf.new }
{
    let Ok(n) = vars_len(vals) else {
        return at;
    };
    if buf.len() < at || buf.len() - at < n {
        return at;
    }
    put_each(buf, at, vals)
}

// How many integers and then bytes make a frame, or 14.
#[inline(always)]
pub fn frame_size(vals: &[u64], bytes: &[u8]) -> Result<usize, Refusal>
    ensures { answer_of result ≡ length_of (vars_out vals.now bytes.now) }
{
    let n = vars_len(vals)?;
    if MAX_DATAGRAM - n < bytes.len() {
        return Err(Refusal::Argument);
    }
    Ok(n + bytes.len())
}

// Writes integers and then bytes, from byte 0 of buf on.
#[inline(always)]
pub fn frame_of(vals: &[u64], bytes: &[u8], buf: &mut [u8]) -> Result<usize, Refusal>
    ensures { Written (vars_out vals.now bytes.now) buf.old (answer_of result) buf.new }
{
    let n = frame_size(vals, bytes)?;
    if buf.len() < n {
        return Err(Refusal::Room);
    }
    let at = put_each(buf, 0, vals);
    Ok(coding::put_slice(buf, at, bytes))
}
