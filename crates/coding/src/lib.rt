// Reading from a slice, and writing into a lent buffer (coding.rs). All of it is total: a place past the slice reads as a
// cut field, and a put that does not fit changes nothing.
#![tactic(auto)]

mod codec; // codec.rt: numbers of a known length
mod reader; // reader.rt: reading from a place on
mod refusal; // refusal.rt: what a call may say no with
mod varint; // varint.rt: variable-length integers

ghost use Rattle.std.specs.Prelude.{◌≡◌, ◌+◌, ◌≤◌, length};
ghost use Rattle.coding.specs.Bytes.{bytes_be, splice};
ghost use Rattle.coding.specs.Varint.{var_put};
ghost use Rattle.coding.specs.Writing.{Put};
ghost use Rattle.coding.specs.Places.{Part, start_of, part_of};

pub use codec::Codec;
pub use reader::Reader;
pub use refusal::{Refusal, UnexpectedEnd};
pub use varint::VarInt;

// The longest datagram, packet, payload, header or frame: what UDP's length field leaves.
pub const MAX_DATAGRAM: usize = 65_527;

// Packet numbers and integers are below this.
pub const NUMBER_END: u64 = 0x4000_0000_0000_0000;

// The largest of them.
pub const MAX_NUMBER: u64 = NUMBER_END - 1;

// A part of a lent slice: len bytes from start on.
#[derive(Clone, Copy, PartialEq, Eq)]
pub struct Place {
    pub start: usize,
    pub len: usize,
}

// The bytes at a place, or none where it does not lie inside.
pub fn part(s: &[u8], p: Place) -> &[u8]
    ensures { Part s.entry result (start_of s.now p) (part_of s.now p) }
{
    let Place { start, len } = p;
    if s.len() < start || s.len() - start < len {
        return &s[..0];
    }
    &s[start..start + len]
}

// Stores the last n bytes of x from `at` on, most significant first. The range starts at 0, so that the turns are counted when
// the program is built, where n is known: from `at` on they were not, and a header took a twentieth longer.
fn put_be(buf: &mut [u8], at: usize, n: usize, x: u64)
    requires { at + n ≤ length buf.old }
    ensures { buf.new ≡ splice buf.old at (bytes_be n x) }
{
    let mut v = x;
    for i in (0..n).rev() {
        buf[at + i] = (v % 256) as u8;
        v = v / 256;
    }
}

// A put stores at a place and answers the next; where it does not fit, it answers the place, and buf is as it was. Here: the
// last n bytes of x.
pub fn put_num(buf: &mut [u8], at: usize, n: usize, x: u64) -> usize
    ensures { Put (bytes_be n x) buf.old at result buf.new }
{
    if buf.len() < at || buf.len() - at < n {
        return at;
    }
    put_be(buf, at, n, x);
    at + n
}

// The bytes of a value of a type with a known length.
pub fn put<T: Codec>(buf: &mut [u8], at: usize, x: T) -> usize
    ensures { Put (bytes_be T.size (T.number x)) buf.old at result buf.new }
{
    x.put(buf, at)
}

// Byte by byte: copy_from_slice is a call of C's memmove, and the archive for C calls nothing that whoever links it has to have.
pub fn put_slice(buf: &mut [u8], at: usize, bytes: &[u8]) -> usize
    ensures { Put bytes.now buf.old at result buf.new }
{
    if buf.len() < at || buf.len() - at < bytes.len() {
        return at;
    }
    for (i, b) in bytes.iter().enumerate() {
        buf[at + i] = *b;
    }
    at + bytes.len()
}

// Puts x in its shortest form; from 2^62 on there is none, and nothing is put.
pub fn write_var(buf: &mut [u8], at: usize, x: u64) -> usize
    ensures { Put (var_put x) buf.old at result buf.new }
{
    let Ok(n) = VarInt(x).size() else {
        return at;
    };
    // the tag, 00, 01, 10 or 11, stands in the two top bits
    match n {
        1 => put_num(buf, at, 1, x),
        2 => put_num(buf, at, 2, 0x4000 + x),
        4 => put_num(buf, at, 4, 0x8000_0000 + x),
        _ => put_num(buf, at, 8, 0xc000_0000_0000_0000 + x),
    }
}
