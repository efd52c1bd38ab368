// Numbers and bytes as text, put into a lent buffer. As the other puts, a put that does not fit changes nothing. By hand and not
// by Display, since of a write that fails fmt::Write promises nothing.
#![tactic(auto)]

ghost use Rattle.std.specs.Prelude.{◌≡◌, ◌+◌, ◌≤◌, ◌<◌, length};
ghost use Rattle.coding.specs.Bytes.{splice};
ghost use Rattle.coding.specs.Writing.{Put};
ghost use Rattle.text.specs.Decimal.{decimal};
ghost use Rattle.text.specs.Hex.{hex_digit, hex_of, hex_or};

// How many digits x has.
#[tactic(auto, using(crate::proofs::Laws::length_one, crate::proofs::Laws::length_power))]
fn decimal_len(x: u64) -> usize
    ensures { result ≡ length (decimal x) }
{
    if x < 10 { 1 } else { x.ilog10() as usize + 1 }
}

// Stores the n digits of x from `at` on, the last one first. By index, since a proof knows nothing of what iter_mut().rev()
// wrote; and not one with coding's put_be, which base and zero as arguments would make no shorter.
fn put_digits(buf: &mut [u8], at: usize, n: usize, x: u64)
    requires { (n ≡ length (decimal x)) × (at + n ≤ length buf.old) }
    ensures { buf.new ≡ splice buf.old at (decimal x) }
{
    let mut v = x;
    for i in (0..n).rev() {
        buf[at + i] = b'0' + (v % 10) as u8;
        v /= 10;
    }
}

// Puts x in decimal.
pub fn put_decimal(buf: &mut [u8], at: usize, x: u64) -> usize
    ensures { Put (decimal x) buf.old at result buf.new }
{
    let n = decimal_len(x);
    if buf.len() < at || buf.len() - at < n {
        return at;
    }
    put_digits(buf, at, n, x);
    at + n
}

#[tactic(auto, unfolding(crate::specs::Hex::hex_digit))]
fn hex_digit(d: u8) -> u8
    requires { d < 16 }
    ensures { result ≡ hex_digit d }
{
    if d < 10 { b'0' + d } else { b'a' + (d - 10) }
}

// Puts bytes in hex.
#[tactic(auto, using(crate::proofs::Laws::length_hex, coding::proofs::Writes::put_not, coding::proofs::Writes::so_none), unfolding(crate::specs::Hex::hex_of))]
pub fn put_hex(buf: &mut [u8], at: usize, bytes: &[u8]) -> usize
    ensures { Put (hex_of bytes.now) buf.old at result buf.new }
{
    if buf.len() < at || (buf.len() - at) / 2 < bytes.len() {
        return at;
    }
    let mut p = at;
    for b in bytes {
        p = coding::put_slice(buf, p, &[hex_digit(b / 16), hex_digit(b % 16)]);
    }
    p
}

// Puts bytes in hex, and a word for none.
#[tactic(auto, using(crate::proofs::Laws::hex_none, crate::proofs::Laws::hex_some))]
pub fn put_hex_or(buf: &mut [u8], at: usize, bytes: &[u8], none: &[u8]) -> usize
    ensures { Put (hex_or none.now bytes.now) buf.old at result buf.new }
{
    if bytes.is_empty() {
        return coding::put_slice(buf, at, none);
    }
    put_hex(buf, at, bytes)
}
