// The records of an input. Each is its operation's number, its length in 3 bytes, and its fields: six numbers of 8 bytes, then
// its parts, each after its length in 3 bytes. A number or a part that a record does not have reads as 0, and as none.
#![tactic(auto, unfolding(coding::specs::Words::and_then, coding::specs::Said::found_by, crate::specs::Records::head_in, crate::specs::Records::sized_at, crate::specs::Records::number_in, crate::specs::Records::numbers_in, crate::specs::Records::byte_in, crate::specs::Records::five_in, crate::specs::Said::case_of))]

ghost use Rattle.std.specs.Prelude.{◌≡◌, ◌%◌};
ghost use Rattle.std.specs.Result.{result_unwrap_or};
ghost use Rattle.coding.specs.Places.{Part, start_of, part_of};
ghost use Rattle.coding.specs.Said.{found_by};
ghost use Rattle.cases.specs.Records.{head_in, sized_at, number_in, numbers_in, nowhere, part_in, byte_in, five_in, Laid, Listed};
ghost use Rattle.cases.specs.Said.{case_of};

use coding::{Place, Reader, UnexpectedEnd, part, put_slice};

// A record's operation, and how many bytes its fields are.
#[derive(Clone, Copy, PartialEq, Eq)]
pub struct Record {
    pub op: u8,
    pub len: usize,
}

// The six numbers of a record.
#[derive(Clone, Copy, PartialEq, Eq)]
pub struct Numbers {
    pub n0: u64,
    pub n1: u64,
    pub n2: u64,
    pub n3: u64,
    pub n4: u64,
    pub n5: u64,
}

// What a record begins with, its first 4 bytes; none where there is no byte.
pub fn head(b: &[u8]) -> Result<Option<Record>, UnexpectedEnd>
    ensures { case_of result ≡ head_in b.now }
{
    let mut r = Reader { bytes: b, at: 0 };
    let Ok(op) = r.get::<u8>() else {
        return Ok(None);
    };
    let high = r.get::<u8>()?;
    let low = r.get::<u16>()?;
    let len = (high as usize) * 65536 + (low as usize);
    Ok(Some(Record { op, len }))
}

// Bytes after their length.
fn sized(r: &mut Reader) -> Result<Place, UnexpectedEnd>
    ensures finds { found_by (λ p. p) result r.new.at ≡ sized_at r.old.bytes.now r.old.at }
    ensures bytes { r.new.bytes ≡ r.old.bytes }
{
    let high = r.get::<u8>()?;
    let low = r.get::<u16>()?;
    r.take((high as u64) * 65536 + (low as u64))
}

// Number i of a record.
fn number(rec: &[u8], i: u8) -> u64
    ensures { result ≡ number_in rec.now i }
{
    let at = 8 * (i as usize);
    Reader { bytes: rec, at }.get::<u64>().unwrap_or(0)
}

pub fn numbers_of(rec: &[u8]) -> Numbers
    ensures { result ≡ numbers_in rec.now }
{
    Numbers {
        n0: number(rec, 0),
        n1: number(rec, 1),
        n2: number(rec, 2),
        n3: number(rec, 3),
        n4: number(rec, 4),
        n5: number(rec, 5),
    }
}

// A number as one of 8 bits, and as one of 32.
pub fn byte(n: u64) -> u8
    ensures { result ≡ n % 256 }
{
    (n % 0x100) as u8
}

pub fn word(n: u64) -> u32
    ensures { result ≡ n % 4294967296 }
{
    (n % 0x1_0000_0000) as u32
}

// The place of part j of a record.
fn place(rec: &[u8], j: u8) -> Result<Place, UnexpectedEnd>
    ensures { result_unwrap_or result nowhere ≡ part_in rec.now j }
{
    let mut r = Reader { bytes: rec, at: 48 };
    for _ in 0..j {
        sized(&mut r)?;
    }
    sized(&mut r)
}

// A part of no bytes.
const NOWHERE: Place = Place { start: 0, len: 0 };

// Part j of a record.
pub fn bytes(rec: &[u8], j: u8) -> &[u8]
    ensures { Part rec.entry result (start_of rec.now (part_in rec.now j)) (part_of rec.now (part_in rec.now j)) }
{
    part(rec, place(rec, j).unwrap_or(NOWHERE))
}

// Byte i of a part.
pub fn byte_at(b: &[u8], i: usize) -> u8
    ensures { result ≡ byte_in b.now i }
{
    Reader { bytes: b, at: i }.get::<u8>().unwrap_or(0)
}

// The first five bytes of a part: a mask.
pub fn five(b: &[u8]) -> [u8; 5]
    ensures { result ≡ five_in b.now }
{
    [
        byte_at(b, 0),
        byte_at(b, 1),
        byte_at(b, 2),
        byte_at(b, 3),
        byte_at(b, 4),
    ]
}

// Lays a part's bytes at the start of work, to be lent to a writer, and answers how many they are.
pub fn lay(work: &mut [u8], part: &[u8]) -> usize
    ensures { Laid part.now work.old result work.new }
{
    put_slice(work, 0, part)
}

// Reads numbers of 4 bytes, as many as the list has room for, and answers how many they are.
pub fn words(bytes: &[u8], list: &mut [u32]) -> usize
    ensures { Listed bytes.now list.old result list.new }
{
    let mut r = Reader { bytes, at: 0 };
    for (n, x) in list.iter_mut().enumerate() {
        let Ok(word) = r.get::<u32>() else {
            return n;
        };
        *x = word;
    }
    list.len()
}
