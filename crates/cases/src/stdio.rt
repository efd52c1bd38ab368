// A replay program's standard input and output. It reads packed cases until the input ends and prints an answer to each, a line
// for a case. The last line is `end` and the count; where the input stops within a record, or one is longer than the buffer, it is
// `stopped` after a BAD RECORD. oracle/ has the records' form and what the Rust answers.
#![tactic(auto, unfolding(crate::specs::Said::case_of, crate::specs::Stdio::fields_in))]

ghost use Rattle.std.specs.Prelude.{◌≡◌, ◌≤◌, length};
ghost use Rattle.text.specs.Puts.{PutAll};
ghost use Rattle.cases.specs.Lines.{end_line};
ghost use Rattle.cases.specs.Said.{case_of};
ghost use Rattle.cases.specs.Stdio.{Zeros, fields_in, kept, LineEnded};

use crate::line::{self, Out};
use crate::record::{self, Record};
use coding::{Place, UnexpectedEnd, part, put_slice};
use std::io::{Print, Read, Stdin, Stdout};

// More records than any run has: a proved loop ends.
pub const MOST: u64 = 1_000_000_000_000_000;

// Room for a record's fields, or for a part of one that is lent.
pub fn room() -> [u8; 140_000]
    ensures { Zeros 140000 result }
{
    [0; 140_000]
}

// Room for lines.
pub fn lines() -> [u8; 400_000]
    ensures { Zeros 400000 result }
{
    [0; 400_000]
}

// Reads until buf is full, the input ends or a read fails, and answers how many bytes were read: std has no such method.
fn read_full(mut from: Stdin, buf: &mut [u8]) -> usize
    ensures { result ≤ length buf.new }
{
    let mut n = 0;
    while n < buf.len() {
        let Ok(more) = from.read(&mut buf[n..]) else {
            return n;
        };
        if more == 0 {
            return n;
        }
        n += more;
    }
    n
}

// Reads the next record: its first 4 bytes, then its fields, which have room in buf. What is read is in no contract.
pub fn next(from: Stdin, buf: &mut [u8]) -> Result<Option<Record>, UnexpectedEnd>
    ensures { fields_in (case_of result) ≤ length buf.old }
{
    let mut first = [0; 4];
    let n = read_full(from, &mut first);
    let Some(Record { op, len }) = record::head(&first[..n])? else {
        return Ok(None);
    };
    if buf.len() < len || read_full(from, &mut buf[..len]) < len {
        return Err(UnexpectedEnd);
    }
    Ok(Some(Record { op, len }))
}

// What cannot be written is left out.
fn write_out(to: Stdout, out: &[u8], len: usize) {
    let _ = to.write_all(part(out, Place { start: 0, len }));
}

// Writes out what stands there once it is much, also within a line, and answers the next place.
pub fn spill(to: Stdout, out: &[u8], at: usize) -> usize
    ensures { result ≡ kept at }
{
    if at < 100_000 {
        return at;
    }
    write_out(to, out, at);
    0
}

pub fn end_line(to: Stdout, out: &mut [u8], at: usize) -> usize
    ensures { LineEnded out.old at result out.new }
{
    let p = put_slice(out, at, b"\n");
    spill(to, out, p)
}

// Writes out what is left and the last line: how the input ended, and how many records it had.
pub fn end(
    to: Stdout,
    out: &mut [u8],
    at: usize,
    t: Result<Option<Record>, UnexpectedEnd>,
    count: u64,
) -> usize
    ensures { PutAll (end_line (case_of t) count) out.old at result out.new }
{
    let p = line::end(out, at, t, count);
    write_out(to, out, p);
    p
}

// Puts an answer's text to each record, by its operation and its fields, and ends its line.
fn each<F: FnMut(u8, &[u8], &mut Out)>(from: Stdin, mut answer: F, buf: &mut [u8], out: &mut Out)
    requires { F.IsAlwaysCallable answer }
{
    for count in 0..MOST {
        match next(from, buf) {
            Ok(Some(Record { len, op })) => {
                answer(op, &buf[..len], out);
                out.end_line();
            }
            ended => {
                out.end(ended, count);
                return;
            }
        }
    }
}

// A whole run of a program, by its answer to a record. It is the one public function with a `requires`: that the closure which it
// is handed can be called.
pub fn run<F: FnMut(u8, &[u8], &mut Out)>(rt: HostRuntime, answer: F)
    requires { F.IsAlwaysCallable answer }
{
    let mut buf = room();
    let mut out = Out::new(rt.stdout());
    each(rt.stdin(), answer, &mut buf, &mut out);
}
