// The text of answers, put at a place of a lent buffer; each function answers the next place. `Out` has a buffer and the place:
// each of its puts goes where the text so far ends. What does not fit is left out.
#![tactic(auto, unfolding(crate::specs::Lines::hex_word, crate::specs::Lines::and_num, crate::specs::Lines::and_some, crate::specs::Lines::and_hex, crate::specs::Lines::nums, crate::specs::Lines::end_word, crate::specs::Lines::end_line, crate::specs::Said::case_of, crate::specs::Said::word_of, crate::specs::Said::numbers_of, crate::specs::Said::answer_line, crate::specs::Said::written_of, crate::specs::Said::is_bad, crate::specs::Said::wrote_line))]

ghost use Rattle.std.specs.Prelude.{◌≡◌, [], ◌∷◌, Ok};
ghost use Rattle.coding.specs.Places.{part_of};
ghost use Rattle.text.specs.Decimal.{decimal};
ghost use Rattle.text.specs.Puts.{PutAll};
ghost use Rattle.cases.specs.Lines.{hex_word, and_num, and_some, and_hex, and_nums, nums, ok_word, end_word, end_line};
ghost use Rattle.cases.specs.Said.{case_of, answer_line, written_of, is_bad, wrote_line};
ghost use Rattle.cases.specs.Out.{Told, Fresh, Spilt};
ghost use Rattle.cases.specs.Stdio.{LineEnded};

use crate::record::Record;
use crate::stdio;
use coding::{Place, Refusal, UnexpectedEnd, part, put_slice};
use std::io::Stdout;
use text::{put_decimal, put_hex_or};

pub fn num(out: &mut [u8], at: usize, n: u64) -> usize
    ensures { PutAll (decimal n ∷ []) out.old at result out.new }
{
    put_decimal(out, at, n)
}

// Bytes in hex, `-` for none.
pub fn hex(out: &mut [u8], at: usize, bytes: &[u8]) -> usize
    ensures { PutAll (hex_word bytes.now ∷ []) out.old at result out.new }
{
    put_hex_or(out, at, bytes, b"-")
}

// After a space: a number, or bytes.
pub fn and_num(out: &mut [u8], at: usize, n: u64) -> usize
    ensures { PutAll (and_num n) out.old at result out.new }
{
    let p = put_slice(out, at, b" ");
    num(out, p, n)
}

pub fn and_hex(out: &mut [u8], at: usize, bytes: &[u8]) -> usize
    ensures { PutAll (and_hex bytes.now) out.old at result out.new }
{
    let p = put_slice(out, at, b" ");
    hex(out, p, bytes)
}

pub fn and_nums(out: &mut [u8], at: usize, ns: &[u64]) -> usize
    ensures { PutAll (and_nums ns.now) out.old at result out.new }
{
    let mut p = at;
    for n in ns {
        p = and_num(out, p, *n);
    }
    p
}

// A number, and numbers after it.
pub fn nums(out: &mut [u8], at: usize, first: u64, ns: &[u64]) -> usize
    ensures { PutAll (nums first ns.now) out.old at result out.new }
{
    let p = num(out, at, first);
    and_nums(out, p, ns)
}

// The bytes at a place of s, after a space.
pub fn and_part(out: &mut [u8], at: usize, s: &[u8], place: Place) -> usize
    ensures { PutAll (and_hex (part_of s.now place)) out.old at result out.new }
{
    and_hex(out, at, part(s, place))
}

// What an operation answers where it does not refuse: that there is no such operation, none, or ok with up to three numbers; or a
// number alone.
#[derive(Clone, Copy, PartialEq, Eq)]
pub enum Answer {
    Bad,
    Nothing,
    Done,
    One(u64),
    Two(u64, u64),
    Three(u64, u64, u64),
    Number(u64),
}

fn ok(out: &mut [u8], at: usize, ns: &[u64]) -> usize
    ensures { PutAll (ok_word ∷ and_nums ns.now) out.old at result out.new }
{
    let p = put_slice(out, at, b"ok");
    and_nums(out, p, ns)
}

fn say_answer(out: &mut [u8], at: usize, a: Answer) -> usize
    ensures { PutAll (answer_line (Ok a)) out.old at result out.new }
{
    match a {
        Answer::Bad => put_slice(out, at, b"BAD RECORD"),
        Answer::Nothing => put_slice(out, at, b"none"),
        Answer::Done => put_slice(out, at, b"ok"),
        Answer::One(x) => ok(out, at, &[x]),
        Answer::Two(x, y) => ok(out, at, &[x, y]),
        Answer::Three(x, y, z) => ok(out, at, &[x, y, z]),
        Answer::Number(x) => num(out, at, x),
    }
}

// A refusal has document 01's number.
pub fn say(out: &mut [u8], at: usize, a: Result<Answer, Refusal>) -> usize
    ensures { PutAll (answer_line a) out.old at result out.new }
{
    match a {
        Ok(said) => say_answer(out, at, said),
        Err(why) => {
            let p = put_slice(out, at, b"no");
            and_num(out, p, why.number() as u64)
        }
    }
}

fn is_bad(a: Result<Answer, Refusal>) -> bool
    ensures { result ≡ is_bad a }
{
    let Ok(said) = a else {
        return false;
    };
    matches!(said, Answer::Bad)
}

// An answer, and the lent buffer after it, where there is such an operation.
pub fn wrote(out: &mut [u8], at: usize, a: Result<Answer, Refusal>, buf: &[u8]) -> usize
    ensures { PutAll (wrote_line a buf.now) out.old at result out.new }
{
    let p = say(out, at, a);
    if is_bad(a) {
        return p;
    }
    and_hex(out, p, buf)
}

// What a writer answers.
pub fn written(said: Result<usize, Refusal>) -> Result<Answer, Refusal>
    ensures { result ≡ written_of said }
{
    Ok(Answer::One(said? as u64))
}

// How the records end.
fn ending(t: Result<Option<Record>, UnexpectedEnd>) -> &'static [u8]
    ensures { result.now ≡ end_word (case_of t) }
{
    match t {
        Ok(_) => b"end ",
        Err(_) => b"BAD RECORD\nstopped ",
    }
}

// The last line: how the input ended, and how many records it had.
pub(crate) fn end(
    out: &mut [u8],
    at: usize,
    t: Result<Option<Record>, UnexpectedEnd>,
    count: u64,
) -> usize
    ensures { PutAll (end_line (case_of t) count) out.old at result out.new }
{
    let p = put_slice(out, at, ending(t));
    let p = num(out, p, count);
    put_slice(out, p, b"\n")
}

// Room for lines, the text so far up to `at`, and where it is written out once it is much.
#[derive(Drop)]
pub struct Out {
    to: Stdout,
    pub text: [u8; 400_000],
    pub at: usize,
}

// What a function of the same name above or in stdio does, done where the text so far ends.
impl Out {
    pub fn new(to: Stdout) -> Out
        ensures { Fresh result }
    {
        Out {
            to,
            text: stdio::lines(),
            at: 0,
        }
    }

    pub fn put(&mut self, bytes: &[u8])
        ensures { Told (bytes.now ∷ []) self.old self.new }
    {
        self.at = put_slice(&mut self.text, self.at, bytes);
    }

    pub fn num(&mut self, n: u64)
        ensures { Told (decimal n ∷ []) self.old self.new }
    {
        self.at = num(&mut self.text, self.at, n);
    }

    pub fn hex(&mut self, bytes: &[u8])
        ensures { Told (hex_word bytes.now ∷ []) self.old self.new }
    {
        self.at = hex(&mut self.text, self.at, bytes);
    }

    pub fn and_num(&mut self, n: u64)
        ensures { Told (and_num n) self.old self.new }
    {
        self.at = and_num(&mut self.text, self.at, n);
    }

    // A number that may be absent, after a space.
    pub fn and_some(&mut self, n: Option<u64>)
        ensures { Told (and_some n) self.old self.new }
    {
        match n {
            Some(n) => self.and_num(n),
            None => self.put(b" -"),
        }
    }

    pub fn and_hex(&mut self, bytes: &[u8])
        ensures { Told (and_hex bytes.now) self.old self.new }
    {
        self.at = and_hex(&mut self.text, self.at, bytes);
    }

    pub fn and_nums(&mut self, ns: &[u64])
        ensures { Told (and_nums ns.now) self.old self.new }
    {
        self.at = and_nums(&mut self.text, self.at, ns);
    }

    pub fn nums(&mut self, first: u64, ns: &[u64])
        ensures { Told (nums first ns.now) self.old self.new }
    {
        self.at = nums(&mut self.text, self.at, first, ns);
    }

    pub fn and_part(&mut self, s: &[u8], place: Place)
        ensures { Told (and_hex (part_of s.now place)) self.old self.new }
    {
        self.at = and_part(&mut self.text, self.at, s, place);
    }

    pub fn say(&mut self, a: Result<Answer, Refusal>)
        ensures { Told (answer_line a) self.old self.new }
    {
        self.at = say(&mut self.text, self.at, a);
    }

    pub fn wrote(&mut self, a: Result<Answer, Refusal>, buf: &[u8])
        ensures { Told (wrote_line a buf.now) self.old self.new }
    {
        self.at = wrote(&mut self.text, self.at, a, buf);
    }

    // Writes out what stands there once it is much, also within a line.
    pub fn spill(&mut self)
        ensures { Spilt self.old self.new }
    {
        self.at = stdio::spill(self.to, &self.text, self.at);
    }

    pub fn end_line(&mut self)
        ensures { LineEnded self.old.text self.old.at self.new.at self.new.text }
    {
        self.at = stdio::end_line(self.to, &mut self.text, self.at);
    }

    // Writes out what is left and the last line: how the input ended, and how many records it had.
    pub fn end(&mut self, t: Result<Option<Record>, UnexpectedEnd>, count: u64)
        ensures { Told (end_line (case_of t) count) self.old self.new }
    {
        self.at = stdio::end(self.to, &mut self.text, self.at, t, count);
    }
}
