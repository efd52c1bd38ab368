// The operations of `coding`: integers, fixed reads and puts, places.
use crate::kinds;
use cases::line::{Answer, Out, written};
use cases::record;
use cases::record::Numbers;
use coding::{Codec, Place, Reader, Refusal, VarInt, part, put_slice};

pub(crate) fn vread(ns: Numbers, b: &[u8]) -> Result<Answer, Refusal> {
    let mut r = Reader {
        bytes: b,
        at: ns.n0 as usize,
    };
    let v = r.get_var()?;
    Ok(Answer::Two(v.into_inner(), r.at as u64))
}

pub(crate) fn vfrom(x: u64) -> Result<Answer, Refusal> {
    let v = VarInt::from_u64(x)?;
    Ok(Answer::One(v.into_inner()))
}

pub(crate) fn vsize(x: u64) -> Result<Answer, Refusal> {
    written(VarInt(x).size())
}

// A number of any width as one of 8 bytes.
fn got<T: Codec + Into<u64>>(bytes: &[u8], at: usize) -> Result<Answer, Refusal> {
    let mut r = Reader { bytes, at };
    let x = r.get::<T>()?;
    Ok(Answer::Two(x.into(), r.at as u64))
}

pub(crate) fn get(ns: Numbers, b: &[u8]) -> Result<Answer, Refusal> {
    let at = ns.n1 as usize;
    match ns.n0 {
        1 => got::<u8>(b, at),
        2 => got::<u16>(b, at),
        4 => got::<u32>(b, at),
        8 => got::<u64>(b, at),
        _ => Ok(Answer::Bad),
    }
}

pub(crate) fn take(ns: Numbers, b: &[u8]) -> Result<Answer, Refusal> {
    let mut r = Reader {
        bytes: b,
        at: ns.n0 as usize,
    };
    let Place { start, len } = r.take(ns.n1)?;
    Ok(Answer::Three(start as u64, len as u64, r.at as u64))
}

pub(crate) fn part_at(ns: Numbers, b: &[u8]) -> &[u8] {
    let start = ns.n0 as usize;
    let len = ns.n1 as usize;
    part(b, Place { start, len })
}

// A put of a number that is in its width; any other is bad.
fn put_in<T: Codec>(n: Option<T>, buf: &mut [u8], at: usize) -> Answer {
    match n {
        Some(n) => Answer::Number(coding::put(buf, at, n) as u64),
        None => Answer::Bad,
    }
}

fn put(width: u64, buf: &mut [u8], at: usize, x: u64) -> Answer {
    match width {
        1 => put_in(u8::try_from(x).ok(), buf, at),
        2 => put_in(u16::try_from(x).ok(), buf, at),
        4 => put_in(u32::try_from(x).ok(), buf, at),
        8 => put_in(Some(x), buf, at),
        _ => Answer::Bad,
    }
}

// vwrite, vput, put, puts and cidenc, into a lent buffer. A put answers where it ended.
fn run(op: u8, ns: Numbers, bytes: &[u8], buf: &mut [u8]) -> Result<Answer, Refusal> {
    let at = ns.n0 as usize;
    match op {
        4 => written(VarInt(ns.n0).encode(buf)),
        5 => Ok(Answer::Number(coding::write_var(buf, at, ns.n1) as u64)),
        7 => Ok(put(ns.n0, buf, ns.n1 as usize, ns.n2)),
        8 => Ok(Answer::Number(put_slice(buf, at, bytes) as u64)),
        _ => kinds::cidenc(ns.n0, bytes, buf),
    }
}

// The lent buffer is the record's last part, laid into work.
pub(crate) fn write(op: u8, rec: &[u8], work: &mut [u8], out: &mut Out) {
    let ns = record::numbers_of(rec);
    let last = if op < 8 { 0 } else { 1 };
    let n = record::lay(work, record::bytes(rec, last));
    let said = run(op, ns, record::bytes(rec, 0), &mut work[..n]);
    out.wrote(said, &work[..n]);
}
