// The operations of `number` on packet numbers: cut and read back.
use cases::line::{Answer, Out, written};
use cases::record::{Numbers, lay};
use coding::{Reader, Refusal};
use shared::{CutNumber, FullNumber};

// A cut number's length and its value.
fn made(said: Result<CutNumber, Refusal>) -> Result<Answer, Refusal> {
    let c = said?;
    Ok(Answer::Two(number::len(c) as u64, u64::from(c.1)))
}

pub(crate) fn full(said: Result<FullNumber, Refusal>) -> Result<Answer, Refusal> {
    let FullNumber(n) = said?;
    Ok(Answer::One(n))
}

pub(crate) fn pnnew(n: u64, acked: u64) -> Result<Answer, Refusal> {
    made(number::new(FullNumber(n), FullNumber(acked)))
}

pub(crate) fn pnexp(k: u64, value: u64, expected: u64) -> Result<Answer, Refusal> {
    let Ok(value) = u32::try_from(value) else {
        return Ok(Answer::Bad);
    };
    full(number::expand(CutNumber(k as usize, value), expected))
}

pub(crate) fn pndec(k: u64, b: &[u8]) -> Result<Answer, Refusal> {
    if b.len() != 4 {
        return Ok(Answer::Bad);
    }
    let word = Reader { bytes: b, at: 0 }.get::<u32>()?;
    made(number::decode(k as usize, word))
}

pub(crate) fn pntag(k: u64, value: u64) -> Result<Answer, Refusal> {
    let Ok(value) = u32::try_from(value) else {
        return Ok(Answer::Bad);
    };
    let tag = number::tag(CutNumber(k as usize, value))?;
    Ok(Answer::One(u64::from(tag)))
}

pub(crate) fn pnlen(tag: u64) -> Answer {
    match u8::try_from(tag) {
        Ok(tag) => Answer::Number(number::decode_len(tag) as u64),
        Err(_) => Answer::Bad,
    }
}

fn encode(k: u64, value: u64, buf: &mut [u8]) -> Result<Answer, Refusal> {
    let Ok(value) = u32::try_from(value) else {
        return Ok(Answer::Bad);
    };
    written(number::encode(CutNumber(k as usize, value), buf))
}

pub(crate) fn pnenc(ns: Numbers, b: &[u8], work: &mut [u8], out: &mut Out) {
    let n = lay(work, b);
    let said = encode(ns.n0, ns.n1, &mut work[..n]);
    out.wrote(said, &work[..n]);
}
