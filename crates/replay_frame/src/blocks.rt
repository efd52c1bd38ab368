// ACK blocks, scanned and stepped over, and ECN counts.
use crate::shown;
use ack::AckTaken;
use cases::line::{Answer, Out};
use cases::record::Numbers;
use coding::{Place, Refusal, part};
use ecn::EcnCounts;
use shared::{EcnCodepoint, FullNumber};

// How many bytes there are between two places.
fn left(len: usize, from: usize) -> usize {
    len.saturating_sub(from)
}

// The place past the blocks, and the ranges that they hold.
pub(crate) fn ackscan(ns: Numbers, b: &[u8], out: &mut Out) {
    let start = ns.n0 as usize;
    let largest = FullNumber(ns.n1);
    match ack::scan_ack_blocks(b, start, largest, ns.n2) {
        Err(why) => out.say(Err(why)),
        Ok(next) => {
            out.say(Ok(Answer::One(next as u64)));
            let len = left(next, start);
            ranges(largest, part(b, Place { start, len }), out);
        }
    }
}

// All ranges until the bytes end; each takes a byte.
pub(crate) fn ranges(largest: FullNumber, blocks: &[u8], out: &mut Out) {
    let mut from = 0;
    let mut top = largest;
    for _ in 0..=blocks.len() {
        let taken = ack::ack_step(blocks, from, top);
        let Ok(Some((low, high))) = taken.answer else {
            return;
        };
        out.and_num(low.0);
        out.put(b"-");
        out.num(high.0);
        out.spill();
        from = taken.next;
        top = taken.largest;
    }
}

// What a step says, and how the reader stands after it: its largest, and the bytes that are left.
fn stepped(
    said: Result<Option<(FullNumber, FullNumber)>, Refusal>,
    largest: FullNumber,
    bytes: usize,
    out: &mut Out,
) {
    match said {
        Ok(Some((low, high))) => out.nums(low.0, &[high.0]),
        Ok(None) => out.put(b"end"),
        Err(why) => out.say(Err(why)),
    }
    shown::word(b" :", &[largest.0, bytes as u64], out);
    out.put(b";");
}

// Each step until the bytes end or one is refused. What the n-th says is asked of one AckIter that has made the n before it, how
// the reader then stands of the step that it is made of.
pub(crate) fn ackiter(largest: u64, b: &[u8], out: &mut Out) {
    let mut from = 0;
    let mut top = FullNumber(largest);
    for turn in 0..=b.len() {
        let said = ack_iter::nth_range(FullNumber(largest), b, turn);
        let AckTaken { largest, next, .. } = ack::ack_step(b, from, top);
        stepped(said, largest, left(b.len(), next), out);
        out.spill();
        let Ok(Some(_)) = said else {
            return;
        };
        from = next;
        top = largest;
    }
}

// The counts after a codepoint's was raised, or as they were with the refusal; none where there is no codepoint.
pub(crate) fn ecn(ns: Numbers, out: &mut Out) {
    let Ok(bits) = u8::try_from(ns.n3) else {
        return out.say(Ok(Answer::Bad));
    };
    let Some(point) = EcnCodepoint::from_bits(bits) else {
        return out.say(Ok(Answer::Nothing));
    };
    let counts = EcnCounts {
        ect0: ns.n0,
        ect1: ns.n1,
        ce: ns.n2,
    };
    let (counts, raised) = ecn::raised(counts, point);
    out.say(raised.map(|_| Answer::Done));
    out.and_nums(&[counts.ect0, counts.ect1, counts.ce]);
}
