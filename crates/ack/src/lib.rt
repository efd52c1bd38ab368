// ACK blocks (frame.rs, scan_ack_blocks and AckIter's step; RFC 9000, section 19.3.1). The scan ends by its bytes, whatever
// count is declared: each round reads two integers, and the first that is cut ends it.
#![tactic(auto, using(crate::proofs::Tries::went, crate::proofs::Tries::left, crate::proofs::Tries::exit_answer, crate::proofs::Laws::exit_round, crate::proofs::Laws::exit_tried, crate::proofs::Laws::none, crate::proofs::Laws::rounds_left), unfolding(crate::specs::Scan::rounds, crate::specs::Scan::scan_at, crate::specs::Scan::scanned, crate::specs::Step::ack_step, crate::specs::Step::unmoved, crate::specs::Said::round_then, crate::specs::Said::range_step_of, crate::specs::Said::taken_of, crate::specs::Said::tried_of, coding::specs::Words::and_then, coding::specs::Said::found_by, coding::specs::Said::answer_of))]

ghost use Rattle.std.specs.Prelude.{◌≡◌, ℕ, suc};
ghost use Rattle.coding.specs.Said.{answer_of};
ghost use Rattle.ack.specs.Scan.{rounds, scanned};
ghost use Rattle.ack.specs.Step.{ack_step};
ghost use Rattle.ack.specs.Said.{round_then, taken_of, tried_of};

use coding::{MAX_DATAGRAM, NUMBER_END, Reader, Refusal};
use shared::FullNumber;

// A step's answer, which is a range's smallest and largest number, or none where no byte is left; and where the reader then
// stands: the largest number of the range to come, and its place.
#[derive(Clone, Copy, PartialEq, Eq)]
pub struct AckTaken {
    pub answer: Result<Option<(FullNumber, FullNumber)>, Refusal>,
    pub largest: FullNumber,
    pub next: usize,
}

// What a gap and a block below smallest leave. By tests, since checked_sub's answers would each wait for the one before.
fn scan_round(r: &mut Reader, smallest: u64) -> Result<u64, Refusal>
    ensures reads { (n : ℕ) → round_then result r.new.at (rounds r.old.bytes.now n) ≡ rounds r.old.bytes.now (suc n) r.old.at smallest }
    ensures bytes { r.new.bytes ≡ r.old.bytes }
{
    let gap = r.get_var()?; // the bytes end the scan, whatever the count
    if smallest < gap.0 + 2 {
        return Err(Refusal::Malformed);
    }
    let largest = smallest - (gap.0 + 2);
    let block = r.get_var()?;
    if largest < block.0 {
        return Err(Refusal::Malformed);
    }
    Ok(largest - block.0)
}

// n rounds below low. Not inlined: within a frame's reader its counter would have no register.
#[inline(never)]
fn scan_rounds(s: &[u8], at: usize, low: u64, n: u64) -> Result<usize, Refusal>
    ensures { answer_of result ≡ rounds s.now n at low }
{
    let mut r = Reader { bytes: s, at };
    let mut smallest = low;
    for _ in 0..n {
        smallest = scan_round(&mut r, smallest)?;
    }
    Ok(r.at)
}

// Validates the first block and exactly n more ACK ranges at a cursor, and answers the place past them.
pub fn scan_ack_blocks(s: &[u8], at: usize, largest: FullNumber, n: u64) -> Result<usize, Refusal>
    ensures { answer_of result ≡ scanned s.now at largest.0 n }
{
    if MAX_DATAGRAM < s.len() || NUMBER_END <= largest.0 || NUMBER_END <= n {
        return Err(Refusal::Argument);
    }
    let mut r = Reader { bytes: s, at };
    let first = r.get_var()?;
    let low = largest.0.checked_sub(first.0).ok_or(Refusal::Malformed)?;
    scan_rounds(s, r.at, low, n)
}

// The range whose largest number is given, at a cursor: its block and, if bytes are left, the gap after it.
fn try_step(s: &[u8], at: usize, largest: FullNumber) -> Result<AckTaken, Refusal>
    ensures { tried_of result at largest.0 ≡ ack_step s.now at largest.0 }
{
    if MAX_DATAGRAM < s.len() || NUMBER_END <= largest.0 {
        return Err(Refusal::Argument);
    }
    if s.len() <= at {
        return Ok(AckTaken {
            answer: Ok(None),
            largest,
            next: at,
        });
    }
    let mut r = Reader { bytes: s, at };
    let block = r.get_var()?;
    let smallest = largest.0.checked_sub(block.0).ok_or(Refusal::Malformed)?;
    let answer = Ok(Some((FullNumber(smallest), largest)));
    if s.len() <= r.at {
        return Ok(AckTaken {
            answer,
            largest,
            next: r.at,
        });
    }
    let gap = r.get_var()?;
    let low = smallest.checked_sub(gap.0 + 2).ok_or(Refusal::Malformed)?;
    if s.len() <= r.at {
        return Err(Refusal::UnexpectedEnd);
    }
    Ok(AckTaken {
        answer,
        largest: FullNumber(low),
        next: r.at,
    })
}

// A step; a refused one leaves the reader as it was.
pub fn ack_step(s: &[u8], at: usize, largest: FullNumber) -> AckTaken
    ensures { taken_of result ≡ ack_step s.now at largest.0 }
{
    try_step(s, at, largest).unwrap_or_else(|why| AckTaken {
        answer: Err(why),
        largest,
        next: at,
    })
}
