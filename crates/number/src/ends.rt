// The two number ends of a space, in one record. A refused call leaves the record as it was. Each call looks at its own end
// alone: sending and acknowledging at next and acked, reading and accepting at largest; an end that no calls can have made
// is 14.
#![tactic(auto, unfolding(crate::specs::Ends::base_of, crate::specs::Ends::expected_of, crate::specs::Ends::larger_of, crate::specs::Ends::send_end, crate::specs::Ends::receive_end, crate::specs::Ends::send_with, crate::specs::Ends::send_by, crate::specs::Ends::acknowledge_by, crate::specs::Ends::read_by, crate::specs::Ends::accept_by, crate::specs::Said::full_of, crate::specs::Said::so_far_of, crate::specs::Said::sent_of, crate::specs::Said::kept_of))]

ghost use Rattle.std.specs.Prelude.{◌≡◌};
ghost use Rattle.number.specs.Ends.{base_of, larger_of, send_end, receive_end, fresh_ends, send_by, acknowledge_by, read_by, accept_by};
ghost use Rattle.number.specs.Said.{full_of, so_far_of, ends_of, sent_of, kept_of};

use coding::{MAX_NUMBER, NUMBER_END, Refusal};
use shared::{CutNumber, FullNumber};

#[derive(Clone, Copy, PartialEq, Eq)]
pub struct Space {
    // the number that is sent next
    pub next: FullNumber,
    // the largest acknowledged
    pub acked: Option<FullNumber>,
    // the largest accepted
    pub largest: Option<FullNumber>,
}

// The number that a cut counts from: the largest acknowledged, or 0.
fn base(largest: Option<FullNumber>) -> FullNumber
    ensures { result.0 ≡ base_of (so_far_of largest) }
{
    largest.unwrap_or(FullNumber(0))
}

// The larger of the largest so far and n.
fn larger(largest: Option<FullNumber>, n: FullNumber) -> Option<FullNumber>
    ensures { so_far_of result ≡ larger_of (so_far_of largest) n.0 }
{
    match largest {
        Some(m) if n.0 <= m.0 => largest,
        _ => Some(n),
    }
}

impl Space {
    // Nothing is sent, acknowledged or accepted yet. By the documents' word, and no Default: that would say no more.
    pub fn fresh() -> Space
        ensures { ends_of result ≡ fresh_ends }
    {
        Space {
            next: FullNumber(0),
            acked: None,
            largest: None,
        }
    }

    // Whether calls can have made the sending end: no number past 2^62 - 1 is used up, and what is acknowledged was sent.
    fn send_end(self) -> bool
        ensures { result ≡ send_end (ends_of self) }
    {
        let next = self.next.0;
        next <= NUMBER_END && self.acked.is_none_or(|m| m.0 < next)
    }

    // Whether calls can have made the receiving end: no number past 2^62 - 1 is accepted.
    fn receive_end(self) -> bool
        ensures { result ≡ receive_end (ends_of self) }
    {
        self.largest.is_none_or(|m| m.0 <= MAX_NUMBER)
    }

    // Uses up the next number, if it is not refused.
    pub fn send(&mut self) -> Result<(FullNumber, CutNumber), Refusal>
        ensures { sent_of result self.new ≡ send_by (ends_of self.old) }
    {
        if !self.send_end() {
            return Err(Refusal::Argument);
        }
        let number = self.next;
        let cut = crate::new(number, base(self.acked))?;
        self.next = FullNumber(number.0 + 1);
        Ok((number, cut))
    }

    // Hears that n was acknowledged.
    pub fn acknowledge(&mut self, n: FullNumber) -> Result<(), Refusal>
        ensures { kept_of result self.new ≡ acknowledge_by (ends_of self.old) n.0 }
    {
        if !self.send_end() || self.next.0 <= n.0 {
            return Err(Refusal::Argument);
        }
        self.acked = larger(self.acked, n);
        Ok(())
    }

    // The full number of a cut one. The record stays as it is.
    pub fn read(self, c: CutNumber) -> Result<FullNumber, Refusal>
        ensures { full_of result ≡ read_by (ends_of self) c }
    {
        if !self.receive_end() {
            return Err(Refusal::Argument);
        }
        let expected = match self.largest {
            Some(m) => m.0 + 1,
            None => 0,
        };
        crate::expand(c, expected)
    }

    // Counts n as accepted.
    pub fn accept(&mut self, n: FullNumber) -> Result<(), Refusal>
        ensures { kept_of result self.new ≡ accept_by (ends_of self.old) n.0 }
    {
        if !self.receive_end() || MAX_NUMBER < n.0 {
            return Err(Refusal::Argument);
        }
        self.largest = larger(self.largest, n);
        Ok(())
    }
}
