// The reader of an ACK frame's ranges (frame.rs, AckIter): it holds the largest number of the range to come and the bytes of the
// blocks. `nth_range` steps a reader for callers with plain values.
#![tactic(auto, unfolding(crate::specs::Iter::step_after, ack::specs::Said::taken_of))]

ghost use Rattle.std.specs.Prelude.{◌≡◌};
ghost use Rattle.ack.specs.Said.{range_step_of};
ghost use Rattle.ack_iter.specs.Iter.{taken, Rest, step_after};

use ack::AckTaken;
use coding::Refusal;
use shared::FullNumber;

#[derive(Clone, Copy)]
pub struct AckIter<'a> {
    largest: FullNumber,
    data: &'a [u8],
}

// What is left after n bytes; the empty part where there are fewer.
fn rest_of(s: &[u8], n: usize) -> &[u8]
    ensures { Rest s.entry result n }
{
    &s[n.min(s.len())..]
}

impl<'a> AckIter<'a> {
    pub fn new(largest: FullNumber, data: &'a [u8]) -> AckIter<'a>
        ensures { (result.largest ≡ largest) × (result.«data» ≡ «data».entry) }
    {
        AckIter { largest, data }
    }

    // The next range, largest first: its smallest and its largest number. A refused step, and one with no byte left, hands out
    // no range and leaves the reader as it was.
    pub fn next(&mut self) -> Result<Option<(FullNumber, FullNumber)>, Refusal>
        ensures { (range_step_of result ≡ (taken self.old).step)
            × (self.new.largest.0 ≡ (taken self.old).largest)
            × Rest self.old.«data» self.new.«data» (taken self.old).next }
    {
        let AckTaken {
            answer,
            largest,
            next,
        } = ack::ack_step(self.data, 0, self.largest);
        self.largest = largest;
        self.data = rest_of(self.data, next);
        answer
    }
}

// What a reader of these blocks says after n other steps (Iterator::nth): one reader, stepped n times and once more.
pub fn nth_range(
    largest: FullNumber,
    blocks: &[u8],
    n: usize,
) -> Result<Option<(FullNumber, FullNumber)>, Refusal>
    ensures { range_step_of result ≡ step_after n blocks.now largest.0 }
{
    let mut it = AckIter::new(largest, blocks);
    for _ in 0..n {
        let _ = it.next();
    }
    it.next()
}
