// ECN counts, each raised by one where it stands (frame.rs, EcnCounts and its add_assign); `raised` does it for callers with plain
// values.
#![tactic(auto, unfolding(crate::specs::Counts::count_said, crate::specs::Counts::count_of, coding::specs::Said::answer_of))]

ghost use Rattle.std.specs.Prelude.{◌≡◌};
ghost use Rattle.coding.specs.Said.{answer_of};
ghost use Rattle.shared.specs.Said.{ecn_of};
ghost use Rattle.ecn.specs.Counts.{zero_counts, count_of, count_said, counts_after, said_after};

use coding::{MAX_NUMBER, Refusal};
use shared::EcnCodepoint;

#[derive(Clone, Copy, PartialEq, Eq)]
pub struct EcnCounts {
    pub ect0: u64,
    pub ect1: u64,
    pub ce: u64,
}

// A count is raised by one where it stands, or stays as it was with the refusal.
fn more(count: &mut u64) -> Result<(), Refusal>
    ensures { (count.new ≡ count_of count.old) × (answer_of result ≡ count_said count.old) }
{
    if *count < MAX_NUMBER {
        *count += 1;
        Ok(())
    } else {
        Err(Refusal::Argument)
    }
}

impl EcnCounts {
    pub const ZERO: EcnCounts = EcnCounts {
        ect0: 0,
        ect1: 0,
        ce: 0,
    };

    // The counts before any mark was seen: `ZERO`, with what it is said in a contract.
    pub fn zero() -> EcnCounts
        ensures { result ≡ zero_counts }
    {
        EcnCounts::ZERO
    }

    // One count is raised where it stands, and the other two stay; a refusal changes nothing.
    pub fn add_assign(&mut self, rhs: EcnCodepoint) -> Result<(), Refusal>
        ensures { (self.new ≡ counts_after self.old (ecn_of rhs)) × (answer_of result ≡ said_after self.old (ecn_of rhs)) }
    {
        match rhs {
            EcnCodepoint::Ect0 => more(&mut self.ect0),
            EcnCodepoint::Ect1 => more(&mut self.ect1),
            EcnCodepoint::Ce => more(&mut self.ce),
        }
    }
}

// The counts afterwards, as they were beside a refusal, and whether one was raised.
pub fn raised(counts: EcnCounts, rhs: EcnCodepoint) -> (EcnCounts, Result<(), Refusal>)
    ensures { (result.0 ≡ counts_after counts (ecn_of rhs)) × (answer_of result.1 ≡ said_after counts (ecn_of rhs)) }
{
    let mut c = counts;
    let answer = c.add_assign(rhs);
    (c, answer)
}
