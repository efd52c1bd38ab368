// The number ends of the three spaces over the surface: a record of numbers in, and the same record out. A step takes the ends of
// one space out of it, and puts them back.
#![tactic(auto, using(crate::proofs::Taken::taken, spaces::proofs::Puts::put_back), unfolding(number::specs::Said::so_far_of, number::specs::Ends::base_of, number::specs::Said::full_of, number::specs::Said::sent_of, number::specs::Said::kept_of, spaces::specs::Calls::lifted, spaces::specs::Calls::within))]

ghost use Rattle.std.specs.Prelude.{◌≡◌};
ghost use Rattle.std.proofs.Math.Option.{some};
ghost use Rattle.number.specs.Ends.{base_of};
ghost use Rattle.number.specs.Said.{so_far_of, ends_of};
ghost use Rattle.spaces.specs.Each.{of, put};
ghost use Rattle.spaces.specs.Calls.{lifted};
ghost use Rattle.gateway.specs.Arguments.{code_of};
ghost use Rattle.gateway.specs.Numbers.{so_far, has_of, ends_in, ends_out, unkept, each_in, each_out, numbers, answer_with, step_said, record_of, step_of, number_for};

use crate::arguments;
use crate::records::{NumberAnswer, NumberEnds, NumberSpaces};
use coding::Refusal;
use number::Space;
use packet::SpaceId;
use shared::{CutNumber, FullNumber};

fn so_far(has: u8, n: u64) -> Option<FullNumber>
    ensures { so_far_of result ≡ so_far has n }
{
    (has != 0).then_some(FullNumber(n))
}

// A step, with what it takes.
#[derive(Clone, Copy)]
pub(crate) enum NumberStep {
    Send,
    Acknowledge(FullNumber),
    Read(CutNumber),
    Accept(FullNumber),
}

impl From<NumberEnds> for Space {
    ghost from_gives = { λ ends space. ends_of space ≡ ends_in ends };

    fn from(ends: NumberEnds) -> Space {
        Space {
            next: FullNumber(ends.next),
            acked: so_far(ends.has_acked, ends.acked),
            largest: so_far(ends.has_largest, ends.largest),
        }
    }
}

impl From<Space> for NumberEnds {
    ghost from_gives = { λ space ends. ends ≡ ends_out (ends_of space) };

    fn from(space: Space) -> NumberEnds {
        let Space {
            next,
            acked,
            largest,
        } = space;
        NumberEnds {
            next: next.0,
            acked: acked.map_or(0, |n| n.0),
            largest: largest.map_or(0, |n| n.0),
            has_acked: u8::from(acked.is_some()),
            has_largest: u8::from(largest.is_some()),
        }
    }
}

impl NumberEnds {
    // Whether a flag is neither 0 nor 1.
    fn is_unkept(self) -> bool
        ensures { result ≡ unkept self }
    {
        1 < self.has_acked || 1 < self.has_largest
    }
}

impl NumberSpaces {
    // The ends of a space, as `spaces::Spaces` has them; this record is C's.
    fn get(self, id: SpaceId) -> NumberEnds
        ensures { result ≡ of (each_in self) id }
    {
        match id {
            SpaceId::Initial => self.initial,
            SpaceId::Handshake => self.handshake,
            SpaceId::Data => self.data,
        }
    }

    // With the ends of a space replaced.
    fn with(self, id: SpaceId, space: Space) -> NumberSpaces
        ensures { result ≡ each_out (put (each_in self) id (ends_out (ends_of space))) }
    {
        let ends = NumberEnds::from(space);
        match id {
            SpaceId::Initial => NumberSpaces {
                initial: ends,
                ..self
            },
            SpaceId::Handshake => NumberSpaces {
                handshake: ends,
                ..self
            },
            SpaceId::Data => NumberSpaces { data: ends, ..self },
        }
    }
}

// The record after a step that says no number, or a refusal.
pub(crate) fn no_number(why: Option<Refusal>, spaces: NumberSpaces) -> NumberAnswer
    ensures { result ≡ answer_with (code_of why) (numbers 0 0 0) (each_in spaces) }
{
    NumberAnswer {
        refusal: arguments::code(why),
        number_value: 0,
        number_len: 0,
        number: 0,
        spaces,
    }
}

// A step in one space. Acknowledge and accept are alike but for the call; a closure for it would say that in more words.
fn step_in(id: SpaceId, spaces: NumberSpaces, step: NumberStep) -> Result<NumberAnswer, Refusal>
    ensures { step_said result spaces ≡ record_of (lifted (step_of step) (some id) (each_in spaces)) }
{
    let mut space = Space::from(spaces.get(id));
    match step {
        NumberStep::Send => {
            let (number, cut) = space.send()?;
            Ok(NumberAnswer {
                refusal: 0,
                number_value: cut.1,
                number_len: cut.0,
                number: number.0,
                spaces: spaces.with(id, space),
            })
        }
        NumberStep::Acknowledge(number) => {
            space.acknowledge(number)?;
            Ok(no_number(None, spaces.with(id, space)))
        }
        // reading leaves the record as it came
        NumberStep::Read(cut) => {
            let number = space.read(cut)?;
            Ok(NumberAnswer {
                number: number.0,
                ..no_number(None, spaces)
            })
        }
        NumberStep::Accept(number) => {
            space.accept(number)?;
            Ok(no_number(None, spaces.with(id, space)))
        }
    }
}

// A step by its number, in the space of a packet's kind; of that space alone the flags are looked at.
pub(crate) fn step(
    step: u8,
    kind: u8,
    spaces: NumberSpaces,
    number: FullNumber,
    cut: CutNumber,
) -> Result<NumberAnswer, Refusal>
    ensures { step_said result spaces ≡ number_for step kind spaces number.0 cut.0 cut.1 }
{
    let Some(id) = spaces::space_of(arguments::kind_of(kind)?) else {
        return Err(Refusal::Argument);
    };
    if spaces.get(id).is_unkept() {
        return Err(Refusal::Argument);
    }
    step_in(id, spaces, arguments::step_of(step, number, cut)?)
}
