// The three number spaces of an end in one record. A call takes the packet's kind and looks at that kind's space alone. A
// refused call leaves the whole record as it was.
#![tactic(auto)]

ghost use Rattle.std.specs.Prelude.{◌≡◌};
ghost use Rattle.std.specs.Fn.{FnOnceReturnsAtMut};
ghost use Rattle.number.specs.Said.{full_of, ends_of};
ghost use Rattle.spaces.specs.Each.{of, put, space_for};
ghost use Rattle.spaces.specs.Calls.{fresh_spaces, send_in, acknowledge_in, read_in, accept_in};
ghost use Rattle.spaces.specs.Said.{in_of, spaces_of, sent_all_of, kept_all_of, Calls};

use coding::Refusal;
use number::Space;
use packet::SpaceId;
use protect::Kind;
use shared::{CutNumber, FullNumber};

// The C interface has its like laid out field by field, flags for Option (gateway's NumberSpaces).
#[derive(Clone, Copy, PartialEq, Eq)]
pub struct Spaces {
    pub initial: Space,
    pub handshake: Space,
    pub data: Space,
}

// The space of a packet's kind, where it has a number.
pub fn space_of(kind: Kind) -> Option<SpaceId>
    ensures { in_of result ≡ space_for kind }
{
    match kind {
        Kind::Initial => Some(SpaceId::Initial),
        Kind::Handshake => Some(SpaceId::Handshake),
        Kind::ZeroRtt | Kind::Short => Some(SpaceId::Data),
        Kind::Retry | Kind::VersionNegotiate => None,
    }
}

impl Spaces {
    // Nothing is sent, acknowledged or accepted yet. Named as that of one space.
    pub fn fresh() -> Spaces
        ensures { spaces_of result ≡ fresh_spaces }
    {
        let space = Space::fresh();
        Spaces {
            initial: space,
            handshake: space,
            data: space,
        }
    }

    // One space of it.
    pub fn get(self, id: SpaceId) -> Space
        ensures { ends_of result ≡ of (spaces_of self) id }
    {
        match id {
            SpaceId::Initial => self.initial,
            SpaceId::Handshake => self.handshake,
            SpaceId::Data => self.data,
        }
    }

    // With one space replaced.
    pub fn put(self, id: SpaceId, space: Space) -> Spaces
        ensures { spaces_of result ≡ put (spaces_of self) id (ends_of space) }
    {
        match id {
            SpaceId::Initial => Spaces {
                initial: space,
                ..self
            },
            SpaceId::Handshake => Spaces {
                handshake: space,
                ..self
            },
            SpaceId::Data => Spaces {
                data: space,
                ..self
            },
        }
    }

    // A call in the space of a packet's kind; where there is none, 14. What is refused leaves the record as it was.
    fn call<T, F: FnOnce(&mut Space) -> Result<T, Refusal>>(
        &mut self,
        kind: Kind,
        step: F,
    ) -> Result<T, Refusal>
        requires { F.IsAlwaysCallable step }
        ensures { Calls (FnOnceReturnsAtMut F.FnOnce step) (space_for kind) self.old result self.new }
    {
        let Some(id) = space_of(kind) else {
            return Err(Refusal::Argument);
        };
        let mut space = self.get(id);
        let said = step(&mut space)?;
        *self = self.put(id, space);
        Ok(said)
    }

    // Uses up the next number of the kind's space, if it is not refused.
    pub fn send(&mut self, kind: Kind) -> Result<(FullNumber, CutNumber), Refusal>
        ensures { sent_all_of result self.new ≡ send_in (spaces_of self.old) kind }
    {
        self.call(kind, |space| space.send())
    }

    // Hears that n was acknowledged, in a packet of this kind.
    pub fn acknowledge(&mut self, kind: Kind, n: FullNumber) -> Result<(), Refusal>
        ensures { kept_all_of result self.new ≡ acknowledge_in (spaces_of self.old) kind n.0 }
    {
        self.call(kind, |space| space.acknowledge(n))
    }

    // The full number of a cut one. The record stays as it is.
    pub fn read(self, kind: Kind, c: CutNumber) -> Result<FullNumber, Refusal>
        ensures { full_of result ≡ (read_in (spaces_of self) kind c).says }
    {
        let Some(id) = space_of(kind) else {
            return Err(Refusal::Argument);
        };
        self.get(id).read(c)
    }

    // Counts n as accepted, of a packet of this kind.
    pub fn accept(&mut self, kind: Kind, n: FullNumber) -> Result<(), Refusal>
        ensures { kept_all_of result self.new ≡ accept_in (spaces_of self.old) kind n.0 }
    {
        self.call(kind, |space| space.accept(n))
    }
}
