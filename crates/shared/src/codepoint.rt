// Explicit congestion notification (shared.rs; RFC 3168, section 5).
#![tactic(auto, unfolding(crate::specs::Ecn::ecn_bits))]

ghost use Rattle.std.specs.Prelude.{◌≡◌, eqb};
ghost use Rattle.shared.specs.Ecn.{ecn_bits};
ghost use Rattle.shared.specs.Said.{ecn_of, ecn_read_of};

// Explicit congestion notification codepoint.
#[derive(Clone, Copy, PartialEq, Eq)]
pub enum EcnCodepoint {
    // ECT(0): an endpoint is ECN-capable
    Ect0,
    // ECT(1): an endpoint is ECN-capable
    Ect1,
    // CE: congestion was experienced
    Ce,
}

impl EcnCodepoint {
    // Create new object from the given bits, of which 00 is none; by name, as the Rust has it and docs/ITEMS.
    pub fn from_bits(x: u8) -> Option<EcnCodepoint>
        ensures { ecn_read_of result ≡ ecn_bits x }
    {
        match x & 0b11 {
            0b10 => Some(EcnCodepoint::Ect0),
            0b01 => Some(EcnCodepoint::Ect1),
            0b11 => Some(EcnCodepoint::Ce),
            _ => None,
        }
    }

    // Whether the codepoint is a CE.
    pub fn is_ce(self) -> bool
        ensures { result ≡ eqb (ecn_of self) 3 }
    {
        self == EcnCodepoint::Ce
    }
}
