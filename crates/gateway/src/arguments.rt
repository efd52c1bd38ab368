// C's numbers: what an argument is taken for, and what a refusal is answered as.
ghost use Rattle.std.specs.Prelude.{◌≡◌, length, not, ltb, eqb};
ghost use Rattle.frame.specs.Table.{flag};
ghost use Rattle.protect.specs.Said.{number_len_of};
ghost use Rattle.gateway.specs.Arguments.{kind_number, number_given, code_of, Takes};
ghost use Rattle.gateway.specs.Numbers.{StepTaken};

use crate::numbers::NumberStep;
use coding::Refusal;
use protect::Kind;
use shared::{CutNumber, FullNumber};

// The kind by its number; not a TryFrom, since neither type is this crate's.
pub(crate) fn kind_of(number: u8) -> Result<Kind, Refusal>
    ensures { Takes kind_number number (ltb 5 number) result }
{
    match number {
        0 => Ok(Kind::Initial),
        1 => Ok(Kind::ZeroRtt),
        2 => Ok(Kind::Handshake),
        3 => Ok(Kind::Retry),
        4 => Ok(Kind::Short),
        5 => Ok(Kind::VersionNegotiate),
        _ => Err(Refusal::Argument),
    }
}

// A flag.
pub(crate) fn flag_of(number: u8) -> Result<bool, Refusal>
    ensures { Takes flag number (ltb 1 number) result }
{
    match number {
        0 => Ok(false),
        1 => Ok(true),
        _ => Err(Refusal::Argument),
    }
}

// The step by its number.
pub(crate) fn step_of(step: u8, number: FullNumber, cut: CutNumber) -> Result<NumberStep, Refusal>
    ensures { StepTaken step number.0 cut.0 cut.1 result }
{
    match step {
        0 => Ok(NumberStep::Send),
        1 => Ok(NumberStep::Acknowledge(number)),
        2 => Ok(NumberStep::Read(cut)),
        3 => Ok(NumberStep::Accept(number)),
        _ => Err(Refusal::Argument),
    }
}

// The mask as a value.
pub(crate) fn five(mask: &[u8]) -> Result<[u8; 5], Refusal>
    ensures { Takes (λ m. m) mask.now (not (eqb (length mask.now) 5)) result }
{
    match <[u8; 5]>::try_from(mask) {
        Ok(five) => Ok(five),
        Err(_) => Err(Refusal::Argument),
    }
}

// A number's length; 0 says that there is none.
pub(crate) fn number_len(len: usize) -> Option<usize>
    ensures { number_len_of result ≡ number_given len }
{
    (len != 0).then_some(len)
}

// The number of a refusal; 0 is none.
pub(crate) fn code(why: Option<Refusal>) -> u8
    ensures { result ≡ code_of why }
{
    why.map_or(0, |why| why.number())
}
