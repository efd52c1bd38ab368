// What stands around the connection ids, whatever the kind of header.
#![tactic(auto, using(coding::proofs::Laws::length_bytes_be, crate::proofs::Laws::keeps_few, crate::proofs::Laws::length_some), unfolding(crate::specs::Encoding::length_bytes, crate::specs::Encoding::number_field))]

ghost use Rattle.std.specs.Prelude.{◌≡◌, true};
ghost use Rattle.packet.specs.Said.{option_of};
ghost use Rattle.protect.specs.Said.{number_len_of};
ghost use Rattle.protect.specs.Tests.{number_bytes};
ghost use Rattle.packet_out.specs.Encoding.{number_keeps, number_len_in};

use shared::CutNumber;

// The first byte, a long header's version, whether there is a token, and a Length; and the number, where there is one, which
// keeps its rule.
#[derive(Clone, Copy)]
pub(crate) struct Form {
    pub first: u8,
    pub version: Option<u32>,
    pub has_token: bool,
    pub has_length: bool,
    pub number: Option<CutNumber>,
    ghost kept: { number_keeps (option_of number) ≡ true },
}

// The length of a header's number, where it has one.
pub(crate) fn number_len(number: Option<CutNumber>) -> Option<usize>
    ensures { number_len_of result ≡ number_len_in (option_of number) }
{
    number.map(number::len)
}

// The bytes of a header's number; none where there is no number.
pub(crate) fn number_size(number: Option<CutNumber>) -> usize
    ensures { result ≡ number_bytes (number_len_in (option_of number)) }
{
    protect::bytes_of(number_len(number))
}

impl Form {
    ghost use Rattle.std.specs.Prelude.{◌+◌, ◌≤◌, length};
    ghost use Rattle.coding.specs.Bytes.{bytes_be};
    ghost use Rattle.coding.specs.Writing.{Put};
    ghost use Rattle.packet_out.specs.Encoding.{length_bytes, number_field, placeholder};

    // The bytes of its Length and its number.
    pub(crate) fn end_size(self) -> usize
        ensures { (result ≡ length (length_bytes self.has_length placeholder) + length (number_field (option_of self.number))) × (result ≤ 6) }
    {
        let k = number_size(self.number);
        if self.has_length { 2 + k } else { k }
    }

    // Puts its Length's two bytes.
    pub(crate) fn put_length(self, field: u16, buf: &mut [u8], at: usize) -> usize
        ensures { Put (length_bytes self.has_length (bytes_be 2 field)) buf.old at result buf.new }
    {
        if self.has_length {
            coding::put(buf, at, field)
        } else {
            at
        }
    }

    // Puts its number's bytes.
    pub(crate) fn put_number(self, buf: &mut [u8], at: usize) -> usize
        ensures { Put (number_field (option_of self.number)) buf.old at result buf.new }
    {
        match self.number {
            Some(c) => number::put(c, buf, at),
            None => at,
        }
    }
}
