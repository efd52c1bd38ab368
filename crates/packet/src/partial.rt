// The first packet of a datagram, and the rest (packet.rs, PartialDecode::new; RFC 9000, 12.2).
#![tactic(auto, using(crate::proofs::Cases::error_says), unfolding(coding::specs::Words::and_then, coding::specs::Said::found_by, crate::specs::Split::rest_at, crate::specs::Split::cut_at, crate::specs::Split::split_by, crate::specs::Split::split_on, crate::specs::Split::split_with, crate::specs::Said::decoded_of, crate::specs::Said::ended_of, crate::specs::Said::outcome_of, crate::specs::Said::partial_of, crate::specs::Said::split_of))]

ghost use Rattle.std.specs.Prelude.{◌≡◌};
ghost use Rattle.coding.specs.Words.{ok};
ghost use Rattle.coding.specs.Places.{Part, start_of, part_of};
ghost use Rattle.packet.specs.Header.{length_in};
ghost use Rattle.packet.specs.Split.{rest_at, cut_at, split_by, split_at, token_in, rest_in};
ghost use Rattle.packet.specs.Said.{header_of, decoded_of, option_of, ended_of, partial_of, split_of};

use crate::{Decoded, PacketDecodeError, ProtectedHeader};
use coding::{Place, Reader, Refusal};

// A packet with its header, both as far as they can be read without keys, and what follows it, if that has a byte.
#[derive(Clone, Copy, PartialEq, Eq)]
pub struct PartialDecode {
    pub plain_header: Decoded,
    pub packet: Place,
    pub rest: Option<Place>,
}

// A part of no bytes.
const NOWHERE: Place = Place { start: 0, len: 0 };

fn rest_at(s: &[u8], n: usize) -> Option<Place>
    ensures { option_of result ≡ rest_at s.now n }
{
    if s.len() <= n {
        return None;
    }
    Some(Place {
        start: n,
        len: s.len() - n,
    })
}

// A packet of n bytes.
fn cut_at(plain_header: Decoded, s: &[u8], n: usize) -> PartialDecode
    ensures { partial_of result ≡ cut_at (decoded_of plain_header) s.now n }
{
    PartialDecode {
        plain_header,
        packet: Place { start: 0, len: n },
        rest: rest_at(s, n),
    }
}

// Where a packet ends: with a Length so many bytes past its header, else with the datagram.
pub(crate) fn end_of(plain: &Decoded, s: &[u8]) -> Option<usize>
    ensures { ended_of result (decoded_of plain.now) s.now ≡ split_by (length_in (decoded_of plain.now).said) s.now (decoded_of plain.now) }
{
    let Some(len) = plain.payload_len() else {
        return Some(s.len());
    };
    let mut r = Reader {
        bytes: s,
        at: plain.number_offset,
    };
    r.take(len).ok()?;
    Some(r.at)
}

// Begin decoding a packet, and where the datagram goes on.
pub fn split(
    s: &[u8],
    local: usize,
    versions: &[u32],
    grease: bool,
) -> Result<PartialDecode, PacketDecodeError>
    ensures { split_of result ≡ split_at s.now local versions.now grease }
{
    let plain = crate::decode(s, local, versions, grease)?;
    let Some(end) = end_of(&plain, s) else {
        return Err(PacketDecodeError::Refused(Refusal::Length));
    };
    Ok(cut_at(plain, s, end))
}

// The token's place, or an empty one.
fn token_place(header: ProtectedHeader) -> Place
    ensures { result ≡ token_in (ok (header_of header)) }
{
    match header {
        ProtectedHeader::Initial { token, .. } => token,
        _ => NOWHERE,
    }
}

impl PartialDecode {
    // Length of the packet being decoded.
    pub fn len(self) -> usize
        ensures { result ≡ self.packet.len }
    {
        self.packet.len
    }

    // The packet, as a part of the datagram.
    pub fn data(self, s: &[u8]) -> &[u8]
        ensures { Part s.entry result (start_of s.now self.packet) (part_of s.now self.packet) }
    {
        coding::part(s, self.packet)
    }

    // What follows it, as a part of the datagram; empty where there is none.
    pub fn rest(self, s: &[u8]) -> &[u8]
        ensures { Part s.entry result (start_of s.now (rest_in (option_of self.rest))) (part_of s.now (rest_in (option_of self.rest))) }
    {
        coding::part(s, self.rest.unwrap_or(NOWHERE))
    }

    // An Initial's token, as a part of its packet; empty where there is none.
    pub fn token(self, s: &[u8]) -> &[u8]
        ensures { Part s.entry result (start_of s.now (token_in (ok (header_of self.plain_header.header)))) (part_of s.now (token_in (ok (header_of self.plain_header.header)))) }
    {
        coding::part(s, token_place(self.plain_header.header))
    }
}
