// Header protection, where the packet stands (RFC 9001, 5.4; packet.rs, PartialDecode::finish, decrypt_header and
// PartialEncode::finish): the sample's place, finish, and the mask step. The mask comes as a value.
#![tactic(auto, unfolding(coding::specs::Said::answer_of, crate::specs::Tests::in_size, crate::specs::Tests::maskable, crate::specs::Tests::header_tests, crate::specs::Steps::read_off, crate::specs::Steps::left_by, crate::specs::Steps::sample_at, crate::specs::Steps::opened_by, crate::specs::Steps::finish_at, crate::specs::Steps::finished, crate::specs::Steps::mask_number, crate::specs::Steps::mask_at, crate::specs::Said::sample_of, crate::specs::Said::opened_of, crate::specs::Said::opens_of, crate::specs::Said::finished_of))]

ghost use Rattle.std.specs.Prelude.{◌≡◌, true, ◌+◌, ◌≤◌, length, drop, set};
ghost use Rattle.std.specs.Option.{SomeIff};
ghost use Rattle.coding.specs.Said.{answer_of};
ghost use Rattle.number.specs.Cutting.{first_cut};
ghost use Rattle.protect.specs.Protection.{xor, xor_at, first_mask, number_mask};
ghost use Rattle.protect.specs.Tests.{has_sample, maskable, number_bytes, number_fits, least_header, header_tests};
ghost use Rattle.protect.specs.Steps.{sample_at, opened_by, Opens, Finishes, PartAt, header_place, payload_place, Protects, Masks};
ghost use Rattle.protect.specs.Said.{long_header, numbered_of, number_len_of, sample_of, opened_of, opens_of, finished_of};

use coding::{MAX_DATAGRAM, Place, Refusal};
use shared::{CutNumber, KEY_PHASE_BIT, LONG_HEADER_FORM, LONG_RESERVED_BITS, SHORT_RESERVED_BITS};

// The kind of a header.
#[derive(Clone, Copy, PartialEq, Eq)]
pub enum Kind {
    Initial,
    ZeroRtt,
    Handshake,
    Retry,
    Short,
    VersionNegotiate,
}

impl Kind {
    // Whether the header has the long form.
    pub fn is_long(self) -> bool
        ensures { result ≡ long_header self }
    {
        !matches!(self, Kind::Short)
    }

    // Whether a packet number ends the header.
    pub fn has_number(self) -> bool
        ensures { result ≡ numbered_of self }
    {
        !matches!(self, Kind::Retry | Kind::VersionNegotiate)
    }
}

// What finish says of a long and of a short packet.
#[derive(Clone, Copy, PartialEq, Eq)]
pub enum Finished {
    Long {
        number: CutNumber,
        reserved_clear: bool,
    },
    Short {
        number: CutNumber,
        reserved_clear: bool,
        key_phase: bool,
    },
}

// The bits of mask byte 0 that the first byte is masked with: four in a long header, five in a short one.
fn first_mask(m: u8, long: bool) -> u8
    ensures { result ≡ first_mask long m }
{
    if long { m % 16 } else { m % 32 }
}

// Rule 8: four bytes and the sample follow the number offset.
fn has_sample(len: usize, number_offset: usize) -> bool
    ensures { result ≡ has_sample len number_offset }
{
    number_offset <= len && 4 + 16 <= len - number_offset
}

// XORs the first n bytes of a part, four at most, with the mask's from its second on.
fn mask_number(part: &mut [u8], n: usize, mask: [u8; 5])
    requires { (n ≤ 4) × (n ≤ length part.old) }
    ensures { part.new ≡ xor (number_mask n mask) part.old }
{
    for (i, b) in part[..n].iter_mut().enumerate() {
        *b ^= mask[i + 1];
    }
}

// Stores the first byte, and XORs the mask over the number's n bytes, in the packet from its number offset on. (Packet, number
// offset and mask are no record, here and below: the C interface hands them over one by one.)
fn mask_header(packet: &mut [u8], number_offset: usize, first: u8, n: usize, mask: [u8; 5])
    requires { (n ≤ 4) × (number_offset + 4 ≤ length packet.old) }
    ensures { packet.new ≡ xor_at number_offset (number_mask n mask) (set packet.old 0 first) }
{
    packet[0] = first;
    mask_number(&mut packet[number_offset..], n, mask);
}

// The number of len bytes at the number offset. Byte by byte, as mask_number stores them: a load of four bytes that were just
// stored one by one waits for the stores.
fn decode(len: usize, packet: &[u8], number_offset: usize) -> CutNumber
    requires { (len ≤ 4) × (number_offset + len ≤ length packet.now) }
    ensures { result ≡ first_cut len (drop number_offset packet.now) }
{
    let mut value: u32 = 0;
    for b in &packet[number_offset..number_offset + len] {
        value = value * 256 + *b as u32;
    }
    CutNumber(len, value)
}

// What the first byte without its mask and the number say.
fn opened(long: bool, first: u8, number: CutNumber) -> Finished
    ensures { opened_of result ≡ opened_by long first number }
{
    if long {
        return Finished::Long {
            number,
            reserved_clear: first & LONG_RESERVED_BITS == 0,
        };
    }
    Finished::Short {
        number,
        reserved_clear: first & SHORT_RESERVED_BITS == 0,
        key_phase: first / KEY_PHASE_BIT % 2 == 1,
    }
}

// The sample that the mask is made of, where there is a number: 16 bytes, four past the number offset.
pub fn sample_place(
    kind: Kind,
    packet: &[u8],
    number_offset: usize,
) -> Result<Option<Place>, Refusal>
    ensures { sample_of result ≡ sample_at (numbered_of kind) packet.now number_offset }
{
    if MAX_DATAGRAM < packet.len() {
        return Err(Refusal::Argument);
    }
    if !kind.has_number() {
        return Ok(None);
    }
    if number_offset == 0 {
        return Err(Refusal::Argument);
    }
    if !has_sample(packet.len(), number_offset) {
        return Err(Refusal::Sample);
    }
    let start = number_offset + 4;
    Ok(Some(Place { start, len: 16 }))
}

// Whether a packet can be masked or unmasked: it has its sample, and its first byte the form.
fn maskable(long: bool, packet: &[u8], number_offset: usize) -> Result<(), Refusal>
    ensures { answer_of result ≡ maskable long packet.now number_offset }
{
    if !has_sample(packet.len(), number_offset) {
        return Err(Refusal::Sample);
    }
    if packet[0] / LONG_HEADER_FORM != u8::from(long) {
        return Err(Refusal::Argument);
    }
    Ok(())
}

// Finish of a packet whose header has a number.
fn finish_numbered(
    long: bool,
    packet: &mut [u8],
    number_offset: usize,
    mask: [u8; 5],
) -> Result<Finished, Refusal>
    ensures { Opens long packet.old number_offset mask (opens_of result) packet.new }
{
    if number_offset == 0 {
        return Err(Refusal::Argument);
    }
    maskable(long, packet, number_offset)?;
    let hidden = packet[0];
    let first = hidden ^ first_mask(mask[0], long);
    let len = number::decode_len(first);
    mask_header(packet, number_offset, first, len, mask);
    let number = decode(len, packet, number_offset);
    Ok(opened(long, first, number))
}

// Takes the header protection off a packet where it stands, and answers its number, where there is one.
pub fn finish(
    kind: Kind,
    packet: &mut [u8],
    number_offset: usize,
    mask: [u8; 5],
) -> Result<Option<Finished>, Refusal>
    ensures { Finishes (numbered_of kind) (long_header kind) packet.old number_offset mask (finished_of result) packet.new }
{
    if MAX_DATAGRAM < packet.len() {
        return Err(Refusal::Argument);
    }
    if !kind.has_number() {
        return Ok(None);
    }
    let finished = finish_numbered(kind.is_long(), packet, number_offset, mask)?;
    Ok(Some(finished))
}

// The bytes of a header's number.
pub fn bytes_of(number: Option<usize>) -> usize
    ensures { result ≡ number_bytes (number_len_of number) }
{
    number.unwrap_or(0)
}

// Where a header with its number ends, if the packet of len bytes holds it.
fn header_end(len: usize, number_offset: usize, number: Option<usize>) -> Option<usize>
    ensures { SomeIff result (number_offset + number_bytes (number_len_of number) ≤ len) (number_offset + number_bytes (number_len_of number)) }
{
    number_offset
        .checked_add(bytes_of(number))
        .filter(|end| *end <= len)
}

// The packet's header with its number, or no bytes where the packet does not hold it.
#[tactic(auto, unfolding(coding::specs::Places::part_of, coding::specs::Places::start_of))]
pub fn header_part(packet: &[u8], number_offset: usize, number: Option<usize>) -> &[u8]
    ensures { PartAt packet.entry result (header_place number_offset (number_len_of number)) }
{
    match header_end(packet.len(), number_offset, number) {
        Some(end) => &packet[..end],
        None => &packet[..0],
    }
}

// What follows the header, or no bytes where the packet does not hold it.
#[tactic(auto, unfolding(coding::specs::Places::part_of, coding::specs::Places::start_of))]
pub fn payload_part(packet: &[u8], number_offset: usize, number: Option<usize>) -> &[u8]
    ensures { PartAt packet.entry result (payload_place number_offset (number_len_of number) (length packet.now)) }
{
    match header_end(packet.len(), number_offset, number) {
        Some(end) => &packet[end..],
        None => &packet[..0],
    }
}

// Whether a number's length is 1 to 4, where there is one.
fn number_fits(number: Option<usize>) -> bool
    ensures { result ≡ number_fits (number_len_of number) }
{
    number.is_none_or(|k| 1 <= k && k <= 4)
}

// The bytes that a header has at least: its first, its number's and, where it has one, its Length's.
fn least_header(number: Option<usize>, has_length: bool) -> usize
    requires { number_fits (number_len_of number) ≡ true }
    ensures { result ≡ least_header (number_len_of number) has_length }
{
    let k = bytes_of(number);
    if has_length { 1 + k + 2 } else { 1 + k }
}

// The header's tests of the Length step and of the mask step, for a packet of len bytes; where one fails, 14. (What a header was
// written with comes one by one, here and in mask, as over the C interface.)
pub fn header_tests(header_len: usize, number: Option<usize>, has_length: bool, len: usize) -> bool
    ensures { result ≡ header_tests header_len (number_len_of number) has_length len }
{
    len <= MAX_DATAGRAM
        && header_len <= len
        && number_fits(number)
        && least_header(number, has_length) <= header_len
}

// The mask step of a packet whose header has a number.
fn protect_numbered(
    long: bool,
    packet: &mut [u8],
    number_offset: usize,
    mask: [u8; 5],
) -> Result<(), Refusal>
    ensures { Protects long packet.old number_offset mask (answer_of result) packet.new }
{
    maskable(long, packet, number_offset)?;
    let first = packet[0];
    let hidden = first ^ first_mask(mask[0], long);
    let n = number::decode_len(first);
    mask_header(packet, number_offset, hidden, n, mask);
    Ok(())
}

// The mask step: header protection over a packet that is encrypted, by what its header was written with.
pub fn mask(
    header_len: usize,
    number: Option<usize>,
    has_length: bool,
    packet: &mut [u8],
    mask: [u8; 5],
) -> Result<(), Refusal>
    ensures { Masks header_len (number_len_of number) has_length packet.old mask (answer_of result) packet.new }
{
    if !header_tests(header_len, number, has_length, packet.len()) {
        return Err(Refusal::Argument);
    }
    match number {
        Some(k) => protect_numbered(has_length, packet, header_len - k, mask),
        None => Ok(()),
    }
}
