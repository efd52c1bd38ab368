// Packets over the surface: what a header says as numbers, and what finish answers.
#![tactic(auto, using(crate::proofs::Taken::taken, crate::proofs::Answered::answered), unfolding(packet::specs::Said::decoded_of, packet::specs::Said::packet_step_of, protect::specs::Said::sample_of, protect::specs::Said::finished_of, protect::specs::Said::opened_of, crate::specs::Packets::unmask_at, crate::specs::Packets::in_mask, protect::specs::Steps::read_off, protect::specs::Steps::left_by, coding::specs::Said::answer_of, crate::specs::Packets::mask_for))]

ghost use Rattle.std.specs.Prelude.{◌≡◌, ◌+◌, length};
ghost use Rattle.coding.specs.Words.{ok};
ghost use Rattle.frame.specs.Table.{flag};
ghost use Rattle.gateway_frame.specs.Spans.{span_at, span_of};
ghost use Rattle.coding.specs.Said.{answer_of};
ghost use Rattle.packet.specs.Said.{header_of, decoded_of, error_of, packet_step_of};
ghost use Rattle.protect.specs.Said.{sample_of, opened_of, finished_of};
ghost use Rattle.protect.specs.Steps.{Changed, finished, only_done};
ghost use Rattle.gateway.specs.Arguments.{long_kind, numbered_kind, code_of};
ghost use Rattle.gateway.specs.Packets.{said_numbers, split_record, no_packet_record, step_record, no_sample, sample_record, sample_for, header_span, payload_span, not_opened, opened_with, unmask_record, unmask_at, mask_for};

use crate::arguments;
use crate::records::{SampleAnswer, SplitAnswer, UnmaskAnswer};
use coding::{Place, Refusal};
use gateway_frame::Span;
use packet::{LongType, ProtectedHeader, StepError, Stepped};
use protect::Finished;
use shared::CutNumber;

// No bytes.
const NOWHERE: Span = Span { start: 0, len: 0 };

fn span(p: Place) -> Span
    ensures { result ≡ span_of p }
{
    let Place { start, len } = p;
    Span { start, len }
}

// What a header alone has, in the record's numbers.
#[derive(Clone, Copy)]
pub(crate) struct HeaderNumbers {
    refusal: u8,
    kind: u8,
    spin: u8,
    random: u8,
    length: u64,
    token: Span,
}

impl From<ProtectedHeader> for HeaderNumbers {
    ghost from_gives = { λ header n. n ≡ said_numbers (ok (header_of header)) };

    fn from(header: ProtectedHeader) -> HeaderNumbers {
        let none = HeaderNumbers {
            refusal: 0,
            kind: 6,
            spin: 0,
            random: 0,
            length: 0,
            token: NOWHERE,
        };
        match header {
            ProtectedHeader::Initial { token, len } => HeaderNumbers {
                kind: 0,
                length: len,
                token: span(token),
                ..none
            },
            ProtectedHeader::Long {
                ty: LongType::ZeroRtt,
                len,
            } => HeaderNumbers {
                kind: 1,
                length: len,
                ..none
            },
            ProtectedHeader::Long {
                ty: LongType::Handshake,
                len,
            } => HeaderNumbers {
                kind: 2,
                length: len,
                ..none
            },
            ProtectedHeader::Retry => HeaderNumbers { kind: 3, ..none },
            ProtectedHeader::Short { spin } => HeaderNumbers {
                kind: 4,
                spin: u8::from(spin),
                ..none
            },
            ProtectedHeader::VersionNegotiate { random } => HeaderNumbers {
                kind: 5,
                random,
                ..none
            },
        }
    }
}

// The places of a long header's connection ids: past the version, each behind a byte with its length.
fn long_cids(dst: u8, src: u8) -> (Span, Span)
    ensures { (result.0 ≡ span_at 6 dst) × (result.1 ≡ span_at (7 + dst) src) }
{
    let dst = usize::from(dst);
    let start = 7 + dst;
    let to = Span { start: 6, len: dst };
    let from = Span {
        start,
        len: usize::from(src),
    };
    (to, from)
}

// No packet: kind 6. At the end of the datagram there is no refusal.
pub(crate) fn no_packet(why: Option<Refusal>, start: usize) -> SplitAnswer
    ensures { result ≡ no_packet_record (code_of why) start }
{
    SplitAnswer {
        refusal: arguments::code(why),
        kind: 6,
        spin: 0,
        random: 0,
        version: 0,
        packet: Span { start, len: 0 },
        number_offset: 0,
        length: 0,
        token: NOWHERE,
        dst_cid: NOWHERE,
        src_cid: NOWHERE,
    }
}

// A packet of the datagram; by reference, as all that a step says, since it is long.
fn packet_record(x: &Stepped) -> SplitAnswer
    ensures { result ≡ split_record x.now.packet.start x.now.packet.len (decoded_of x.now.plain_header) }
{
    let plain = &x.plain_header;
    let HeaderNumbers {
        refusal,
        kind,
        spin,
        random,
        length,
        token,
    } = HeaderNumbers::from(plain.header);
    let (dst_cid, src_cid) = if plain.has_long_header() {
        long_cids(plain.dst_cid.len, plain.src_cid.len)
    } else {
        // a short header's stands past the first byte, and there is no source
        let len = usize::from(plain.dst_cid.len);
        (Span { start: 1, len }, NOWHERE)
    };
    SplitAnswer {
        refusal,
        kind,
        spin,
        random,
        version: plain.version,
        packet: span(x.packet),
        number_offset: plain.number_offset,
        length,
        token,
        dst_cid,
        src_cid,
    }
}

// A refusal at a place of the datagram; of the refusals that of a version alone has connection ids.
fn refused_record(x: &StepError) -> SplitAnswer
    ensures { result ≡ split_record x.now.start 0 (error_of x.now.why) }
{
    let why = &x.why;
    let refusal = why.refusal();
    let version = why.version();
    let none = no_packet(Some(refusal), x.start);
    if refusal != Refusal::Version {
        return SplitAnswer { version, ..none };
    }
    let (dst_cid, src_cid) = long_cids(why.dst_cid().len, why.src_cid().len);
    SplitAnswer {
        version,
        dst_cid,
        src_cid,
        ..none
    }
}

// What a step of the walk at a place says.
pub(crate) fn step_record(at: usize, x: &Result<Option<Stepped>, StepError>) -> SplitAnswer
    ensures { result ≡ step_record at (packet_step_of x.now) }
{
    match x {
        Ok(Some(x)) => packet_record(x),
        Ok(None) => no_packet(None, at),
        Err(x) => refused_record(x),
    }
}

fn no_sample(why: Option<Refusal>) -> SampleAnswer
    ensures { result ≡ no_sample (code_of why) }
{
    SampleAnswer {
        refusal: arguments::code(why),
        sample: NOWHERE,
    }
}

impl From<Result<Option<Place>, Refusal>> for SampleAnswer {
    ghost from_gives = { λ sample answer. answer ≡ sample_record (sample_of sample) };

    fn from(sample: Result<Option<Place>, Refusal>) -> SampleAnswer {
        match sample {
            Ok(Some(place)) => SampleAnswer {
                refusal: 0,
                sample: span(place),
            },
            Ok(None) => no_sample(None),
            Err(why) => no_sample(Some(why)),
        }
    }
}

// The sample of a packet.
pub(crate) fn sample_place(
    kind: u8,
    packet: &[u8],
    number_offset: usize,
) -> Result<Option<Place>, Refusal>
    ensures { sample_record (sample_of result) ≡ sample_for kind packet.now number_offset }
{
    protect::sample_place(arguments::kind_of(kind)?, packet, number_offset)
}

// A packet of len bytes, and where its number begins.
#[derive(Clone, Copy)]
pub(crate) struct Extent {
    pub(crate) len: usize,
    pub(crate) number_offset: usize,
}

fn not_opened(why: Option<Refusal>) -> UnmaskAnswer
    ensures { result ≡ not_opened (code_of why) }
{
    UnmaskAnswer {
        refusal: arguments::code(why),
        reserved_clear: 0,
        key_phase: 0,
        number_value: 0,
        number_len: 0,
        header: NOWHERE,
        payload: NOWHERE,
    }
}

impl Extent {
    // The header, up to and with a number of k bytes, and what follows it.
    fn parts(self, k: usize) -> (Span, Span)
        ensures { (result.0 ≡ header_span self.len self.number_offset k) × (result.1 ≡ payload_span self.len self.number_offset k) }
    {
        let Extent { len, number_offset } = self;
        if len < number_offset || len - number_offset < k {
            return (NOWHERE, NOWHERE);
        }
        let start = number_offset + k;
        let header = Span {
            start: 0,
            len: start,
        };
        let payload = Span {
            start,
            len: len - start,
        };
        (header, payload)
    }

    // With a number.
    fn opened(self, number: CutNumber, clear: bool, phase: bool) -> UnmaskAnswer
        ensures { result ≡ opened_with number.0 number.1 clear phase self.number_offset self.len }
    {
        let CutNumber(number_len, number_value) = number;
        let (header, payload) = self.parts(number_len);
        UnmaskAnswer {
            refusal: 0,
            reserved_clear: u8::from(clear),
            key_phase: u8::from(phase),
            number_value,
            number_len,
            header,
            payload,
        }
    }

    // What finish says of it.
    pub(crate) fn record(self, f: Result<Option<Finished>, Refusal>) -> UnmaskAnswer
        ensures { result ≡ unmask_record self.number_offset self.len (finished_of f) }
    {
        match f {
            Ok(
                Some(
                    Finished::Long {
                        number,
                        reserved_clear,
                    },
                ),
            ) => self.opened(number, reserved_clear, false),
            Ok(
                Some(
                    Finished::Short {
                        number,
                        reserved_clear,
                        key_phase,
                    },
                ),
            ) => self.opened(number, reserved_clear, key_phase),
            Ok(None) => not_opened(None),
            Err(why) => not_opened(Some(why)),
        }
    }
}

// Takes the header protection off a packet.
pub(crate) fn unmask(
    kind: u8,
    packet: &mut [u8],
    number_offset: usize,
    mask: &[u8],
) -> Result<Option<Finished>, Refusal>
    ensures { Changed (finished (numbered_kind kind) (long_kind kind) number_offset) (unmask_at kind packet.old number_offset mask.now) packet.old (finished_of result) packet.new }
{
    let kind = arguments::kind_of(kind)?;
    let mask = arguments::five(mask)?;
    protect::finish(kind, packet, number_offset, mask)
}

// Puts header protection over a packet.
pub(crate) fn mask(
    header_len: usize,
    number_len: usize,
    has_length: u8,
    packet: &mut [u8],
    mask: &[u8],
) -> Result<(), Refusal>
    ensures { Changed only_done (mask_for header_len number_len has_length packet.old mask.now) packet.old (answer_of result) packet.new }
{
    let has_length = arguments::flag_of(has_length)?;
    let mask = arguments::five(mask)?;
    let number = arguments::number_len(number_len);
    protect::mask(header_len, number, has_length, packet, mask)
}
