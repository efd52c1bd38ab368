// The dump's text, made in a lent buffer (document 01, "The dump program").
#![tactic(auto)]

ghost use Rattle.std.specs.Prelude.{◌≡◌, ◌+◌, ◌≤◌, length, ltb};
ghost use Rattle.coding.specs.Words.{ok};
ghost use Rattle.coding.specs.Said.{answer_of};
ghost use Rattle.coding.specs.Writing.{Put, Written};
ghost use Rattle.packet.specs.Said.{header_of, decoded_of};
ghost use Rattle.dump_text.specs.Dump.{number_then, kind_word, packet_line, refused_line, total_line, dump_text};
ghost use Rattle.dump_text.specs.Turns.{line_at, Turned, place_after, Roomy, AllPut};

use coding::{Place, Refusal};
use packet::{LongType, ProtectedHeader, Stepped};

// No line is longer than this, whatever the numbers in it.
const MAX_LINE: usize = 80;

// A number and the character after it. Puts take a buffer and a place, as those of coding, and the text is byte for byte that
// of the definition, so nothing here is a Display.
fn put_word(buf: &mut [u8], at: usize, x: u64, after: u8) -> usize
    requires { at + length (number_then x after) ≤ length buf.old }
    ensures { Put (number_then x after) buf.old at result buf.new }
{
    let next = text::put_decimal(buf, at, x);
    coding::put(buf, next, after)
}

// A packet's kind and a space.
fn kind_word(header: ProtectedHeader) -> &'static [u8]
    ensures { result.now ≡ kind_word (ok (header_of header)) }
{
    match header {
        ProtectedHeader::Initial { .. } => b"initial ",
        ProtectedHeader::Long {
            ty: LongType::Handshake,
            ..
        } => b"handshake ",
        ProtectedHeader::Long {
            ty: LongType::ZeroRtt,
            ..
        } => b"0rtt ",
        ProtectedHeader::Retry => b"retry ",
        ProtectedHeader::Short { .. } => b"short ",
        ProtectedHeader::VersionNegotiate { .. } => b"vneg ",
    }
}

fn put_packet(buf: &mut [u8], at: usize, x: Stepped) -> usize
    requires { at + length (packet_line x.packet.start x.packet.len (decoded_of x.plain_header)) ≤ length buf.old }
    ensures { Put (packet_line x.packet.start x.packet.len (decoded_of x.plain_header)) buf.old at result buf.new }
{
    let Place { start, len } = x.packet;
    let a = put_word(buf, at, start as u64, b' ');
    let b = put_word(buf, a, len as u64, b' ');
    let c = coding::put_slice(buf, b, kind_word(x.plain_header.header));
    put_word(buf, c, x.plain_header.number_offset as u64, b'\n')
}

fn put_refused(buf: &mut [u8], at: usize, start: usize, number: u8) -> usize
    requires { at + length (refused_line start number) ≤ length buf.old }
    ensures { Put (refused_line start number) buf.old at result buf.new }
{
    let a = coding::put_slice(buf, at, b"refused ");
    let b = put_word(buf, a, start as u64, b' ');
    put_word(buf, b, number as u64, b'\n')
}

fn put_end(buf: &mut [u8], at: usize, total: usize) -> usize
    requires { at + length (total_line total) ≤ length buf.old }
    ensures { Put (total_line total) buf.old at result buf.new }
{
    let a = coding::put_slice(buf, at, b"end ");
    put_word(buf, a, total as u64, b'\n')
}

// One step of the walk, and its line: the place in the datagram where the next step is, where there is one, and the place past
// the text so far.
#[tactic(auto, unfolding(crate::specs::Turns::line_at, crate::specs::Dump::line_of, packet::specs::Said::packet_step_of))]
fn put_step(s: &[u8], at: usize, buf: &mut [u8], p: usize) -> (Option<usize>, usize)
    requires { p + length (line_at s.now at) ≤ length buf.old }
    ensures { Turned s.now at buf.old p result buf.new }
{
    match packet::step(s, at, 0, &[1], false) {
        Ok(None) => (None, put_end(buf, p, s.len())),
        Ok(Some(x)) => {
            let next = x.packet.start + x.packet.len;
            (Some(next), put_packet(buf, p, x))
        }
        Err(e) => {
            let number = e.why.refusal().number();
            (None, put_refused(buf, p, e.start, number))
        }
    }
}

// Where the next line goes: to the start of the buffer again, or behind the line before it.
fn place_after(anew: bool, q: usize) -> usize
    ensures { result ≡ place_after anew q }
{
    if anew { 0 } else { q }
}

// Puts the lines of a datagram one after the other, or each at the start of the buffer, and answers how long they are together.
// One loop for both: as a closure, where the next line goes would need the same proof twice.
fn put_lines(s: &[u8], buf: &mut [u8], anew: bool) -> usize
    requires { Roomy anew s.now (length buf.old) }
    ensures { AllPut s.now anew buf.old result buf.new }
{
    let mut next = Some(0);
    let mut p = 0;
    let mut n = 0;
    while let Some(at) = next {
        let (after, q) = put_step(s, at, buf, p);
        n += q - p;
        p = place_after(anew, q);
        next = after;
    }
    n
}

// The length of the whole text: each of its lines is put into the same small buffer.
#[tactic(auto, unfolding(crate::specs::Turns::Roomy))]
fn text_len(s: &[u8]) -> usize
    ensures { result ≡ length (dump_text s.now) }
{
    let mut line = [0u8; MAX_LINE];
    put_lines(s, &mut line, true)
}

// Whether the whole text is longer than this. Four bytes for each byte of the datagram and 64 are always enough, so there nothing
// is counted.
fn is_short(s: &[u8], room: usize) -> bool
    ensures { result ≡ ltb room (length (dump_text s.now)) }
{
    if s.len() <= room / 4 && 64 <= room - 4 * s.len() {
        return false;
    }
    room < text_len(s)
}

// The whole text of a datagram, from byte 0 of buf on.
pub fn dump(s: &[u8], buf: &mut [u8]) -> Result<usize, Refusal>
    ensures { Written (ok (dump_text s.now)) buf.old (answer_of result) buf.new }
{
    if is_short(s, buf.len()) {
        return Err(Refusal::Room);
    }
    Ok(put_lines(s, buf, false))
}
