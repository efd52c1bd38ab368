// The operations of `packet`: header decode, split, the walk; and the dump's text.
use crate::header;
use cases::line::{Answer, Out};
use cases::record;
use coding::Place;
use packet::{Decoded, PacketDecodeError, PartialDecode, StepError, Stepped};

// More steps than a datagram has packets.
const MOST_STEPS: usize = 70_000;

// How a datagram is read: the local CID's length, the versions, and whether there is grease.
#[derive(Clone, Copy)]
struct Reading<'a> {
    local: usize,
    versions: &'a [u32],
    grease: bool,
}

impl Reading<'_> {
    fn decode(self, s: &[u8]) -> Result<Decoded, PacketDecodeError> {
        packet::decode(s, self.local, self.versions, self.grease)
    }

    fn split(self, s: &[u8]) -> Result<PartialDecode, PacketDecodeError> {
        packet::split(s, self.local, self.versions, self.grease)
    }

    fn step(self, s: &[u8], at: usize) -> Result<Option<Stepped>, StepError> {
        packet::step(s, at, self.local, self.versions, self.grease)
    }
}

// An operation on a datagram, with how it is read; there is room for more versions than the rule allows.
pub(crate) fn asked(op: u8, rec: &[u8], out: &mut Out) {
    let ns = record::numbers_of(rec);
    let mut list = [0; 32];
    let n = record::words(record::bytes(rec, 0), &mut list);
    let how = Reading {
        local: ns.n0 as usize,
        versions: &list[..n],
        grease: ns.n1 == 1,
    };
    let s = record::bytes(rec, 1);
    match op {
        32 => split(how, s, out),
        33 => walk(how, s, out),
        _ => header::put(how.decode(s), out),
    }
}

// The packet, the rest and the token, as parts of the datagram.
fn and_parts(packet: PartialDecode, s: &[u8], out: &mut Out) {
    let data = packet.data(s);
    out.and_hex(data);
    match packet.rest {
        Some(_) => out.and_hex(packet.rest(s)),
        None => out.put(b" none"),
    }
    out.and_hex(packet.token(data));
}

fn split(how: Reading<'_>, s: &[u8], out: &mut Out) {
    let packet = how.split(s);
    header::put(packet.map(|packet| packet.plain_header), out);
    if let Ok(packet) = packet {
        and_parts(packet, s, out);
    }
}

// A packet of the walk.
fn put_packet(packet: Place, plain: Decoded, out: &mut Out) {
    out.num(packet.start as u64);
    out.and_num(packet.len as u64);
    out.put(header::kind(plain.header));
    out.and_num(plain.number_offset as u64);
    out.put(b"; ");
}

fn walk(how: Reading<'_>, s: &[u8], out: &mut Out) {
    let mut at = 0;
    for _ in 0..MOST_STEPS {
        match how.step(s, at) {
            Ok(Some(step)) => {
                put_packet(step.packet, step.plain_header, out);
                at = step.packet.start.saturating_add(step.packet.len);
            }
            Ok(None) => {
                out.put(b"end");
                out.and_num(s.len() as u64);
                return;
            }
            Err(StepError { start, why }) => {
                out.put(b"refused");
                out.and_nums(&[start as u64, u64::from(why.refusal().number())]);
                return;
            }
        }
    }
}

// The dump of a datagram into a part of the room that has so many bytes, as one line.
pub(crate) fn dump(rec: &[u8], out: &mut Out) {
    let room = record::numbers_of(rec).n0;
    let at = out.at;
    let Some(left) = out.text.len().checked_sub(at) else {
        return;
    };
    if (left as u64) < room {
        out.say(Ok(Answer::Bad));
        return;
    }
    let text = &mut out.text[at..at + room as usize];
    match dump_text::dump(record::bytes(rec, 0), text) {
        Ok(n) => {
            // stored in either case, so that the compiler takes many at a time
            for c in text.iter_mut().take(n) {
                *c = if *c == b'\n' { b';' } else { *c };
            }
            out.at = at.saturating_add(n);
        }
        Err(why) => out.say(Err(why)),
    }
}
