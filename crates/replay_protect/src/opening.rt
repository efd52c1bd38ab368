// The operations of `protect` that read: the sample's place, and finish.
use cases::line::{Answer, Out};
use cases::record;
use coding::{Place, Refusal};
use protect::{Finished, Kind};
use shared::CutNumber;

// The kind of this number; 0 to 5.
fn kind_by(n: u64) -> Kind {
    match n {
        0 => Kind::Initial,
        1 => Kind::ZeroRtt,
        2 => Kind::Handshake,
        3 => Kind::Retry,
        4 => Kind::Short,
        _ => Kind::VersionNegotiate,
    }
}

fn kind_words(kind: Kind) -> &'static [u8] {
    match kind {
        Kind::Initial => b"ok initial",
        Kind::ZeroRtt => b"ok 0rtt",
        Kind::Handshake => b"ok handshake",
        Kind::Retry => b"ok retry",
        Kind::Short => b"ok short",
        Kind::VersionNegotiate => b"ok vneg",
    }
}

// A number's length and its value, and whether the reserved bits are clear.
fn and_number(number: CutNumber, reserved_clear: bool, out: &mut Out) {
    out.and_nums(&[
        number.0 as u64,
        u64::from(number.1),
        u64::from(reserved_clear),
    ]);
}

// What finish says, `-` for what a packet of its kind does not have; and the number's length.
fn and_finished(finished: Option<Finished>, out: &mut Out) -> Option<usize> {
    match finished {
        Some(
            Finished::Long {
                number,
                reserved_clear,
            },
        ) => {
            and_number(number, reserved_clear, out);
            out.put(b" -");
            Some(number.0)
        }
        Some(
            Finished::Short {
                number,
                reserved_clear,
                key_phase,
            },
        ) => {
            and_number(number, reserved_clear, out);
            out.and_num(u64::from(key_phase));
            Some(number.0)
        }
        None => {
            out.put(b" - - - -");
            None
        }
    }
}

// Finish of a packet, laid into work, and the header and the payload that it leaves.
pub(crate) fn finish(rec: &[u8], work: &mut [u8], out: &mut Out) {
    let ns = record::numbers_of(rec);
    let kind = kind_by(ns.n0);
    let at = ns.n1 as usize;
    let mask = record::five(record::bytes(rec, 0));
    let n = record::lay(work, record::bytes(rec, 1));
    let packet = &mut work[..n];
    match protect::finish(kind, packet, at, mask) {
        Ok(finished) => {
            out.put(kind_words(kind));
            let number = and_finished(finished, out);
            out.and_hex(protect::header_part(packet, at, number));
            out.and_hex(protect::payload_part(packet, at, number));
        }
        Err(why) => {
            out.say(Err(why));
            out.and_hex(packet);
        }
    }
}

pub(crate) fn sample(rec: &[u8]) -> Result<Answer, Refusal> {
    let ns = record::numbers_of(rec);
    let kind = kind_by(ns.n0);
    let place = protect::sample_place(kind, record::bytes(rec, 0), ns.n1 as usize)?;
    match place {
        Some(Place { start, len }) => Ok(Answer::Two(start as u64, len as u64)),
        None => Ok(Answer::Nothing),
    }
}
