// The Length step, the mask step, and all from a header to a protected packet. What encrypts is a XOR with one byte.
ghost use Rattle.cases.specs.Records.{Counts};

use crate::encoding;
use cases::line::{Answer, Out};
use cases::record;
use coding::{Refusal, put_slice};
use packet_out::PartialEncode;

// What a record says of a header: its length, its number's, where it has one, and whether it has a Length.
fn partial(rec: &[u8]) -> PartialEncode {
    let ns = record::numbers_of(rec);
    PartialEncode {
        header_len: ns.n0 as usize,
        number: (ns.n1 == 1).then_some(ns.n2 as usize),
        has_length: ns.n3 == 1,
    }
}

fn set_length(to: PartialEncode, packet: &mut [u8]) -> Result<(), Refusal> {
    packet_out::set_length(to.header_len, to.number, to.has_length, packet)
}

fn mask(to: PartialEncode, packet: &mut [u8], with: [u8; 5]) -> Result<(), Refusal> {
    protect::mask(to.header_len, to.number, to.has_length, packet, with)
}

// The Length step (hlen), or the mask step (hmask), whose mask is the record's first part.
fn step(op: u8, rec: &[u8], packet: &mut [u8]) -> Result<(), Refusal> {
    let to = partial(rec);
    match op {
        37 => set_length(to, packet),
        _ => mask(to, packet, record::five(record::bytes(rec, 0))),
    }
}

// A step over a packet, the record's last part, laid into work.
pub(crate) fn lent(op: u8, rec: &[u8], work: &mut [u8], out: &mut Out) {
    let last = if op == 37 { 0 } else { 1 };
    let n = record::lay(work, record::bytes(rec, last));
    let said = step(op, rec, &mut work[..n]);
    out.wrote(said.map(|_| Answer::Done), &work[..n]);
}

// The steps after the header and the payload are written. The encryption is of every byte past the header; a packet with no
// number is not encrypted.
fn seal(to: PartialEncode, packet: &mut [u8], xor: u8, with: [u8; 5]) -> Result<(), Refusal> {
    set_length(to, packet)?;
    if to.number.is_some() {
        for b in packet.iter_mut().skip(to.header_len) {
            *b ^= xor;
        }
    }
    mask(to, packet, with)
}

// Puts a payload at a place, and answers where it ends; 0 where it does not fit.
fn put_payload(work: &mut [u8], at: usize, payload: &[u8]) -> usize
    ensures { Counts result work.new }
{
    let n = put_slice(work, at, payload);
    if work.len() < n {
        return 0;
    }
    n
}

// The packet of a header that was written into work.
fn put_sealed(to: PartialEncode, rec: &[u8], work: &mut [u8], out: &mut Out) {
    let first = encoding::parts(record::numbers_of(rec).n0);
    let with = record::five(record::bytes(rec, first));
    let xor = record::byte_at(record::bytes(rec, first + 1), 0);
    let n = put_payload(work, to.header_len, record::bytes(rec, first + 2));
    match seal(to, &mut work[..n], xor, with) {
        Ok(_) => out.wrote(Ok(Answer::Done), &work[..n]),
        Err(why) => out.say(Err(why)),
    }
}

// A header, its payload behind it, and the steps over both.
pub(crate) fn whole(rec: &[u8], work: &mut [u8], out: &mut Out) {
    match encoding::encode(rec, work) {
        Ok(to) => put_sealed(to, rec, work, out),
        Err(why) => out.say(Err(why)),
    }
}
