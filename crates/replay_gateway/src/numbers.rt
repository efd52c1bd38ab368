// number_step.
use cases::line::Out;
use cases::record;
use gateway::{NumberAnswer, NumberEnds, NumberSpaces};

fn put_number(a: NumberAnswer, out: &mut Out) {
    let NumberSpaces {
        initial,
        handshake,
        data,
    } = a.spaces;
    out.nums(
        u64::from(a.refusal),
        &[u64::from(a.number_value), a.number_len as u64, a.number],
    );
    for e in [initial, handshake, data] {
        out.and_nums(&[
            e.next,
            e.acked,
            e.largest,
            u64::from(e.has_acked),
            u64::from(e.has_largest),
        ]);
    }
}

// The ends of a space are the numbers of one of the record's parts.
fn ends_in(rec: &[u8], j: u8) -> NumberEnds {
    let ns = record::numbers_of(record::bytes(rec, j));
    NumberEnds {
        next: ns.n0,
        acked: ns.n1,
        largest: ns.n2,
        has_acked: record::byte(ns.n3),
        has_largest: record::byte(ns.n4),
    }
}

pub(crate) fn step(rec: &[u8], out: &mut Out) {
    let ns = record::numbers_of(rec);
    let spaces = NumberSpaces {
        initial: ends_in(rec, 0),
        handshake: ends_in(rec, 1),
        data: ends_in(rec, 2),
    };
    let a = gateway::guobbarel_number_step(
        record::byte(ns.n0),
        record::byte(ns.n1),
        spaces,
        ns.n2,
        ns.n3 as usize,
        record::word(ns.n4),
    );
    put_number(a, out);
}
