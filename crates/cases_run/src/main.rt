// Tells packed cases back by `cases::stdio::run`, which the replay programs do not call: of each how many came before it, its
// operation, how long its fields are, and the first eight bytes of them. In its `stdin` the longest record fills the buffer, and the
// last is cut.
#![tactic(auto)]

use cases::stdio;

fn main(rt: HostRuntime) {
    let mut before: u64 = 0;
    stdio::run(rt, |op, rec, out| {
        let first = if rec.len() < 8 { rec } else { &rec[..8] };
        out.nums(before, &[u64::from(op), rec.len() as u64]);
        out.and_hex(first);
        before = before.saturating_add(1);
    });
    stdio::run(rt, |_, _, _| {}); // nothing is left to read
}
