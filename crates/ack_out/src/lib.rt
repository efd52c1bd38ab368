// The ACK encoder (frame.rs, Ack::encode; RFC 9000, section 19.3). The ranges are a flat list of starts and ends, ascending, each
// end past its range's largest number.
#![tactic(auto)]

ghost use Rattle.std.specs.Prelude.{◌≡◌, true, false, [], MatchOption, ◌+◌, ◌-◌, ◌*◌, ◌≤◌, ◌<◌, length, get_or};
ghost use Rattle.coding.specs.Words.{max_datagram, number_end};
ghost use Rattle.coding.specs.Varint.{var_size};
ghost use Rattle.coding.specs.Said.{answer_of};
ghost use Rattle.coding.specs.Writing.{length_of, Written, Put};
ghost use Rattle.row_out.specs.Limits.{vars_out, stored};
ghost use Rattle.ack_out.specs.Acks.{ascends, is_ranges, all_ranges, block_bytes, ack_type_of, head_of, counts_of, ack_out};
ghost use Rattle.ack_out.specs.Said.{ecn_given};

use coding::{MAX_DATAGRAM, NUMBER_END, Refusal, VarInt};
use ecn::EcnCounts;
use shared::FrameType;

// Whether each number is below the next.
fn ascends(list: &[u64]) -> bool
    ensures { result ≡ ascends list.now }
{
    list.is_sorted_by(|a, b| *a < *b)
}

// Whether the list keeps its rule: not empty, no start without an end, the last end at most 2^62, ascending.
#[tactic(auto, unfolding(crate::specs::Acks::is_ranges))]
fn is_ranges(list: &[u64]) -> bool
    ensures { result ≡ is_ranges list.now }
{
    let n = list.len();
    if n == 0 || n % 2 == 1 || NUMBER_END < list[n - 1] {
        return false;
    }
    ascends(list)
}

// The bytes of an integer that has a form.
fn var_size(x: u64) -> usize
    requires { x < number_end }
    ensures { (result ≡ var_size x) × (result ≤ 8) }
{
    VarInt(x).size().unwrap()
}

fn ack_type(ecn: Option<EcnCounts>) -> FrameType
    ensures { result.0 ≡ ack_type_of (ecn_given ecn) }
{
    match ecn {
        Some(_) => FrameType::ACK_ECN,
        None => FrameType::ACK,
    }
}

// The bytes of the ECN counts, or 14.
fn counts_len(ecn: Option<EcnCounts>) -> Result<usize, Refusal>
    ensures { answer_of result ≡ length_of (vars_out (counts_of (ecn_given ecn)) []) }
{
    match ecn {
        Some(c) => row_out::vars_len(&[c.ect0, c.ect1, c.ce]),
        None => Ok(0),
    }
}

fn put_counts(ecn: Option<EcnCounts>, buf: &mut [u8], at: usize) -> usize
    ensures { Put (stored (vars_out (counts_of (ecn_given ecn)) [])) buf.old at result buf.new }
{
    match ecn {
        Some(c) => row_out::put_vars(buf, at, &[c.ect0, c.ect1, c.ce]),
        None => at,
    }
}

// A list of ranges that keeps its rule.
#[derive(Clone, Copy)]
struct Ranges<'a> {
    list: &'a [u64],
    ghost keeps: { is_ranges list.now ≡ true },
}

impl<'a> Ranges<'a> {
    fn new(list: &'a [u64]) -> Option<Ranges<'a>>
        ensures { MatchOption result (is_ranges list.now ≡ false) (λ r. r.list.now ≡ list.now) }
    {
        if is_ranges(list) {
            Some(Ranges { list })
        } else {
            None
        }
    }

    // A gap or a block: the number after number i of the list minus that one, less one.
    fn step(self, i: usize) -> u64
        requires { i + 1 < length self.list.now }
        ensures { (result ≡ get_or self.entry.list.now (i + 1) 0 - get_or self.entry.list.now i 0 - 1) × (result < number_end) }
    {
        self.list[i + 1] - self.list[i] - 1
    }

    // The bytes of the blocks.
    fn blocks_len(self) -> usize
        requires { length self.list.now ≤ max_datagram }
        ensures { (result ≡ length (block_bytes (all_ranges self.entry.list.now))) × (result ≤ 8 * 65527) }
    {
        let mut len = 0;
        for i in (0..self.list.len() - 1).rev() {
            len += var_size(self.step(i));
        }
        len
    }

    // Puts the blocks, the largest range's first.
    fn put_blocks(self, buf: &mut [u8], at: usize) -> usize
        requires { at + length (block_bytes (all_ranges self.list.now)) ≤ length buf.old }
        ensures { Put (block_bytes (all_ranges self.entry.list.now)) buf.old at result buf.new }
    {
        let mut next = at;
        for i in (0..self.list.len() - 1).rev() {
            next = coding::write_var(buf, next, self.step(i));
        }
        next
    }

    // The integers before the blocks: the type, the largest number, the delay, and how many ranges follow the first.
    fn head(self, delay: u64, ecn: Option<EcnCounts>) -> [u64; 4]
        ensures { result ≡ head_of delay (all_ranges self.entry.list.now) (ecn_given ecn) }
    {
        let n = self.list.len();
        [
            ack_type(ecn).0,
            self.list[n - 1] - 1,
            delay,
            (n / 2 - 1) as u64,
        ]
    }

    // The bytes of the frame, or 14. Each number of the list has a byte or more.
    fn frame_len(self, delay: u64, ecn: Option<EcnCounts>) -> Result<usize, Refusal>
        ensures { answer_of result ≡ length_of (ack_out delay self.entry.list.now (ecn_given ecn)) }
    {
        if MAX_DATAGRAM < self.list.len() {
            return Err(Refusal::Argument);
        }
        let head = self.head(delay, ecn);
        let first = row_out::vars_len(&head)?;
        let last = counts_len(ecn)?;
        let all = first + self.blocks_len() + last;
        if MAX_DATAGRAM < all {
            return Err(Refusal::Argument);
        }
        Ok(all)
    }
}

// Writes an ACK frame from byte 0 of out on.
pub fn ack(
    delay: u64,
    list: &[u64],
    ecn: Option<EcnCounts>,
    out: &mut [u8],
) -> Result<usize, Refusal>
    ensures { Written (ack_out delay list.now (ecn_given ecn)) out.old (answer_of result) out.new }
{
    let Some(ranges) = Ranges::new(list) else {
        return Err(Refusal::Argument);
    };
    let len = ranges.frame_len(delay, ecn)?;
    if out.len() < len {
        return Err(Refusal::Room);
    }
    let head = ranges.head(delay, ecn);
    let blocks = row_out::put_vars(out, 0, &head);
    let counts = ranges.put_blocks(out, blocks);
    Ok(put_counts(ecn, out, counts))
}
