// Connection ids (shared.rs; RFC 9000, 5.1 and 17.2).
#![tactic(auto, unfolding(coding::specs::Words::and_then, coding::specs::Said::found_by, crate::specs::Cid::cid_of, crate::specs::Cid::cid_on, crate::specs::Cid::long_cid_at, crate::specs::Cid::cid_new, crate::specs::Cid::cid_from, crate::specs::Cid::cid_long, crate::specs::Said::cid_made_of, crate::specs::Said::cid_read_of))]

ghost use Rattle.std.specs.Prelude.{◌≡◌, ◌+◌, ◌-◌, ◌≤◌, ◌<◌, [], length, take, replicate};
ghost use Rattle.coding.specs.Bytes.{splice};
ghost use Rattle.coding.specs.Said.{Reads, answer_of};
ghost use Rattle.coding.specs.Writing.{Written, Put};
ghost use Rattle.shared.specs.Cid.{max_cid, cid_of, cid_on, long_cid_at, cid_new, cid_from, cid_long, cid_put, long_put, long_out};
ghost use Rattle.shared.specs.Said.{cid_made_of, ReadsCid};

use coding::{Place, Reader, Refusal, UnexpectedEnd};

// The largest length of a connection id, in bytes.
pub const MAX_CID_SIZE: usize = 20;

// The same, as a length byte.
const LONGEST_CID: u8 = MAX_CID_SIZE as u8;

// Protocol-level identifier for a connection: its length, and its bytes with zeros past them. An array with a length beside it,
// since there is no heap, and long_out and long_put speak of lengths above 20 too.
#[derive(Clone, Copy, PartialEq, Eq)]
pub struct ConnectionId {
    pub len: u8,
    pub bytes: [u8; MAX_CID_SIZE],
}

// The place of a CID in long header form: a length byte of at most 20, and as many bytes.
pub fn long_place(r: &mut Reader) -> Result<Place, UnexpectedEnd>
    ensures { Reads (λ p. p) (long_cid_at r.old.bytes.now r.old.at) r.old result r.new }
{
    let mut past = *r;
    let len = past.get::<u8>()?;
    if LONGEST_CID < len {
        return Err(UnexpectedEnd);
    }
    let p = past.take(u64::from(len))?;
    *r = past;
    Ok(p)
}

// Copies the next n bytes, where so many are left past `at`, and answers where the copied ones end.
fn copy_on(all: &mut [u8], bytes: &[u8], at: usize, n: usize) -> usize
    requires { (length bytes.now ≤ max_cid) × ((at ≤ length bytes.now) × ((length bytes.now - at < n + n) × (all.old ≡ splice (replicate max_cid 0) 0 (take at bytes.now)))) }
    ensures { (result ≤ length bytes.now) × ((length bytes.now - result < n) × (all.new ≡ splice (replicate max_cid 0) 0 (take result bytes.now))) }
{
    if bytes.len() - at < n {
        return at;
    }
    let next = at + n;
    all[at..next].copy_from_slice(&bytes[at..next]);
    next
}

// The CID of these bytes. Copied by lengths that the compiler knows: by any other it would call C's memcpy, and the archive for C
// calls nothing that whoever links it has to have.
fn filled(bytes: &[u8]) -> ConnectionId
    requires { length bytes.now ≤ max_cid }
    ensures { result ≡ cid_of bytes.now }
{
    let mut all = [0u8; MAX_CID_SIZE];
    let at = copy_on(&mut all, bytes, 0, 16);
    let at = copy_on(&mut all, bytes, at, 8);
    let at = copy_on(&mut all, bytes, at, 4);
    let at = copy_on(&mut all, bytes, at, 2);
    copy_on(&mut all, bytes, at, 1);
    ConnectionId {
        len: bytes.len() as u8,
        bytes: all,
    }
}

impl ConnectionId {
    // Of no bytes; by name and no Default, since it is a connection id as the others are.
    pub fn empty() -> ConnectionId
        ensures { result ≡ cid_of [] }
    {
        ConnectionId {
            len: 0,
            bytes: [0u8; MAX_CID_SIZE],
        }
    }

    // The CID at a place; the empty one where the place does not lie inside, or is longer than 20 bytes.
    pub fn at(s: &[u8], p: Place) -> ConnectionId
        ensures { result ≡ cid_on s.now p }
    {
        if MAX_CID_SIZE < p.len {
            return ConnectionId::empty();
        }
        filled(coding::part(s, p))
    }

    // Construct cid from byte array.
    pub fn new(bytes: &[u8]) -> Result<ConnectionId, Refusal>
        ensures { cid_made_of result ≡ cid_new bytes.now }
    {
        if MAX_CID_SIZE < bytes.len() {
            return Err(Refusal::Argument);
        }
        Ok(filled(bytes))
    }

    // Constructs cid by reading `len` bytes.
    pub fn from_buf(r: &mut Reader, len: usize) -> Result<ConnectionId, Refusal>
        ensures { ReadsCid (cid_from len r.old.bytes.now r.old.at) r.old result r.new }
    {
        if MAX_CID_SIZE < len {
            return Err(Refusal::Argument);
        }
        let p = r.take(len as u64)?;
        Ok(ConnectionId::at(r.bytes, p))
    }

    // Decode from long header format.
    pub fn decode_long(r: &mut Reader) -> Result<ConnectionId, Refusal>
        ensures { ReadsCid (cid_long r.old.bytes.now r.old.at) r.old result r.new }
    {
        let Ok(p) = long_place(r) else {
            return Err(Refusal::Cid);
        };
        Ok(ConnectionId::at(r.bytes, p))
    }

    // Puts the bytes alone; a length above 20 puts nothing.
    pub fn put_bytes(self, buf: &mut [u8], at: usize) -> usize
        ensures { Put (cid_put self) buf.old at result buf.new }
    {
        let len = self.len as usize;
        if MAX_CID_SIZE < len {
            return at;
        }
        coding::put_slice(buf, at, &self.bytes[..len])
    }

    // Puts the length byte and the bytes; a length above 20 puts nothing.
    pub fn put_long(self, buf: &mut [u8], at: usize) -> usize
        ensures { Put (long_put self) buf.old at result buf.new }
    {
        let len = self.len as usize;
        if MAX_CID_SIZE < len || buf.len() < at || buf.len() - at < 1 + len {
            return at;
        }
        let next = coding::put(buf, at, self.len);
        self.put_bytes(buf, next)
    }

    // Encode in long header format, from byte 0 of buf on.
    pub fn encode_long(self, buf: &mut [u8]) -> Result<usize, Refusal>
        ensures { Written (long_out self) buf.old (answer_of result) buf.new }
    {
        let len = self.len as usize;
        if MAX_CID_SIZE < len {
            return Err(Refusal::Argument);
        }
        if buf.len() < 1 + len {
            return Err(Refusal::Room);
        }
        Ok(self.put_long(buf, 0))
    }
}
