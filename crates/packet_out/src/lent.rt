// What is lent for a header, and the header over it.
#![tactic(auto, using(shared::proofs::Back::cid_same, crate::proofs::Laws::lent_names, crate::proofs::Laws::lent_short), unfolding(crate::specs::Encoding::names_bytes, crate::specs::Encoding::token_bytes, coding::specs::Said::answer_of))]

ghost use Rattle.std.specs.Prelude.{◌+◌, ◌≤◌, length};
ghost use Rattle.coding.specs.Writing.{Put};
ghost use Rattle.shared.specs.Cid.{max_cid, cid_of, long_bytes};

use crate::form::Form;
use coding::{MAX_DATAGRAM, Refusal, VarInt};
use shared::MAX_CID_SIZE;

// The connection ids, which keep their rule, and the token of an Initial.
#[derive(Clone, Copy)]
pub(crate) struct Lent<'a> {
    pub dst_cid: &'a [u8],
    pub src_cid: &'a [u8],
    pub token: &'a [u8],
    ghost to: { length dst_cid.now ≤ max_cid },
    ghost from: { length src_cid.now ≤ max_cid },
}

// Puts a connection id behind its length.
fn put_long(cid: &[u8], buf: &mut [u8], at: usize) -> usize
    requires { (length cid.now ≤ max_cid) × (at + length (long_bytes (cid_of cid.now)) ≤ length buf.old) }
    ensures { Put (long_bytes (cid_of cid.now)) buf.old at result buf.new }
{
    let next = coding::put(buf, at, cid.len() as u8);
    coding::put_slice(buf, next, cid)
}

impl<'a> Lent<'a> {
    ghost use Rattle.std.specs.Prelude.{◌≡◌};
    ghost use Rattle.coding.specs.Words.{max_datagram};
    ghost use Rattle.coding.specs.Bytes.{bytes_be};
    ghost use Rattle.coding.specs.Said.{answer_of};
    ghost use Rattle.packet.specs.Said.{option_of};
    ghost use Rattle.packet_out.specs.Encoding.{names_bytes, token_bytes, length_bytes, number_field, placeholder, in_header};
    ghost use Rattle.packet_out.specs.Said.{form_bytes, Lends};

    // 14 where a connection id is longer than 20 bytes.
    pub(crate) fn new(
        dst_cid: &'a [u8],
        src_cid: &'a [u8],
        token: &'a [u8],
    ) -> Result<Lent<'a>, Refusal>
        ensures { Lends dst_cid.now src_cid.now token.now result }
    {
        if MAX_CID_SIZE < dst_cid.len() || MAX_CID_SIZE < src_cid.len() {
            return Err(Refusal::Argument);
        }
        Ok(Lent {
            dst_cid,
            src_cid,
            token,
        })
    }

    // The bytes of the version and the connection ids.
    fn names_size(self, version: Option<u32>) -> usize
        ensures { (result ≡ length (names_bytes (option_of version) (cid_of self.entry.dst_cid.now) (cid_of self.entry.src_cid.now))) × (result ≤ 46) }
    {
        match version {
            Some(_) => 4 + 1 + self.dst_cid.len() + 1 + self.src_cid.len(),
            None => self.dst_cid.len(),
        }
    }

    // The bytes of a header without its token.
    fn fixed_size(self, form: Form) -> usize
        ensures { (result ≡ 1 + (length (names_bytes (option_of form.version) (cid_of self.entry.dst_cid.now) (cid_of self.entry.src_cid.now)) + (length (length_bytes form.has_length placeholder) + length (number_field (option_of form.number))))) × (result ≤ 53) }
    {
        1 + self.names_size(form.version) + form.end_size()
    }

    // The bytes of a header, or 14 past 65,527.
    pub(crate) fn size(self, form: Form) -> Result<usize, Refusal>
        ensures { answer_of result ≡ in_header (form_bytes placeholder form self.entry) (length (form_bytes placeholder form self.entry)) }
    {
        let fixed = self.fixed_size(form);
        if !form.has_token {
            return Ok(fixed);
        }
        let len = self.token.len();
        if MAX_DATAGRAM < len {
            return Err(Refusal::Argument);
        }
        let n = VarInt(len as u64).size()?;
        let all = fixed + n + len;
        if MAX_DATAGRAM < all {
            return Err(Refusal::Argument);
        }
        Ok(all)
    }

    // Puts the version and both connection ids, or a short header's one.
    fn put_names(self, version: Option<u32>, buf: &mut [u8], at: usize) -> usize
        requires { at + length (names_bytes (option_of version) (cid_of self.dst_cid.now) (cid_of self.src_cid.now)) ≤ length buf.old }
        ensures { Put (names_bytes (option_of version) (cid_of self.entry.dst_cid.now) (cid_of self.entry.src_cid.now)) buf.old at result buf.new }
    {
        let Some(number) = version else {
            return coding::put_slice(buf, at, self.dst_cid);
        };
        let to = coding::put(buf, at, number);
        let from = put_long(self.dst_cid, buf, to);
        put_long(self.src_cid, buf, from)
    }

    // Puts the token behind its length, where there is to be one.
    fn put_token(self, has_token: bool, buf: &mut [u8], at: usize) -> usize
        requires { (length (token_bytes has_token self.token.now) ≤ max_datagram) × (at + length (token_bytes has_token self.token.now) ≤ length buf.old) }
        ensures { Put (token_bytes has_token self.entry.token.now) buf.old at result buf.new }
    {
        if !has_token {
            return at;
        }
        let next = coding::write_var(buf, at, self.token.len() as u64);
        coding::put_slice(buf, next, self.token)
    }

    // Puts a header that fits from byte 0 on, with these two bytes for its Length.
    pub(crate) fn put(self, form: Form, field: u16, buf: &mut [u8]) -> usize
        requires { (length (form_bytes (bytes_be 2 field) form self) ≤ max_datagram) × (length (form_bytes (bytes_be 2 field) form self) ≤ length buf.old) }
        ensures { Put (form_bytes (bytes_be 2 field) form self.entry) buf.old 0 result buf.new }
    {
        let names = coding::put(buf, 0, form.first);
        let start = self.put_names(form.version, buf, names);
        let length = self.put_token(form.has_token, buf, start);
        let at = form.put_length(field, buf, length);
        form.put_number(buf, at)
    }
}
