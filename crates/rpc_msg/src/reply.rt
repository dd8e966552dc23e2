//! The record of a reply.

ghost use Rattle.std.specs.Prelude.{◌≡◌, ◌+◌, ◌-◌, ◌*◌, ◌^◌, ◌<◌, ◌≤◌, ◌++◌, length, ℕ, List, vec_len, vec_capacity, OnOk, OnErr};
ghost use Rattle.std.specs.Prelude.{IsOk};
ghost use Rattle.xdr_grammar.specs.Laws.{Laws};
ghost use Rattle.xdr_grammar.specs.Writing.{Puts};
ghost use Rattle.rpc_msg.specs.Replies.{behind_mark, reply_head, marked_head, accepted_reply, accepted_head, accepted_record};
ghost use Rattle.rpc_msg.specs.Replies.{denied_record};

use nfs3_types::NoMemory;
use xdr::put_word;

/// The bit of a fragment's head that marks the last fragment of a record (RFC 5531, section 11).
const LAST_FRAGMENT: u32 = 1 << 31;

/// A message that is a reply (RFC 5531, section 9, msg_type).
const REPLY: u32 = 1;

/// The call was accepted (reply_stat).
const MSG_ACCEPTED: u32 = 0;

/// The call was denied (reply_stat).
const MSG_DENIED: u32 = 1;

/// The flavor of a verifier that says nothing (RFC 5531, section 8.1).
const AUTH_NONE: u32 = 0;

/// How many bytes stand before the results of an accepted reply, the record's mark not counted.
const ACCEPTED_HEAD: usize = 24;

/// How many bytes stand before what a denied reply says, the record's mark not counted.
const DENIED_HEAD: usize = 12;

/// Puts the head of a record of `size` bytes in one fragment, and of the reply in it.
#[tactic(auto, unfolding(crate::specs::Replies::behind_mark, crate::specs::Replies::reply_head, xdr_grammar::specs::Items::word))]
fn put_head(out: &mut Vec<u8>, size: u32, xid: u32, stat: u32) -> Result<(), NoMemory>
    requires { size < 2 ^ 31 }
    ensures { Puts (behind_mark reply_head) (marked_head size xid stat) out.old out.new result }
{
    put_word(out, LAST_FRAGMENT + size)?;
    put_word(out, xid)?;
    put_word(out, REPLY)?;
    put_word(out, stat)
}

/// Puts the mark and the head of an accepted reply whose results have `size` bytes.
#[tactic(auto, using(crate::proofs::ReplyHeads::accepted_head_size))]
fn put_accepted_head(out: &mut Vec<u8>, size: u32, xid: u32, stat: u32) -> Result<(), NoMemory>
    requires { size < 2 ^ 31 - 24 }
    ensures { Puts (behind_mark accepted_reply) (accepted_head size xid stat) out.old out.new result }
{
    put_head(out, ACCEPTED_HEAD as u32 + size, xid, MSG_ACCEPTED)?;
    put_word(out, AUTH_NONE)?;
    put_word(out, 0)?;
    put_word(out, stat)
}

/// Adds what stands before the results of an accepted reply whose results have `size` bytes: the mark, and
/// the head with a verifier of flavor AUTH_NONE and how the call went (accept_stat). So many bytes that are
/// put behind it make it the whole record. At `NoMemory` the buffer holds what it held.
#[tactic(auto, using(crate::proofs::ReplyHeads::accepted_head_long))]
pub fn write_accepted_head(
    xid: u32,
    stat: u32,
    size: u32,
    out: &mut Vec<u8>,
) -> Result<(), NoMemory>
    requires { size < 2 ^ 31 - 24 }
    ensures ok { OnOk result ((results : List ℕ) → length results ≡ size
        → out.new.items ++ results ≡ out.old.items ++ accepted_record xid stat results) }
    ensures len { OnOk result (vec_len out.new ≡ vec_len out.old + 28) }
    ensures err { OnErr result (out.new.items ≡ out.old.items) }
    ensures room { vec_len out.old + 28 ≤ vec_capacity out.old → IsOk result }
    ensures capacity { vec_capacity out.old ≤ vec_capacity out.new }
{
    out.reserve(4 + ACCEPTED_HEAD)?;
    put_accepted_head(out, size, xid, stat)
}

/// Puts an accepted reply into room that was reserved.
#[tactic(auto, using(crate::proofs::ReplyHeads::accepted_head_long))]
fn put_accepted(out: &mut Vec<u8>, xid: u32, stat: u32, results: &[u8]) -> Result<(), NoMemory>
    requires { length results.now < 2 ^ 31 - 24 }
    ensures ok { OnOk result (out.new.items ≡ out.old.items ++ accepted_record xid stat results.now) }
    ensures room { vec_len out.old + (28 + length results.now) ≤ vec_capacity out.old → IsOk result }
    ensures capacity { vec_capacity out.old ≤ vec_capacity out.new }
{
    put_accepted_head(out, results.len() as u32, xid, stat)?;
    out.extend_from_slice(results)?;
    Ok(())
}

/// Adds the record of an accepted reply: the mark, the head with a verifier of flavor AUTH_NONE, how the
/// call went (accept_stat), and the results, which have to be shorter than 2^31 - 24 bytes. At `NoMemory`
/// the buffer holds what it held.
pub fn write_accepted(xid: u32, stat: u32, body: &[u8], out: &mut Vec<u8>) -> Result<(), NoMemory>
    requires { length body.now < 2 ^ 31 - 24 }
    ensures ok { OnOk result (out.new.items ≡ out.old.items ++ accepted_record xid stat body.now) }
    ensures err { OnErr result (out.new.items ≡ out.old.items) }
    ensures room { vec_len out.old + (28 + length body.now) ≤ vec_capacity out.old → IsOk result }
    ensures capacity { vec_capacity out.old ≤ vec_capacity out.new }
{
    out.reserve(4 + ACCEPTED_HEAD + body.len())?;
    put_accepted(out, xid, stat, body)
}

/// Puts a denied reply into room that was reserved.
#[tactic(auto, using(crate::proofs::ReplyHeads::marked_head_long), unfolding(xdr_grammar::specs::Items::word))]
fn put_denied(out: &mut Vec<u8>, xid: u32, words: &[u32], count: u32) -> Result<(), NoMemory>
    requires three { length words.now ≡ 3 }
    requires least { 2 ≤ count }
    requires most { count ≤ 3 }
    ensures ok { OnOk result (out.new.items ≡ out.old.items ++ denied_record xid count words.now) }
    ensures room { vec_len out.old + (16 + 4 * count) ≤ vec_capacity out.old → IsOk result }
    ensures capacity { vec_capacity out.old ≤ vec_capacity out.new }
{
    if count == 2 {
        put_head(out, 20, xid, MSG_DENIED)?;
        put_word(out, words[0])?;
        put_word(out, words[1])
    } else {
        put_head(out, 24, xid, MSG_DENIED)?;
        put_word(out, words[0])?;
        put_word(out, words[1])?;
        put_word(out, words[2])
    }
}

/// Adds the record of a denied reply: the mark, the head, and the first `count` of the words, which are 2
/// (AUTH_ERROR, and what is wrong) or 3 (RPC_MISMATCH, and the lowest and the highest version). At
/// `NoMemory` the buffer holds what it held.
pub fn write_denied(
    xid: u32,
    words: [u32; 3],
    count: u32,
    out: &mut Vec<u8>,
) -> Result<(), NoMemory>
    requires least { 2 ≤ count }
    requires most { count ≤ 3 }
    ensures ok { OnOk result (out.new.items ≡ out.old.items ++ denied_record xid count words) }
    ensures err { OnErr result (out.new.items ≡ out.old.items) }
    ensures room { vec_len out.old + (16 + 4 * count) ≤ vec_capacity out.old → IsOk result }
    ensures capacity { vec_capacity out.old ≤ vec_capacity out.new }
{
    out.reserve(4 + DENIED_HEAD + 4 * count as usize)?;
    put_denied(out, xid, words.as_slice(), count)
}

/// The head of an accepted reply is a lawful grammar: no spelling of one begins another.
pub fn reply_is_lawful()
    ensures { Laws accepted_reply }
{}
