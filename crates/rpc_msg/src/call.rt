//! The head of a call.

ghost use Rattle.std.specs.Prelude.{◌≡◌, ◌≢◌, ◌<◌, ◌≤◌, ◌↔◌, length, Ok, Err, IfOk, OnErr};
ghost use Rattle.xdr_grammar.specs.Reading.{Gives};
ghost use Rattle.xdr_grammar.specs.Laws.{Laws};
ghost use Rattle.rpc_msg.specs.Message.{message_head, kind_of, view, HasNoCall};

use thiserror::Error;
use xdr::Reader;
use xdr_grammar::XdrFault;

/// The bytes of a call's head.
const HEAD: usize = 24;

/// What a call begins with (RFC 5531, section 9), and the bytes behind it: the credential, the
/// verifier and the arguments.
#[derive(Clone, Copy, Debug)]
pub struct CallHead<'a> {
    /// The transaction id, which the reply repeats.
    pub xid: u32,
    /// The version of the RPC protocol.
    pub rpcvers: u32,
    /// The program.
    pub prog: u32,
    /// The program's version.
    pub vers: u32,
    /// The procedure of that version.
    pub procedure: u32,
    /// What follows the head.
    pub tail: &'a [u8],
}

/// Why a record has no head of a call.
#[derive(Clone, Copy, Debug, PartialEq, Eq, Error)]
pub enum HeadFault {
    /// It has fewer than 24 bytes.
    #[error("the record is shorter than a call's head")]
    Short,
    /// Its second word is not 0, so it is no call.
    #[error("the record is not a call")]
    NotCall,
}

/// The words of a message head.
#[derive(Drop)]
struct Words {
    xid: u32,
    kind: u32,
    rpcvers: u32,
    prog: u32,
    vers: u32,
    procedure: u32,
}

#[tactic(auto, unfolding(crate::specs::Message::message_head))]
fn read_words(reader: &mut Reader<'_>) -> Result<Words, XdrFault>
    ensures { Gives message_head (λ w. record {
      xid = w.xid;
      kind = w.kind;
      rpcvers = w.rpcvers;
      prog = w.prog;
      vers = w.vers;
      procedure = w.procedure;
    }) reader.old reader.new result }
{
    Ok(Words {
        xid: reader.word()?,
        kind: reader.word()?,
        rpcvers: reader.word()?,
        prog: reader.word()?,
        vers: reader.word()?,
        procedure: reader.word()?,
    })
}

/// Reads the head of a call. A record is refused exactly where it has none.
pub fn read_call(text: &[u8]) -> Result<CallHead<'_>, HeadFault>
    ensures read { IfOk result (λ head. message_head.read text.now ≡ Ok (view head, head.tail.now)) }
    ensures refused { OnErr result (HasNoCall text.now) }
    ensures short { (result ≡ Err HeadFault.Short) ↔ (length text.now < 24) }
    ensures not_call { (result ≡ Err HeadFault.NotCall) ↔ ((24 ≤ length text.now) × (kind_of text.now ≢ 0)) }
{
    if text.len() < HEAD {
        return Err(HeadFault::Short);
    }
    let mut reader = Reader::new(text);
    let Ok(words) = read_words(&mut reader) else {
        unreachable!()
    };
    if words.kind != 0 {
        return Err(HeadFault::NotCall);
    }
    Ok(CallHead {
        xid: words.xid,
        rpcvers: words.rpcvers,
        prog: words.prog,
        vers: words.vers,
        procedure: words.procedure,
        tail: reader.rest(),
    })
}

/// The head of a message is a lawful grammar: it is read as it is written, and no spelling of one
/// begins another.
pub fn head_is_lawful()
    ensures { Laws message_head }
{}
