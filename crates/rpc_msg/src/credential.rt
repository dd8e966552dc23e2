//! The credential and the verifier of a call.

ghost use Rattle.std.specs.Prelude.{◌≡◌, ◌%◌, length, Ok, Err, IfOk, IfErr};
ghost use Rattle.xdr_grammar.specs.Reading.{Gives, GivesWhole};
ghost use Rattle.xdr_grammar.specs.Laws.{Laws};
ghost use Rattle.xdr_grammar.specs.Items.{word};
ghost use Rattle.xdr_grammar.specs.Arrays.{array};
ghost use Rattle.xdr_grammar.specs.Whole.{whole};
ghost use Rattle.rpc_msg.specs.Auth.{opaque_auth, auth_sys, caller_of, credential_of, words_in};

use nfs3_types::{Cred, NoMemory, Text};
use std::alloc::Global;
use thiserror::Error;
use xdr::Reader;
use xdr_grammar::XdrFault;

/// The flavor of a credential that says nothing (RFC 5531, section 8.1).
const AUTH_NONE: u32 = 0;

/// The flavor of a credential that names a user by number.
const AUTH_SYS: u32 = 1;

/// The greatest length of a credential's or a verifier's body in bytes.
const LONGEST_BODY: u32 = 400;

/// The greatest length of a machine's name in bytes.
const LONGEST_NAME: u32 = 255;

/// The greatest number of other groups.
const MOST_GIDS: u32 = 16;

/// The user and the group of who calls with a credential that says nothing.
const NOBODY: u32 = 65534;

/// Who calls.
#[derive(Clone, Copy, Debug)]
pub struct Who<'a> {
    /// The user.
    pub uid: u32,
    /// The user's group.
    pub gid: u32,
    /// The other groups that the user is in, each as four bytes, the highest first.
    pub gids: &'a [u8],
}

/// Why a call is refused for its credential or its verifier, in the order in which they are looked at.
#[derive(Clone, Copy, Debug, PartialEq, Eq, Error)]
pub enum CredFault {
    /// The credential does not read, or what it says does not (AUTH_BADCRED).
    #[error("the credential does not read")]
    BadCred,
    /// The credential is of a flavor that is not taken (AUTH_TOOWEAK).
    #[error("the credential's flavor is not taken")]
    TooWeak,
    /// The verifier does not read (AUTH_BADVERF).
    #[error("the verifier does not read")]
    BadVerf,
}

/// A credential or a verifier.
#[derive(Clone, Copy)]
struct Auth<'a> {
    flavor: u32,
    body: &'a [u8],
}

#[tactic(auto, unfolding(crate::specs::Auth::opaque_auth))]
fn read_auth<'a>(reader: &mut Reader<'a>) -> Result<Auth<'a>, XdrFault>
    ensures { Gives opaque_auth (λ a. record { flavor = a.flavor; body = a.body.now }) reader.old reader.new result }
{
    Ok(Auth {
        flavor: reader.word()?,
        body: reader.opaque(LONGEST_BODY)?,
    })
}

/// The next array of at most 16 words, left where they stand.
fn read_gids<'a>(reader: &mut Reader<'a>) -> Result<&'a [u8], XdrFault>
    ensures gives { Gives (array 16 word) (λ gids. words_in gids.now) reader.old reader.new result }
    ensures whole { IfOk result (λ gids. length gids.now % 4 ≡ 0) }
{
    let n = reader.word()?;
    if n > MOST_GIDS {
        return Err(XdrFault::TooLong);
    }
    reader.fixed(4 * n)
}

/// What a credential of flavor AUTH_SYS says.
#[derive(Clone, Copy)]
struct Parms<'a> {
    stamp: u32,
    machinename: &'a [u8],
    uid: u32,
    gid: u32,
    gids: &'a [u8],
}

#[tactic(auto, unfolding(crate::specs::Auth::auth_sys))]
fn read_parms<'a>(reader: &mut Reader<'a>) -> Result<Parms<'a>, XdrFault>
    ensures whole { IfOk result (λ a. length a.gids.now % 4 ≡ 0) }
    ensures gives { Gives auth_sys (λ a. record {
      stamp = a.stamp;
      machinename = a.machinename.now;
      uid = a.uid;
      gid = a.gid;
      gids = words_in a.gids.now;
    }) reader.old reader.new result }
{
    Ok(Parms {
        stamp: reader.word()?,
        machinename: reader.opaque(LONGEST_NAME)?,
        uid: reader.word()?,
        gid: reader.word()?,
        gids: read_gids(reader)?,
    })
}

/// What the body of a credential of flavor AUTH_SYS says.
fn parms_of(body: &[u8]) -> Result<Parms<'_>, XdrFault>
    ensures whole { IfOk result (λ a. length a.gids.now % 4 ≡ 0) }
    ensures gives { GivesWhole (λ a. record {
      stamp = a.stamp;
      machinename = a.machinename.now;
      uid = a.uid;
      gid = a.gid;
      gids = words_in a.gids.now;
    }) (whole auth_sys body.now) result }
{
    let mut reader = Reader::new(body);
    let parms = read_parms(&mut reader)?;
    reader.end()?;
    Ok(parms)
}

/// Who calls with a credential.
#[tactic(auto, unfolding(crate::specs::Auth::caller_of, crate::specs::Auth::words_in))]
fn who_of(flavor: u32, body: &[u8]) -> Result<Who<'_>, CredFault>
    ensures whole { IfOk result (λ who. length who.gids.now % 4 ≡ 0) }
    ensures ok { IfOk result (λ who. caller_of (record { flavor = flavor; body = body.now })
        ≡ Ok (record { uid = who.uid; gid = who.gid; gids = words_in who.gids.now })) }
    ensures err { IfErr result (λ fault. caller_of (record { flavor = flavor; body = body.now }) ≡ Err fault) }
{
    match flavor {
        AUTH_NONE => Ok(Who {
            uid: NOBODY,
            gid: NOBODY,
            gids: &body[..0],
        }),
        AUTH_SYS => match parms_of(body) {
            Ok(parms) => Ok(Who {
                uid: parms.uid,
                gid: parms.gid,
                gids: parms.gids,
            }),
            Err(_) => Err(CredFault::BadCred),
        },
        _ => Err(CredFault::TooWeak),
    }
}

/// Reads the credential and the verifier that follow a call's head: who calls, and the bytes of the
/// arguments. The first refusal that fits is answered: a credential that does not read, a verifier
/// that does not read, and then what the credential says. It takes no memory.
#[tactic(auto, unfolding(crate::specs::Auth::credential_of))]
pub fn read_cred(tail: &[u8]) -> Result<(Who<'_>, &[u8]), CredFault>
    ensures whole { IfOk result (λ r. length r.0.gids.now % 4 ≡ 0) }
    ensures who { IfOk result (λ r. credential_of tail.now
        ≡ Ok ((record { uid = r.0.uid; gid = r.0.gid; gids = words_in r.0.gids.now }), r.1.now)) }
    ensures fault { IfErr result (λ fault. credential_of tail.now ≡ Err fault) }
{
    let mut reader = Reader::new(tail);
    let Ok(credential) = read_auth(&mut reader) else {
        return Err(CredFault::BadCred);
    };
    let Ok(_) = read_auth(&mut reader) else {
        return Err(CredFault::BadVerf);
    };
    let who = who_of(credential.flavor, credential.body)?;
    Ok((who, reader.rest()))
}

/// Who calls, owned, or `NoMemory`.
pub fn own_cred(alloc: Global, who: &Who<'_>) -> Result<Cred, NoMemory>
    ensures uid { IfOk result (λ cred. cred.uid ≡ who.now.uid) }
    ensures gid { IfOk result (λ cred. cred.gid ≡ who.now.gid) }
    ensures gids { IfOk result (λ cred. cred.gids ≡ who.now.gids.now) }
{
    Ok(Cred {
        uid: who.uid,
        gid: who.gid,
        gids: Text::from_slice(alloc, who.gids)?,
    })
}

/// Credentials, verifiers and what AUTH_SYS says are lawful grammars: they are read as they are
/// written, and no spelling of one begins another.
pub fn credential_is_lawful()
    ensures opaque_auth { Laws opaque_auth }
    ensures auth_sys { Laws auth_sys }
{}
