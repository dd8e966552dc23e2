//! What a reply teaches.

ghost use Rattle.std.specs.Prelude.{◌≡◌, Some, option_and_then};
ghost use Rattle.nfs3_types.specs.Handles.{handle_in};
ghost use Rattle.workload.specs.Drive.{learned, learned_by, or_else};

use crate::choice::Kind;
use nfs3_types::{Body, Handle, Reply, Status, Text};

/// The handle of this text, where it is one of this service; else the other.
fn handle_or(text: &Text, old: Option<Handle>) -> Option<Handle>
    ensures { result ≡ or_else (handle_in text.now) old }
{
    match Handle::of(text.as_slice()) {
        Some(handle) => Some(handle),
        None => old,
    }
}

/// The handle of a file that was made, where it was told; else the other.
fn made_or(object: &Option<Text>, old: Option<Handle>) -> Option<Handle>
    ensures { result ≡ or_else (option_and_then handle_in object.now) old }
{
    match object {
        Some(text) => handle_or(text, old),
        None => old,
    }
}

/// The handle that is known for the name of a call of this kind, after a reply of status OK.
fn learned_by(kind: Kind, body: &Body, old: Option<Handle>) -> Option<Handle>
    ensures { result ≡ learned_by kind body.now old }
{
    match (kind, body) {
        (Kind::Finding, Body::Lookup(found)) => handle_or(&found.object, old),
        (Kind::Making, Body::Create(made)) => made_or(&made.object, old),
        (Kind::Removing, _) => None,
        _ => old,
    }
}

/// The handle that is known for the name of a call of this kind, after its reply.
pub(crate) fn learned(kind: Kind, reply: &Reply, old: Option<Handle>) -> Option<Handle>
    ensures { result ≡ learned kind (Some reply.now) old }
{
    match reply.status {
        Status::Ok => learned_by(kind, &reply.body, old),
        _ => old,
    }
}
