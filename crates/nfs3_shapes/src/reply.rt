//! Replies of the shape that their spelling needs.

ghost use Rattle.std.specs.Prelude.{◌↔◌, IsTrue};
ghost use Rattle.nfs3_fits.specs.Shape.{IsBodyOf, IsFailure, HasShape};

use crate::bodies::{is_within, procedure_in};
use nfs3_res::succeeded;
use nfs3_types::{Body, Reply};

/// Whether a body is that of this procedure, within its bounds.
fn is_body_of(procedure: u32, body: &Body) -> bool
    ensures { IsTrue result ↔ IsBodyOf procedure body.now }
{
    procedure == procedure_in(body) && is_within(body)
}

/// Whether this is a failure of a procedure that can fail, which says nothing more.
fn is_failure(procedure: u32, body: &Body) -> bool
    ensures { IsTrue result ↔ IsFailure procedure body.now }
{
    1 <= procedure && procedure <= 21 && matches!(body, Body::Nothing)
}

/// Whether a reply has the shape that its spelling needs: its body is that of its procedure, with texts, lists and handles within
/// bounds, or the procedure failed and says nothing more.
pub fn has_shape(reply: &Reply) -> bool
    ensures { IsTrue result ↔ HasShape reply.now }
{
    if succeeded(reply.status) {
        is_body_of(reply.procedure, &reply.body)
    } else {
        is_failure(reply.procedure, &reply.body)
    }
}
