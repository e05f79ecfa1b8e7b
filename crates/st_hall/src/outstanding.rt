//! Whether a machine kept the token by which it was served.
ghost use Rattle.std.specs.Prelude.{◌≡◌, Some, None};
ghost use Rattle.st_hall.specs.Outstanding.{is_outstanding, served_as, unserved_as};

use crate::Served;
use st_cell::Next;
use st_registry::{Refusal, Token};

/// Whether a machine that refused a turn for this reason has its token outstanding still.
pub(crate) fn is_outstanding(refusal: Refusal) -> bool
    ensures { result ≡ is_outstanding refusal }
{
    match refusal {
        Refusal::Exhausted | Refusal::Moment | Refusal::NoMemory => true,
        _ => false,
    }
}

/// No turn was made for a token, for this reason.
pub(crate) fn unserved(token: Token, refusal: Refusal) -> Served
    ensures { result ≡ unserved_as token refusal }
{
    let token = if is_outstanding(refusal) {
        Some(token)
    } else {
        None
    };
    Served {
        token,
        refusal: Some(refusal),
    }
}

/// What comes of a token by which a machine was given a turn.
pub(crate) fn served(token: Token, next: Next) -> Served
    ensures { result ≡ served_as token next }
{
    let token = match next {
        Next::Again(_) => Some(token),
        Next::Rest => None,
    };
    Served {
        token,
        refusal: None,
    }
}

/// What comes of a token whose machine's message was delivered or is lost: the machine is to be served again.
pub(crate) fn delivered(token: Token) -> Served
    ensures { result ≡ record { token = Some token; refusal = None } }
{
    Served {
        token: Some(token),
        refusal: None,
    }
}
