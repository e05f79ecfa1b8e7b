//! Events are sent through a port, and the machine is scheduled.
ghost use Rattle.std.specs.Prelude.{◌≡◌, length, IfOk, IfErr, OnErr, MatchResult};
ghost use Rattle.st_core.specs.Callbacks.{callbacks_of};
ghost use Rattle.st_answers.specs.declared.entry.Entry.TheVariants.{Call, Cast, Info};
ghost use Rattle.st_lock.specs.Ports.{posted};
ghost use Rattle.st_client.specs.Called.{NamesMachine, IsSent, IsUnsent, IsNotAsked};

use crate::{RequestId, Sent, Wake};
use st_lock::{Entry, Module, Port, Refusal, Refused, Token};
use st_wake::schedule;
use std::sync::{Arc, Wait};

/// Posts an event, and schedules the machine.
fn send<M: Module, W: Wake, R: Wait>(
    rt: &R,
    port: &mut Port<M>,
    wake: &W,
    entry: Entry,
    content: M::Content,
) -> Result<Sent, Refused<M::Content>>
    ensures does { MatchResult result (λ sent. IsSent (callbacks_of M.Module M.State.eq) port.old.machine (length port.old.posts) entry content sent.number sent.left)
        (IsUnsent (callbacks_of M.Module M.State.eq) port.old.machine (length port.old.posts) entry content) }
    ensures posted { IfOk result (λ sent. port.new ≡ posted (record { number = sent.number; entry = entry; content = content }) port.old) }
    ensures token { IfOk result (λ sent. NamesMachine port.old.machine sent.left) }

    ensures unchanged { OnErr result (port.new ≡ port.old) }
    ensures returned { IfErr result (λ refused. refused.value ≡ content) }
{
    match port.post(rt, entry, content) {
        Ok(posted) => Ok(Sent {
            number: posted.number,
            left: schedule(rt, wake, posted.wake),
        }),
        Err(refused) => Err(refused),
    }
}

/// Casts: posts an event that wants no reply, and schedules the machine. A token that could not be scheduled comes back,
/// and the event stands.
///
/// Refused as `Port::post` is: with `Stopped`, `Exhausted` and `NoMemory`. Then nothing was posted, and the content comes
/// back.
///
/// Manual: `cast/2`.
pub fn cast<M: Module, W: Wake, R: Wait>(
    rt: &R,
    port: &mut Port<M>,
    wake: &W,
    content: M::Content,
) -> Result<Sent, Refused<M::Content>>
    ensures does { MatchResult result (λ sent. IsSent (callbacks_of M.Module M.State.eq) port.old.machine (length port.old.posts) Cast content sent.number sent.left)
        (IsUnsent (callbacks_of M.Module M.State.eq) port.old.machine (length port.old.posts) Cast content) }
    ensures posted { IfOk result (λ sent. port.new ≡ posted (record { number = sent.number; entry = Cast; content = content }) port.old) }
    ensures token { IfOk result (λ sent. NamesMachine port.old.machine sent.left) }

    ensures unchanged { OnErr result (port.new ≡ port.old) }
    ensures returned { IfErr result (λ refused. refused.value ≡ content) }
{
    send(rt, port, wake, Entry::Cast, content)
}

/// Posts a message that is neither a cast nor a call, as `cast` does.
///
/// Refused as `cast` is.
///
/// Manual: `event_type()`, the bullet on `info`.
pub fn info<M: Module, W: Wake, R: Wait>(
    rt: &R,
    port: &mut Port<M>,
    wake: &W,
    content: M::Content,
) -> Result<Sent, Refused<M::Content>>
    ensures does { MatchResult result (λ sent. IsSent (callbacks_of M.Module M.State.eq) port.old.machine (length port.old.posts) Info content sent.number sent.left)
        (IsUnsent (callbacks_of M.Module M.State.eq) port.old.machine (length port.old.posts) Info content) }
    ensures posted { IfOk result (λ sent. port.new ≡ posted (record { number = sent.number; entry = Info; content = content }) port.old) }
    ensures token { IfOk result (λ sent. NamesMachine port.old.machine sent.left) }

    ensures unchanged { OnErr result (port.new ≡ port.old) }
    ensures returned { IfErr result (λ refused. refused.value ≡ content) }
{
    send(rt, port, wake, Entry::Info, content)
}

/// Sends a request, and schedules the machine. What comes of it is asked for by the request's id. A token that could not
/// be scheduled comes back, and the request stands.
///
/// Refused as `Port::post` is: with `Stopped`, `Exhausted` and `NoMemory`. Then nothing was posted, and the content comes
/// back.
///
/// Manual: `send_request/2`.
pub fn send_request<M: Module, W: Wake, R: Wait>(
    rt: &R,
    port: &mut Port<M>,
    wake: &W,
    content: M::Content,
) -> Result<(RequestId<M>, Option<Token>), Refused<M::Content>>
    ensures does { MatchResult result (λ sent. IsSent (callbacks_of M.Module M.State.eq) port.old.machine (length port.old.posts) Call content sent.0.request sent.1)
        (IsNotAsked (callbacks_of M.Module M.State.eq) port.old.machine (length port.old.posts) content) }
    ensures posted { IfOk result (λ sent. port.new ≡ posted (record { number = sent.0.request; entry = Call; content = content }) port.old) }
    ensures id { IfOk result (λ sent. sent.0.machine ≡ port.old.machine) }
    ensures token { IfOk result (λ sent. NamesMachine port.old.machine sent.1) }

    ensures unchanged { OnErr result (port.new ≡ port.old) }
    ensures returned { IfErr result (λ refused. refused.value ≡ content) }
{
    let machine = match Arc::try_clone(port.machine()) {
        Ok(machine) => machine,
        Err(_) => return Err(Refused::new(Refusal::NoMemory, content)),
    };
    match send(rt, port, wake, Entry::Call, content) {
        Ok(sent) => Ok((RequestId::new(machine, sent.number), sent.left)),
        Err(refused) => Err(refused),
    }
}
