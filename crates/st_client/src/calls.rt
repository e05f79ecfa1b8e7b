//! Requests are waited for, asked about and answered.
ghost use Rattle.std.specs.Prelude.{◌≡◌, length, None, IfOk, IfErr, IfSome, OnErr, MatchResult};
ghost use Rattle.st_answers.specs.declared.command.Command.TheVariants as command;
ghost use Rattle.st_core.specs.Callbacks.{callbacks_of};
ghost use Rattle.st_scheduled.specs.Answered.{collected_as, replied_as};
ghost use Rattle.st_lock.specs.Machines.{id_of, IsToldSomewhere};
ghost use Rattle.st_client.specs.Called.{IsAsked, IsCall, IsNotAsked, IsReceived, request_in, token_in};

use crate::{Called, RequestId, Wake, send_request};
use st_collection::Request;
use st_lock::{Collected, Machine, Module, Port, Refusal, Refused, Tag};
use std::sync::Wait;

/// Calls: posts an event that wants a reply, schedules the machine, and waits for the reply or the machine's end. Where the
/// token could not be scheduled it does not wait, and answers both the request's id and the token.
///
/// Refused as `Port::post` is: with `Stopped`, `Exhausted` and `NoMemory`. Then nothing was posted, and the content comes
/// back. A refusal later than that is answered as `Called::Uncollected`.
///
/// It waits for good where nobody serves the machine. No contract says that it ends.
///
/// Manual: `call/2`.
pub fn call<M: Module, W: Wake, R: Wait>(
    rt: &R,
    port: &mut Port<M>,
    wake: &W,
    content: M::Content,
) -> Result<Called<M>, Refused<M::Content>>
    ensures does { MatchResult result (IsAsked (callbacks_of M.Module M.State.eq) port.old.machine (length port.old.posts) content)
        (IsNotAsked (callbacks_of M.Module M.State.eq) port.old.machine (length port.old.posts) content) }
    ensures posted { IfOk result (λ called. IsCall content called port.old port.new) }

    ensures unchanged { OnErr result (port.new ≡ port.old) }
    ensures returned { IfErr result (λ refused. refused.value ≡ content) }
{
    let (id, left) = send_request(rt, port, wake, content)?;
    if let Some(token) = left {
        return Ok(Called::Unscheduled(id, token));
    }
    Ok(receive(rt, id))
}

/// Waits for the reply to a request, or the machine's end, and is handed what is kept for it, once: `Machine::wait_collect` of
/// its tag. It never answers `Unscheduled`. Where the machine refuses with `Exhausted` or `NoMemory`, what is kept stays, and
/// the request's id comes back with the refusal.
///
/// It waits for good where nobody serves the machine. No contract says that it ends.
///
/// Manual: `receive_response/1`.
pub fn receive<M: Module, R: Wait>(rt: &R, id: RequestId<M>) -> Called<M>
    ensures received { IsReceived (callbacks_of M.Module M.State.eq) id result }
    ensures request { IfSome (request_in result) (λ tag. tag ≡ id) }
    ensures token { token_in result ≡ None }
{
    match id.machine().wait_collect(rt, id.tag()) {
        Ok(Collected::Reply(content)) => Called::Reply(content),
        Ok(Collected::Stopped(reason)) => Called::Stopped(reason),
        Ok(Collected::Gone) => Called::Gone,
        Ok(Collected::Waiting) => unreachable!(),
        Err(refusal) => Called::Uncollected(id, refusal),
    }
}

/// Asks what is kept for a request, and is handed it, once: `Machine::collect` of its tag.
///
/// Refused with `Exhausted` and `NoMemory`. Then what is kept stays.
///
/// Manual: `check_response/2`, `receive_response/2` with no time.
pub fn check<M: Module, R: Wait>(
    rt: &R,
    id: &RequestId<M>,
) -> Result<Collected<M::Content>, Refusal>
    ensures { IsToldSomewhere (callbacks_of M.Module M.State.eq) id.now.machine (command.Collect id.now) (collected_as result) }
{
    id.machine().collect(rt, id.tag())
}

/// Answers a request of a machine, and says whether it was open: `Machine::reply`.
///
/// Refused with `Exhausted` and `NoMemory`. Then the content comes back, and the request stays open.
///
/// Manual: `reply/2`.
pub fn reply<M: Module, R: Wait>(
    rt: &R,
    machine: &Machine<M>,
    tag: Tag,
    content: M::Content,
) -> Result<bool, Refused<M::Content>>
    ensures does { IsToldSomewhere (callbacks_of M.Module M.State.eq) (id_of machine.now) (command.Reply tag content) (replied_as result) }
    ensures returned { IfErr result (λ refused. refused.value ≡ content) }
{
    machine.reply(rt, tag, content)
}
