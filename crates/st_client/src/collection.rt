//! Requests to machines are gathered, and asked about together.
ghost use Rattle.std.specs.Prelude.{◌≡◌, ◌<◌, length, Ok, IfOk, IfErr, OnErr};
ghost use Rattle.st_core.specs.Callbacks.{callbacks_of};
ghost use Rattle.st_client.specs.Checked.{ChecksAny, FindsFirst, IsAnsweredAt, RefusesOne};

use crate::{Checked, RequestId, check};
use st_lock::{Collected, Module, Refusal};
use std::sync::Wait;

/// Requests to machines of this module, with labels, in the order in which they were added.
///
/// Manual: `request_id_collection()`; ours: docs/DECISIONS.md, Collections.
pub type Collection<M, L> = st_collection::Collection<RequestId<M>, L>;

/// Asks about the request at a place.
fn ask<M: Module, L: Copy, R: Wait>(
    rt: &R,
    collection: &Collection<M, L>,
    place: usize,
) -> Result<Collected<M::Content>, Refusal>
    requires { place < length collection.now }
    ensures answered { IfOk result (λ collected. IsAnsweredAt (callbacks_of M.Module M.State.eq) collection.now place (Ok collected)) }
    ensures refusals { IfErr result (λ refusal. RefusesOne (callbacks_of M.Module M.State.eq) collection.now refusal) }
{
    check(rt, collection.get(place))
}

/// The place of the first request that does not wait for its reply, and what it is answered.
fn first_answered<M: Module, L: Copy, R: Wait>(
    rt: &R,
    collection: &Collection<M, L>,
) -> Result<Option<(usize, Collected<M::Content>)>, Refusal>
    ensures found { IfOk result (λ found. FindsFirst (callbacks_of M.Module M.State.eq) collection.now found) }
    ensures refusals { IfErr result (λ refusal. RefusesOne (callbacks_of M.Module M.State.eq) collection.now refusal) }
{
    for place in 0..collection.size() {
        match ask(rt, collection, place)? {
            Collected::Waiting => {}
            collected => return Ok(Some((place, collected))),
        }
    }
    Ok(None)
}

/// Asks about the requests of a collection in their order, up to the first that does not wait for its reply: that one is
/// taken out, and what it is answered comes with its label.
///
/// It answers `NoRequest` where there is no request, and `NoReply` where each waits. Refused as `check` is, with `Exhausted`
/// and `NoMemory`; then nothing is taken out.
///
/// Manual: `check_response/3`, which deletes the request; ours: docs/DECISIONS.md, Collections.
pub fn check_any<M: Module, L: Copy, R: Wait>(
    rt: &R,
    collection: &mut Collection<M, L>,
) -> Result<Checked<M::Content, L>, Refusal>
    ensures checked { IfOk result (λ checked. ChecksAny (callbacks_of M.Module M.State.eq) collection.old checked collection.new) }

    ensures refusals { IfErr result (λ refusal. RefusesOne (callbacks_of M.Module M.State.eq) collection.old refusal) }
    ensures unchanged { OnErr result (collection.new ≡ collection.old) }
{
    if collection.is_empty() {
        return Ok(Checked::NoRequest);
    }
    let Some((place, collected)) = first_answered(rt, collection)? else {
        return Ok(Checked::NoReply);
    };
    let label = collection.take(place);
    match collected {
        Collected::Reply(content) => Ok(Checked::Response(content, label)),
        Collected::Stopped(reason) => Ok(Checked::Stopped(reason, label)),
        Collected::Gone => Ok(Checked::Gone(label)),
        Collected::Waiting => unreachable!(),
    }
}
