//! What is taken out of a hosted machine: replies and messages.
ghost use Rattle.std.specs.Bool.{OnFalse, OnTrue};
ghost use Rattle.std.specs.Prelude.{◌≡◌, ◌≢◌, ◌<◌, ◌≤◌, Some, length};
ghost use Rattle.st_core.specs.Replies.{peek_of};
ghost use Rattle.st_hosted.specs.declared.payload.Payload.{Payload};
ghost use Rattle.zumelivon.specs.Calls.{CollectsContent, TakesMessage, tag_of};
ghost use Rattle.zumelivon.specs.Showing.{flat_content};

use crate::codes::{DONE, GONE, NO_SUCH_MACHINE, NOTHING, STOPPED, TOO_SMALL};
use crate::flat_content::FlatContent;
use crate::flat_message::FlatMessage;
use crate::showing::{content_of, is_longer, message_of, write_content};
use st_core::Core;
use st_embedded::{Machines, collect_at, take_out_at};
use st_hosted::HostAnswer;
use st_requests::Collected;

/// Says whether the reply to a call has more bytes than a room has places; then it is shown without its bytes.
fn is_too_long(core: &Core<HostAnswer>, number: u64, content: &mut FlatContent, room: &[u8]) -> bool
    ensures longer { OnTrue result ((reply : Payload) × (peek_of core.now.machine (tag_of core.now number) ≡ Some reply) × (content.new ≡ flat_content reply) × (length room.now < length reply.bytes)) }
    ensures fits { OnFalse result ((reply : Payload) → peek_of core.now.machine (tag_of core.now number) ≡ Some reply → length reply.bytes ≤ length room.now) }
    ensures kept { OnFalse result (content.new ≡ content.old) }
{
    match core.peek(core.tag(number)) {
        Some(reply) => {
            if !is_longer(reply, room) {
                return false;
            }
            *content = content_of(reply);
            true
        }
        None => false,
    }
}

pub(crate) fn collect(
    all: &mut Machines,
    id: u64,
    number: u64,
    content: &mut FlatContent,
    room: &mut [u8],
) -> u32
    ensures does { CollectsContent id number result content.old content.new room.old room.new all.old all.new }
    ensures not_closed { result ≢ 105 }
{
    let Some(core) = all.hosted.get(&id) else {
        return NO_SUCH_MACHINE;
    };
    if is_too_long(core, number, content, room) {
        return TOO_SMALL;
    }
    match collect_at(&mut all.hosted, id, number) {
        None => NO_SUCH_MACHINE,
        Some(Collected::Waiting) => NOTHING,
        Some(Collected::Gone) => GONE,
        Some(Collected::Stopped(reason)) => {
            *content = FlatContent {
                code: 0,
                length: 0,
                reason,
                unused: 0,
            };
            STOPPED
        }
        Some(Collected::Reply(reply)) => {
            *content = content_of(&reply);
            write_content(&reply, room);
            DONE
        }
    }
}

pub(crate) fn take_out(all: &mut Machines, id: u64, shown: &mut FlatMessage, room: &mut [u8]) -> u32
    ensures does { TakesMessage id result shown.old shown.new room.old room.new all.old all.new }
    ensures not_closed { result ≢ 105 }
{
    let Some(core) = all.hosted.get(&id) else {
        return NO_SUCH_MACHINE;
    };
    match core.first_message() {
        None => return NOTHING,
        Some(message) => {
            if is_longer(&message.content, room) {
                *shown = message_of(message);
                return TOO_SMALL;
            }
        }
    }
    match take_out_at(&mut all.hosted, id) {
        Some(Some(message)) => {
            *shown = message_of(&message);
            write_content(&message.content, room);
            DONE
        }
        Some(None) => NOTHING,
        None => NO_SUCH_MACHINE,
    }
}
