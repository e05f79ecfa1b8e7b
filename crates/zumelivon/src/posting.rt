//! What comes to a hosted machine from outside.
ghost use Rattle.std.specs.Prelude.{◌≡◌, ◌≢◌, ◌⊎◌, true, false, Ok, Err, Some};
ghost use Rattle.st_answers.specs.declared.answer.Answer.TheVariants as answer;
ghost use Rattle.st_answers.specs.declared.command.Command.TheVariants as command;
ghost use Rattle.st_core.specs.Run.{Does};
ghost use Rattle.st_embedded.specs.Hosted.{Hosted, hosted_callbacks};
ghost use Rattle.st_embedded.specs.Table.{machine_at, Changes, Same};
ghost use Rattle.st_events.specs.Refusal.{number_of};
ghost use Rattle.st_events.specs.declared.refused.Refused.{Refused};
ghost use Rattle.st_hosted.specs.declared.payload.Payload.{Payload};
ghost use Rattle.zumelivon.specs.Calls.{PostsHosted, Replies};
ghost use Rattle.zumelivon.specs.Exports.{OnlyHosted, content_in};
ghost use Rattle.zumelivon.specs.Reading.{is_entry, entry_in};

use crate::codes::{DONE, INVALID, NO_MEMORY, NO_SUCH_MACHINE, NOTHING};
use crate::reading::entry_of;
use st_embedded::{Machines, post_at, reply_at};
use st_events::Refusal;
use st_hosted::Payload;
use std::alloc::Global;

/// The number of a refusal.
pub(crate) fn number_of(refusal: Refusal) -> u32
    ensures number { result ≡ number_of refusal }
    ensures not_closed { result ≢ 105 }
{
    u32::from(refusal.number())
}

pub(crate) fn post(
    alloc: Global,
    all: &mut Machines,
    id: u64,
    entry: u32,
    code: u64,
    bytes: &[u8],
    number: &mut u64,
) -> u32
    ensures does { PostsHosted id entry (content_in code bytes.now) result number.old number.new all.old all.new }
    ensures not_closed { result ≢ 105 }
{
    let Some(entry) = entry_of(entry) else {
        return INVALID;
    };
    let Ok(content) = Payload::of(alloc, code, bytes) else {
        return NO_MEMORY;
    };
    match post_at(&mut all.hosted, id, entry, content) {
        Ok(posted) => {
            *number = posted;
            DONE
        }
        Err(refused) => number_of(refused.refusal),
    }
}

pub(crate) fn reply(
    alloc: Global,
    all: &mut Machines,
    id: u64,
    number: u64,
    code: u64,
    bytes: &[u8],
) -> u32
    ensures does { Replies id number (content_in code bytes.now) result all.old all.new }
    ensures not_closed { result ≢ 105 }
{
    let Ok(content) = Payload::of(alloc, code, bytes) else {
        return NO_MEMORY;
    };
    match reply_at(&mut all.hosted, id, number, content) {
        Some(true) => DONE,
        Some(false) => NOTHING,
        None => NO_SUCH_MACHINE,
    }
}
