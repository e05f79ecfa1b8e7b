//! What a rule that stops replies.
ghost use Rattle.std.specs.Prelude.{◌≡◌, ◌++◌, IfOk};
ghost use Rattle.std.specs.Option.{option_to_list};
ghost use Rattle.st_table.specs.Lent.{shown, hears};
ghost use Rattle.st_table.specs.Rules.{last_reply_to, reply_of, replies_of};

use crate::at_hand::AtHand;
use crate::expression::operand_of;
use crate::say::said;
use crate::seen::Seen;
use crate::{Ask, Signal, Value};
use st_events::{Replies, Tag};
use std::alloc::{AllocError, Global};

/// A reply, where there is a tag.
fn last_reply_to(to: Seen<'_>, signal: Signal) -> Option<(Tag, Signal)>
    ensures { result ≡ last_reply_to (shown to.entry) signal }
{
    match to {
        Seen::Call(tag) => Some((tag, signal)),
        _ => None,
    }
}

/// The reply that an ask asks for, if any.
fn reply_of(
    alloc: Global,
    at: AtHand<'_>,
    before: &[Value],
    registers: &[Value],
    ask: &Ask,
) -> Result<Option<(Tag, Signal)>, AllocError>
    ensures { IfOk result (λ asked. asked ≡ reply_of (hears at.entry) before.now registers.now ask.now) }
{
    match ask {
        Ask::Reply(to, say) => {
            let to = operand_of(to, at, before, registers);
            let signal = said(alloc, at, before, registers, say)?;
            Ok(last_reply_to(to, signal))
        }
        _ => Ok(None),
    }
}

/// One reply more, if there is one.
fn with_reply(
    mut replies: Replies<Signal>,
    reply: Option<(Tag, Signal)>,
) -> Result<Replies<Signal>, AllocError>
    ensures { IfOk result (λ more. more ≡ replies ++ option_to_list reply) }
{
    match reply {
        Some(reply) => {
            replies.push(reply)?;
            Ok(replies)
        }
        None => Ok(replies),
    }
}

/// The replies that a rule which stops asks for, in order. It may find no memory for more than four.
pub(crate) fn replies_of(
    alloc: Global,
    at: AtHand<'_>,
    before: &[Value],
    registers: &[Value],
    asks: &[Ask],
) -> Result<Replies<Signal>, AllocError>
    ensures { IfOk result (λ replies. replies ≡ replies_of (hears at.entry) before.now registers.now asks.now) }
{
    let mut replies = Replies::new(alloc);
    for ask in asks {
        let asked = reply_of(alloc, at, before, registers, ask)?;
        replies = with_reply(replies, asked)?;
    }
    Ok(replies)
}
