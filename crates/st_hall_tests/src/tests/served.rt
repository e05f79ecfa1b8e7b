//! A door is served.
use super::again::is_made_again;
use super::host::{Host, holds};
use st_client::{Machine, Token};
use st_door::Door;
use st_lock::Next;
use std::process::Abort;
use std::sync::Wait;

/// Serves a machine by its token until that rests. A turn that finds no memory gives the token back, and is made again.
pub fn serve(rt: &Host<impl Abort>, threads: &impl Wait, machine: &Machine<Door>, token: Token) {
    for _ in threads.forever() {
        match machine.turn(threads, token, 0) {
            Ok(Next::Again(again)) => holds(rt, "the same token", again == token),
            Ok(Next::Rest) => return,
            Err(refused) => {
                holds(rt, "the token comes back", refused.value == token);
                is_made_again(rt, refused.refusal);
            }
        }
    }
}
