//! What the lines go to.

use crate::lift::Lift;
use crate::server::Server;
use keeper_module::Connection;
use mail_module::Mail;
use st_core::Refusal;
use std::alloc::Global;

/// The session that was begun last.
#[derive(Drop)]
pub enum Session {
    /// None was begun.
    Absent,
    /// That of a lift.
    Lift(Lift),
    /// That of a mailbox.
    Mail(Server<Mail>),
    /// That of a connection of a pool.
    Keeper(Server<Connection>),
}

/// What is answered where there is no session to hand a line to, or to begin.
fn no_session(alloc: Global) -> Result<String, Refusal> {
    Ok(String::from_str(alloc, "no session\n")?)
}

impl Session {
    /// Takes a line of the input, and answers what it brings about, in lines. The line `session NAME` begins a session, at
    /// moment 0.
    pub fn take_line(&mut self, alloc: Global, text: &str) -> Result<String, Refusal> {
        match text.trim().strip_prefix("session ") {
            Some(name) => self.begin(alloc, name.trim()),
            None => self.hand_on(alloc, text),
        }
    }

    /// The session of a name, if there is one.
    fn of(alloc: Global, name: &str) -> Result<Option<Session>, Refusal> {
        match name {
            "lift" => Ok(Some(Session::Lift(Lift::new(alloc)?))),
            "mail" => Ok(Some(Session::Mail(Server::new(alloc)))),
            "keeper" => Ok(Some(Session::Keeper(Server::new(alloc)))),
            _ => Ok(None),
        }
    }

    /// Begins the session of a name. Where there is none of that name, the session that was begun last goes on.
    fn begin(&mut self, alloc: Global, name: &str) -> Result<String, Refusal> {
        match Session::of(alloc, name)? {
            Some(session) => {
                *self = session;
                Ok(String::new(alloc))
            }
            None => no_session(alloc),
        }
    }

    /// Hands a line to the session.
    fn hand_on(&mut self, alloc: Global, text: &str) -> Result<String, Refusal> {
        match self {
            Session::Absent => no_session(alloc),
            Session::Lift(lift) => lift.take_line(text),
            Session::Mail(server) => server.take_line(text),
            Session::Keeper(server) => server.take_line(text),
        }
    }
}
