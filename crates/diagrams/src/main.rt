//! A program that prints the state diagrams of the example modules.
#![tactic(auto)]

mod lamp_names;
mod mail_names;

use lamp_module::{Bulb, Lamp, Light, Press};
use lamp_names::LampNames;
use mail_module::{Command, Content, Mail, Mailbox, Phase, Session, Take};
use mail_names::MailNames;
use st_diagram::{dot, mermaid};
use st_events::{Kind, MachineId, Tag, Timer};
use std::alloc::{AllocError, Global};
use std::process::ExitCode;

/// The events of a lamp.
const PRESSES: [(Kind, Press); 2] = [
    (Kind::Cast, Press::Switch),
    (Kind::Cast, Press::Renew(Bulb { left: 9 })),
];

/// The states of a lamp, the first one first.
const LIGHTS: [Light; 2] = [Light::Off, Light::On];

/// The diagram of a lamp whose bulb lasts.
fn lamp(alloc: Global) -> Result<String, AllocError> {
    let bulb = Bulb { left: 1 };
    mermaid(alloc, &Lamp, &LampNames, &bulb, &LIGHTS, &PRESSES)
}

/// The same in DOT.
fn lamp_in_dot(alloc: Global) -> Result<String, AllocError> {
    let bulb = Bulb { left: 1 };
    dot(alloc, &Lamp, &LampNames, &bulb, &LIGHTS, &PRESSES)
}

/// The diagram of a mailbox with two mails, and with one try left.
fn mail(alloc: Global) -> Result<String, AllocError> {
    let client = MachineId { slot: 0, serial: 1 };
    let tag = Tag {
        machine: MachineId { slot: 1, serial: 2 },
        request: 1,
    };
    let mailbox = Mailbox {
        client,
        owner: 1,
        pin: 1234,
        mails: 2,
    };
    let data = Session {
        mailbox,
        user: 1,
        tries: 1,
    };
    let take = Take { tag, number: 1 };
    let states = [
        Phase::Greeted,
        Phase::Named,
        Phase::Open,
        Phase::Busy(take),
        Phase::Closing,
    ];
    let call = Kind::Call(tag);
    let events = [
        (call, Content::Asked(Command::User(1))),
        (call, Content::Asked(Command::Pass(1234))),
        (call, Content::Asked(Command::Pass(1))),
        (call, Content::Asked(Command::Stat)),
        (call, Content::Asked(Command::Take(1))),
        (call, Content::Asked(Command::Take(9))),
        (call, Content::Asked(Command::Noop)),
        (call, Content::Asked(Command::Quit)),
        (call, Content::Asked(Command::Unknown)),
        (Kind::Info, Content::Done),
        (Kind::Timeout(Timer::Event), Content::TimeOut),
        (Kind::Timeout(Timer::Named(1)), Content::TimeOut),
        (Kind::Timeout(Timer::State), Content::TimeOut),
    ];
    mermaid(alloc, &Mail, &MailNames, &data, &states, &events)
}

/// All diagrams.
fn all(alloc: Global) -> Result<String, AllocError> {
    let mut text = lamp(alloc)?;
    let other = lamp_in_dot(alloc)?;
    text.push_str(other.as_str())?;
    let other = mail(alloc)?;
    text.push_str(other.as_str())?;
    Ok(text)
}

fn main(rt: HostRuntime) -> ExitCode {
    match all(rt.alloc()) {
        Ok(text) => match print!(rt; "{text}") {
            Ok(()) => ExitCode::SUCCESS,
            Err(_) => ExitCode::FAILURE,
        },
        Err(_) => {
            let _ = eprintln!(rt; "diagrams: no memory");
            ExitCode::FAILURE
        }
    }
}
