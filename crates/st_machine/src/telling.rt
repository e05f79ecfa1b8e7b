//! What a machine did, told line by line.

use crate::page::Page;
use crate::speaker::Speaker;
use st_answers::{Answer, Call, Done, Report};
use st_events::{Decision, Message, Reason, Time, Timer};
use st_requests::Collected;
use st_table::{Place, Signal};

/// Writes for which reason a machine has ended, and its last word.
fn put_end(reason: Reason, word: u32, page: &mut Page) {
    page.put("stopped ");
    page.put_number(u64::from(reason));
    page.put(" word ");
    page.put_number(u64::from(word));
}

/// Writes how long a time-out lasts.
fn put_time(time: Time, page: &mut Page) {
    match time {
        Time::After(milliseconds) => page.put_number(u64::from(milliseconds)),
        Time::Infinity => page.put("never"),
    }
}

impl Speaker<'_> {
    /// Writes what was asked of a timer.
    fn put_setting(&self, timer: Timer, decision: Decision, page: &mut Page) {
        match decision {
            Decision::Set(_) => page.put(", set "),
            Decision::Cancel => page.put(", cancel "),
            Decision::Update => page.put(", update "),
        }
        page.put(self.timer(timer));
        if let Decision::Set(time) = decision {
            page.put(" ");
            put_time(time, page);
        }
    }

    /// Writes which state was entered, if one was, and what was asked of timers.
    fn put_details(&self, report: &Report<Place>, page: &mut Page) {
        for index in 0..report.calls.len() {
            if let Some(Call::Enter { state, .. }) = report.calls.get(index) {
                page.put(", entered ");
                page.put(self.state(*state));
            }
        }
        for (timer, decision) in report.set.as_slice() {
            self.put_setting(*timer, *decision, page);
        }
    }

    /// Writes what a start or a turn did, and ends the line.
    fn put_report(&self, report: &Report<Place>, page: &mut Page) {
        if let Done::PutOff = report.done {
            page.put(", postponed");
        }
        self.put_details(report, page);
        if let Done::Ended(reason, word) = report.done {
            page.put(", ");
            put_end(reason, word, page);
        }
        page.put("\n");
    }

    /// Tells of a start.
    pub(crate) fn tell_start(&self, report: &Report<Place>, page: &mut Page) {
        page.put("  ");
        page.put(self.name);
        page.put(" starts in ");
        page.put(self.state(report.after));
        self.put_report(report, page);
    }

    /// Tells of the last turn, at a moment.
    pub(crate) fn tell_turn(&self, moment: u64, page: &mut Page) {
        let heard = self.machine.core.module().heard.take();
        let Some(report) = self.machine.report() else {
            return;
        };
        page.put("  ");
        page.put(self.name);
        page.put(" at ");
        page.put_number(moment);
        page.put(": ");
        if let (Some(Call::Handle { kind, .. }), Some(signal)) = (report.calls.get(0), &heard) {
            self.put_event(*kind, signal, page);
        }
        page.put(": ");
        page.put(self.state(report.before));
        page.put(" -> ");
        page.put(self.state(report.after));
        self.put_report(report, page);
    }

    /// Tells that the machine sends a message, which may be lost.
    pub(crate) fn tell_message(&self, message: &Message<Signal>, is_lost: bool, page: &mut Page) {
        page.put("  ");
        page.put(self.name);
        page.put(" sends ");
        self.put_signal(&message.content, page);
        page.put(" to ");
        self.put_machine(message.target, page);
        page.put(if is_lost { ", lost\n" } else { "\n" });
    }

    /// Tells what was collected last, for the call of a number.
    pub(crate) fn tell_collected(&self, number: u64, page: &mut Page) {
        match self.machine.answer() {
            Some(Answer::Collect(Collected::Reply(signal))) => {
                page.put("  ");
                page.put(self.name);
                page.put(" replies ");
                self.put_signal(signal, page);
                page.put(" to call #");
                page.put_number(number);
                page.put("\n");
            }
            Some(Answer::Collect(Collected::Stopped(reason))) => {
                page.put("  call #");
                page.put_number(number);
                page.put(" of ");
                page.put(self.name);
                page.put(": stopped ");
                page.put_number(u64::from(*reason));
                page.put("\n");
            }
            _ => {}
        }
    }

    /// Writes the state, the registers, and how many events wait.
    fn put_look(&self, page: &mut Page) {
        page.put(self.state(self.machine.core.state()));
        let registers = self.machine.core.data();
        for number in 0..registers.len() {
            if let (Some(value), Ok(number)) = (registers.get(number), u32::try_from(number)) {
                page.put(" ");
                page.put(self.book.chart.names.registers.name(number));
                page.put("=");
                self.put_value(value, page);
            }
        }
        page.put(" waiting ");
        page.put_number(self.machine.core.waiting() as u64);
    }

    /// Tells how the machine is.
    pub(crate) fn tell_status(&self, page: &mut Page) {
        page.put(self.name);
        page.put(" ");
        match self.machine.core.ended() {
            Some((reason, word)) => put_end(reason, word, page),
            None => self.put_look(page),
        }
        page.put("\n");
    }
}
