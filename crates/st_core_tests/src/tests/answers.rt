//! What a start or a turn is to do.
use super::few::Few;
use super::row::More;
use super::shown::Did;
use st_core::{Call, Decision, Done, Kind, Reason, Tag, Timer};

/// A turn handles the event of this number and kind in a state, finishes it, and leads to a state.
pub fn handled(number: u64, kind: Kind, before: u32, after: u32) -> Did {
    let handle = Call::Handle {
        number,
        kind,
        state: before,
    };
    Did {
        event: Some(number),
        done: Done::Finished,
        calls: Few::none().and(handle),
        before,
        after,
        replied: Few::none(),
        inserted: Few::none(),
        set: Few::none(),
        sent: Few::none(),
    }
}

/// A machine starts in a state, with no enter call.
pub fn started(state: u32) -> Did {
    Did {
        event: None,
        done: Done::Started,
        calls: Few::none(),
        before: state,
        after: state,
        replied: Few::none(),
        inserted: Few::none(),
        set: Few::none(),
        sent: Few::none(),
    }
}

/// It does more besides, in this order.
pub fn did_more(did: Did, more: &[More]) -> Did {
    let mut whole = did;
    for one in more {
        whole = whole.with(*one);
    }
    whole
}

impl Did {
    /// It does one thing besides.
    fn with(self, more: More) -> Did {
        match more {
            More::Enters => self.entered(),
            More::Ends(reason, word) => self.ended(reason, word),
            More::PutsOff => self.put_off(),
            More::Inserts(number) => self.inserting(number),
            More::Sets(timer, time) => self.asking(timer, Decision::Set(time)),
            More::Cancels(timer) => self.asking(timer, Decision::Cancel),
            More::Updates(timer) => self.asking(timer, Decision::Update),
            More::Replies(tag) => self.replying(tag),
            More::Sends(number) => self.sending(number),
        }
    }

    fn calling(self, call: Call<u32>) -> Did {
        Did {
            calls: self.calls.and(call),
            ..self
        }
    }

    /// The state that it leads to is entered.
    pub fn entered(self) -> Did {
        let enter = Call::Enter {
            old: self.before,
            state: self.after,
        };
        self.calling(enter)
    }

    /// The machine ends.
    pub fn ended(self, reason: Reason, word: u32) -> Did {
        let terminate = Call::Terminate {
            reason,
            state: self.after,
            word,
        };
        Did {
            done: Done::Ended(reason, word),
            ..self.calling(terminate)
        }
    }

    /// The event is postponed.
    fn put_off(self) -> Did {
        Did {
            done: Done::PutOff,
            ..self
        }
    }

    /// An event with this number is inserted.
    fn inserting(self, number: u64) -> Did {
        Did {
            inserted: self.inserted.and(number),
            ..self
        }
    }

    /// Something is asked of a timer.
    fn asking(self, timer: Timer, decision: Decision) -> Did {
        Did {
            set: self.set.and((timer, decision)),
            ..self
        }
    }

    /// A request is answered.
    fn replying(self, tag: Tag) -> Did {
        Did {
            replied: self.replied.and(tag),
            ..self
        }
    }

    /// A message with this number is sent.
    fn sending(self, number: u64) -> Did {
        Did {
            sent: self.sent.and(number),
            ..self
        }
    }
}
