//! Machines that send each other messages.
use super::counted::{token, zeros};
use st_pool::{Hand, Machines, Message, Token};
use std::alloc::{AllocError, Global};
use std::sync::Arc;
use std::sync::atomic::{AtomicU64, Ordering};

/// Senders in the first slots, each with so many messages, and their targets in the slots behind them: the senders go round
/// them. A turn delivers the message in the hand; else it takes one out and delivers it; else a target handles a message.
///
/// Each message is refused so many times before it is delivered, as if there were no memory.
#[derive(Drop)]
pub struct Mail {
    each: u64,
    refusals: u64,
    refused: Vec<AtomicU64>,
    outbox: Vec<AtomicU64>,
    carried: Vec<AtomicU64>,
    arrived: Vec<AtomicU64>,
    inbox: Vec<AtomicU64>,
    has_token: Vec<AtomicU64>,
    handled: AtomicU64,
    faults: AtomicU64,
}

impl Mail {
    /// Nothing was sent yet.
    pub fn new(
        alloc: Global,
        senders: usize,
        targets: usize,
        each: u64,
        refusals: u64,
    ) -> Result<Arc<Mail>, AllocError> {
        let mail = Mail {
            each,
            refusals,
            refused: zeros(alloc, senders)?,
            outbox: zeros(alloc, senders)?,
            carried: zeros(alloc, senders)?,
            arrived: zeros(alloc, senders)?,
            inbox: zeros(alloc, targets)?,
            has_token: zeros(alloc, targets)?,
            handled: AtomicU64::new(0),
            faults: AtomicU64::new(0),
        };
        let mail = Arc::new(alloc, mail)?;
        mail.begin_anew();
        Ok(mail)
    }

    /// All senders have their messages to send anew.
    pub fn begin_anew(&self) {
        for outbox in &self.outbox {
            outbox.store(self.each, Ordering::SeqCst);
        }
        for arrived in &self.arrived {
            arrived.store(0, Ordering::SeqCst);
        }
        self.handled.store(0, Ordering::SeqCst);
    }

    /// How many messages were handled by their targets.
    pub fn handled(&self) -> u64 {
        self.handled.load(Ordering::SeqCst)
    }

    /// How many messages were delivered.
    pub fn delivered(&self) -> u64 {
        sum(&self.arrived)
    }

    /// How many messages wait with their senders.
    pub fn waiting(&self) -> u64 {
        sum(&self.outbox)
    }

    /// How many messages were taken out and not delivered.
    pub fn carried(&self) -> u64 {
        sum(&self.carried)
    }

    /// How often a sender was served by another worker than the one that carries its message, a message stood in the hand
    /// with the token of another, or one came out of turn.
    pub fn faults(&self) -> u64 {
        self.faults.load(Ordering::SeqCst)
    }

    /// Counts a fault where the fact does not hold.
    fn expects(&self, fact: bool) {
        if !fact {
            self.faults.fetch_add(1, Ordering::SeqCst);
        }
    }

    /// The next message of the sender in a slot, which leaves its outbox.
    fn take_out(&self, own: Token) -> Option<Message<u64>> {
        let slot = own.machine.slot;
        let outbox = self.outbox.get(slot)?;
        let carried = self.carried.get(slot)?;
        let left = outbox.load(Ordering::SeqCst);
        if left == 0 {
            return None;
        }
        outbox.store(left - 1, Ordering::SeqCst);
        let was_carried = carried.swap(1, Ordering::SeqCst);
        self.expects(was_carried == 0);
        Some(Message {
            sender: own.machine,
            number: self.each.saturating_sub(left).saturating_add(1),
            target: token(self.target_of(slot)).machine,
            content: left,
        })
    }

    /// The slot of the target of the sender in a slot.
    fn target_of(&self, slot: usize) -> usize {
        let targets = self.inbox.len();
        if targets == 0 {
            return 0;
        }
        self.outbox.len().saturating_add(slot % targets)
    }

    /// Whether this delivery is refused.
    fn refuses(&self, slot: usize) -> bool {
        match self.refused.get(slot) {
            Some(refused) if refused.load(Ordering::SeqCst) < self.refusals => {
                refused.fetch_add(1, Ordering::SeqCst);
                true
            }
            _ => false,
        }
    }

    /// Delivers a message; where it is refused, it stays in the hand. The token that it woke goes there too.
    fn deliver(&self, message: Message<u64>, hand: &mut Hand<u64>) {
        let slot = message.sender.slot;
        if self.refuses(slot) {
            hand.message = Some(message);
            return;
        }
        if let (Some(refused), Some(arrived), Some(carried)) = (
            self.refused.get(slot),
            self.arrived.get(slot),
            self.carried.get(slot),
        ) {
            refused.store(0, Ordering::SeqCst);
            let before = arrived.fetch_add(1, Ordering::SeqCst);
            self.expects(message.number == before.saturating_add(1));
            carried.store(0, Ordering::SeqCst);
        }
        hand.woken = self.post(message.target.slot);
    }

    /// Posts to the target in a slot, and issues its token, if it has none.
    fn post(&self, slot: usize) -> Option<Token> {
        let place = slot.saturating_sub(self.outbox.len());
        self.inbox.get(place)?.fetch_add(1, Ordering::SeqCst);
        if self.has_token.get(place)?.swap(1, Ordering::SeqCst) == 0 {
            return Some(token(slot));
        }
        None
    }

    /// The target in a slot handles a message, and keeps its token while there is another.
    fn handle(&self, own: Token) -> Option<Token> {
        let place = own.machine.slot.saturating_sub(self.outbox.len());
        let inbox = self.inbox.get(place)?;
        let has_token = self.has_token.get(place)?;
        if inbox.load(Ordering::SeqCst) > 0 {
            inbox.fetch_sub(1, Ordering::SeqCst);
            self.handled.fetch_add(1, Ordering::SeqCst);
        }
        has_token.store(0, Ordering::SeqCst);
        // A post may have found the token outstanding: then this turn takes it again.
        if inbox.load(Ordering::SeqCst) > 0 && has_token.swap(1, Ordering::SeqCst) == 0 {
            return Some(own);
        }
        None
    }
}

/// The sum of numbers that threads share.
fn sum(numbers: &Vec<AtomicU64>) -> u64 {
    let mut sum = 0u64;
    for number in numbers {
        sum = sum.saturating_add(number.load(Ordering::SeqCst));
    }
    sum
}

impl Machines for Mail {
    ghost use Rattle.std.specs.Prelude.{◌≡◌, IfSome};

    type Content = u64;

    ghost served = { λ token now answer. IfSome answer (λ back. back ≡ token) };

    fn turn(&self, token: Token, _now: u64, hand: &mut Hand<u64>) -> Option<Token> {
        let carried = hand.message.take();
        if let Some(message) = carried {
            self.expects(message.sender == token.machine);
            self.deliver(message, hand);
            return Some(token);
        }
        if token.machine.slot >= self.outbox.len() {
            return match self.handle(token) {
                Some(_) => Some(token),
                None => None,
            };
        }
        let message = self.take_out(token)?;
        self.deliver(message, hand);
        Some(token)
    }
}
