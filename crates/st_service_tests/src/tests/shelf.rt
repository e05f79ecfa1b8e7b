//! Who takes tokens that nobody serves.
use st_wake::{Token, Wake};
use std::alloc::{AllocError, Global};
use std::sync::atomic::{AtomicU64, Ordering};
use std::sync::{Arc, Condvar, Mutex, Wait};

/// The last token that it was given. It refuses so many before it takes one.
#[derive(Drop)]
struct Board {
    token: Mutex<Option<Token>>,
    told: Condvar,
    refusals: AtomicU64,
}

/// A board that threads share.
#[derive(Drop)]
pub struct Shelf {
    board: Arc<Board>,
}

impl Shelf {
    /// It has no token, and refuses none.
    pub fn new(alloc: Global) -> Result<Shelf, AllocError> {
        let board = Board {
            token: Mutex::new(None),
            told: Condvar::new(),
            refusals: AtomicU64::new(0),
        };
        Ok(Shelf {
            board: Arc::new(alloc, board)?,
        })
    }

    /// The same board.
    pub fn another(&self) -> Result<Shelf, AllocError> {
        Ok(Shelf {
            board: Arc::try_clone(&self.board)?,
        })
    }

    /// It is to refuse so many from now on.
    pub fn refuses(&self, refusals: u64) {
        self.board.refusals.store(refusals, Ordering::SeqCst);
    }

    /// How many more it refuses.
    pub fn refusals(&self) -> u64 {
        self.board.refusals.load(Ordering::SeqCst)
    }

    /// Takes the token, and waits for one where there is none.
    pub fn take<R: Wait>(&self, rt: &R) -> Token {
        let mut held = self.board.token.lock(rt);
        for _ in rt.forever() {
            if let Some(token) = *held {
                *held = None;
                return token;
            }
            held = self.board.told.wait(rt, held);
        }
        unreachable!()
    }
}

impl Wake for Shelf {
    fn wake<R: Wait>(&self, rt: &R, token: Token) -> Result<(), Token> {
        if self.refusals() > 0 {
            self.board.refusals.fetch_sub(1, Ordering::SeqCst);
            return Err(token);
        }
        *self.board.token.lock(rt) = Some(token);
        self.board.told.notify_all();
        Ok(())
    }
}
