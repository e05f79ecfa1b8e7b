//! Who schedules tokens in tests: a list, from which a thread takes them to serve.
use st_client::{Token, Wake};
use std::alloc::Global;
use std::sync::{Condvar, Mutex, Wait};

/// Tokens that wait to be served. A tray that is closed takes none.
#[derive(Drop)]
pub struct Tray {
    tokens: Mutex<Vec<Token>>,
    told: Condvar,
    is_open: bool,
}

impl Tray {
    /// An empty tray, which is open or not.
    pub fn new(alloc: Global, is_open: bool) -> Tray {
        Tray {
            tokens: Mutex::new(Vec::new(alloc)),
            told: Condvar::new(),
            is_open,
        }
    }

    /// How many tokens wait.
    pub fn len<R: Wait>(&self, rt: &R) -> usize {
        self.tokens.lock(rt).len()
    }

    /// Takes the last token, and waits for one where there is none.
    pub fn take<R: Wait>(&self, rt: &R) -> Token {
        let mut tokens = self.tokens.lock(rt);
        for _ in rt.forever() {
            if let Some(token) = tokens.pop() {
                return token;
            }
            tokens = self.told.wait(rt, tokens);
        }
        unreachable!()
    }
}

impl Wake for Tray {
    fn wake<R: Wait>(&self, rt: &R, token: Token) -> Result<(), Token> {
        if !self.is_open {
            return Err(token);
        }
        match self.tokens.lock(rt).push(token) {
            Ok(()) => {
                self.told.notify_all();
                Ok(())
            }
            Err(failed) => Err(failed.value),
        }
    }
}
