//! A run queue of tokens.
ghost use Rattle.std.specs.Prelude.{◌≡◌, ◌++◌, [], ◌∷◌, OnOk, OnErr, IfOk};
ghost use Rattle.st_pool_core.specs.Queues.{first_of, without_first};

use st_events::{PlainList, Token};
use std::alloc::{AllocError, Global};
use std::collections::VecDeque;
use std::marker::Model;

/// A run queue: first in, first out. Contracts see its tokens, the first one in front.
#[derive(Drop)]
pub(crate) struct TokenQueue {
    tokens: VecDeque<Token>,
}

impl Model for TokenQueue {
    ghost use Rattle.std.specs.Prelude.{List};
    ghost use Rattle.st_events.specs.declared.token.Token.{Token};

    ghost Value = { List Token };

    ghost view = { λ queue. queue.tokens.items };
}

impl TokenQueue {
    /// No token. It takes no memory.
    pub(crate) fn new(alloc: Global) -> TokenQueue
        ensures { result ≡ [] }
    {
        TokenQueue {
            tokens: VecDeque::new(alloc),
        }
    }

    /// Puts a token last. Where there is no memory, all stays as it was.
    pub(crate) fn push(&mut self, token: Token) -> Result<(), AllocError>
        ensures pushed { OnOk result (self.new ≡ self.old ++ token ∷ []) }

        ensures unchanged { OnErr result (self.new ≡ self.old) }
    {
        match self.tokens.push_back(token) {
            Ok(()) => Ok(()),
            Err(_) => Err(AllocError),
        }
    }

    /// Takes the first token out.
    pub(crate) fn pop(&mut self) -> Option<Token>
        ensures first { result ≡ first_of self.old }
        ensures left { self.new ≡ without_first self.old }
    {
        self.tokens.pop_front()
    }

    /// The tokens, the first one in front. Where there is no memory, nothing is listed.
    pub(crate) fn list(&self, alloc: Global) -> Result<PlainList<Token>, AllocError>
        ensures { IfOk result (λ list. list ≡ self.now) }
    {
        let (front, back) = self.tokens.as_slices();
        let mut list = Vec::with_capacity(alloc, self.tokens.len())?;
        list.extend_from_slice(front)?;
        list.extend_from_slice(back)?;
        Ok(PlainList::from(list))
    }
}
