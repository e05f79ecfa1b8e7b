//! Tokens are compared.
use super::host::same;
use st_client::Token;
use std::process::Abort;

/// Looks that this token is there, or none.
pub fn is_token(rt: &impl Abort, word: &str, found: Option<Token>, wanted: Option<Token>) {
    same(rt, word, &found, &wanted);
}

/// Looks that a token comes back, or that none does.
pub fn comes_back(rt: &impl Abort, word: &str, found: Option<Token>, token: Token, comes: bool) {
    same(rt, word, &found, &comes.then_some(token));
}
