//! Cuts the text of an expression file into tokens, each a slice of the text. It knows words,
//! numbers and marks, spaces and comments, and the places of all of them; it knows no grammar. It
//! takes no memory.
#![tactic(auto)]

mod bytes;
mod cursor;
mod front;
mod gap;
mod laws;
mod token;
mod tokens;

pub use laws::tokens_are_unique;
pub use token::{LexFault, LexKind, Token, TokenKind};
pub use tokens::Tokens;
