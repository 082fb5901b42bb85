//! Tokens: the parts of the lines of a session, where each token stands, and the leftmost fault of a line.
#![tactic(auto)]

mod bytes;
mod encoding;
mod numbers;
mod steps;
mod texts;
mod tokens;
mod values;

pub use def_language::{LexRefusal, Token, TokenKind};
pub use encoding::utf8_end;
pub use steps::{line_fault, next_token};
pub use values::{null_of, number_of, text_of};
