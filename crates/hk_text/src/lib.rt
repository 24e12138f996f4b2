//! Texts as bytes: the tokens of a line, the lines of a text, and numbers in decimal. The readers
//! of models and certificates take their lines apart by these calls, and what is printed is
//! written by them.
#![tactic(auto)]

pub use beginnings::{after_text, is_word, number_of, word_of};
pub use lexemes::TokenKind;
pub use lines::split_line;
pub use numbers::{number_up_to, push_number, push_unsigned};
pub use readings::one_reading;
pub use sets::{push_set, push_values};
pub use texts::{has_text, text_of};
pub use tokenizer::{TextFault, Token, tokens};

mod beginnings;
mod bytes;
mod lexemes;
mod lines;
mod numbers;
mod readings;
mod sets;
mod texts;
mod tokenizer;
