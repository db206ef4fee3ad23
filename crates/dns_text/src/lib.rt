//! The words that sessions and reports are made of: types, classes, numbers and bytes, each with its printing and its reading.
//! The layer above may use the words of `specs/` and the calls that are exactly those.
#![tactic(auto)]

mod codes;
mod decimals;
mod digits;
mod names;
mod octets;
mod pieces;

pub use codes::{class_word_in, push_class, push_type, type_word_in};
pub use decimals::{decimal_in, push_decimal, u8_in, u16_in};
pub use names::name_word_in;
pub use octets::{octets_in, push_octets};
pub use pieces::{
    end_line, push_class_word, push_name_word, push_number, push_octets_word, push_text,
    push_type_word, push_word,
};
