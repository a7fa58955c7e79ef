//! Reads and writes texts of lines and words: each line is ended by the byte 0A, one blank
//! separates words, numbers are decimal without leading zeros, and bytes are hexadecimal in
//! capitals.
//!
//! `TextLines` and `Words` read such a text, `read_number`, `read_hex` and `read_hex_array` its
//! words; `write_number`, `write_hex`, `add_word`, `add_number`, `add_hex` and `end_line` write
//! one. What is written is read back, and each value is read from one word only.
#![tactic(auto)]

mod cutting;
mod hexadecimal;
mod laws;
mod lines;
mod numbers;
mod words;
mod writing;

pub use hexadecimal::{read_hex, read_hex_array, write_hex};
pub use laws::{
    text_may_be_cut_after_a_line, written_bytes_are_read, written_lines_are_read,
    written_number_is_read, written_words_are_read,
};
pub use lines::{TextLines, split_line};
pub use numbers::{read_number, write_number};
pub use words::Words;
pub use writing::{add_hex, add_number, add_word, end_line};
