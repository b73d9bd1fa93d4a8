//! The script language: what a line means, and the text of a reply.
#![tactic(auto)]

mod examples;
mod feed;
mod forms;
mod numbers;
mod parts;
mod read;
mod text;
mod verbs;
mod words;

pub use feed::{Fed, LineFeed, nothing_is_left, pieces_give_the_lines};
pub use heap_world::{Command, FieldList, Refusal, Reply, Verb};
pub use numbers::{count as read_count, unsigned as read_unsigned};
pub use read::{LineError, read_line};
pub use text::{put, put_number, reply_text};
