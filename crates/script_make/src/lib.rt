//! A generator of scripts. A made script has eleven fixed lines and then as many as are wanted, each made from four
//! draws of a small generator of numbers.
#![tactic(auto)]

mod boot;
mod draws;
mod examples;
mod laws;
mod line_kind;
mod lines;
mod put;
mod state;

pub use boot::boot_line;
pub use laws::{lines_go_on, lines_have_no_line_feed, script_has_count_lines};
pub use lines::line_of;
pub use state::MakeState;
