//! The running of a script: its bytes are taken from a source, its lines are run on a machine as they come, their dumps
//! are added to a shelf, and their replies are put to a sink.
#![tactic(auto)]

mod dumped;
mod input;
mod line;
mod piece;
mod script;

pub use line::reply_to;
pub use plain_machine::Machine;
pub use script::run_script;
