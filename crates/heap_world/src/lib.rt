//! The world that a script builds: what can be asked of it, what it answers, and how it steps. This is what a machine
//! is proved to do. It speaks of no frames in memory, bitmaps, mark stacks, bytes of cards or lists of regions.
#![tactic(auto)]

mod command;
mod examples;
mod formed;
mod laws;
mod names;
mod reply;
mod sound;

pub use command::{Command, FieldList, Verb};
pub use formed::{formed_graphs_are_packed, graphs_are_formed, slots_lie_in_objects};
pub use laws::{a_child_is_its_parent, a_step_leaves_other_processes, processes_are_isolated};
pub use names::{Card, Label, PageName};
pub use reply::{Refusal, Reply};
pub use sound::{parts_are_sound, sizes_are_bounded};
