//! A process in memory: what it keeps, when it stands for a part of the world, and what a step of it does.
#![tactic(auto)]

mod acting;
mod collections;
mod laws;
mod slots;

pub use acting::{answers_act, steps_follow_one_another};
pub use collections::collections_act;
pub use laws::{
    dropped_roots_stand, forked_processes_stand, others_leave_it_standing,
    uncounted_changes_leave_it_standing, written_roots_stand,
};
pub use slots::{
    graphs_are_kept, noted_cards_are_counted, spaces_can_be_updated, updated_processes_stand,
};
