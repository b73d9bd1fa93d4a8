//! Laws about the steps of a process: what the calls that make a command leave is what the definition of the command says.
#![tactic(auto)]

mod classes;
mod counts;
mod found;
mod made;
mod promotions;
mod quiet;
mod rooms;
mod seals;
mod stores;

pub use classes::defined_classes_act;
pub use counts::{held_cards_are_noted, pages_are_counted, room_is_counted, slots_are_few};
pub use found::objects_are_found;
pub use made::{image_objects_act, large_objects_act, young_objects_act};
pub use promotions::{forks_act, promotions_act};
pub use quiet::{commands_keep_parts, counted_dumps_act, roots_act, unchanged_processes_act};
pub use rooms::{
    image_objects_have_room, large_objects_have_room, new_graphs_are_formed,
    young_objects_have_room,
};
pub use seals::{first_processes_stand, seals_act};
pub use stores::stores_act;
