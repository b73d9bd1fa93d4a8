//! Laws that the definitions of the heap and of a world of processes owe: what holds of each world before each line, and
//! what a command, a collection and a fork do. A machine above calls them; the examples are computed.
#![tactic(auto)]

mod examples;
mod labels;
mod pages;
mod parts;
mod worlds;

pub use labels::{
    equal_labels_are_of_one_object, labels_are_earlier, large_objects_have_one_line,
    own_pages_have_own_lines, pages_are_labelled,
};
pub use pages::{
    frames_of_one_process_are_its_pages, made_pages_are_new, named_pages_were_named_or_made,
    pages_stand_by_lists, promoted_pages_are_shared, touched_pages_stood,
};
pub use parts::{
    forks_promote, noted_cards_lie_within, objects_stand_on_standing_pages,
    outward_slots_are_touched, slots_note_their_own_card, stores_touch_their_own_page,
};
pub use worlds::{
    left_worlds_stay_in_order, refused_lines_leave_the_world, worlds_are_sound,
    worlds_stay_in_order,
};
