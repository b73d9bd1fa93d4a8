//! The region space: small objects, packed into regions, and moved between them by a collection.
#![tactic(auto)]

mod laws;
mod page_laws;
mod space;

pub use laws::{
    mapped_pages_are_counted, objects_stay_where_they_are, regions_pack_by_the_rule,
    walks_pass_all_objects,
};
pub use page_laws::{objects_lie_in_rows, packings_have_pages, pages_are_of_objects};
pub use space::Regions;
