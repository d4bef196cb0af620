//! The changes of a migration as a map: a GeoJSON text with a feature for each, and where in its layer each path is
//! written.
#![tactic(auto)]

mod features;
mod geometries;
mod keys;
mod laws;
mod lengths;
mod limits;
mod path_starts;
mod premises;
mod properties;
mod rings;
mod spots;
mod texts;

pub use features::{put_end, put_feature, put_opening, put_ring_entry};
pub use geometries::{put_point, put_position};
pub use laws::{places_are_json, places_are_known};
pub use lengths::{most_bytes, most_ring_bytes};
pub use limits::{MOST_NAMED, limits_are_stated};
pub use path_starts::path_places;
pub use premises::{change_fits, changes_are_json};
pub use spots::{ChangeSpot, PathSpot, RingSpot, SideSpot, Style};
