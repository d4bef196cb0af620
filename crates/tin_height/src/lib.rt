//! Points with heights through a sound triangulation with a vertical offset at each corner: each point goes to its
//! image, and its height is raised by the mix of the offsets, rounded half up to whole millimetres.
#![tactic(auto)]

mod laws;
mod offsets;
mod points;
mod raises;
mod texts;

pub use laws::{offset_exists, offset_is_one, raised_are_one, raised_exist};
pub use offsets::offset_of;
pub use points::{PointRow, Points, read_points};
pub use raises::{RaiseFault, Raised, raise};
pub use texts::render_points;
