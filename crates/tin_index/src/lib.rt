//! The triangles of a sound triangulation, found by a point of the source frame, by a corner, and by a side of another
//! triangle. The answers are exact: the least triangle that contains the point, all that have the corner, and the one
//! that has the side.
#![tactic(auto)]

mod boxes;
mod indexes;
mod locations;
mod stars;

pub use indexes::TinIndex;
