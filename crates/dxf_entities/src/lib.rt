//! One entity of an ASCII DXF drawing: its fields, what is read of it by its kind, and the sections in
//! which entities are.
#![tactic(auto)]

mod drawing;
mod entities;
mod extrusions;
mod fields;
mod handles;
mod kinds;
mod own_vertices;
mod points;
mod polylines;
mod section_places;

pub use drawing::{Drawing, PointFields, Rise, VertexFields, value_edit};
pub use entities::{Entity, has_code, pairs_before_head, value_in};
pub use extrusions::check_upright;
pub use fields::{Read, field, fields_of, has_field, is_there_as};
pub use handles::MOST_DIGITS;
pub use kinds::{Source, is_kind, is_read_alone, read_alone};
pub use own_vertices::{add_own_vertex, entity_vertex};
pub use polylines::{add_path_from, kind_of};
pub use section_places::{Where, behind, ends_section, seed_of};
