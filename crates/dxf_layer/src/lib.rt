//! Layers in ASCII DXF: points, inserts, texts, lines and polylines of the sections ENTITIES.
#![tactic(auto)]

mod drawing_texts;
mod edit_order;
mod laws;
mod layer;
mod rendering;
mod walks;

pub use drawing_texts::read_drawing;
pub use laws::{
    copies_are_of_entities, drawings_read_back, each_path_has_an_edit, edits_write_copies,
    handles_are_new, limits_are_stated, read_sheets_are_sheets, vertices_copy_own_fields,
    written_is_a_drawing, written_pairs,
};
pub use layer::Dxf;
pub use rendering::render_drawing;
