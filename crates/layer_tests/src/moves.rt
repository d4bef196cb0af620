//! Layers that are carried through small triangulations, and written.

use crate::sheets::{LONGEST, PLAIN};
use carry_map::{MOST_PIECES, carry_layer};
use sheet_base::{How, Layer};
use std::alloc::Global;
use tin_check::check_tin;
use tin_file::read_tin;
use tin_index::TinIndex;

/// A triangle with corners at (0, 0), (1, 0) and (1, 1), cut from the last to the middle of the side along x, which
/// goes to (0.5, -0.005); the three corners stay where they are.
pub const HINGE: &str = concat!(
    r#"{"file_type":"triangulation_file","format_version":"1.1","transformed_components":["horizontal"],"#,
    r#""vertices_columns":["source_x","source_y","target_x","target_y"],"#,
    r#""triangles_columns":["idx_vertex1","idx_vertex2","idx_vertex3"],"#,
    r#""vertices":[[0,0,0,0],[0.5,0,0.5,-0.005],[1,0,1,0],[1,1,1,1]],"triangles":[[0,1,3],[1,2,3]]}"#
);

fn index_of(alloc: Global, tin: &str) -> Option<TinIndex> {
    let bytes = tin.as_bytes();
    if bytes.len() > LONGEST {
        return None;
    }
    let tin = read_tin(alloc, bytes, PLAIN).ok()?;
    TinIndex::build(alloc, check_tin(alloc, tin).ok()?).ok()
}

/// Whether the layer, carried through this triangulation, is written as the other.
pub fn is_moved_to<L: Layer>(
    alloc: Global,
    tin: &str,
    text: &[u8],
    how: How,
    wanted: &[u8],
) -> bool {
    if text.len() > LONGEST {
        return false;
    }
    let Some(index) = index_of(alloc, tin) else {
        return false;
    };
    let mut pieces = Vec::new(alloc);
    match carry_layer::<L>(alloc, &index, text, how, 0, MOST_PIECES, &mut pieces) {
        Ok(carried) => carried.text.items() == wanted,
        Err(_) => false,
    }
}
