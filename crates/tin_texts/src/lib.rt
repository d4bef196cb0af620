//! Texts of small triangulations' files, which several crates of tests read.
#![tactic(auto)]

/// A triangle with corners at (0, 0), (10, 0) and (0, 10), whose side along x is two millimetres longer in the target.
/// The middle of that side goes to (105.001, 100).
pub const TRIANGLE: &str = concat!(
    r#"{"file_type":"triangulation_file","format_version":"1.1","transformed_components":["horizontal"],"#,
    r#""vertices_columns":["source_x","source_y","target_x","target_y"],"#,
    r#""triangles_columns":["idx_vertex1","idx_vertex2","idx_vertex3"],"#,
    r#""vertices":[[0,0,100,100],[10,0,110.002,100],[0,10,100,110]],"triangles":[[0,1,2]]}"#
);

/// Two triangles that make a square, whose diagonal is longer in the target. Its point (u, u) goes to 100 + 1.0003 u on
/// both axes, so that (5, 5) goes to (105.0015, 105.0015), which is rounded to (105.002, 105.002).
pub const SQUARE: &str = concat!(
    r#"{"file_type":"triangulation_file","format_version":"1.1","transformed_components":["horizontal"],"#,
    r#""vertices_columns":["source_x","source_y","target_x","target_y"],"#,
    r#""triangles_columns":["idx_vertex1","idx_vertex2","idx_vertex3"],"#,
    r#""vertices":[[0,0,100,100],[10,0,110,100],[10,10,110.003,110.003],[0,10,100,110]],"#,
    r#""triangles":[[0,1,2],[0,2,3]]}"#
);

/// A file that moves heights alone, of one triangle with the offsets 1, 2 and -1 m.
pub const STILL: &str = concat!(
    r#"{"file_type":"triangulation_file","format_version":"1.1","transformed_components":["vertical"],"#,
    r#""vertices_columns":["source_x","source_y","offset_z"],"#,
    r#""triangles_columns":["idx_vertex1","idx_vertex2","idx_vertex3"],"vertices":[[0,0,1],[10,0,2],[0,10,-1]],"#,
    r#""triangles":[[0,1,2]]}"#
);

/// A file that moves both, with the same offsets.
pub const MOVED: &str = concat!(
    r#"{"file_type":"triangulation_file","format_version":"1.1","#,
    r#""transformed_components":["horizontal","vertical"],"#,
    r#""vertices_columns":["source_x","source_y","target_x","target_y","offset_z"],"#,
    r#""triangles_columns":["idx_vertex1","idx_vertex2","idx_vertex3"],"#,
    r#""vertices":[[0,0,100,100,1],[10,0,110.002,100,2],[0,10,100,110,-1]],"triangles":[[0,1,2]]}"#
);

/// A file whose last row is the first corner with another offset.
pub const TWOFOLD: &str = concat!(
    r#"{"file_type":"triangulation_file","format_version":"1.1","transformed_components":["vertical"],"#,
    r#""vertices_columns":["source_x","source_y","offset_z"],"#,
    r#""triangles_columns":["idx_vertex1","idx_vertex2","idx_vertex3"],"#,
    r#""vertices":[[0,0,1],[10,0,2],[0,10,-1],[0,0,2]],"triangles":[[0,1,2]]}"#
);
