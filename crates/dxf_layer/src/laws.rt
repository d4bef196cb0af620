//! Laws of the definitions.

ghost use Rattle.std.specs.Prelude.{◌≡◌, ℕ, List, Ok};
ghost use Rattle.sheet_base.specs.declared.flags.How.{How};
ghost use Rattle.sheet_base.specs.Sheets.{Contents};
ghost use Rattle.sheet_base.specs.ReadSheets.{IsSheetOf};
ghost use Rattle.dxf_entities.specs.declared.handles.TheConstants.{MOST_DIGITS};
ghost use Rattle.dxf_layer.specs.Copies.{WrittenIsADrawing, CopiesAreOfEntities, HandlesAreNew, VerticesCopyOwnFields};
ghost use Rattle.dxf_layer.specs.Copies.{EditsWriteCopies};
ghost use Rattle.dxf_layer.specs.Drawings.{drawing_sheet};
ghost use Rattle.dxf_layer.specs.PathEdits.{EachPathHasAnEdit};
ghost use Rattle.dxf_layer.specs.ReadBack.{GroupsAreWritten, DrawingsReadBack};

/// The pairs of a written drawing are those of the drawing that was read, except for their places. The
/// values of edits are replaced, copies take the places of their entities or vertices, and what an edit
/// leaves out is missing.
pub fn written_pairs()
    ensures { GroupsAreWritten }
{
    dxf_pairs::pairs_tile();
    dxf_pairs::pairs_are_in_lines();
}

/// What is written of a drawing, with images that fit its sheet, is a drawing again, unless the next handle gets more
/// digits than are read. Its segments in order are those from image to image, with the heights of these, but for those
/// of a line whose two ends have one height.
pub fn drawings_read_back()
    ensures { DrawingsReadBack }
{
    dxf_pairs::pairs_tile();
    dxf_pairs::pairs_are_the_groups();
    dxf_pairs::pairs_are_in_lines();
}

/// What is written of a drawing, with images that fit its sheet, has the pairs of a drawing, whatever its next handle
/// is.
pub fn written_is_a_drawing()
    ensures { WrittenIsADrawing }
{
    dxf_pairs::pairs_tile();
    dxf_pairs::pairs_are_in_lines();
}

/// A copy that takes the place of a line or of a vertex is its entity, pair by pair. The values under 10, 20, 11, 21,
/// 30, 31 and 5 are those of the copy, where it has them. All other pairs are the entity's own.
pub fn copies_are_of_entities()
    ensures { CopiesAreOfEntities }
{
    dxf_pairs::pairs_tile();
    dxf_pairs::pairs_are_in_lines();
}

/// Each edit of a drawing's sheet writes what its kind says, at the place where its path or its point was read.
/// 1. In the place of a line, or of the entity of a vertex, it writes copies of just this entity of the drawing.
///    They are as `copies_are_of_entities` says, with the images of its own points and with the handles given there.
/// 2. Directly after a vertex in fields it writes one field 10 and one field 20 for each crossing, and no other field.
/// 3. In the place of the value of a field 10, 11, 20 or 21, from which the x or the y of a point was read, it writes
///    the x or the y of the point's image, as metres.
/// 4. In the place of the value of the field 90 of a polyline it writes how many images its vertices have.
/// 5. In the place of the next handle it writes the one after all that were given, or the same where none was given.
/// 6. In the place of an entity that is not read by itself, where it is asked for, it writes nothing.
pub fn edits_write_copies()
    ensures { EditsWriteCopies }
{
    dxf_pairs::pairs_tile();
    dxf_pairs::pairs_are_in_lines();
}

/// The handles that copies are given are the numbers from the next handle of the drawing on, in order of the text. No
/// two are the same, and the next handle that is written comes after them. Where one is given, the drawing has a next
/// handle, and the sheet an edit that replaces its value.
pub fn handles_are_new()
    ensures { HandlesAreNew }
{
    dxf_pairs::pairs_tile();
}

/// The room for crossings after a vertex in fields copies the vertex's own fields: the last pairs of codes 10 and 20
/// before it are those whose values are the vertex.
pub fn vertices_copy_own_fields()
    ensures { VerticesCopyOwnFields }
{
    dxf_pairs::pairs_tile();
    dxf_pairs::pairs_are_in_lines();
}

/// Each path that is read of a drawing has an edit with which it begins: the one that writes the copies of its line, or
/// begins to write the image of its first point.
pub fn each_path_has_an_edit()
    ensures { EachPathHasAnEdit }
{
    dxf_pairs::pairs_tile();
}

/// What is read of a drawing has paths that follow each other without a gap, and no more points than the drawing has
/// bytes. It has for each point a height within reach or none, and edits that are in order inside the bytes.
pub fn read_sheets_are_sheets()
    ensures { (how : How) → (bytes : List ℕ) → (sheet : Contents) → drawing_sheet how bytes ≡ Ok sheet → IsSheetOf bytes sheet }
{
    dxf_pairs::pairs_tile();
}

/// A law: a next handle that is read has at most this many digits.
pub fn limits_are_stated()
    ensures digits { MOST_DIGITS ≡ 15 }
{}
