//! What standard error says of parts of a layer that stay as they were when it is carried.

ghost use Rattle.std.specs.Prelude.{◌≤◌, length};
ghost use Rattle.runs.specs.declared.loads.TheConstants.{MOST_BYTES};

use crate::blocks::inserts_in;
use crate::degrees::front_again;
use crate::refused_files::bytes_again;
use job_words::{Format, format_of};
use memchr::memmem;
use remarks::{blocks_line, frame_line};
use std::rt::Files;

/// The kind of entity that inserts a block.
const INSERT: &[u8] = b"INSERT";

/// What begins the entities of a drawing.
const ENTITIES: &[u8] = b"\nENTITIES";

/// The line of an object that places a drawing on the earth.
const GEODATA: &[u8] = b"\nGEODATA\n";

/// The line of an object that places a drawing on the earth, where lines end with a carriage return and a line feed.
const GEODATA_DOS: &[u8] = b"\nGEODATA\r\n";

/// The member by which JSON-FG (OGC 21-045) names a frame.
const FRAME: &[u8] = b"\"coordRefSys\"";

/// What a file of JSON-FG says that it conforms to. Its features may have a member `place` beside the geometry.
const FEATURES_WITH_PLACES: &[u8] = b"json-fg";

/// How many bytes of an object of GeoJSON are looked at.
const BEGINNING: usize = 1 << 22;

/// Whether the piece is among the bytes.
fn has_piece(bytes: &[u8], piece: &[u8]) -> bool {
    memmem::find(bytes, piece).is_some()
}

/// The bytes from the entities of a drawing on.
fn entities_of(bytes: &[u8]) -> &[u8] {
    let Some(at) = memmem::find(bytes, ENTITIES) else {
        return &[];
    };
    match bytes.get(at..) {
        Some(entities) => entities,
        None => &[],
    }
}

/// Says of a layer that it has a mark of its frame.
fn say_frame<R: Eprint + AllocGlobal>(rt: &R, name: &str, mark: &str) {
    if let Ok(text) = frame_line(rt.alloc(), name, mark) {
        let _ = rt.eprint(text.as_str());
    }
}

/// Says of a drawing how many blocks it inserts, and how far what is in these is from their places.
fn say_inserts<R: Eprint + AllocGlobal>(rt: &R, name: &str, bytes: &[u8])
    requires { length bytes.now ≤ MOST_BYTES }
{
    if !has_piece(bytes, INSERT) {
        return;
    }
    let Some(inserts) = inserts_in(rt.alloc(), bytes) else {
        return;
    };
    if inserts.count == 0 {
        return;
    }
    let reach = match inserts.reach {
        0 => None,
        metres => Some(metres),
    };
    if let Ok(text) = blocks_line(rt.alloc(), name, inserts.count, reach) {
        let _ = rt.eprint(text.as_str());
    }
}

/// Says of a drawing which blocks it inserts, and whether it is placed on the earth.
fn say_drawing<R: Eprint + AllocGlobal>(rt: &R, name: &str, bytes: &[u8])
    requires { length bytes.now ≤ MOST_BYTES }
{
    say_inserts(rt, name, bytes);
    let entities = entities_of(bytes);
    if has_piece(entities, GEODATA) || has_piece(entities, GEODATA_DOS) {
        say_frame(rt, name, "GEODATA");
    }
}

/// Says of GeoJSON which members of its front name a frame.
fn say_members<R: Eprint + AllocGlobal>(rt: &R, name: &str, front: &[u8]) {
    if has_piece(front, FRAME) {
        say_frame(rt, name, "coordRefSys");
    }
    if has_piece(front, FEATURES_WITH_PLACES) {
        say_frame(rt, name, "place");
    }
}

/// Says of a layer that was carried which of its parts stay as they were, where it can be read once more: what is in
/// blocks of a drawing, and what names the frame. A failure of this changes nothing.
pub(crate) fn say_kept_parts<R: Files + Eprint + AllocGlobal + Clone + Drop>(rt: &R, name: &str) {
    match format_of(name) {
        Some(Format::Drawing) => {
            if let Some(bytes) = bytes_again(rt, name) {
                say_drawing(rt, name, &bytes);
            }
        }
        Some(Format::GeoJson) => {
            if let Some(front) = front_again(rt, name, BEGINNING) {
                say_members(rt, name, &front);
            }
        }
        _ => {}
    }
}
