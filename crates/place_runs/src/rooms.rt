//! Room for each part of the text of changes.

ghost use Rattle.std.specs.Prelude.{◌≡◌, ◌≤◌, ℕ, List, [], IfOk, OnOk, vec_capacity};
ghost use Rattle.place_runs.specs.InsideMaps.{HasSides, HasRoom, AreChangesWithin, AreRingsWithin};

use crate::change_maps::ChangeMap;
use crate::pieces::spot;
use change_places::{most_bytes, most_ring_bytes, put_end, put_opening};
use shelf_io::Name;
use std::alloc::{AllocError, Global};

/// How many bytes of the text are held at most before a part is added to them.
pub const MOST_HELD: usize = 65_536;

// Makes room for each change, whatever the names of the layers are.
fn make_room_for_changes(room: &mut Vec<u8>, map: &ChangeMap) -> Result<(), AllocError>
    requires { HasSides map.now }
    ensures capacity { vec_capacity room.old ≤ vec_capacity room.new }
    ensures within { OnOk result ((names : List (List ℕ))
        → AreChangesWithin names map.now (vec_capacity room.new) map.now.changes.items) }
{
    for change in &map.changes {
        room.reserve(most_bytes(&map.texts, spot(map, *change)))?;
    }
    Ok(())
}

// Makes room for each change of sides, whatever the names of the layers are.
fn make_room_for_rings(room: &mut Vec<u8>, map: &ChangeMap) -> Result<(), AllocError>
    ensures capacity { vec_capacity room.old ≤ vec_capacity room.new }
    ensures within { OnOk result ((names : List (List ℕ))
        → AreRingsWithin names map.now (vec_capacity room.new) map.now.rings.items) }
{
    for ring in &map.rings {
        room.reserve(most_ring_bytes(&map.texts, *ring))?;
    }
    Ok(())
}

/// Room for each part of the text, after the most bytes that are held. The opening and the end are made once for it and
/// let go, and features have a length that is known before they are made.
pub fn room_for(alloc: Global, names: &[Name], map: &ChangeMap) -> Result<Vec<u8>, AllocError>
    requires { HasSides map.now }
    ensures empty { IfOk result (λ room. room.items ≡ []) }
    ensures room { IfOk result (λ room. HasRoom names.now map.now (vec_capacity room)) }
{
    let mut room = Vec::new(alloc);
    put_opening(&mut room, names)?;
    make_room_for_changes(&mut room, map)?;
    make_room_for_rings(&mut room, map)?;
    room.clear();
    put_end(&mut room)?;
    room.clear();
    let most = room.capacity();
    room.reserve(MOST_HELD + most)?;
    Ok(room)
}
