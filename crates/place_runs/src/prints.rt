//! Printing the text of changes, part by part. Only some bytes of it are held, in room that was made before, so that
//! no part wants memory.

ghost use Rattle.std.specs.Prelude.{◌≡◌, ◌≤◌, ◌+◌, ◌++◌, [], length, true, false, codes, OnOk, OnErr, IsTrue};
ghost use Rattle.std.specs.Prelude.{vec_len, vec_capacity, is_err, List, ℕ};
ghost use Rattle.shelf_io.specs.Count.{HasCause};
ghost use Rattle.shelf_io.specs.Made.{Appends, AppendsFront, Becomes, Lacks, PrintsFront, with_whole};
ghost use Rattle.change_places.specs.Words.{ChangeText, ring_words};
ghost use Rattle.change_places.specs.PlacesText.{opening_text, change_entry, ring_entry, end_text, features_text, rings_text};
ghost use Rattle.place_runs.specs.InsidePieces.{HasPieces, AreAllNear};
ghost use Rattle.place_runs.specs.InsideMaps.{HasSides, HasRoom, IsEachOne, IsMapText, IsSpotOn, AreSpotsOn, rings_on};
ghost use Rattle.place_runs.specs.InsideMaps.{Moves};

use crate::change_maps::ChangeMap;
use crate::pieces::spot;
use crate::rooms::MOST_HELD;
use change_places::{RingSpot, put_end, put_feature, put_opening, put_ring_entry};
use shelf_io::{Failed, Name, Press, put};
use tin_base::Change;

// Adds the opening, for which there is room.
fn add_opening(room: &mut Vec<u8>, names: &[Name])
    requires { vec_len room.old + length (opening_text names.now) ≤ vec_capacity room.old }
    ensures text { room.new.items ≡ room.old.items ++ opening_text names.now }
    ensures capacity { vec_capacity room.old ≤ vec_capacity room.new }
{
    let Ok(()) = put_opening(room, names) else {
        unreachable!()
    };
}

// Adds the change of this number, for which there is room.
fn add_change(room: &mut Vec<u8>, names: &[Name], map: &ChangeMap, number: u64, change: Change)
    requires pieces { HasPieces map.now.pieces.items change }
    requires near { AreAllNear map.now.pieces.items }
    requires one { IsEachOne map.now.pieces.items }
    requires room { (text : ChangeText) → IsSpotOn map.now change text
        → vec_len room.old + length (change_entry map.now.style names.now number text) ≤ vec_capacity room.old }
    ensures text { (text : ChangeText) → IsSpotOn map.now change text
        → room.new.items ≡ room.old.items ++ change_entry map.now.style names.now number text }
    ensures capacity { vec_capacity room.old ≤ vec_capacity room.new }
{
    let spot = spot(map, change);
    let Ok(()) = put_feature(room, map.style, names, &map.texts, number, spot) else {
        unreachable!()
    };
}

// Adds the change of sides of this number, for which there is room, after this number of changes.
fn add_ring(
    room: &mut Vec<u8>,
    names: &[Name],
    map: &ChangeMap,
    changes: u64,
    number: u64,
    ring: RingSpot,
)
    requires { vec_len room.old + length (ring_entry map.now.style names.now changes number (ring_words map.now.texts.items ring))
        ≤ vec_capacity room.old }
    ensures text { room.new.items
        ≡ room.old.items ++ ring_entry map.now.style names.now changes number (ring_words map.now.texts.items ring) }
    ensures capacity { vec_capacity room.old ≤ vec_capacity room.new }
{
    let Ok(()) = put_ring_entry(room, map.style, names, &map.texts, changes, number, ring) else {
        unreachable!()
    };
}

// Adds the end, for which there is room.
fn add_end(room: &mut Vec<u8>)
    requires { vec_len room.old + length end_text ≤ vec_capacity room.old }
    ensures text { room.new.items ≡ room.old.items ++ end_text }
{
    let Ok(()) = put_end(room) else {
        unreachable!()
    };
}

// Writes out what is held where it is more than is to be held before a part is added.
fn write_out<P: Press>(press: &mut P, room: &mut Vec<u8>) -> Result<(), Failed>
    requires { IsTrue (P.at_hand press.old) }
    ensures ok { OnOk result (Moves (P.made press.old) (P.made press.new) room.old.items room.new.items) }
    ensures err { OnErr result (AppendsFront (P.made press.old) (P.made press.new) room.old.items) }
    ensures held { OnOk result (vec_len room.new ≤ MOST_HELD) }
    ensures capacity { vec_capacity room.new ≡ vec_capacity room.old }
    ensures at_hand { P.at_hand press.new ≡ true }
    ensures cause { HasCause (P.faults press.old) (P.faults press.new) result }
    ensures broken { OnErr result (P.broken press.new ≡ true) }
{
    if room.len() <= MOST_HELD {
        return Ok(());
    }
    put(press, room)?;
    room.clear();
    Ok(())
}

// Prints all changes, numbered from 0. Some last bytes of them are held.
fn print_changes<P: Press>(
    press: &mut P,
    room: &mut Vec<u8>,
    names: &[Name],
    map: &ChangeMap,
) -> Result<(), Failed>
    requires sides { HasSides map.now }
    requires room { HasRoom names.now map.now (vec_capacity room.old) }
    requires at_hand { IsTrue (P.at_hand press.old) }
    ensures ok { OnOk result ((spots : List ChangeText) → AreSpotsOn map.now map.now.changes.items spots
        → Moves (P.made press.old) (P.made press.new) (room.old.items ++ features_text map.now.style names.now 0 spots) room.new.items) }
    ensures err { OnErr result ((spots : List ChangeText) → AreSpotsOn map.now map.now.changes.items spots
        → AppendsFront (P.made press.old) (P.made press.new) (room.old.items ++ features_text map.now.style names.now 0 spots)) }
    ensures capacity { vec_capacity room.old ≤ vec_capacity room.new }
    ensures at_hand { P.at_hand press.new ≡ true }
    ensures cause { HasCause (P.faults press.old) (P.faults press.new) result }
    ensures broken { OnErr result (P.broken press.new ≡ true) }
{
    for (number, change) in map.changes.iter().enumerate() {
        write_out(press, room)?;
        add_change(room, names, map, number as u64, *change);
    }
    Ok(())
}

// Prints all changes of sides, numbered from 0. Some last bytes of them are held.
fn print_rings<P: Press>(
    press: &mut P,
    room: &mut Vec<u8>,
    names: &[Name],
    map: &ChangeMap,
) -> Result<(), Failed>
    requires room { HasRoom names.now map.now (vec_capacity room.old) }
    requires at_hand { IsTrue (P.at_hand press.old) }
    ensures ok { OnOk result (Moves (P.made press.old) (P.made press.new)
        (room.old.items ++ rings_text map.now.style names.now (length map.now.changes.items) 0 (rings_on map.now)) room.new.items) }
    ensures err { OnErr result (AppendsFront (P.made press.old) (P.made press.new)
        (room.old.items ++ rings_text map.now.style names.now (length map.now.changes.items) 0 (rings_on map.now))) }
    ensures capacity { vec_capacity room.old ≤ vec_capacity room.new }
    ensures at_hand { P.at_hand press.new ≡ true }
    ensures cause { HasCause (P.faults press.old) (P.faults press.new) result }
    ensures broken { OnErr result (P.broken press.new ≡ true) }
{
    let changes = map.changes.len() as u64;
    for (number, ring) in map.rings.iter().enumerate() {
        write_out(press, room)?;
        add_ring(room, names, map, changes, number as u64, *ring);
    }
    Ok(())
}

// Prints the whole text at the end of the file at hand.
fn print_text<P: Press>(
    press: &mut P,
    room: &mut Vec<u8>,
    names: &[Name],
    map: &ChangeMap,
) -> Result<(), Failed>
    requires sides { HasSides map.now }
    requires room { HasRoom names.now map.now (vec_capacity room.old) }
    requires empty { room.old.items ≡ [] }
    requires at_hand { IsTrue (P.at_hand press.old) }
    ensures ok { OnOk result ((said : List ℕ) → IsMapText names.now map.now said → Appends (P.made press.old) (P.made press.new) said) }
    ensures err { OnErr result ((said : List ℕ) → IsMapText names.now map.now said
        → AppendsFront (P.made press.old) (P.made press.new) said) }
    ensures at_hand { P.at_hand press.new ≡ true }
    ensures cause { HasCause (P.faults press.old) (P.faults press.new) result }
    ensures broken { OnErr result (P.broken press.new ≡ true) }
{
    add_opening(room, names);
    print_changes(press, room, names, map)?;
    print_rings(press, room, names, map)?;
    write_out(press, room)?;
    add_end(room);
    put(press, room)?;
    Ok(())
}

/// Prints the text of these changes, of layers with these names, on standard output. `room` is what `room_for` gives.
pub fn print_map<P: Press>(
    press: &mut P,
    room: &mut Vec<u8>,
    names: &[Name],
    map: &ChangeMap,
) -> Result<(), Failed>
    requires sides { HasSides map.now }
    requires room { HasRoom names.now map.now (vec_capacity room.old) }
    requires empty { room.old.items ≡ [] }
    requires free { P.at_hand press.old ≡ false }
    requires new { Lacks (P.made press.old) (codes "-") }
    ensures ok { OnOk result ((said : List ℕ) → IsMapText names.now map.now said
        → Becomes (with_whole (codes "-") said) (P.made press.old) (P.made press.new)) }
    ensures ok_at_hand { OnOk result (P.at_hand press.new ≡ false) }
    ensures err { OnErr result ((said : List ℕ) → IsMapText names.now map.now said
        → PrintsFront (P.made press.old) (P.made press.new) (codes "-") said) }
    ensures cause { HasCause (P.faults press.old) (P.faults press.new) result }
    ensures broken { P.broken press.new ≡ is_err result }
{
    press.begin("-")?;
    print_text(press, room, names, map)?;
    press.end()?;
    Ok(())
}
