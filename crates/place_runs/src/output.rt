//! Writing the text of changes to standard output. It takes no memory.

ghost use Rattle.std.specs.Prelude.{◌≡◌, ◌≢◌, [], ◌∷◌, ℕ, List, IfSome, false, codes, vec_capacity};
ghost use Rattle.runs.specs.Counts.{LeavesPress};
ghost use Rattle.publication.specs.Fronts.{HasWritten};
ghost use Rattle.place_runs.specs.InsideMaps.{HasRoom, HasSides, IsMapText};

use crate::change_maps::ChangeMap;
use crate::prints::print_map;
use runs::Status;
use shelf_io::{Name, Press};

/// Writes the text of these changes, of layers with these names, to standard output, after which the run ends so.
pub fn say_map<P: Press>(
    press: &mut P,
    mut room: Vec<u8>,
    names: &[Name],
    map: &ChangeMap,
    status: Status,
) -> Status
    requires sides { HasSides map.now }
    requires room { HasRoom names.now map.now (vec_capacity room) }
    requires nothing { room.items ≡ [] }
    requires free { P.at_hand press.old ≡ false }
    requires empty { IfSome (P.made press.old) (λ made. made ≡ []) }
    requires other { status ≢ Status.Write }
    ensures written { (said : List ℕ) → IsMapText names.now map.now said
        → HasWritten ((codes "-", said) ∷ []) status result (P.made press.new) }
    ensures press { LeavesPress (P.faults press.old) (P.faults press.new) (P.broken press.new) (P.at_hand press.new) result }
{
    match print_map(press, &mut room, names, map) {
        Ok(()) => status,
        Err(_) => Status::Write,
    }
}
