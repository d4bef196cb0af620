//! Why a layer is refused, or the changes of all layers, or those of sides.

ghost use Rattle.std.specs.Prelude.{◌≡◌};
ghost use Rattle.migrate_mode.specs.RunContents.{of_carrying, of_changes, of_sides};

use carry_map::CarryFault;
use ring_side::SidesFault;
use runs::Refusal;
use topo_check::ChangesFault;

/// The refusal of the layer of this number, which is not carried.
pub fn refuse_layer(layer: u32, fault: CarryFault) -> Refusal
    ensures { result ≡ of_carrying layer fault }
{
    match fault {
        CarryFault::Layer(fault) => Refusal::Layer { layer, fault },
        CarryFault::Outside { path, segment } => Refusal::Outside {
            layer,
            path,
            segment,
        },
        CarryFault::TooMany => Refusal::TooManyPieces,
        CarryFault::NoMemory => Refusal::NoMemory,
    }
}

/// The refusal of a run whose changes are not listed.
pub fn refuse_changes(fault: ChangesFault) -> Refusal
    ensures { result ≡ of_changes fault }
{
    match fault {
        ChangesFault::TooMany => Refusal::TooManyChanges,
        ChangesFault::NoMemory => Refusal::NoMemory,
    }
}

/// The refusal of a run whose changes of sides are not listed.
pub fn refuse_sides(fault: SidesFault) -> Refusal
    ensures { result ≡ of_sides fault }
{
    match fault {
        SidesFault::TooMany => Refusal::TooManySides,
        SidesFault::NoMemory => Refusal::NoMemory,
    }
}
