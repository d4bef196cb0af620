//! Laws of carrying.

ghost use Rattle.std.specs.Prelude.{◌≡◌, ◌^◌};
ghost use Rattle.carry_map.specs.LayerEnds.{LayerEndExists, LayerEndIsOne};
ghost use Rattle.carry_map.specs.Outcomes.{OutcomeExists};
ghost use Rattle.carry_map.specs.declared.limits.TheConstants.{MOST_PIECES};

use sheet_base::Layer;

/// A law: of each sound triangulation, a sheet is carried, with its pieces and images, or has a first segment that is
/// outside or whose pieces find no room.
pub fn outcome_exists()
    ensures { OutcomeExists }
{}

/// A law: of each sound triangulation, the bytes of a layer that is read are carried, or have a first segment that is
/// outside or whose pieces find no room.
pub fn layer_end_exists<L: Layer>()
    ensures { LayerEndExists L.reads L.text L.reads_back }
{
    L::sheets_are_of_bytes();
}

/// A law: of each sound triangulation, the bytes of a layer have one end at most. They are carried, with these numbers,
/// this text and these pieces, or are refused with this fault, or have this first segment that is outside or whose
/// pieces find no room, and never two of these.
pub fn layer_end_is_one<L: Layer>()
    ensures { LayerEndIsOne L.reads L.refuses L.text }
{
    L::outcome_is_one();
}

/// A law: the limit is this number.
pub fn limits_are_stated()
    ensures pieces { MOST_PIECES ≡ 2 ^ 22 }
{}
