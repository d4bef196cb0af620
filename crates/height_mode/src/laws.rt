//! What is true of the definitions that the contracts cite.

ghost use Rattle.height_mode.specs.Laws.{HeightsAreOne, HeightsExist};

use tin_check::outcome_exists;
use tin_file::{offsets_are_of_corners, tall_outcome_exists};
use tin_height::{raised_are_one, raised_exist};

/// A law: moving a list of points of the same files ends in one way.
pub fn heights_are_one()
    ensures { HeightsAreOne }
{
    offsets_are_of_corners();
    raised_are_one();
}

/// A law: moving a list of points ends, whatever the files are.
pub fn heights_exist()
    ensures { HeightsExist }
{
    tall_outcome_exists();
    outcome_exists();
    raised_exist();
}
