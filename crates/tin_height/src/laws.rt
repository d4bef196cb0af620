//! What is true of offsets.

ghost use Rattle.tin_height.specs.Offsets.{OffsetExists, OffsetIsOne};
ghost use Rattle.tin_height.specs.Raises.{RaisedAreOne, RaisedExist};

use affine_image::rounded_images_agree;

/// A law: each point inside has an offset.
pub fn offset_exists()
    ensures { OffsetExists }
{}

/// A law: any two offsets at a place of a sound triangulation are equal, whichever triangles give them.
pub fn offset_is_one()
    ensures { OffsetIsOne }
{}

/// A law: through a sound triangulation points are raised in one way, or one of them is the first outside, and not both.
pub fn raised_are_one()
    ensures { RaisedAreOne }
{
    rounded_images_agree();
}

/// A law: any points are raised, or one of them is the first outside.
pub fn raised_exist()
    ensures { RaisedExist }
{}
