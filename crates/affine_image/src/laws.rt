//! Laws of rounded images: a place has one, near all others, and 128 bits hold the numbers.

ghost use Rattle.affine_image.specs.Laws.{RoundedImagesAgree, CutsAreImages, RoundedImagesAreInReach};
ghost use Rattle.affine_image.specs.Laws.{RoundedImagesAreNear, DoubledNumeratorsAreSmall};

/// A law: the rounded image of a place is one, whichever triangle gives it.
pub fn rounded_images_agree()
    ensures { RoundedImagesAgree }
{}

/// A law: where one triangle has two corners, the rounded image of a place between their source places is the rounded
/// place at the same parameter between their target places.
pub fn cuts_are_images()
    ensures { CutsAreImages }
{}

/// A law: the coordinates of a rounded image are within `REACH` of tin_base, as those of the corners are.
pub fn rounded_images_are_in_reach()
    ensures { RoundedImagesAreInReach }
{}

/// A law: any two rounded images of one triangulation are less than `SPAN` of plane_base apart on each axis, as its
/// corners are.
pub fn rounded_images_are_near()
    ensures { RoundedImagesAreNear }
{}

/// A law: the doubled numerator from which a coordinate of an image is rounded is below 2^96 in magnitude: 128 bits
/// hold it.
pub fn doubled_numerators_are_small()
    ensures { DoubledNumeratorsAreSmall }
{}
