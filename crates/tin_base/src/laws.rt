//! Laws of sound triangulations: images are one-to-one, segments and relations are kept, and pieces follow.

ghost use Rattle.tin_base.specs.Laws.{EachPairOnceIsEnough, NoTrianglesAreSound, OneTriangleIsSound};
ghost use Rattle.tin_base.specs.Laws.{PointsHaveOneImage, PointsInsideAreNear, DifferentPointsDiffer};
ghost use Rattle.tin_base.specs.Laws.{TargetPointsAreImages, ConverseIsSound, SoundIsOneToOne};
ghost use Rattle.tin_base.specs.CarriedSegments.{SegmentsGoToSegments, RelationsAreKept, PiecesFollow};

/// A law: each point in some source triangle of a sound triangulation has an image, and any two images of it are the
/// same.
pub fn points_have_one_image()
    ensures { PointsHaveOneImage }
{}

/// A law: different points have different images, where the triangulation is sound.
pub fn different_points_have_different_images()
    ensures { DifferentPointsDiffer }
{}

/// A law: each point in some target triangle of a sound triangulation is the image of a point in a source triangle.
pub fn target_points_are_images()
    ensures { TargetPointsAreImages }
{}

/// A law: with its frames exchanged a sound triangulation is sound, and its images are the converse.
pub fn exchanged_frames_give_the_converse()
    ensures { ConverseIsSound }
{}

/// A law: the four laws above, in one word for the contracts of calls that answer a sound triangulation.
pub fn sound_is_one_to_one()
    ensures { SoundIsOneToOne }
{}

/// A law: the images of the points of a segment in one triangle of a sound triangulation are exactly the points between
/// the images of its ends.
pub fn segments_go_to_segments()
    ensures { SegmentsGoToSegments }
{}

/// A law: two such segments, in one triangle or in two, have the relation that their images have.
pub fn relations_are_kept()
    ensures { RelationsAreKept }
{}

/// A law: the pieces of a segment that is inside a sound triangulation follow each other from its one end to the other,
/// and have all its points.
pub fn pieces_follow()
    ensures { PiecesFollow }
{}

/// A law: a triangulation without triangles is sound.
pub fn no_triangles_are_sound()
    ensures { NoTrianglesAreSound }
{}

/// A law: a triangulation of one triangle whose turn is positive in both frames is sound.
pub fn one_triangle_is_sound()
    ensures { OneTriangleIsSound }
{}

/// A law: a triangulation whose turns are positive is sound where each two triangles fit together in one order, the
/// lower number first.
pub fn each_pair_once_is_enough()
    ensures { EachPairOnceIsEnough }
{}

/// A law: any two whole points that are in source triangles are near each other, as the corners are.
pub fn points_inside_are_near()
    ensures { PointsInsideAreNear }
{}
