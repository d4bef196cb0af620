//! Laws of mixes, triangles, segments and boxes of the plane.

ghost use Rattle.std.specs.Prelude.{◌≡◌, ◌^◌, pos};
ghost use Rattle.plane_base.specs.Boxes.{ShareAPointOrAreApart};
ghost use Rattle.plane_base.specs.declared.shapes.TheConstants.{SPAN};
ghost use Rattle.plane_base.specs.Laws.{
  MixesMix,
  TrianglesAreConvex,
  TrianglesAreLeftOfSides,
  WeightsAreTurns,
  WeightsAreUnique,
  SegmentsHaveParameters,
  SegmentsMeetInIntervals,
};

/// A mix of mixes of some points is a mix of these points, however many there are.
pub fn mixes_of_mixes_are_mixes()
    ensures { MixesMix }
{}

/// A triangle has, with two points, each point between them.
pub fn triangles_are_convex()
    ensures { TrianglesAreConvex }
{}

/// A point is in a triangle of positive turn exactly where it is to the right of none of the three sides.
pub fn triangles_are_left_of_sides()
    ensures { TrianglesAreLeftOfSides }
{}

/// The turn of a side with a mix of the corners is the weight of the corner opposite times the turn of the triangle.
pub fn weights_are_turns()
    ensures { WeightsAreTurns }
{}

/// In a triangle of positive turn the weights of a point are unique up to a factor.
pub fn weights_are_unique()
    ensures { WeightsAreUnique }
{}

/// The points between two points are those at the parameters from 0 to 1 on the way from the one to the other.
pub fn segments_have_parameters()
    ensures { SegmentsHaveParameters }
{}

/// A closed segment and a triangle of positive turn have no common point, or those of a closed interval of parameters.
pub fn segments_meet_in_intervals()
    ensures { SegmentsMeetInIntervals }
{}

/// Two boxes, each with a point, have no common point exactly where on one of the axes the one is past the other.
pub fn boxes_share_a_point_or_are_apart()
    ensures { ShareAPointOrAreApart }
{}

/// A law: the limit on what lies near is this number of millimetres.
pub fn limits_are_stated()
    ensures span { SPAN ≡ pos (2 ^ 31) }
{}
