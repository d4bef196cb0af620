//! The laws of the distance of two segments.
ghost use Rattle.seg_gap.specs.Laws.{GapExists, GapIsOne, SegmentsThatShareAPointHaveNoGap, GapIsSymmetric};
ghost use Rattle.seg_gap.specs.Laws.{NearestEndIsOne, NearestEndExists};

/// Two segments have at most one gap, so `gap` has one right answer.
pub fn gap_is_one()
    ensures { GapIsOne }
{}

/// Two segments have a gap, however far they are from each other.
pub fn gap_exists()
    ensures { GapExists }
{}

/// The gap of two segments that share a point is 0.
pub fn segments_that_share_a_point_have_no_gap()
    ensures { SegmentsThatShareAPointHaveNoGap }
{}

/// The gap is the same in either order of the segments, and from either end of a segment.
pub fn gap_is_symmetric()
    ensures { GapIsSymmetric }
{}

/// Two segments have at most one nearest end, so `nearest_end` has one right answer.
pub fn nearest_end_is_one()
    ensures { NearestEndIsOne }
{}

/// Two segments have a nearest end, however far they are from each other.
pub fn nearest_end_exists()
    ensures { NearestEndExists }
{}
