//! The laws of border sides.

ghost use Rattle.border_law.specs.Borders.{BorderedTrianglesFit, BorderedIsSound};

/// A law: any two triangles fit together in a frame where turns are positive, sides are joined with opposite sides by a
/// matching, and each side that is not joined meets every other triangle in a common corner at most.
pub fn bordered_triangles_fit()
    ensures { BorderedTrianglesFit }
{}

/// A law: a triangulation is sound where this holds in both frames, for one matching.
pub fn bordered_is_sound()
    ensures { BorderedIsSound }
{}
