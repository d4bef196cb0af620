//! Laws: each pair of boxes that share a point is found once, and the limit is a number.

ghost use Rattle.std.specs.Prelude.{◌≡◌, ◌^◌};
ghost use Rattle.cell_grid.specs.declared.grids.TheConstants.{LIMIT};
ghost use Rattle.cell_grid.specs.Partners.{EachPairIsToldOnce};

/// A law: of two different boxes that share a point, exactly one is a partner of the other.
pub fn each_pair_is_told_once()
    ensures { EachPairIsToldOnce }
{}

/// A law: a grid has fewer boxes than this number.
pub fn limits_are_stated()
    ensures boxes { LIMIT ≡ 2 ^ 23 }
{}
