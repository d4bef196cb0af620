//! What is true of the definitions that the contracts cite.

ghost use Rattle.std.specs.Prelude.{◌≡◌, ◌^◌};
ghost use Rattle.runs.specs.Laws.{TinEndIsOne, TinEndExists, ReadTinsAreWithinLimits};
ghost use Rattle.runs.specs.declared.loads.TheConstants.{MOST_BYTES, MOST_VERIFIED};

/// A law: the file of a name gives one sound triangulation, or is refused by one refusal.
pub fn tin_end_is_one()
    ensures { TinEndIsOne }
{}

/// A law: it gives one of the two, whatever the files are.
pub fn tin_end_exists()
    ensures { TinEndExists }
{
    tin_file::outcome_exists();
    tin_check::outcome_exists();
}

/// A law: what is read of a text, sound or not, is within the limits of triangulations.
pub fn read_tins_are_within_limits()
    ensures { ReadTinsAreWithinLimits }
{}

/// Laws: the limits are these numbers.
pub fn limits_are_stated()
    ensures bytes { MOST_BYTES ≡ 2 ^ 26 }
    ensures verified { MOST_VERIFIED ≡ 2 ^ 28 }
{}
