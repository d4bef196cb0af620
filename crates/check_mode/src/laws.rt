//! What is true of the definitions that the contracts cite.

ghost use Rattle.check_mode.specs.Laws.{CheckEndExists};

/// A law: a check ends in one way at least. The file gives a sound triangulation, or it refuses the check.
pub fn check_end_exists()
    ensures { CheckEndExists }
{
    runs::tin_end_exists();
}
