//! What is true of the constants that the contracts cite.

ghost use Rattle.std.specs.Prelude.{◌≡◌, ◌∷◌, ◌^◌, codes};
ghost use Rattle.run_steps.specs.declared.lines.TheConstants.{CLEAR};
ghost use Rattle.run_steps.specs.declared.step_lines.TheConstants.{TICK};

/// Laws: a line is cleared by a carriage return and the sequence `ESC [ K` of ECMA-48, and a point stands for a
/// mebibyte.
pub fn limits_are_stated()
    ensures clear { CLEAR.now ≡ 13 ∷ 27 ∷ codes "[K" }
    ensures tick { TICK ≡ 2 ^ 20 }
{}
