//! Edits of bytes, and what is spliced of them.

ghost use Rattle.std.specs.Prelude.{◌≡◌};

use sheet_base::{Edit, EditTexts, What, splice};
use std::alloc::AllocError;
use std::test::Fail;

/// A star is the text of each edit.
struct Stars;

impl EditTexts for Stars {
    ghost use Rattle.std.specs.Prelude.{[], ◌∷◌};

    ghost text = { λ _ _. 42 ∷ [] };

    fn room(&self, _edit: Edit) -> usize {
        1
    }

    fn push(&self, _edit: Edit, out: &mut Vec<u8>) -> Result<(), AllocError> {
        out.push(b'*')?;
        Ok(())
    }
}

fn edit(start: u32, end: u32) -> Edit
    ensures start { result.start ≡ start }
    ensures end { result.end ≡ end }
{
    Edit {
        start,
        end,
        what: What::Null,
    }
}

#[test]
fn keeps_what_has_no_edit(rt: HostRuntime) -> Result<(), Fail> {
    let none = splice(rt.alloc(), b"abcdef", &[], &Stars)?;
    assert_eq!(rt; none.as_slice(), b"abcdef".as_slice());
    Ok(())
}

#[test]
fn keeps_what_is_outside_the_edits(rt: HostRuntime) -> Result<(), Fail> {
    let ends = [edit(0, 1), edit(3, 3), edit(3, 5), edit(6, 6)];
    let four = splice(rt.alloc(), b"abcdef", &ends, &Stars)?;
    assert_eq!(rt; four.as_slice(), b"*bc**f*".as_slice());
    Ok(())
}

#[test]
fn keeps_nothing_of_what_is_replaced(rt: HostRuntime) -> Result<(), Fail> {
    let all = splice(rt.alloc(), b"abcdef", &[edit(0, 6)], &Stars)?;
    assert_eq!(rt; all.as_slice(), b"*".as_slice());
    Ok(())
}
