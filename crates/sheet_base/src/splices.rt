//! The bytes of a layer with the text of each edit in place of its bytes.

ghost use Rattle.std.specs.Prelude.{◌≡◌, ◌++◌, List, ℕ, length, IfOk, OnOk};
ghost use Rattle.sheet_base.specs.declared.edits.Edit.{Edit};
ghost use Rattle.sheet_base.specs.Splices.{AreInOrder, splice_of, SplicesKeep};

use crate::Edit;
use std::alloc::{AllocError, Global};

/// The texts that take the place of edits.
pub trait EditTexts {
    /// The text of an edit.
    ghost text: { Self → Edit → List ℕ };

    /// How many bytes to reserve for the text of an edit. Another number costs time and nothing else.
    fn room(&self, edit: Edit) -> usize;

    /// Appends the text of an edit.
    fn push(&self, edit: Edit, out: &mut Vec<u8>) -> Result<(), AllocError>
        ensures { OnOk result (out.new.items ≡ out.old.items ++ text self.now edit) };
}

/// The bytes with the span of each edit replaced by its text; all bytes outside the edits are kept.
/// The edits are in order and disjoint. Room is taken once, as the texts ask for.
pub fn splice<T: EditTexts>(
    alloc: Global,
    bytes: &[u8],
    edits: &[Edit],
    texts: &T,
) -> Result<Vec<u8>, AllocError>
    requires { AreInOrder 0 edits.now (length bytes.now) }
    ensures { IfOk result (λ out. out.items ≡ splice_of bytes.now (T.text texts.now) edits.now) }
{
    let mut out = Vec::with_capacity(alloc, room_for(bytes, edits, texts))?;
    let mut from = 0;
    for edit in edits {
        out.extend_from_slice(&bytes[from..edit.start as usize])?;
        texts.push(*edit, &mut out)?;
        from = edit.end as usize;
    }
    out.extend_from_slice(&bytes[from..])?;
    Ok(out)
}

fn room_for<T: EditTexts>(bytes: &[u8], edits: &[Edit], texts: &T) -> usize {
    let mut room = bytes.len();
    for edit in edits {
        room = room.saturating_add(texts.room(*edit));
    }
    room
}

/// A law: what is spliced keeps all bytes outside the edits, in order.
pub fn splices_keep_the_rest()
    ensures { SplicesKeep }
{}
