//! The arrays and objects that are open while a layer is read.

ghost use Rattle.std.specs.Prelude.{◌≡◌, ◌+◌, ◌<◌, ◌≤◌, ◌^◌, [], ◌∷◌, ◌++◌, List, length, Some, IfOk, OnOk, OnErr};
ghost use Rattle.std.specs.Prelude.{MatchOption, true};
ghost use Rattle.sheet_base.specs.declared.edits.Edit.{Edit};
ghost use Rattle.gj_layer.specs.Paths.{Part, joint_part};
ghost use Rattle.gj_layer.specs.InsideNodes.{Holds};
ghost use Rattle.gj_layer.specs.InsideFrames.{Own, IsEndingOf, part_with_own, edit_at, in_order, fronts, behinds, edit_list};

use crate::forms::ValueForm;
use crate::pass::PathsRead;
use sheet_base::{Edit, What};
use std::alloc::{AllocError, Global};
use std::marker::Model;

/// From a first byte to before another, counted from 0.
#[derive(Clone, Copy)]
pub struct ByteSpan {
    pub start: u32,
    pub end: u32,
}

/// What is left of an array or object: the values from one node to before another, all of one form.
#[derive(Clone, Copy)]
pub struct OpenFrame {
    pub form: ValueForm,
    pub at: u32,
    pub end: u32,
    pub ending: Option<Ending>,
}

/// What is done at the end of an object.
#[derive(Clone, Copy)]
pub struct Ending {
    /// The number of its first path.
    pub first: u32,
    /// How many edits are before those in it.
    pub edits: usize,
    /// Where its content begins.
    pub content: u32,
    /// The value of `bbox`.
    pub bbox: Option<ByteSpan>,
    /// The value of `crs`, where that is looked at.
    pub crs: Option<ByteSpan>,
}

/// What is open; contracts see it as a list, the innermost first.
#[derive(Drop)]
pub struct Frames {
    items: Vec<OpenFrame>,
}

impl Model for Frames {
    ghost use Rattle.std.specs.Prelude.{List, reverse};
    ghost use Rattle.gj_layer.specs.declared.frames.OpenFrame.{OpenFrame};

    ghost Value = { List OpenFrame };

    ghost view = { λ s. reverse s.items.items };
}

impl Frames {
    /// Nothing is open.
    pub fn none(alloc: Global) -> Frames
        ensures { result ≡ [] }
    {
        Frames {
            items: Vec::new(alloc),
        }
    }

    /// Opens one more. After an `Err` nothing has changed.
    pub fn push(&mut self, one: OpenFrame) -> Result<(), AllocError>
        ensures ok { OnOk result (self.new ≡ one ∷ self.old) }
        ensures err { OnErr result (self.new ≡ self.old) }
    {
        self.items.push(one)?;
        Ok(())
    }

    /// Takes the innermost one out.
    pub fn pop(&mut self) -> Option<OpenFrame>
        ensures { MatchOption result
            ((self.old ≡ []) × (self.new ≡ []))
            (λ one. self.old ≡ one ∷ self.new) }
    {
        self.items.pop()
    }
}

/// The edit of a member's value, if there is one.
fn edit_at(span: Option<ByteSpan>, what: What) -> Option<Edit>
    ensures { edit_list result ≡ edit_at span what }
{
    match span {
        Some(span) => Some(Edit {
            start: span.start,
            end: span.end,
            what,
        }),
        None => None,
    }
}

/// Both in order of the text.
fn in_order(one: Option<Edit>, other: Option<Edit>) -> (Option<Edit>, Option<Edit>)
    ensures { edit_list result.0 ++ edit_list result.1 ≡ in_order (edit_list one) (edit_list other) }
{
    match (one, other) {
        (Some(a), Some(b)) => {
            if b.start < a.start {
                (Some(b), Some(a))
            } else {
                (Some(a), Some(b))
            }
        }
        (None, _) => (None, other),
        (Some(_), None) => (one, None),
    }
}

/// Puts an edit before those of the content, which begins at the place `content`, or after them.
/// The first of those has the number `from`; answers its number afterwards.
fn put(
    edits: &mut Vec<Edit>,
    from: usize,
    content: u32,
    edit: Option<Edit>,
) -> Result<usize, AllocError>
    requires { from ≤ length edits.old.items }
    ensures put { IfOk result (λ next. (front inner : List Edit) → edits.old.items ≡ front ++ inner → from ≡ length front
        → (edits.new.items ≡ (front ++ fronts content (edit_list edit)) ++ (inner ++ behinds content (edit_list edit)))
        × (next ≡ length (front ++ fronts content (edit_list edit)))) }
    ensures within { IfOk result (λ next. next ≤ length edits.new.items) }
{
    match edit {
        None => Ok(from),
        Some(edit) => {
            if edit.start < content {
                edits.insert(from, edit)?;
                Ok(from + 1)
            } else {
                edits.push(edit)?;
                Ok(from)
            }
        }
    }
}

/// The object has ended: its own edits join those of its content.
pub fn end_object(pass: &mut PathsRead, ending: Ending) -> Result<(), AllocError>
    requires edits { ending.edits ≤ length pass.old.edits.items }
    requires paths { length pass.old.paths.items < 2 ^ 32 }
    ensures holds { OnOk result ((own : Own) → (before done : Part) → IsEndingOf ending own (length before.paths) before
        → (own.bare ≡ true → done.edits ≡ []) → Holds pass.old (joint_part before done)
        → Holds pass.new (joint_part before (part_with_own (Some own) (length before.paths) done))) }
    ensures points { OnOk result (pass.new.points.items ≡ pass.old.points.items) }
    ensures heights { OnOk result (pass.new.heights ≡ pass.old.heights) }
    ensures paths { OnOk result (pass.new.paths.items ≡ pass.old.paths.items) }
    ensures inexact { OnOk result (pass.new.inexact ≡ pass.old.inexact) }
{
    let bounds = What::Bounds {
        first: ending.first,
        past: pass.paths.len() as u32,
    };
    let (one, other) = in_order(
        edit_at(ending.bbox, bounds),
        edit_at(ending.crs, What::Null),
    );
    let from = put(&mut pass.edits, ending.edits, ending.content, one)?;
    let _ = put(&mut pass.edits, from, ending.content, other)?;
    Ok(())
}
