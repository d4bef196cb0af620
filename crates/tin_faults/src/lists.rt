//! The list of faults while it grows.

ghost use Rattle.std.specs.Prelude.{◌≡◌, ◌<◌, ◌≤◌, ◌++◌, [], ◌∷◌, length, vec_len, OnOk, IfErr};
ghost use Rattle.tin_faults.specs.declared.faults.ListFault.TheVariants.{TooMany};

use crate::{Fault, ListFault};

/// Puts a fault after the others, unless there are `most` of them.
pub(crate) fn add(found: &mut Vec<Fault>, most: usize, fault: Fault) -> Result<(), ListFault>
    ensures items { OnOk result (found.new.items ≡ found.old.items ++ fault ∷ []) }
    ensures room { OnOk result (vec_len found.new ≤ most) }
    ensures many { IfErr result (λ why. why ≡ TooMany → most ≤ length found.old.items) }
{
    if found.len() >= most {
        return Err(ListFault::TooMany);
    }
    match found.push(fault) {
        Ok(()) => Ok(()),
        Err(_) => Err(ListFault::NoMemory),
    }
}
