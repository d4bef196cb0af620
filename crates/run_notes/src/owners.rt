//! What standard error says of outputs that did not keep the owner or the group of the files that they replaced.

use remarks::owner_line;
use std::alloc::AllocError;
use std::fs;
use std::os::unix::fs::MetadataExt;
use std::rt::Files;

/// The owner and the group of a file.
#[derive(Clone, Copy, PartialEq, Eq)]
pub struct Owner {
    user: u32,
    group: u32,
}

/// Who owns a file, where there is one of this name.
fn owner_of<R: Files>(rt: &R, name: &str) -> Option<Owner> {
    let kind = fs::metadata(rt, name).ok()?;
    Some(Owner {
        user: kind.uid(),
        group: kind.gid(),
    })
}

/// Who owns each of the files of these names, where there is one.
pub fn owners_of<R: Files + AllocGlobal>(
    rt: &R,
    names: &[String],
) -> Result<Vec<Option<Owner>>, AllocError> {
    let mut owners = Vec::with_capacity(rt.alloc(), names.len())?;
    for name in names {
        owners.push(owner_of(rt, name.as_str()))?;
    }
    Ok(owners)
}

/// Says that a file has another owner or group than before.
fn say_owner<R: Eprint + AllocGlobal>(rt: &R, name: &str) {
    if let Ok(text) = owner_line(rt.alloc(), name) {
        let _ = rt.eprint(text.as_str());
    }
}

/// Says which of the files of these names were there before, and now have another owner or group. If it cannot be
/// found out or said, nothing changes.
pub fn say_owners<R: Files + Eprint + AllocGlobal>(
    rt: &R,
    names: &[String],
    before: &[Option<Owner>],
) {
    for (name, owner) in names.iter().zip(before.iter()) {
        if let Some(owner) = owner {
            if owner_of(rt, name.as_str()) != Some(*owner) {
                say_owner(rt, name.as_str());
            }
        }
    }
}
