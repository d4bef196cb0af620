//! Groups of points of a path, one after another.
ghost use Rattle.std.specs.Prelude.{◌≡◌, ◌<◌, ◌≤◌, ◌++◌, length, All, IfOk, OnOk, flat_map};
ghost use Rattle.sheet_base.specs.Segments.{points_in};
ghost use Rattle.ring_side.specs.declared.rings.TheConstants.{MOST_LAYERS};
ghost use Rattle.ring_side.specs.SideChanges.{sheet_at, path_at, spots_run, spots_paths};
ghost use Rattle.ring_side.specs.InsideGroups.{IsPath, IsGroup, AreGroupsOf, spots_in};

use sheet_base::Sheet;
use std::alloc::{AllocError, Global};

/// A group has at most this many points.
const GROUP: u32 = 4;

/// Vertices of a path, from one to before another.
#[derive(Clone, Copy, Debug)]
pub(crate) struct Group {
    pub(crate) layer: u32,
    pub(crate) path: u32,
    pub(crate) first: u32,
    pub(crate) past: u32,
}

/// Groups of all points of all sheets, in order of layer, path and vertex.
pub(crate) fn groups_of(alloc: Global, sheets: &[Sheet]) -> Result<Vec<Group>, AllocError>
    requires { length sheets.now ≤ MOST_LAYERS }
    ensures { IfOk result (λ groups. AreGroupsOf sheets.now groups.items) }
{
    let mut groups = Vec::new(alloc);
    for layer in 0..sheets.len() {
        add_layer_groups(sheets, layer as u32, &mut groups)?;
    }
    Ok(groups)
}

// Adds the groups of a layer.
fn add_layer_groups(sheets: &[Sheet], layer: u32, groups: &mut Vec<Group>) -> Result<(), AllocError>
    requires layer { layer < length sheets.now }
    requires each { All (λ group. IsGroup sheets.now group) groups.old.items }
    ensures each { OnOk result (All (λ group. IsGroup sheets.now group) groups.new.items) }
    ensures all { OnOk result (flat_map spots_in groups.new.items
        ≡ flat_map spots_in groups.old.items ++ spots_paths layer 0 (sheet_at sheets.now layer).paths) }
{
    let rows = sheets[layer as usize].paths();
    for path in 0..rows.len() {
        add_path_groups(sheets, layer, path as u32, groups)?;
    }
    Ok(())
}

// Adds the groups of a path.
fn add_path_groups(
    sheets: &[Sheet],
    layer: u32,
    path: u32,
    groups: &mut Vec<Group>,
) -> Result<(), AllocError>
    requires path { IsPath sheets.now layer path }
    requires each { All (λ group. IsGroup sheets.now group) groups.old.items }
    ensures each { OnOk result (All (λ group. IsGroup sheets.now group) groups.new.items) }
    ensures all { OnOk result (flat_map spots_in groups.new.items
        ≡ flat_map spots_in groups.old.items ++ spots_run layer path 0 (points_in (path_at (sheet_at sheets.now layer) path))) }
{
    let row = sheets[layer as usize].paths()[path as usize];
    let count = row.past - row.first;
    let mut first = 0;
    while first < count {
        let past = first + GROUP.min(count - first);
        groups.push(Group {
            layer,
            path,
            first,
            past,
        })?;
        first = past;
    }
    Ok(())
}
