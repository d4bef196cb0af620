//! The texts that take the place of edits.

ghost use Rattle.std.specs.Prelude.{◌≡◌, ◌++◌, ◌+◌, ◌-◌, ◌<◌, ◌≤◌, ◌^◌, None, true, OnOk, length, take, drop};
ghost use Rattle.sheet_base.specs.ImageFits.{positions_in, path_positions};
ghost use Rattle.dxf_entities.specs.EntityViews.{entity_view, told_of};
ghost use Rattle.dxf_copies.specs.Rendering.{run_of, crossings_of, image_of, line_copies, vertex_copies, last_coded};
ghost use Rattle.dxf_copies.specs.Rendering.{first_entity};

use crate::copies::{Copied, push_copy};
use crate::pages::Page;
use dxf_entities::{Entity, has_code, pairs_before_head};
use dxf_pairs::Pair;
use plane_base::Pt;
use sheet_base::{Images, between, image_range};
use std::alloc::{AllocError, Global};

/// A point's image and those of the crossings after it.
pub fn run_of(images: &Images, point: u32) -> &[Pt]
    ensures { result.now ≡ run_of images.now point }
{
    let point = point as usize;
    between(
        images.points(),
        images.run_begin(point),
        images.run_begin(point + 1),
    )
}

/// The images of the crossings after a point.
pub fn crossings_of(images: &Images, point: u32) -> &[Pt]
    ensures { result.now ≡ crossings_of images.now point }
{
    let run = run_of(images, point);
    if run.len() > 0 { &run[1..] } else { run }
}

/// The image of a point.
pub fn image_of(images: &Images, point: u32) -> Pt
    ensures { result ≡ image_of images.now point }
{
    match images.points().get(images.run_begin(point as usize)) {
        Some(image) => *image,
        None => Pt { x: 0, y: 0 },
    }
}

/// The entity with which the pairs begin, where it starts at this place.
pub fn first_entity(place: u32, pairs: &[Pair]) -> Option<Entity<'_>>
    ensures { told_of result ≡ first_entity place pairs.now }
{
    match pairs {
        [head, ..] if head.start == place => Some(Entity {
            head: *head,
            pairs: pairs_before_head(&pairs[1..]),
        }),
        _ => None,
    }
}

/// The last of the pairs that has this code.
pub fn last_coded(code: i32, pairs: &[Pair]) -> Option<Pair>
    ensures { result ≡ last_coded code None pairs.now }
{
    let mut left = pairs.len();
    while left > 0 {
        left -= 1;
        if has_code(code, &pairs[left]) {
            return Some(pairs[left]);
        }
    }
    None
}

/// Appends copies of a line's entity, one between each two images that follow each other, of those from one number to
/// before another.
fn push_between(
    alloc: Global,
    out: &mut Vec<u8>,
    bytes: &[u8],
    entity: &Entity,
    next: u64,
    images: &Images,
    first: usize,
    past: usize,
) -> Result<(), AllocError>
    requires few { next + length images.now.points < 2 ^ 64 }
    requires past { past ≤ length images.now.points }
    ensures { OnOk result (out.new.items ≡ out.old.items
        ++ line_copies bytes.now (entity_view entity.now) true next
        (take (past - first) (drop first (positions_in images.now)))) }
{
    let mut next = next;
    let mut handle = None;
    for number in first..past.saturating_sub(1) {
        let copied = Copied {
            begin: images.points()[number],
            end: Some(images.points()[number + 1]),
            begin_height: images.heights().at(number),
            end_height: images.heights().at(number + 1),
            handle,
        };
        push_copy(alloc, out, bytes, entity, &copied)?;
        handle = Some(next);
        next += 1;
    }
    Ok(())
}

/// Appends copies of the entity of a line, which is the path of this number: one between each two images that follow
/// each other, with their heights.
pub fn push_lines(
    alloc: Global,
    out: &mut Vec<u8>,
    page: &Page,
    entity: &Entity,
    next: u64,
    path: u32,
) -> Result<(), AllocError>
    requires few { next + length page.now.images.now.points < 2 ^ 64 }
    ensures { OnOk result (out.new.items ≡ out.old.items
        ++ line_copies page.now.bytes.now (entity_view entity.now) true next
        (path_positions page.now.sheet.now.paths page.now.images.now path)) }
{
    let (first, past) = image_range(page.images, page.sheet.paths(), path);
    push_between(
        alloc,
        out,
        page.bytes,
        entity,
        next,
        page.images,
        first,
        past,
    )
}

/// Appends copies of a vertex's entity, one for each image.
pub fn push_vertices(
    alloc: Global,
    out: &mut Vec<u8>,
    bytes: &[u8],
    entity: &Entity,
    next: u64,
    images: &[Pt],
) -> Result<(), AllocError>
    requires { next + length images.now < 2 ^ 64 }
    ensures { OnOk result (out.new.items ≡ out.old.items ++ vertex_copies bytes.now (entity_view entity.now) true next images.now) }
{
    let mut next = next;
    let mut handle = None;
    for image in images {
        let copied = Copied {
            begin: *image,
            end: None,
            begin_height: None,
            end_height: None,
            handle,
        };
        push_copy(alloc, out, bytes, entity, &copied)?;
        handle = Some(next);
        next += 1;
    }
    Ok(())
}
