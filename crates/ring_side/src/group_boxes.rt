//! The boxes of groups of points in a frame.
ghost use Rattle.std.specs.Prelude.{◌≡◌, ◌<◌, length, All, IfOk};
ghost use Rattle.plane_base.specs.declared.shapes.Pt.{Pt};
ghost use Rattle.ring_side.specs.Layers.{AreLayers};
ghost use Rattle.ring_side.specs.SideChanges.{place_of};
ghost use Rattle.ring_side.specs.InsideGroups.{IsAmong, AreAmong, IsSpot, IsGroup, IsLeastBox, AreBoxesOf, places_in, spots_in};

use crate::Spot;
use crate::groups::Group;
use plane_base::{Pt, Rect};
use sheet_base::{Images, Sheet};
use std::alloc::{AllocError, Global};
use tin_base::Frame;

/// The point of a spot, or its image.
pub(crate) fn place_of(sheets: &[Sheet], images: &[Images], frame: Frame, spot: Spot) -> Pt
    requires layers { AreLayers sheets.now images.now }
    requires spot { IsSpot sheets.now spot }
    ensures place { result ≡ place_of sheets.now images.now frame spot }
    ensures among { IsAmong sheets.now images.now frame spot }
{
    let sheet = &sheets[spot.layer as usize];
    let number = (sheet.paths()[spot.path as usize].first + spot.vertex) as usize;
    match frame {
        Frame::Source => sheet.points()[number],
        Frame::Target => {
            let images = &images[spot.layer as usize];
            images.points()[images.run_begin(number)]
        }
    }
}

/// The boxes of groups in a frame.
pub(crate) fn boxes_of(
    alloc: Global,
    sheets: &[Sheet],
    images: &[Images],
    frame: Frame,
    groups: &[Group],
) -> Result<Vec<Rect>, AllocError>
    requires layers { AreLayers sheets.now images.now }
    requires groups { All (λ group. IsGroup sheets.now group) groups.now }
    ensures boxes { IfOk result (λ boxes. AreBoxesOf sheets.now images.now frame groups.now boxes.items) }
{
    let mut boxes = Vec::with_capacity(alloc, groups.len())?;
    for group in groups {
        boxes.push(box_of(sheets, images, frame, *group))?;
    }
    Ok(boxes)
}

// The box of a group in a frame.
fn box_of(sheets: &[Sheet], images: &[Images], frame: Frame, group: Group) -> Rect
    requires layers { AreLayers sheets.now images.now }
    requires group { IsGroup sheets.now group }
    ensures least { IsLeastBox result (places_in sheets.now images.now frame group) }
    ensures among { AreAmong sheets.now images.now frame (spots_in group) }
{
    let mut spot = Spot {
        layer: group.layer,
        path: group.path,
        vertex: group.first,
    };
    let mut around = Rect::of_point(place_of(sheets, images, frame, spot));
    while spot.vertex + 1 < group.past {
        spot.vertex += 1;
        around = around.with_point(place_of(sheets, images, frame, spot));
    }
    around
}
