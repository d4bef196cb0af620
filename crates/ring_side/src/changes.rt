//! The changes of directions and sides of all rings and all points.
ghost use Rattle.std.specs.Prelude.{◌≡◌, ◌<◌, ◌≤◌, ◌++◌, length, vec_len, All, IfOk, OnOk, IsErrOf, IsTrue, flat_map};
ghost use Rattle.std.specs.List.{AllByRecursion};
ghost use Rattle.sheet_base.specs.declared.paths.PathKind.TheVariants.{Loop};
ghost use Rattle.tin_base.specs.declared.frames.Frame.TheVariants.{Source, Target};
ghost use Rattle.ring_side.specs.declared.faults.SidesFault.TheVariants.{TooMany};
ghost use Rattle.ring_side.specs.Differences.{DoesDiffer};
ghost use Rattle.ring_side.specs.Layers.{AreLayers};
ghost use Rattle.ring_side.specs.SideChanges.{side_changes_of, paths_changes, path_changes, ring_changes, turn_from};
ghost use Rattle.ring_side.specs.SideChanges.{point_from, point_change, is_same_side, sheet_at, path_at};
ghost use Rattle.ring_side.specs.declared.rings.TheConstants.{MOST_POINTS};
ghost use Rattle.ring_side.specs.Rings.{AreNear, AreNearTo};
ghost use Rattle.ring_side.specs.Sides.{way_of};
ghost use Rattle.ring_side.specs.InsideGroups.{IsPath, IsSpot, IsGroup, spots_in};
ghost use Rattle.ring_side.specs.InsideLists.{DoesAdd};
ghost use Rattle.ring_side.specs.InsideChanges.{ArePlaces, IsRing};
ghost use Rattle.ring_side.specs.InsideClear.{IsQuiet, corner_of};
ghost use Rattle.ring_side.specs.InsideClusters.{AreNumbersOf, AreClustersOf};
ghost use Rattle.ring_side.specs.InsideNear.{AreForms, AreCornersNear, AreSifted, AreCandidates, IsOwnGroup, IsQuietGroup};

use crate::clusters::{Cluster, clusters_of};
use crate::forms::Form;
use crate::group_boxes::{boxes_of, place_of};
use crate::groups::{Group, groups_of};
use crate::orders::order_of;
use crate::{Side, SideChange, SidesFault, Spot, way_of};
use number_groups::sort_once;
use plane_base::Rect;
use sheet_base::{Images, PathKind, Sheet, between};
use std::alloc::{AllocError, Global};
use tin_base::Frame;

/// A ring and its written form.
#[derive(Drop)]
struct Ring<'a> {
    layer: u32,
    path: u32,
    source: Form<'a>,
    target: Form<'a>,
}

/// All points in groups, their boxes in both frames, an order of them, and clusters of it.
#[derive(Drop)]
struct Places {
    groups: Vec<Group>,
    source: Vec<Rect>,
    target: Vec<Rect>,
    order: Vec<u32>,
    clusters: Vec<Cluster>,
}

/// The changes of all rings with all points of all layers, in order of the rings by layer and path. Each ring has first
/// its direction, and then the points that are on another side of it, by layer, path and vertex. A ring's written form
/// are the images of its points and crossings. It stops once there are more than `most`.
pub fn side_changes(
    alloc: Global,
    sheets: &[Sheet],
    images: &[Images],
    most: u32,
) -> Result<Vec<SideChange>, SidesFault>
    requires layers { AreLayers sheets.now images.now }
    ensures ok { IfOk result (λ changes. changes.items ≡ side_changes_of sheets.now images.now) }
    ensures within { IfOk result (λ changes. vec_len changes ≤ most) }
    ensures differ { IfOk result (λ changes. AllByRecursion DoesDiffer changes.items) }
    ensures too_many { IsErrOf result TooMany → most < length (side_changes_of sheets.now images.now) }
{
    let places = places_of(alloc, sheets, images)?;
    let mut changes = Vec::new(alloc);
    let mut layer = 0;
    while layer < sheets.len() && changes.len() <= most as usize {
        add_layer(
            alloc,
            sheets,
            images,
            &places,
            layer as u32,
            most,
            &mut changes,
        )?;
        layer += 1;
    }
    if changes.len() > most as usize {
        return Err(SidesFault::TooMany);
    }
    Ok(changes)
}

// The groups of all points with their boxes and clusters. More groups than have numbers of 32 bits are answered with
// lack of memory.
fn places_of(alloc: Global, sheets: &[Sheet], images: &[Images]) -> Result<Places, AllocError>
    requires { AreLayers sheets.now images.now }
    ensures { IfOk result (λ places. ArePlaces sheets.now images.now places) }
{
    let groups = groups_of(alloc, sheets)?;
    if groups.len() > u32::MAX as usize {
        return Err(AllocError);
    }
    let source = boxes_of(alloc, sheets, images, Frame::Source, &groups)?;
    let target = boxes_of(alloc, sheets, images, Frame::Target, &groups)?;
    let order = order_of(alloc, &source)?;
    let clusters = clusters_of(alloc, &order, &source, &target)?;
    Ok(Places {
        groups,
        source,
        target,
        order,
        clusters,
    })
}

// Adds the changes of the rings of a layer.
fn add_layer(
    alloc: Global,
    sheets: &[Sheet],
    images: &[Images],
    places: &Places,
    layer: u32,
    most: u32,
    changes: &mut Vec<SideChange>,
) -> Result<(), AllocError>
    requires layers { AreLayers sheets.now images.now }
    requires places { ArePlaces sheets.now images.now places.now }
    requires layer { layer < length sheets.now }
    ensures { OnOk result (DoesAdd most changes.old.items changes.new.items
        (paths_changes sheets.now images.now layer 0 (sheet_at sheets.now layer).paths)) }
{
    let rows = sheets[layer as usize].paths();
    let mut path = 0;
    while path < rows.len() && changes.len() <= most as usize {
        let number = path as u32;
        add_path(alloc, sheets, images, places, layer, number, most, changes)?;
        path += 1;
    }
    Ok(())
}

// Adds the changes of a path, if it is a ring.
fn add_path(
    alloc: Global,
    sheets: &[Sheet],
    images: &[Images],
    places: &Places,
    layer: u32,
    path: u32,
    most: u32,
    changes: &mut Vec<SideChange>,
) -> Result<(), AllocError>
    requires layers { AreLayers sheets.now images.now }
    requires places { ArePlaces sheets.now images.now places.now }
    requires path { IsPath sheets.now layer path }
    ensures { OnOk result (DoesAdd most changes.old.items changes.new.items
        (path_changes sheets.now images.now layer path (path_at (sheet_at sheets.now layer) path).kind)) }
{
    match sheets[layer as usize].paths()[path as usize].kind {
        PathKind::Dot | PathKind::Line => Ok(()),
        PathKind::Loop => {
            let ring = ring_of(alloc, sheets, images, layer, path)?;
            add_ring(alloc, sheets, images, places, &ring, most, changes)?;
            Ok(())
        }
    }
}

// A ring of a layer, and its written form.
fn ring_of<'a>(
    alloc: Global,
    sheets: &'a [Sheet],
    images: &'a [Images],
    layer: u32,
    path: u32,
) -> Result<Ring<'a>, AllocError>
    requires layers { AreLayers sheets.now images.now }
    requires path { IsPath sheets.now layer path }
    requires loop_path { (path_at (sheet_at sheets.now layer) path).kind ≡ Loop }
    ensures { IfOk result (λ ring. IsRing sheets.now images.now layer path ring) }
{
    let sheet = &sheets[layer as usize];
    let row = sheet.paths()[path as usize];
    let points = between(sheet.points(), row.first as usize, row.past as usize);
    let written = images[layer as usize].of_row(row);
    Ok(Ring {
        layer,
        path,
        source: Form::of(alloc, points)?,
        target: Form::of(alloc, written)?,
    })
}

// Adds the changes of a ring.
fn add_ring(
    alloc: Global,
    sheets: &[Sheet],
    images: &[Images],
    places: &Places,
    ring: &Ring<'_>,
    most: u32,
    changes: &mut Vec<SideChange>,
) -> Result<(), AllocError>
    requires layers { AreLayers sheets.now images.now }
    requires places { ArePlaces sheets.now images.now places.now }
    requires ring { IsRing sheets.now images.now ring.now.layer ring.now.path ring.now }
    ensures { OnOk result (DoesAdd most changes.old.items changes.new.items
        (ring_changes sheets.now images.now ring.now.layer ring.now.path)) }
{
    add_turn(ring, changes)?;
    let near = near_groups(alloc, places, ring)?;
    let mut place = 0;
    while place < near.len() && changes.len() <= most as usize {
        let group = places.groups[near[place] as usize];
        add_group(sheets, images, group, ring, most, changes)?;
        place += 1;
    }
    Ok(())
}

// Adds that the ring has another direction, where it has.
fn add_turn(ring: &Ring<'_>, changes: &mut Vec<SideChange>) -> Result<(), AllocError>
    requires was { AreNear ring.now.source.points.now }
    requires now { AreNear ring.now.target.points.now }
    requires was_most { length ring.now.source.points.now ≤ MOST_POINTS }
    requires now_most { length ring.now.target.points.now ≤ MOST_POINTS }
    ensures { OnOk result (changes.new.items
        ≡ changes.old.items ++ turn_from ring.now.layer ring.now.path (way_of ring.now.source.points.now)
        (way_of ring.now.target.points.now)) }
{
    let was = way_of(ring.source.points);
    let now = way_of(ring.target.points);
    if was == now {
        return Ok(());
    }
    changes.push(SideChange::Turn {
        layer: ring.layer,
        path: ring.path,
        was,
        now,
    })?;
    Ok(())
}

// The numbers of the groups that may have changes, ascending: all but those in boxes with all points on one side.
fn near_groups(alloc: Global, places: &Places, ring: &Ring<'_>) -> Result<Vec<u32>, AllocError>
    requires forms { AreForms ring.now }
    requires near { AreCornersNear ring.now places.now }
    requires clusters { AreClustersOf places.now.order.items places.now.source.items places.now.target.items places.now.clusters.items }
    requires source { AreNumbersOf places.now.order.items places.now.source.items }
    requires target { AreNumbersOf places.now.order.items places.now.target.items }
    requires groups { length places.now.source.items ≡ length places.now.groups.items }
    ensures { IfOk result (λ numbers. AreCandidates ring.now places.now numbers.items) }
{
    let mut numbers = Vec::new(alloc);
    let mut left = places.clusters.len();
    while left > 0 {
        let cluster = &places.clusters[left - 1];
        if has_one_side(&cluster.source, &cluster.target, ring) {
            left = cluster.base;
        } else if cluster.base < left - 1 {
            left -= 1;
        } else {
            add_near(places, ring, cluster.first, cluster.past, &mut numbers)?;
            left = cluster.base;
        }
    }
    sort_once(&mut numbers);
    Ok(numbers)
}

// Adds the numbers from one place of the order to before another, except those of groups that have no changes.
fn add_near(
    places: &Places,
    ring: &Ring<'_>,
    first: usize,
    past: usize,
    numbers: &mut Vec<u32>,
) -> Result<(), AllocError>
    requires forms { AreForms ring.now }
    requires near { AreCornersNear ring.now places.now }
    requires source { AreNumbersOf places.now.order.items places.now.source.items }
    requires target { AreNumbersOf places.now.order.items places.now.target.items }
    requires groups { length places.now.source.items ≡ length places.now.groups.items }
    requires some { first < past }
    requires within { past ≤ length places.now.order.items }
    requires sifted { AreSifted ring.now places.now numbers.old.items past }
    ensures { OnOk result (AreSifted ring.now places.now numbers.new.items first) }
{
    let mut place = past;
    while place > first {
        place -= 1;
        let number = places.order[place];
        if !is_quiet(places, number, ring) {
            numbers.push(number)?;
        }
    }
    Ok(())
}

// Whether a group has no changes: all its points are on one side of a ring, and their images, too, or they are the
// ring's own, which are on its border.
fn is_quiet(places: &Places, number: u32, ring: &Ring<'_>) -> bool
    requires forms { AreForms ring.now }
    requires near { AreCornersNear ring.now places.now }
    requires groups { number < length places.now.groups.items }
    requires source { number < length places.now.source.items }
    requires target { number < length places.now.target.items }
    ensures { IsTrue result → IsQuietGroup ring.now places.now number }
{
    let group = &places.groups[number as usize];
    let source = &places.source[number as usize];
    let target = &places.target[number as usize];
    if has_one_side(source, target, ring) {
        return true;
    }
    is_own(group, ring)
}

fn is_own(group: &Group, ring: &Ring<'_>) -> bool
    ensures { IsTrue result → IsOwnGroup ring.now group.now }
{
    group.layer == ring.layer && group.path == ring.path
}

// Whether all points of a box are on one side of a ring, and all points of its box of images on that side, too.
fn has_one_side(source: &Rect, target: &Rect, ring: &Ring<'_>) -> bool
    requires forms { AreForms ring.now }
    requires source { AreNearTo ring.now.source.points.now (corner_of source.now) }
    requires target { AreNearTo ring.now.target.points.now (corner_of target.now) }
    ensures { IsTrue result → IsQuiet ring.now.source.points.now ring.now.target.points.now source.now target.now }
{
    match ring.source.side_of_box(source) {
        None => false,
        Some(was) => match ring.target.side_of_box(target) {
            None => false,
            Some(now) => is_same_side(was, now),
        },
    }
}

fn is_same_side(was: Side, now: Side) -> bool
    ensures { result ≡ is_same_side was now }
{
    was == now
}

// Adds the points of a group that are on another side of a ring.
fn add_group(
    sheets: &[Sheet],
    images: &[Images],
    group: Group,
    ring: &Ring<'_>,
    most: u32,
    changes: &mut Vec<SideChange>,
) -> Result<(), AllocError>
    requires layers { AreLayers sheets.now images.now }
    requires group { IsGroup sheets.now group }
    requires ring { IsRing sheets.now images.now ring.now.layer ring.now.path ring.now }
    ensures { OnOk result (DoesAdd most changes.old.items changes.new.items
        (flat_map (point_change sheets.now images.now ring.now.layer ring.now.path) (spots_in group))) }
{
    let mut vertex = group.first;
    while vertex < group.past && changes.len() <= most as usize {
        let spot = Spot {
            layer: group.layer,
            path: group.path,
            vertex,
        };
        add_point(sheets, images, spot, ring, changes)?;
        vertex += 1;
    }
    Ok(())
}

// Adds that a point is on another side of a ring, where it is.
fn add_point(
    sheets: &[Sheet],
    images: &[Images],
    spot: Spot,
    ring: &Ring<'_>,
    changes: &mut Vec<SideChange>,
) -> Result<(), AllocError>
    requires layers { AreLayers sheets.now images.now }
    requires spot { IsSpot sheets.now spot }
    requires ring { IsRing sheets.now images.now ring.now.layer ring.now.path ring.now }
    ensures { OnOk result (changes.new.items ≡ changes.old.items ++ point_change sheets.now images.now ring.now.layer ring.now.path spot) }
{
    let was = ring
        .source
        .side(place_of(sheets, images, Frame::Source, spot));
    let now = ring
        .target
        .side(place_of(sheets, images, Frame::Target, spot));
    push_side(ring, spot, was, now, changes)?;
    Ok(())
}

// Adds that a point is on another side of a ring, if the two sides differ.
fn push_side(
    ring: &Ring<'_>,
    at: Spot,
    was: Side,
    now: Side,
    changes: &mut Vec<SideChange>,
) -> Result<(), AllocError>
    ensures { OnOk result (changes.new.items ≡ changes.old.items ++ point_from ring.now.layer ring.now.path at was now) }
{
    if was == now {
        return Ok(());
    }
    changes.push(SideChange::Point {
        layer: ring.layer,
        path: ring.path,
        at,
        was,
        now,
    })?;
    Ok(())
}
