//! Boxes round groups that are near each other, in both frames.
ghost use Rattle.std.specs.Prelude.{◌<◌, ◌≤◌, length, IfOk, OnOk};
ghost use Rattle.ring_side.specs.InsideClusters.{AreNumbersOf, AreBasesWithin, AreClustersUpTo};
ghost use Rattle.ring_side.specs.InsideClusters.{AreClustersOf, DoesKeepClusters, IsLeastAround};

use plane_base::Rect;
use std::alloc::{AllocError, Global};

/// A cluster of at most this many groups has no smaller ones.
const FEW: usize = 4;

/// The groups whose numbers are from one place of an order to before another, and a box round them in each frame. The
/// smaller clusters of it come before it, from the place `base` on; it has none where `base` is its own place.
#[derive(Clone, Copy, Debug)]
pub(crate) struct Cluster {
    pub(crate) source: Rect,
    pub(crate) target: Rect,
    pub(crate) first: usize,
    pub(crate) past: usize,
    pub(crate) base: usize,
}

/// The clusters of the numbers of an order, the smaller ones before the larger ones.
pub(crate) fn clusters_of(
    alloc: Global,
    order: &[u32],
    source: &[Rect],
    target: &[Rect],
) -> Result<Vec<Cluster>, AllocError>
    requires source { AreNumbersOf order.now source.now }
    requires target { AreNumbersOf order.now target.now }
    ensures { IfOk result (λ clusters. AreClustersOf order.now source.now target.now clusters.items) }
{
    let mut clusters = Vec::new(alloc);
    let mut first = 0;
    let mut count = 0;
    while first < order.len() {
        let past = first + FEW.min(order.len() - first);
        add_few(order, source, target, first, past, &mut clusters)?;
        first = past;
        count += 1;
        add_joined(count, &mut clusters)?;
    }
    Ok(clusters)
}

// Adds a cluster without smaller ones.
fn add_few(
    order: &[u32],
    source: &[Rect],
    target: &[Rect],
    first: usize,
    past: usize,
    clusters: &mut Vec<Cluster>,
) -> Result<(), AllocError>
    requires source { AreNumbersOf order.now source.now }
    requires target { AreNumbersOf order.now target.now }
    requires some { first < past }
    requires within { past ≤ length order.now }
    requires clusters { AreClustersUpTo order.now source.now target.now clusters.old.items first }
    ensures { OnOk result (AreClustersUpTo order.now source.now target.now clusters.new.items past) }
{
    let base = clusters.len();
    clusters.push(Cluster {
        source: around_few(order, source, first, past),
        target: around_few(order, target, first, past),
        first,
        past,
        base,
    })?;
    Ok(())
}

// The box of the boxes whose numbers are from one place to before another.
fn around_few(order: &[u32], boxes: &[Rect], first: usize, past: usize) -> Rect
    requires numbers { AreNumbersOf order.now boxes.now }
    requires some { first < past }
    requires within { past ≤ length order.now }
    ensures { IsLeastAround result order.now boxes.now first past }
{
    let mut around = boxes[order[first] as usize];
    let mut place = first + 1;
    while place < past {
        around = around.with_box(&boxes[order[place] as usize]);
        place += 1;
    }
    around
}

// Adds the clusters of two that are equally large, after this many clusters without smaller ones.
fn add_joined(count: usize, clusters: &mut Vec<Cluster>) -> Result<(), AllocError>
    requires some { 0 < length clusters.old.items }
    requires bases { AreBasesWithin clusters.old.items }
    ensures { OnOk result (DoesKeepClusters clusters.old.items clusters.new.items) }
{
    let mut count = count;
    while count > 0 && count % 2 == 0 {
        let high = clusters[clusters.len() - 1];
        if high.base == 0 {
            return Ok(());
        }
        let low = clusters[high.base - 1];
        clusters.push(Cluster {
            source: low.source.with_box(&high.source),
            target: low.target.with_box(&high.target),
            first: low.first,
            past: high.past,
            base: low.base,
        })?;
        count /= 2;
    }
    Ok(())
}
