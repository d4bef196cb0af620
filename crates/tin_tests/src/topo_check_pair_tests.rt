//! Pairs of pieces that only one of the two grids of `changes` finds.

ghost use Rattle.std.specs.Prelude.{◌≡◌, All, length, IfOk};
ghost use Rattle.tin_tests.specs.Small.{IsSmall, IsTried};

use crate::topo_check_tests::{at, piece, place, stretched_tin};
use plane_base::Pt;
use std::alloc::Global;
use std::test::Fail;
use tin_base::{Change, Piece, Rel, SoundTin};
use topo_check::{ChangesFault, MOST_COMPARED, changes};

/// A point, and where it is after rounding.
fn dot(tin: &SoundTin, from: Pt, to: Pt, path: u32) -> Result<Piece, ChangesFault>
    requires one { length tin.now.triangles ≡ 1 }
    requires small { IsSmall to }
    ensures { IfOk result (λ piece. IsTried tin.now piece) }
{
    let dot = piece(tin, from, from, to, to, path)?;
    Ok(dot)
}

/// Three points: the first two are a thousand millimetres apart and get one place, the third is at the place of the
/// first and gets another.
fn three_dots(alloc: Global, tin: &SoundTin) -> Result<Vec<Piece>, ChangesFault>
    requires { length tin.now.triangles ≡ 1 }
    ensures { IfOk result (λ pieces. All (λ piece. IsTried tin.now piece) pieces.items) }
{
    let mut pieces = Vec::new(alloc);
    pieces.push(dot(tin, at(1000, 1000), at(700, 700), 0)?)?;
    pieces.push(dot(tin, at(2000, 1000), at(700, 700), 1)?)?;
    pieces.push(dot(tin, at(1000, 1000), at(900, 700), 2)?)?;
    Ok(pieces)
}

fn pair_changes(alloc: Global, most: u32) -> Result<Vec<Change>, ChangesFault> {
    let tin = stretched_tin(alloc)?;
    let pieces = three_dots(alloc, &tin)?;
    if pieces.len() > MOST_COMPARED {
        return Err(ChangesFault::TooMany);
    }
    changes(alloc, &tin, &pieces, most)
}

fn change(first: u32, second: u32, was: Rel, now: Rel) -> Change {
    Change {
        first: place(first),
        second: place(second),
        was,
        now,
    }
}

#[test]
fn finds_what_only_rounding_brings_together(rt: HostRuntime) -> Result<(), Fail> {
    let wanted = [
        change(0, 1, Rel::Apart, Rel::Touching),
        change(0, 2, Rel::Touching, Rel::Apart),
    ];
    assert_eq!(rt; pair_changes(rt.alloc(), 2)?.as_slice(), wanted.as_slice());
    Ok(())
}

/// The first of the counts that are no limit of the changes, or none.
fn first_fitting(alloc: Global, counts: &[u32]) -> Option<u32> {
    for &count in counts {
        if pair_changes(alloc, count).err() != Some(ChangesFault::TooMany) {
            return Some(count);
        }
    }
    None
}

#[test]
fn finds_no_more_than_there_may_be(rt: HostRuntime) {
    assert_eq!(rt; first_fitting(rt.alloc(), &[1, 0]), None);
}
