//! Tests of a grid of boxes: boxes near a box, in the cell of a point, and partners of a box.

ghost use Rattle.std.specs.Prelude.{◌≡◌, ◌≤◌, ◌<◌, length, All, IfOk, IsTrue};
ghost use Rattle.plane_base.specs.Boxes.{IsOrdered};
ghost use Rattle.cell_grid.specs.declared.grids.TheConstants.{LIMIT};
ghost use Rattle.tin_tests.specs.SmallBoxes.{IsSmall};

use cell_grid::{Grid, LIMIT};
use plane_base::{Pt, Rect};
use std::alloc::{AllocError, Global};
use std::test::Fail;

fn is_ordered(rect: &Rect) -> bool
    ensures { IsTrue result → IsOrdered rect.now }
{
    rect.x0 <= rect.x1 && rect.y0 <= rect.y1
}

fn is_small(rect: &Rect) -> bool
    ensures { IsTrue result → IsSmall rect.now }
{
    if !is_ordered(rect) {
        return false;
    }
    if rect.x0 < -100_000_000 {
        return false;
    }
    if rect.x1 > 100_000_000 {
        return false;
    }
    if rect.y0 < -100_000_000 {
        return false;
    }
    if rect.y1 > 100_000_000 {
        return false;
    }
    true
}

fn are_small(boxes: &[Rect]) -> bool
    ensures { IsTrue result → All (λ rect. IsSmall rect) boxes.now }
{
    for rect in boxes {
        if !is_small(rect) {
            return false;
        }
    }
    true
}

fn rect([x0, y0, x1, y1]: [i64; 4]) -> Rect {
    Rect { x0, y0, x1, y1 }
}

// Boxes of these rows.
fn boxes_of(alloc: Global, rows: &[[i64; 4]]) -> Result<Vec<Rect>, AllocError> {
    let mut boxes = Vec::new(alloc);
    for row in rows {
        boxes.push(rect(*row))?;
    }
    Ok(boxes)
}

// The grid of these boxes. Of boxes that are no grid's it says that memory is short, which no test wants.
fn grid_of(alloc: Global, rows: &[[i64; 4]]) -> Result<Grid, AllocError> {
    let boxes = boxes_of(alloc, rows)?;
    let grid = grid_over(alloc, &boxes)?;
    Ok(grid)
}

fn grid_over(alloc: Global, boxes: &[Rect]) -> Result<Grid, AllocError>
    ensures boxes { IfOk result (λ grid. grid.boxes ≡ boxes.now) }
    ensures few { IfOk result (λ grid. length boxes.now < LIMIT) }
{
    if boxes.len() >= LIMIT {
        return Err(AllocError);
    }
    if !are_small(boxes) {
        return Err(AllocError);
    }
    let grid = Grid::build(alloc, boxes)?;
    Ok(grid)
}

// How many partners the first boxes have together.
fn pairs(alloc: Global, grid: &Grid, count: u32) -> Result<u64, AllocError>
    requires { count ≤ length grid.now.boxes }
{
    let mut found = Vec::new(alloc);
    let mut pairs: u64 = 0;
    for number in 0..count {
        grid.partners(number, &mut found)?;
        pairs = pairs.saturating_add(found.len() as u64);
    }
    Ok(pairs)
}

// How many boxes share a point with each of the boxes, together.
fn all_near(alloc: Global, grid: &Grid, boxes: &[Rect]) -> Result<u64, AllocError> {
    let mut all: u64 = 0;
    for rect in boxes {
        if is_ordered(rect) {
            all = all.saturating_add(grid.near(alloc, *rect)?.len() as u64);
        }
    }
    Ok(all)
}

fn near(alloc: Global, grid: &Grid, row: [i64; 4]) -> Result<Vec<u32>, AllocError> {
    let r = rect(row);
    if !is_ordered(&r) {
        return Err(AllocError);
    }
    grid.near(alloc, r)
}

// How many levels have the number in the cell of the point.
fn times(grid: &Grid, number: u32, x: i64, y: i64) -> usize {
    let mut times: usize = 0;
    for level in 0..grid.levels() {
        if grid.cell(level, Pt { x, y }).contains(&number) {
            times = times.saturating_add(1);
        }
    }
    times
}

const ALL: [i64; 4] = [i64::MIN, i64::MIN, i64::MAX, i64::MAX];

// A box, and the numbers of the boxes that share a point with it.
type Near = ([i64; 4], &'static [u32]);

// The number of the first row that other boxes are near, or none.
fn first_other(
    alloc: Global,
    boxes: &[[i64; 4]],
    rows: &[Near],
) -> Result<Option<usize>, AllocError> {
    let grid = grid_of(alloc, boxes)?;
    for (number, &(row, wanted)) in rows.iter().enumerate() {
        if near(alloc, &grid, row)?.as_slice() != wanted {
            return Ok(Some(number));
        }
    }
    Ok(None)
}

const THREE: &[[i64; 4]] = &[[0, 0, 10, 10], [20, 0, 30, 10], [10, 10, 20, 20]];

const NEAR_THREE: &[Near] = &[
    ([10, 10, 10, 10], &[0, 2]),
    ([25, 5, 40, 40], &[1]),
    ([20, 10, 20, 10], &[1, 2]),
    ([11, 0, 19, 9], &[]),
    ([31, 0, 1000, 9], &[]),
    (ALL, &[0, 1, 2]),
];

#[test]
fn finds_boxes(rt: HostRuntime) {
    assert_eq!(rt; first_other(rt.alloc(), THREE, NEAR_THREE), Ok(None));
}

const OF_ALL_SIZES: &[[i64; 4]] = &[
    [-100_000_000, -100_000_000, 100_000_000, 100_000_000],
    [-7, -7, -7, -7],
    [-8, -8, -1, -1],
    [-7, 300, 9000, 310],
    [5, 5, 5, 5],
    [5, 5, 5, 5],
];

const NEAR_ALL_SIZES: &[Near] = &[
    ([-7, -7, -7, -7], &[0, 1, 2]),
    ([5, 5, 5, 5], &[0, 4, 5]),
    ([-1, -1, 8000, 305], &[0, 2, 3, 4, 5]),
    ([i64::MIN, 301, -8, i64::MAX], &[0]),
    ([100_000_001, 0, i64::MAX, 0], &[]),
    (ALL, &[0, 1, 2, 3, 4, 5]),
];

#[test]
fn finds_boxes_of_all_sizes(rt: HostRuntime) {
    assert_eq!(rt;
        first_other(rt.alloc(), OF_ALL_SIZES, NEAR_ALL_SIZES),
        Ok(None)
    );
}

// The numbers of boxes, and a point of each.
const POINTS: &[(u32, i64, i64)] = &[
    (0, 1, 1),
    (1, -7, -7),
    (2, -1, -8),
    (3, 9000, 310),
    (4, 5, 5),
    (5, 5, 5),
];

// The first of the boxes that not just one level has in the cell of the point, or none.
fn first_not_once(
    alloc: Global,
    boxes: &[[i64; 4]],
    rows: &[(u32, i64, i64)],
) -> Result<Option<u32>, AllocError> {
    let grid = grid_of(alloc, boxes)?;
    for &(number, x, y) in rows {
        if times(&grid, number, x, y) != 1 {
            return Ok(Some(number));
        }
    }
    Ok(None)
}

#[test]
fn finds_boxes_of_all_sizes_by_points(rt: HostRuntime) {
    assert_eq!(rt; first_not_once(rt.alloc(), OF_ALL_SIZES, POINTS), Ok(None));
}

#[test]
fn finds_nothing_in_no_boxes(rt: HostRuntime) {
    assert_eq!(rt; first_other(rt.alloc(), &[], &[(ALL, &[])]), Ok(None));
}

#[test]
fn no_boxes_have_no_levels(rt: HostRuntime) -> Result<(), Fail> {
    assert_eq!(rt; grid_of(rt.alloc(), &[])?.levels(), 0);
    Ok(())
}

// How many pairs the grid of the boxes has by their partners, and by the boxes near each.
fn pair_counts(alloc: Global, boxes: &[Rect]) -> Result<(u64, u64), AllocError> {
    let grid = grid_over(alloc, boxes)?;
    let count = pairs(alloc, &grid, boxes.len() as u32)?;
    Ok((count, all_near(alloc, &grid, boxes)?))
}

// Two villages at the ends of the country, each of ten rows of ten boxes that touch.
fn villages(alloc: Global) -> Result<Vec<Rect>, AllocError> {
    let mut boxes = Vec::new(alloc);
    for village in 0..2u16 {
        let end = i64::from(village) * 90_000_000;
        for row in 0..10u16 {
            let y = i64::from(row) * 10_000;
            for column in 0..10u16 {
                let x = i64::from(column) * 10_000;
                boxes.push(rect([end + x, end + y, end + x + 10_000, end + y + 10_000]))?;
            }
        }
    }
    Ok(boxes)
}

// In each village are 9 times 10 pairs along rows, as many along columns, and twice 9 times 9 at corners.
#[test]
fn tells_the_pairs_of_two_villages(rt: HostRuntime) -> Result<(), Fail> {
    let boxes = villages(rt.alloc())?;
    assert_eq!(rt; pair_counts(rt.alloc(), &boxes)?, (684, 200 + 2 * 684));
    Ok(())
}

// A hundred boxes along a diagonal, each of which touches the next at a corner.
fn chain(alloc: Global) -> Result<Vec<Rect>, AllocError> {
    let mut boxes = Vec::new(alloc);
    for number in 0..100u16 {
        let at = i64::from(number) * 400;
        boxes.push(rect([at, at, at + 400, at + 400]))?;
    }
    Ok(boxes)
}

#[test]
fn tells_the_pairs_of_a_chain(rt: HostRuntime) -> Result<(), Fail> {
    let boxes = chain(rt.alloc())?;
    assert_eq!(rt; pair_counts(rt.alloc(), &boxes)?, (99, 100 + 2 * 99));
    Ok(())
}

const LARGE_AND_SMALL: &[[i64; 4]] = &[
    [-50_000_000, -50_000_000, 50_000_000, 50_000_000],
    [5, 5, 5, 5],
    [0, 0, 900, 1000],
    [5, 5, 1000, 1001],
    [60_000_000, 0, 60_000_005, 5],
];

// The numbers of boxes, and their partners in order.
const PARTNERS: &[(u32, &[u32])] = &[(0, &[]), (1, &[0, 2, 3]), (2, &[0, 3]), (3, &[0]), (4, &[])];

// The partners of a box in order. For a number that no box has it says that memory is short.
fn partners_of(alloc: Global, boxes: &[Rect], number: u32) -> Result<Vec<u32>, AllocError> {
    let grid = grid_over(alloc, boxes)?;
    if number as usize >= boxes.len() {
        return Err(AllocError);
    }
    let mut found = Vec::new(alloc);
    grid.partners(number, &mut found)?;
    found.sort_unstable();
    Ok(found)
}

// The first of the boxes that has other partners, or none.
fn first_other_partners(
    alloc: Global,
    boxes: &[[i64; 4]],
    rows: &[(u32, &[u32])],
) -> Result<Option<u32>, AllocError> {
    let boxes = boxes_of(alloc, boxes)?;
    for &(number, wanted) in rows {
        if partners_of(alloc, &boxes, number)?.as_slice() != wanted {
            return Ok(Some(number));
        }
    }
    Ok(None)
}

// A large box is reported for the small ones, whatever its number. Of two boxes of one level the one with the greater
// number is reported.
#[test]
fn tells_a_pair_for_the_smaller_box(rt: HostRuntime) -> Result<(), Fail> {
    let other = first_other_partners(rt.alloc(), LARGE_AND_SMALL, PARTNERS)?;
    assert_eq!(rt; other, None);
    Ok(())
}

// A small box at each of a hundred by a hundred points a kilometre apart, and ten by ten boxes of more than a
// kilometre, each with one of these points in it. The cells of the small boxes are wider than these boxes need.
fn small_and_large(alloc: Global) -> Result<Vec<Rect>, AllocError> {
    let mut boxes = Vec::new(alloc);
    for row in 0..100u16 {
        let y = i64::from(row) * 1_000_000 - 50_000_000;
        for column in 0..100u16 {
            let x = i64::from(column) * 1_000_000 - 50_000_000;
            boxes.push(rect([x, y, x + 100, y + 100]))?;
        }
    }
    for row in 0..10u16 {
        let y = i64::from(row) * 10_000_000 - 49_700_000;
        for column in 0..10u16 {
            let x = i64::from(column) * 10_000_000 - 49_700_000;
            boxes.push(rect([x, y, x + 1_200_000, y + 1_200_000]))?;
        }
    }
    Ok(boxes)
}

#[test]
fn finds_small_boxes_in_large_ones(rt: HostRuntime) -> Result<(), Fail> {
    let boxes = small_and_large(rt.alloc())?;
    assert_eq!(rt; pair_counts(rt.alloc(), &boxes)?, (100, 10_100 + 2 * 100));
    Ok(())
}

// How many levels the grid has, and how many of them have box 101 in the cell of its point.
fn levels_of(alloc: Global, boxes: &[Rect]) -> Result<(u32, usize), AllocError> {
    let grid = grid_over(alloc, boxes)?;
    Ok((grid.levels(), times(&grid, 101, -48_999_900, -49_000_000)))
}

#[test]
fn has_levels_for_small_and_large_boxes(rt: HostRuntime) -> Result<(), Fail> {
    let boxes = small_and_large(rt.alloc())?;
    assert_eq!(rt; levels_of(rt.alloc(), &boxes)?, (2, 1));
    Ok(())
}

#[test]
fn finds_a_small_box_and_a_large_one(rt: HostRuntime) -> Result<(), Fail> {
    let boxes = small_and_large(rt.alloc())?;
    let grid = grid_over(rt.alloc(), &boxes)?;
    let row = [-49_700_000, -49_700_000, -48_500_000, -48_500_000];
    assert_eq!(rt;
        near(rt.alloc(), &grid, row)?.as_slice(),
        [101, 10_000].as_slice()
    );
    Ok(())
}
