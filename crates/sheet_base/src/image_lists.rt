//! The text of the images of a path with their heights, open or as a ring, for any format.

ghost use Rattle.std.specs.Prelude.{◌≡◌, ◌≤◌, ◌++◌, ◌-◌, List, ℕ, OnOk, length, take, drop};
ghost use Rattle.sheet_base.specs.PointHeights.{Position};
ghost use Rattle.sheet_base.specs.ImageFits.{positions_in, positions_of, path_positions};
ghost use Rattle.sheet_base.specs.ImageLists.{texts_behind, list_text, ring_text};

use crate::{Images, PathRow};
use plane_base::Pt;
use std::alloc::AllocError;

/// How a format writes the images of a path.
pub trait ImageText {
    /// What is between two images.
    ghost separator: { List ℕ };

    /// The text of an image with its height.
    ghost text: { Position → List ℕ };

    /// Appends what is between two images.
    fn push_separator(out: &mut Vec<u8>) -> Result<(), AllocError>
        ensures { OnOk result (out.new.items ≡ out.old.items ++ separator) };

    /// Appends the text of an image and of its height, where it has one.
    fn push_image(out: &mut Vec<u8>, image: Pt, height: Option<i64>) -> Result<(), AllocError>
        ensures { OnOk result (out.new.items ≡ out.old.items ++ text (record { point = image; height = height })) };
}

/// Appends the images from one number to before another, each after a separator.
fn push_behind<T: ImageText>(
    out: &mut Vec<u8>,
    images: &Images,
    first: usize,
    past: usize,
) -> Result<(), AllocError>
    requires { past ≤ length images.now.points }
    ensures { OnOk result (out.new.items
        ≡ out.old.items ++ texts_behind T.separator T.text (take (past - first) (drop first (positions_in images.now)))) }
{
    for number in first..past {
        T::push_separator(out)?;
        T::push_image(out, images.points()[number], images.heights().at(number))?;
    }
    Ok(())
}

/// Where the images from one point to before another begin, and where they end.
fn range_between(images: &Images, first: u32, past: u32) -> (usize, usize)
    ensures past { result.1 ≤ length images.now.points }
    ensures part { take (result.1 - result.0) (drop result.0 (positions_in images.now)) ≡ positions_of images.now first past }
{
    let end = images.run_begin(past as usize).min(images.points().len());
    (images.run_begin(first as usize), end)
}

/// From which number to before which the images of the path of this number are; where there is no such path, there are
/// none.
pub fn image_range(images: &Images, paths: &[PathRow], path: u32) -> (usize, usize)
    ensures past { result.1 ≤ length images.now.points }
    ensures part { take (result.1 - result.0) (drop result.0 (positions_in images.now)) ≡ path_positions paths.now images.now path }
{
    match paths.get(path as usize) {
        Some(row) => range_between(images, row.first, row.past),
        None => range_between(images, 0, 0),
    }
}

/// Appends the images of the path of this number with a separator between them.
pub fn push_list<T: ImageText>(
    out: &mut Vec<u8>,
    images: &Images,
    paths: &[PathRow],
    path: u32,
) -> Result<(), AllocError>
    ensures { OnOk result (out.new.items ≡ out.old.items ++ list_text T.separator T.text (path_positions paths.now images.now path)) }
{
    let (first, past) = image_range(images, paths, path);
    if first < past {
        T::push_image(out, images.points()[first], images.heights().at(first))?;
        push_behind::<T>(out, images, first + 1, past)?;
    }
    Ok(())
}

/// Appends the images of the path of this number with a separator between them, and the first one again.
pub fn push_ring<T: ImageText>(
    out: &mut Vec<u8>,
    images: &Images,
    paths: &[PathRow],
    path: u32,
) -> Result<(), AllocError>
    ensures { OnOk result (out.new.items ≡ out.old.items ++ ring_text T.separator T.text (path_positions paths.now images.now path)) }
{
    let (first, past) = image_range(images, paths, path);
    if first < past {
        push_list::<T>(out, images, paths, path)?;
        T::push_separator(out)?;
        T::push_image(out, images.points()[first], images.heights().at(first))?;
    }
    Ok(())
}
