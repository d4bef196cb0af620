//! A drawing that was read, with its images.

ghost use Rattle.std.specs.Prelude.{◌≡◌, ◌≤◌};
ghost use Rattle.dxf_copies.specs.PageViews.{read_of};
ghost use Rattle.dxf_copies.specs.Rendering.{number_at};

use dxf_pairs::Pair;
use sheet_base::{Images, Sheet};

/// A drawing's pairs, its sheet, and the images of the sheet's points.
#[derive(Clone, Copy)]
pub struct Page<'a> {
    pub bytes: &'a [u8],
    pub pairs: &'a [Pair],
    pub sheet: &'a Sheet,
    pub images: &'a Images,
}

/// How many pairs come before this place, where so many of them do already.
pub fn number_at(page: &Page, place: u32, from: usize) -> usize
    requires { from ≤ number_at (read_of page.now) place }
    ensures { result ≡ number_at (read_of page.now) place }
{
    let mut number = from;
    while number < page.pairs.len() && page.pairs[number].start < place {
        number += 1;
    }
    number
}
