//! The largest triangulation of the maker, and a layer of two lines in each of its cells.

ghost use Rattle.std.specs.Prelude.{◌<◌};

use migrate_mode::make_tin;
use shelf_io::{MemShelf, Shelf};
use std::alloc::{AllocError, Global};

/// The cells on each side.
pub const CELLS: u32 = 512;

/// Adds a file, where the shelf lacks its name.
pub fn add_file(shelf: &mut MemShelf, name: &str, bytes: &[u8]) -> Result<(), AllocError> {
    if shelf.begin(name) == Ok(false) {
        shelf.add(name, bytes)?;
    }
    Ok(())
}

/// A shelf whose reads give at most 2^20 bytes, with the text of the triangulation.
pub fn shelf_of_cells(alloc: Global) -> Result<MemShelf, AllocError> {
    let tin = make_tin(alloc, CELLS)?;
    let mut shelf = MemShelf::new(alloc, 1 << 20);
    add_file(&mut shelf, "t.json", &tin)?;
    Ok(shelf)
}

/// Adds a line from 1 m to 9 m after `left`, which rises by one metre from `low`.
fn put_line(text: &mut String, left: u32, low: u32) -> Result<(), AllocError>
    requires left { left < 10000 }
    requires low { low < 10000 }
{
    writeln!(
        text,
        "LINESTRING ({} {low}, {} {})",
        left + 1,
        left + 9,
        low + 1
    )
}

/// Adds the two lines of each cell of a row, in order of columns.
fn put_row(text: &mut String, low: u32) -> Result<(), AllocError>
    requires { low < 9000 }
{
    for i in 0..CELLS {
        put_line(text, 10 * i, low + 2)?;
        put_line(text, 10 * i, low + 7)?;
    }
    Ok(())
}

/// Two lines in each cell, in order of rows, each of which crosses the diagonal of its cell once.
pub fn lines_of_cells(alloc: Global) -> Result<String, AllocError> {
    let mut text = String::new(alloc);
    for j in 0..CELLS {
        put_row(&mut text, 10 * j)?;
    }
    Ok(text)
}

/// A line in each cell, which crosses its diagonal once. From each line to the next it is far: hundreds of columns and of
/// rows.
pub fn scattered_lines_of_cells(alloc: Global) -> Result<String, AllocError> {
    let mut text = String::new(alloc);
    for j in 0..CELLS {
        for i in 0..CELLS {
            let left = 10 * (257 * i % CELLS);
            let low = 10 * ((j + 171 * i) % CELLS) + 2;
            put_line(&mut text, left, low)?;
        }
    }
    Ok(text)
}
