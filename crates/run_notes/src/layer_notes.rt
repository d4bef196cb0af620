//! What standard error says of layers that were carried: entities that were left out, and numbers that were rounded.

use crate::kept_parts::say_kept_parts;
use job_words::{Format, format_of};
use remarks::{KindCount, KindCounts, left_out_line, rounded_line};
use report_text::LayerRow;
use std::rt::Files;

/// Whether the layer is GeoJSON, and about half of its numbers were rounded, or more.
fn is_much_rounded(row: &LayerRow) -> bool {
    row.inexact > 0
        && row.inexact >= u64::from(row.segments)
        && format_of(row.name.text()) == Some(Format::GeoJson)
}

/// Says of a layer what was left out of it, how many of its numbers were rounded, and what stays as it was.
fn say_layer<R: Files + Eprint + AllocGlobal + Clone + Drop>(
    rt: &R,
    row: &LayerRow,
    kinds: &[KindCount],
    more: u64,
) {
    let name = row.name.text();
    if row.dropped > 0 {
        if let Ok(text) = left_out_line(rt.alloc(), name, row.dropped, kinds, more) {
            let _ = rt.eprint(text.as_str());
        }
    }
    if is_much_rounded(row) {
        if let Ok(text) = rounded_line(rt.alloc(), name, row.inexact) {
            let _ = rt.eprint(text.as_str());
        }
    }
    say_kept_parts(rt, name);
}

/// Says of each layer what was left out of it, of the kinds that were found, and which of its parts stay as they were.
/// Says how many of its numbers were rounded, too, where GDAL can write fewer digits. A failure of this changes
/// nothing.
pub fn say_layers<R: Files + Eprint + AllocGlobal + Clone + Drop>(
    rt: &R,
    rows: &[LayerRow],
    kinds: &[Option<KindCounts>],
) {
    for (number, row) in rows.iter().enumerate() {
        match kinds.get(number) {
            Some(Some(kinds)) => say_layer(rt, row, &kinds.named, kinds.more),
            _ => say_layer(rt, row, &[], 0),
        }
    }
}
