//! Checks, migrations and makings. The expected counts follow from the count of cells, and that of the pieces of made
//! lines from exact fractions of another program.

use crate::largest_maps::{add_file, lines_of_cells, shelf_of_cells};
use check_mode::prepare_check;
use height_mode::{HeightJob, prepare_heights};
use job_words::{Job, read_words};
use migrate_mode::{Migration, prepare_making, prepare_migration};
use runs::RunOutput;
use shelf_io::MemShelf;
use std::alloc::{AllocError, Global};
use verify_mode::{Verification, prepare_verification};

/// What these words ask to be written.
fn output_of(alloc: Global, texts: &[&str], shelf: &mut MemShelf) -> Option<RunOutput> {
    let mut words = Vec::new(alloc);
    for text in texts {
        let word = String::from_str(alloc, text).ok()?;
        words.push(word).ok()?;
    }
    match read_words(alloc, &words).ok()? {
        Job::Migrate {
            tin,
            out,
            how,
            inverse,
            cert,
            sides,
            layers,
        } => {
            let migration = Migration {
                tin,
                out,
                how,
                inverse,
                cert,
                sides,
                layers,
            };
            prepare_migration(alloc, shelf, &migration)
                .ok()
                .map(|done| done.output)
        }
        Job::Check { tin, how } => prepare_check(alloc, shelf, &tin, how)
            .ok()
            .map(|done| done.output),
        Job::Make { n } => prepare_making(alloc, n).ok().map(|done| done.output),
        Job::Verify {
            tin,
            source,
            written,
            cert,
            how,
            inverse,
        } => {
            let verification = Verification {
                tin,
                source,
                written,
                cert,
                how,
                inverse,
            };
            prepare_verification(alloc, shelf, &verification).ok()
        }
        Job::Heights {
            tin,
            out,
            how,
            points,
        } => {
            let heights = HeightJob {
                tin,
                out,
                how,
                points,
            };
            prepare_heights(alloc, shelf, &heights).ok()
        }
    }
}

/// Whether these words ask for this text on standard output.
fn says(alloc: Global, texts: &[&str], shelf: &mut MemShelf, said: &str) -> bool {
    match output_of(alloc, texts, shelf) {
        Some(output) => output.said.items() == said.as_bytes() && !output.changed,
        None => false,
    }
}

/// Whether the words ask for this text, over the largest triangulation and, where that is asked, the lines of its
/// cells.
fn says_of_cells(
    alloc: Global,
    texts: &[&str],
    with_lines: bool,
    said: &str,
) -> Result<bool, AllocError> {
    let mut shelf = shelf_of_cells(alloc)?;
    if with_lines {
        let layer = lines_of_cells(alloc)?;
        add_file(&mut shelf, "many.wkt", layer.as_bytes())?;
    }
    Ok(says(alloc, texts, &mut shelf, said))
}

const CHECK: &[&str] = &["check", "--tin", "t.json"];

#[test]
fn half_a_million_triangles_are_checked(rt: HostRuntime) {
    let line = "sound: corners 263169 triangles 524288 inexact 0\n";
    assert_eq!(rt; says_of_cells(rt.alloc(), CHECK, false, line), Ok(true));
}

const MIGRATE: &[&str] = &["migrate", "--tin", "t.json", "--out", "o", "many.wkt"];

const REPORT: &str = "tinmove report 1
triangulation corners 263169 triangles 524288 inexact 0 name t.json
layer 0 paths 524288 segments 524288 pieces 1048576 inexact 0 dropped 0 name many.wkt
changes 0
end
";

#[test]
fn half_a_million_lines_are_carried_and_compared(rt: HostRuntime) {
    assert_eq!(rt; says_of_cells(rt.alloc(), MIGRATE, true, REPORT), Ok(true));
}

const MADE: &str = "tinmove report 1
triangulation corners 16641 triangles 32768 inexact 0 name made.json
layer 0 paths 128 segments 128 pieces 37304 inexact 0 dropped 0 name made.wkt
changes 0
end
";

/// Whether this many runs that make the map say this.
fn make_alike(alloc: Global, count: u8, said: &str) -> bool {
    let mut shelf = MemShelf::new(alloc, 1);
    for _ in 0..count {
        if !says(alloc, &["make", "128"], &mut shelf, said) {
            return false;
        }
    }
    true
}

#[test]
fn lines_through_thousands_of_cells_are_made_twice_alike(rt: HostRuntime) {
    assert!(rt; make_alike(rt.alloc(), 2, MADE));
}
