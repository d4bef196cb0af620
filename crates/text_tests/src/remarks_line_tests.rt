//! Lines for standard error on words, on files and on segments outside.

use job_words::{Which, WordsFault};
use plane_base::Pt;
use remarks::{
    KindCount, Stray, WordFlaw, blocks_line, degrees_line, frame_line, left_out_line,
    outside_lines, rounded_line, unread_line, unwritten_lines, word_lines,
};
use std::alloc::{AllocError, Global};

/// What a line is about.
enum Subject {
    /// What is wrong with a word, and the word.
    Word(WordFlaw, &'static str),
    Outside(Stray),
    /// Kinds of entities of a drawing with their numbers, the number of further kinds, and that of all entities.
    LeftOut(&'static [(&'static str, u64)], u64, u64),
    /// A name, and the number of its numbers that were rounded.
    Rounded(&'static str, u64),
    Degrees(&'static str),
    /// A name, and the number of blocks that the drawing inserts.
    Blocks(&'static str, u64),
    /// A name, and what it names its frame by.
    Frame(&'static str, &'static str),
    /// A name, and why it is not read.
    Unread(&'static str, &'static str),
    /// A name, and why it is not written.
    Unwritten(&'static str, Option<&'static str>),
}

/// Kinds of entities with their numbers.
fn kinds_of(alloc: Global, counts: &[(&str, u64)]) -> Result<Vec<KindCount>, AllocError> {
    let mut kinds = Vec::new(alloc);
    for (name, count) in counts {
        kinds.push(KindCount {
            name: String::from_str(alloc, name)?,
            count: *count,
        })?;
    }
    Ok(kinds)
}

/// What is said of a drawing whose entities are left out.
fn left_out(
    alloc: Global,
    counts: &[(&str, u64)],
    more: u64,
    count: u64,
) -> Result<String, AllocError> {
    let kinds = kinds_of(alloc, counts)?;
    left_out_line(alloc, "plan.dxf", count, &kinds, more)
}

/// What is said of a subject.
fn lines_on(alloc: Global, subject: &Subject) -> Result<Vec<u8>, AllocError> {
    let text = match subject {
        Subject::Word(flaw, word) => word_lines(alloc, *flaw, word, true)?,
        Subject::Outside(stray) => return outside_lines(alloc, *stray, false),
        Subject::LeftOut(counts, more, count) => left_out(alloc, counts, *more, *count)?,
        Subject::Rounded(name, count) => rounded_line(alloc, name, *count)?,
        Subject::Degrees(name) => degrees_line(alloc, name)?,
        Subject::Blocks(name, count) => blocks_line(alloc, name, *count, None)?,
        Subject::Frame(name, mark) => frame_line(alloc, name, mark)?,
        Subject::Unread(name, reason) => unread_line(alloc, name, reason)?,
        Subject::Unwritten(name, reason) => unwritten_lines(alloc, name, *reason)?,
    };
    Ok(text.into_bytes())
}

/// The wanted lines of the first row on whose subject other lines are said, or none.
fn first_other(
    alloc: Global,
    rows: &[(Subject, &'static str)],
) -> Result<Option<&'static str>, AllocError> {
    for (subject, wanted) in rows {
        let text = lines_on(alloc, subject)?;
        if text.as_slice() != wanted.as_bytes() {
            return Ok(Some(wanted));
        }
    }
    Ok(None)
}

/// A segment from (610300, 200184) to (600206, 200184) beside triangles of 20 km by 20 km.
const FAR: Stray = Stray {
    line: 7,
    from: Pt {
        x: 610_300_000,
        y: 200_184_000,
    },
    to: Pt {
        x: 600_206_000,
        y: 200_184_000,
    },
    triangles: 768,
    least: Pt {
        x: 590_000_000,
        y: 190_000_000,
    },
    greatest: Pt {
        x: 610_000_000,
        y: 210_000_000,
    },
    is_in_target: false,
    is_small: false,
    is_exchanged: true,
};

/// A point of a layer that lies where the triangles are carried to, and has small numbers.
const NEAR: Stray = Stray {
    line: 1,
    from: Pt { x: -1, y: 46_950 },
    to: Pt { x: -1, y: 46_950 },
    triangles: 1,
    least: Pt { x: 0, y: 0 },
    greatest: Pt {
        x: 10_000,
        y: 10_000,
    },
    is_in_target: true,
    is_small: true,
    is_exchanged: false,
};

/// Subjects, and what is said of each.
const LINES: &[(Subject, &str)] = &[
    // What is wrong with a word, the word, and what is said.
    (
        Subject::Word(WordFlaw::NoMode, ""),
        "tinmove: a mode is missing: the first word is to be migrate, check, make, verify or heights
tinmove: nothing was written
",
    ),
    (
        Subject::Word(WordFlaw::Mode, "chek"),
        "tinmove: 'chek' is no mode: the first word is to be migrate, check, make, verify or heights
tinmove: nothing was written
",
    ),
    (
        Subject::Word(WordFlaw::Unknown, "--tni"),
        "tinmove: '--tni' is no option of this mode
tinmove: nothing was written
",
    ),
    (
        Subject::Word(WordFlaw::Twice, "--tin"),
        "tinmove: '--tin' is there twice
tinmove: nothing was written
",
    ),
    (
        Subject::Word(WordFlaw::NoValue, "--out"),
        "tinmove: the value is missing behind '--out'
tinmove: nothing was written
",
    ),
    (
        Subject::Word(WordFlaw::Missing, "--out FOLDER"),
        "tinmove: '--out FOLDER' is missing
tinmove: nothing was written
",
    ),
    (
        Subject::Word(WordFlaw::TooMany, "u.json"),
        "tinmove: 'u.json' is one word too many
tinmove: nothing was written
",
    ),
    (
        Subject::Word(
            WordFlaw::Refused(WordsFault::Suffix { layer: 3 }),
            "roads.shp",
        ),
        "tinmove: 'roads.shp': its name ends in none of .wkt, .geojson, .json and .dxf
tinmove: nothing was written; convert it by ogr2ogr, or rename it
",
    ),
    (
        Subject::Word(
            WordFlaw::Refused(WordsFault::Name { which: Which::Tin }),
            "",
        ),
        "tinmove: '': the name behind --tin is empty or has a control character
tinmove: nothing was written; rename the file
",
    ),
    // Where a segment and the triangles are, and whether the layer was carried or is in degrees.
    (
        Subject::Outside(FAR),
        "tinmove: it is on line 7, from 610300.000 200184.000 to 600206.000 200184.000
tinmove: triangles 768, from 590000.000 190000.000 to 610000.000 210000.000
tinmove: with x and y exchanged the whole layer is where the triangles are: are they exchanged?
",
    ),
    (
        Subject::Outside(NEAR),
        "tinmove: it is on line 1, from -0.001 46.950 to -0.001 46.950
tinmove: triangles 1, from 0.000 0.000 to 10.000 10.000
tinmove: the whole layer is where the triangles are carried to: carried already, or --inverse?
tinmove: the layer's coordinates look like degrees, and are read as metres
",
    ),
    // Kinds of entities that are left out, and numbers that were rounded or look like degrees.
    (
        Subject::LeftOut(&[], 0, 2),
        "tinmove: plan.dxf: 2 entities left out: the written drawing is not whole\n",
    ),
    (
        Subject::LeftOut(&[("HATCH", 1350)], 0, 1350),
        "tinmove: plan.dxf: 1350 entities left out (HATCH 1350): the written drawing is not whole\n",
    ),
    (
        Subject::LeftOut(&[("MTEXT", 12), ("HATCH", 2), ("ARC", 1)], 0, 15),
        "tinmove: plan.dxf: 15 entities left out (MTEXT 12, HATCH 2, ARC 1): the written drawing is not whole\n",
    ),
    (
        Subject::LeftOut(&[("MTEXT", 12), ("HATCH", 2)], 299_990, 300_004),
        "tinmove: plan.dxf: 300004 entities left out (MTEXT 12, HATCH 2, and 299990 more): the written drawing is not whole\n",
    ),
    (
        Subject::Rounded("a.geojson", 406),
        "tinmove: a.geojson: 406 numbers were rounded to the millimetre: ogr2ogr -lco COORDINATE_PRECISION=3 writes no more digits\n",
    ),
    (
        Subject::Degrees("t.json"),
        "tinmove: t.json: all source corners are within 360: these look like degrees, and are read as metres: \
         three digits of a degree are steps of up to 111 metres\n",
    ),
    // What stays as it was in a layer that was carried.
    (
        Subject::Blocks("plan.dxf", 3),
        "tinmove: plan.dxf: 3 inserts: a block is moved to its new place, and what is in it keeps its shape: \
         explode blocks that are wide\n",
    ),
    (
        Subject::Frame("p.geojson", "coordRefSys"),
        "tinmove: p.geojson: coordRefSys stays as it was, and may name the frame that the layer is carried from\n",
    ),
    // Files that are not read or written, with the system's reason where it is known.
    (
        Subject::Unread("t.json", "No such file or directory (os error 2)"),
        "tinmove: t.json: the system says: No such file or directory (os error 2)\n",
    ),
    (
        Subject::Unwritten("o/a.wkt", Some("Permission denied (os error 13)")),
        "tinmove: o/a.wkt: could not be written: Permission denied (os error 13)
tinmove: look at the disk's room, at who may write in the folder, and at ulimit -f
",
    ),
    (
        Subject::Unwritten("standard output", None),
        "tinmove: standard output: could not be written
tinmove: look at the disk's room, at who may write in the folder, and at ulimit -f
",
    ),
];

#[test]
fn says_what_is_wrong(rt: HostRuntime) {
    assert_eq!(rt; first_other(rt.alloc(), LINES), Ok(None));
}
