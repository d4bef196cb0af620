//! Runs in memory that write certificates, and that verify written layers by them. What is expected is worked out by
//! hand.

use crate::memory_runs::{Files, MemoryJob, Table, other_job};
use runs::Status;
use tin_texts::SQUARE;

/// A line across the diagonal of the square, and the line as it is carried.
const LINE: &str = "LINESTRING (10 0, 0 10)";

const CARRIED: &str = "LINESTRING (110.000 100.000, 105.002 105.002, 100.000 110.000)";

const CERTIFICATE: &str = "tinmove certificate 1\n0 1\n";

const VERIFY: [&str; 9] = [
    "verify",
    "--tin",
    "s.json",
    "--source",
    "l.wkt",
    "--written",
    "w",
    "--cert",
    "c",
];

const LAYERS: Files = &[
    ("s.json", SQUARE),
    ("l.wkt", LINE),
    ("p.wkt", "POINT (1 1)"),
];

const WRITTEN: &[MemoryJob] = &[
    (
        &[
            "migrate", "--tin", "s.json", "--out", "o", "--cert", "l.wkt", "p.wkt",
        ],
        LAYERS,
        Status::Same,
        &[
            ("o/l.wkt", Some(CARRIED)),
            ("o/l.wkt.cert", Some(CERTIFICATE)),
            ("o/p.wkt.cert", Some("tinmove certificate 1\n0\n")),
        ],
    ),
    (
        &["migrate", "--tin", "s.json", "--out", "o", "l.wkt"],
        LAYERS,
        Status::Same,
        &[("o/l.wkt", Some(CARRIED)), ("o/l.wkt.cert", None)],
    ),
];

const VERIFIED: &[MemoryJob] = &[
    (
        &VERIFY,
        &[
            ("s.json", SQUARE),
            ("l.wkt", LINE),
            ("w", CARRIED),
            ("c", CERTIFICATE),
        ],
        Status::Same,
        &[("-", Some("certified\n"))],
    ),
    (
        &VERIFY,
        &[
            ("s.json", SQUARE),
            ("l.wkt", LINE),
            ("w", CARRIED),
            ("c", "tinmove certificate 1\n1 0\n"),
        ],
        Status::Uncertified,
        &[("-", Some("certificate: segment 0/0\n"))],
    ),
    (
        &VERIFY,
        &[
            ("s.json", SQUARE),
            ("l.wkt", LINE),
            ("w", CARRIED),
            ("c", "tinmove certificate 1\n0\n"),
        ],
        Status::Uncertified,
        &[("-", Some("certificate: segment 0/0\n"))],
    ),
    (
        &VERIFY,
        &[
            ("s.json", SQUARE),
            ("l.wkt", LINE),
            ("w", CARRIED),
            ("c", "tinmove certificate 1\n"),
        ],
        Status::Uncertified,
        &[("-", Some("certificate: count\n"))],
    ),
    (
        &VERIFY,
        &[
            ("s.json", SQUARE),
            ("l.wkt", LINE),
            ("w", CARRIED),
            ("c", "tinmove certificate 1\n0 01\n"),
        ],
        Status::Uncertified,
        &[("-", Some("certificate: form at line 2\n"))],
    ),
    (
        &VERIFY,
        &[
            ("s.json", SQUARE),
            ("l.wkt", LINE),
            ("w", CARRIED),
            ("c", ""),
        ],
        Status::Uncertified,
        &[("-", Some("certificate: form at line 1\n"))],
    ),
    (
        &VERIFY,
        &[
            ("s.json", SQUARE),
            ("l.wkt", LINE),
            (
                "w",
                "LINESTRING (110.000 100.000, 105.001 105.002, 100.000 110.000)",
            ),
            ("c", CERTIFICATE),
        ],
        Status::Uncertified,
        &[("-", Some("certificate: differs at 35\n"))],
    ),
    (
        &VERIFY,
        &[
            ("s.json", SQUARE),
            ("l.wkt", LINE),
            ("w", "LINESTRING (110.000 100.000"),
            ("c", CERTIFICATE),
        ],
        Status::Uncertified,
        &[("-", Some("certificate: differs at 27\n"))],
    ),
    // a point of two triangles has two certificates
    (
        &VERIFY,
        &[
            ("s.json", SQUARE),
            ("l.wkt", "POINT (5 5)"),
            ("w", "POINT (105.002 105.002)"),
            ("c", "tinmove certificate 1\n0\n"),
        ],
        Status::Same,
        &[("-", Some("certified\n"))],
    ),
    (
        &VERIFY,
        &[
            ("s.json", SQUARE),
            ("l.wkt", "POINT (5 5)"),
            ("w", "POINT (105.002 105.002)"),
            ("c", "tinmove certificate 1\n1\n"),
        ],
        Status::Same,
        &[("-", Some("certified\n"))],
    ),
];

/// The first file that is refused is named.
const UNVERIFIED: &[MemoryJob] = &[
    (
        &VERIFY,
        &[("s.json", SQUARE)],
        Status::Read,
        &[("-", Some("read fault: layer 0\n"))],
    ),
    (
        &VERIFY,
        &[("s.json", SQUARE), ("l.wkt", LINE)],
        Status::Read,
        &[("-", Some("read fault: written\n"))],
    ),
    (
        &VERIFY,
        &[("s.json", SQUARE), ("l.wkt", LINE), ("w", CARRIED)],
        Status::Read,
        &[("-", Some("read fault: certificate\n"))],
    ),
    (
        &VERIFY,
        &[
            ("s.json", SQUARE),
            ("l.wkt", "POINT (5"),
            ("w", CARRIED),
            ("c", ""),
        ],
        Status::Layer,
        &[("-", Some("layer 0: bad at 8\n"))],
    ),
];

const REFUSED_WORDS: &[MemoryJob] = &[
    (
        &[
            "verify",
            "--tin",
            "",
            "--source",
            "",
            "--written",
            "",
            "--cert",
            "",
        ],
        &[],
        Status::Words,
        &[("-", Some("words: name of triangulation\n"))],
    ),
    (
        &[
            "verify",
            "--tin",
            "t",
            "--source",
            "",
            "--written",
            "",
            "--cert",
            "",
        ],
        &[],
        Status::Words,
        &[("-", Some("words: name of source\n"))],
    ),
    (
        &[
            "verify",
            "--tin",
            "t",
            "--source",
            "l.wkt",
            "--written",
            "",
            "--cert",
            "",
        ],
        &[],
        Status::Words,
        &[("-", Some("words: name of written\n"))],
    ),
    (
        &[
            "verify",
            "--tin",
            "t",
            "--source",
            "l.wkt",
            "--written",
            "w",
            "--cert",
            "",
        ],
        &[],
        Status::Words,
        &[("-", Some("words: name of certificate\n"))],
    ),
    (
        &[
            "verify",
            "--tin",
            "t",
            "--source",
            "l",
            "--written",
            "w",
            "--cert",
            "c",
        ],
        &[],
        Status::Words,
        &[("-", Some("words: suffix of layer 0\n"))],
    ),
];

/// A layer that was carried in the other direction.
const CARRIED_BACK: Files = &[
    ("s.json", SQUARE),
    ("l.wkt", "POINT (100 110)"),
    ("w", "POINT (0.000 10.000)"),
    ("c", "tinmove certificate 1\n1\n"),
];

const INVERSE: &[MemoryJob] = &[
    (
        &[
            "verify",
            "--tin",
            "s.json",
            "--source",
            "l.wkt",
            "--written",
            "w",
            "--cert",
            "c",
            "--inverse",
        ],
        CARRIED_BACK,
        Status::Same,
        &[("-", Some("certified\n"))],
    ),
    (
        &VERIFY,
        CARRIED_BACK,
        Status::Uncertified,
        &[("-", Some("certificate: segment 0/0\n"))],
    ),
];

/// The tables of this file.
const TABLES: &[Table<MemoryJob>] = &[
    ("a migration writes certificates", WRITTEN),
    ("a written layer is verified", VERIFIED),
    ("the first file that is refused is named", UNVERIFIED),
    (
        "the words of a verification are read in order",
        REFUSED_WORDS,
    ),
    ("a layer of the other direction is verified", INVERSE),
];

#[test]
fn certificates_are_written_and_verified(rt: HostRuntime) {
    assert_eq!(rt; other_job(rt.alloc(), TABLES), None);
}
