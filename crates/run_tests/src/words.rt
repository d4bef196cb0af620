//! Runs in memory over words that are refused.

use crate::memory_runs::{MemoryJob, other_job};
use runs::Status;

/// Words that are refused, and what is said of them.
const NO_JOBS: &[MemoryJob] = &[
    (&[], &[], Status::Words, &[("-", Some("words: no mode\n"))]),
    (
        &["carry", "--tin", "t.json"],
        &[],
        Status::Words,
        &[("-", Some("words: no mode\n"))],
    ),
    (
        &["--help"],
        &[],
        Status::Words,
        &[("-", Some("words: no mode\n"))],
    ),
    (
        &["check", "--tin"],
        &[],
        Status::Words,
        &[("-", Some("words: not understood\n"))],
    ),
    (
        &["check", "t.json", "--tin"],
        &[],
        Status::Words,
        &[("-", Some("words: not understood\n"))],
    ),
    (
        &["check", "--tin", "t", "p.wkt"],
        &[],
        Status::Words,
        &[("-", Some("words: not understood\n"))],
    ),
    (
        &["check", "--tin", "t", "--tin", "t"],
        &[],
        Status::Words,
        &[("-", Some("words: not understood\n"))],
    ),
    (
        &["check", "--tin", "t", "--inverse"],
        &[],
        Status::Words,
        &[("-", Some("words: not understood\n"))],
    ),
    (
        &["migrate", "--tin", "t", "--out", "o"],
        &[],
        Status::Words,
        &[("-", Some("words: not understood\n"))],
    ),
    (
        &[
            "migrate", "--tin", "t", "--out", "o", "--exact", "--exact", "a.wkt",
        ],
        &[],
        Status::Words,
        &[("-", Some("words: not understood\n"))],
    ),
    (
        &["make", "0"],
        &[],
        Status::Words,
        &[("-", Some("words: size\n"))],
    ),
    (
        &["make", "513"],
        &[],
        Status::Words,
        &[("-", Some("words: size\n"))],
    ),
    (
        &["make", "01"],
        &[],
        Status::Words,
        &[("-", Some("words: size\n"))],
    ),
    (
        &["check", "--tin", ""],
        &[],
        Status::Words,
        &[("-", Some("words: name of triangulation\n"))],
    ),
    (
        &["migrate", "--tin", "t", "--out", "", "a.wkt"],
        &[],
        Status::Words,
        &[("-", Some("words: name of folder\n"))],
    ),
    (
        &["migrate", "--tin", "t", "--out", "o", "a.wkt", "b\n.wkt"],
        &[],
        Status::Words,
        &[("-", Some("words: name of layer 1\n"))],
    ),
    (
        &["migrate", "--tin", "t", "--out", "o", "a.tif"],
        &[],
        Status::Words,
        &[("-", Some("words: suffix of layer 0\n"))],
    ),
    (
        &["migrate", "--tin", "t", "--out", "o", "a/x.wkt", "b/x.wkt"],
        &[],
        Status::Words,
        &[("-", Some("words: same name at layer 1\n"))],
    ),
];

#[test]
fn words_that_are_refused(rt: HostRuntime) {
    assert_eq!(rt;
        other_job(rt.alloc(), &[("words that are refused", NO_JOBS)]),
        None
    );
}
