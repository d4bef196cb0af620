//! The texts of the statements.

/// How many tables there are of a name.
pub(crate) const TABLES_NAMED: &str =
    "SELECT count(*) FROM sqlite_schema WHERE type = 'table' AND name = ?1";

/// Runs: each with its number from 1, its seal and how many pairs it has.
pub(crate) const MAKE_RUNS: &str =
    "CREATE TABLE runs (run INTEGER PRIMARY KEY, seal BLOB NOT NULL UNIQUE, pairs INTEGER NOT NULL) STRICT";

/// Pairs: each with its run, its place in the run's report from 0, what was decided on it, the relation in the source and
/// the one after rounding, and where both pieces come from.
pub(crate) const MAKE_PAIRS: &str =
    "CREATE TABLE pairs (run INTEGER NOT NULL, place INTEGER NOT NULL, verdict TEXT NOT NULL, was TEXT NOT NULL, \
     now TEXT NOT NULL, first_layer INTEGER NOT NULL, first_path INTEGER NOT NULL, first_segment INTEGER NOT NULL, \
     first_piece INTEGER NOT NULL, second_layer INTEGER NOT NULL, second_path INTEGER NOT NULL, \
     second_segment INTEGER NOT NULL, second_piece INTEGER NOT NULL, PRIMARY KEY (run, place)) STRICT";

pub(crate) const FIND: &str = "SELECT run FROM runs WHERE seal = ?1";

pub(crate) const TOTALS: &str = "SELECT count(*), coalesce(sum(pairs), 0) FROM runs";

pub(crate) const ENTER_RUN: &str = "INSERT INTO runs (run, seal, pairs) VALUES (?1, ?2, ?3)";

/// The first part of a statement that adds pairs.
pub(crate) const ENTER_PAIRS: &str =
    "INSERT INTO pairs (run, place, verdict, was, now, first_layer, first_path, first_segment, first_piece, \
     second_layer, second_path, second_segment, second_piece) VALUES ";

/// The values of a pair in that statement.
pub(crate) const NEW_PAIR: &str = "(?, ?, 'undecided', ?, ?, ?, ?, ?, ?, ?, ?, ?, ?)";

pub(crate) const PAIR: &str =
    "SELECT run, place, verdict, was, now, first_layer, first_path, first_segment, first_piece, second_layer, \
     second_path, second_segment, second_piece FROM pairs WHERE run = ?1 AND place = ?2";

pub(crate) const NEXT: &str =
    "SELECT run, place, verdict, was, now, first_layer, first_path, first_segment, first_piece, second_layer, \
     second_path, second_segment, second_piece FROM pairs WHERE run = ?1 AND place >= ?2 AND verdict = 'undecided' \
     ORDER BY place LIMIT 1";

pub(crate) const DECIDE: &str =
    "UPDATE pairs SET verdict = ?3 WHERE run = ?1 AND place = ?2 AND verdict = 'undecided'";
