//! The tests of whole jobs over the largest maps of the maker. A body that tries all pairs of triangles or of pieces,
//! or each line with each triangle, would not end within a test's time.
#![tactic(auto)]

#[cfg(test)]
mod carried_lines_tests;
#[cfg(test)]
mod job_tests;
#[cfg(test)]
mod largest_maps;
