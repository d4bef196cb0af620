//! The tests of the whole programs, over files in memory. They are above the libraries of both programs, so that
//! these are proved without them, and once.
#![tactic(auto)]

#[cfg(test)]
mod altered_certificates;
#[cfg(test)]
mod certificates;
#[cfg(test)]
mod change_features;
#[cfg(test)]
mod drawings;
#[cfg(test)]
mod faults;
#[cfg(test)]
mod geojson;
#[cfg(test)]
mod jobs;
#[cfg(test)]
mod layers;
#[cfg(test)]
mod maker;
#[cfg(test)]
mod memory_runs;
#[cfg(test)]
mod outside;
#[cfg(test)]
mod place_sides;
#[cfg(test)]
mod place_words;
#[cfg(test)]
mod places;
#[cfg(test)]
mod point_lists;
#[cfg(test)]
mod progress_lines;
#[cfg(test)]
mod reports;
#[cfg(test)]
mod sides;
#[cfg(test)]
mod squares;
#[cfg(test)]
mod triangulations;
#[cfg(test)]
mod word_flaws;
#[cfg(test)]
mod words;
