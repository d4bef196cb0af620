//! Tests of commands over keepers: one in memory, and one over a database file.
#![tactic(auto)]

#[cfg(test)]
mod campaign;
#[cfg(test)]
mod failing_calls_tests;
#[cfg(test)]
mod mem_keeper_tests;
#[cfg(test)]
mod sql_keeper_tests;
