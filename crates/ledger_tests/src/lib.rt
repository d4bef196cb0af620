//! Tests of the ledger's script, of whole runs and their remarks, and of digests.
#![tactic(auto)]

#[cfg(test)]
mod file_digests_tests;
#[cfg(test)]
mod ledger_remarks_tests;
#[cfg(test)]
mod ledger_runs_tests;
#[cfg(test)]
mod ledger_script_tests;
