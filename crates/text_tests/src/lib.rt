//! The tests of files, numerals, JSON text, triangulation files, pairs of drawings, splices,
//! reports, words, help, limits and remarks: here, so that the libraries that they call are proved once.
#![tactic(auto)]

#[cfg(test)]
mod dxf_pairs_tests;
#[cfg(test)]
mod found_again_tests;
#[cfg(test)]
mod help_texts_tests;
#[cfg(test)]
mod job_words_tests;
#[cfg(test)]
mod jtext_tests;
#[cfg(test)]
mod limit_tests;
#[cfg(test)]
mod mm_decimal_tests;
#[cfg(test)]
mod remarks_line_tests;
#[cfg(test)]
mod remarks_tests;
#[cfg(test)]
mod report_text_fault_tests;
#[cfg(test)]
mod report_text_tests;
#[cfg(test)]
mod sheet_base_tests;
#[cfg(test)]
mod shelf_io_tests;
#[cfg(test)]
mod tin_file_tests;
