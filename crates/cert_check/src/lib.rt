//! Certificates of migrated layers: the triangles of each segment's pieces, by which a receiver checks a migrated layer
//! without a search.
#![tactic(auto)]

mod certificate_texts;
mod checks;
mod faults;
mod laws;
mod lines;
mod nearness;
mod numbers;
mod parts;
mod path_segments;
mod paths;
mod right_lists;
mod runs;

pub use certificate_texts::write_cert;
pub use checks::check_cert;
pub use faults::CertFault;
pub use laws::{
    certificate_end_exists, certificates_are_one, certificates_end_once,
    certificates_have_no_bad_line, piece_triangles_are_right, pieces_are_accepted,
    pieces_are_rightly_certified, right_lists_are_inside, text_outcome_exists,
};
pub use lines::list_count;
pub use right_lists::is_right;
