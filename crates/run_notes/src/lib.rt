//! What a program prints beside a run, on standard error and on a terminal: of its words, of the work of its job, and
//! of how it ended.
#![tactic(auto)]

mod blocks;
mod borders;
mod command_words;
mod degrees;
mod entity_kinds;
mod faulty_triangles;
mod job_work;
mod kept_parts;
mod kind_notes;
mod laws;
mod layer_notes;
mod owners;
mod refused_files;
mod strays;
mod tin_uses;
mod unwritten_files;
mod warnings;
mod word_flaws;
mod word_forms;
mod word_uses;

pub use borders::say_border;
pub use command_words::{Usage, Words, words_of};
pub use degrees::say_degrees;
pub use entity_kinds::left_out_kinds;
pub use faulty_triangles::say_many_faults;
pub use job_work::work_for;
pub use kind_notes::KindNotes;
pub use laws::{limits_are_stated, substitutes_give_no_job};
pub use layer_notes::say_layers;
pub use owners::{Owner, owners_of, say_owners};
pub use refused_files::say_refusal;
pub use unwritten_files::say_unwritten;
pub use warnings::say_meetings;
pub use word_flaws::flaw_of;
