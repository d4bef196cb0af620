//! What every mode of the program is built on: how a run ends, why it is refused and which line says so,
//! the files that it reads, and what it is ready to write.
#![tactic(auto)]

mod laws;
mod layer_lines;
mod lines;
mod loads;
mod output;
mod refusal;
mod status;
mod triangulations;

pub use laws::{limits_are_stated, read_tins_are_within_limits, tin_end_exists, tin_end_is_one};
pub use lines::{LINE_ROOM, Line};
pub use loads::{MOST_BYTES, MOST_VERIFIED, load_directed, load_file, load_tin};
pub use output::{LayerFile, RunOutput, output_name};
pub use refusal::Refusal;
pub use status::Status;
pub use triangulations::sound_tin;
