//! A shelf and a press that a run is handed in place of those below them: what it is doing is said on a terminal, and
//! what it makes is noted.
#![tactic(auto)]

mod laws;
mod lines;
mod press_notes;
mod progress;
mod step_lines;

pub use laws::limits_are_stated;
pub use lines::{making_text, say_line};
pub use press_notes::{LastName, NotedPress, Notes};
pub use progress::{ToldPress, ToldShelf};
pub use step_lines::Work;
