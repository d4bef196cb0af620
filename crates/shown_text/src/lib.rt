//! Text that somebody else wrote, made fit to be printed for a person: nothing of it reaches a terminal as an order.
#![tactic(auto)]

mod characters;
mod laws;
mod texts;

pub use laws::{
    limits_are_stated, short_plain_texts_stay, shown_texts_are_plain, shown_texts_are_short,
};
pub use texts::{MOST_SHOWN, Shown, put_shown};
