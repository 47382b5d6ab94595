//! The library for C: `calls` makes an answer, and a call of `crsdesk.h` writes it to the caller's places, with a code.
#![tactic(auto)]

// The answer at the level of this number.
macro_rules! at_level {
    ($level:ident => $answer:expr) => {
        match level_numbered($level) {
            Some($level) => $answer,
            None => NO_LEVEL,
        }
    };
}

mod calls;
mod catalogue;
mod layout;
mod letting_go;
mod names;
mod pairs;
mod rules;
mod texts;

pub use calls::buffer::{give, give_pieces};
pub use calls::canon::{Entry, Wanted};
pub use calls::catalogue::{
    Numbered, Standing, add_text, add_text_under, drop_catalogue, group_count, line_number,
    new_catalogue, text_piece,
};
pub use calls::codes::{NO_LEVEL, NO_MEMORY, NO_NUMBER, OK, REFUSED, level_numbered};
pub use calls::explain::Explained;
pub use calls::piece::Piece;
pub use calls::refused::Refused;
pub use calls::rules::{
    Form, HeldRules, RulesStanding, add_file, drop_rules, form_piece, make_form, no_rules,
};
