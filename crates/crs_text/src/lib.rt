//! Tokens and items of a well-formed text, or the first fault with its place. Crates above judge a text by its items
//! and the raw bytes of each; they read the text itself only to write pieces of it, and to explain a refusal.
#![tactic(auto)]

mod fault;
mod feeder;
mod feeding;
mod items;
mod keyword;
pub mod laws;
mod lexing;
mod nesting;
mod position;
mod refusal;
mod runs;
mod scanning;
mod table;

pub use fault::Fault;
pub use feeder::Feeder;
pub use items::{ItemId, ItemKind, Items};
pub use keyword::Keyword;
pub use nesting::open_delimiter;
pub use position::{Position, position_of};
pub use refusal::Refusal;
pub use scanning::read_items;
