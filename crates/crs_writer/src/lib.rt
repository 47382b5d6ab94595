//! Writers of canonical spellings, from a value or straight from an item, and `Canon`, a canonical text with its level.
#![tactic(auto)]

mod answer;
pub mod axes;
mod canon_text;
pub mod laws;
mod members;
pub mod nodes;
mod numbers;
mod parts;
pub mod pieces;
mod set;
mod spans;
mod spelling;
mod texts;

pub use answer::{canon, canon_in};
pub use axes::is_at;
pub use canon_text::Canon;
pub use nodes::copied::{is_short, keeps};
pub use nodes::node::{Chain, Node};
pub use numbers::{decimal_of, write_raw, write_whole};
pub use texts::{
    append, append_item, open_number, open_text, write_code, write_decimal, write_number,
    write_optional_text,
};
