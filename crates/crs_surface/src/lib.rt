//! Every item that the specified surface has, called by its specified path: an item that is moved, renamed or changed
//! no longer compiles. What a call returns is put as a row of the tests expects it. Values are taken apart by patterns
//! with all their fields and variants. The examples of `docs/CALLING.md` are here too.
#![tactic(auto)]

mod answer;
mod catalogues;
mod examples;
mod numbers;
mod row;
mod runs;
mod shapes;
mod streams;
mod texts;
mod values;
mod written;

pub use answer::Answer;
pub use catalogues::{put_all, put_placed};
pub use row::{Row, parts_of, put_answer, unusable};
pub use runs::{Run, put_outcome, put_request, put_written};
pub use streams::Page;
pub use texts::{answer_of, fed, put_read, put_taken};
pub use values::{append_part, compared, kind_word, put_spelling};
