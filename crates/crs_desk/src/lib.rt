//! The program's commands, over any reader and any writer.
#![tactic(auto)]

pub mod laws;
pub mod line;
mod runs;

pub use crs_explain::{StepWord, Used};
pub use crs_group::{Listing, PLAIN, Summary};
pub use crs_rules::{Rules, RulesFault, RulesReader, RulesRefusal, Under, read_rules};
pub use crs_streams::{Filling, RunFault, Sink, Source, Stream, append_escaped};
pub use crs_text::Refusal;
pub use crs_value::Level;
pub use line::job::{Job, JobFault, PATH_WORDS};
pub use line::matches::request_of_matches;
pub use line::requests::{Comparison, Layout, LinePair, Request, RequestFault, Task, Work};
pub use line::word::{LineWord, LineWords, WordKind};
pub use line::{is_verbose, request};
pub use runs::answer::{Answer, ForText, TextCommand, write_answer};
pub use runs::digest::{DigestText, Spelled};
pub use runs::explain::{ExplainText, Told};
pub use runs::files::{FileTask, Inputs, blank_told, run_files};
pub use runs::group_files::run_group_files;
pub use runs::line_output::OfLine;
pub use runs::lines::run_lines;
pub use runs::manner::Manner;
pub use runs::pair::{PairAnswer, Telling, pair_output, refused_output};
pub use runs::reading::read_text;
pub use runs::rules::RulesText;
pub use runs::same::{InALine, run_same};
pub use runs::text::{
    CanonText, CheckText, accepted_line, kind_of_text, kind_word, line_of, refusal_in,
    refusal_line, refused_line, run_canon, run_check, run_text,
};
pub use runs::under::{ExplainedForms, SameForms};
