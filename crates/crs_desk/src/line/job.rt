//! What is to be done for a request whose words name what they must.
ghost use Rattle.std.specs.Prelude.{◌≡◌, ◌↔◌, ◌++◌, ◌∷◌, [], IfErr, IfOk, OnOk, None, Some, true};
ghost use Rattle.std.specs.List.{list_any};
ghost use Rattle.std.specs.Str.{bytes_eq};
ghost use Rattle.crs_value.specs.Sound.{Each};
ghost use Rattle.crs_desk.specs.inner.PartFault.{IsPartFault};
ghost use Rattle.crs_desk.specs.Requests.{DoesAt, IsInPaths, IsJobFault, IsJobFaultAt, IsJobOf};
ghost use Rattle.crs_desk.specs.Requests.{level_named, order_of, word_meant, words_meant};

use crate::{
    Comparison, Layout, Level, LinePair, LineWord, LineWords, Manner, PLAIN, Request, StepWord,
    Task, WordKind, Work,
};
use std::alloc::{AllocError, Global};
use thiserror::Error;

/// The words of paths.
pub const PATH_WORDS: [&str; 31] = [
    "accuracy",
    "anchor",
    "anchorepoch",
    "axis",
    "base",
    "conversion",
    "datum",
    "dimension",
    "direction",
    "dynamic",
    "ellipsoid",
    "epoch",
    "flattening",
    "geoid",
    "horizontal",
    "id",
    "kind",
    "longitude",
    "members",
    "meridian",
    "method",
    "model",
    "name",
    "parameters",
    "remark",
    "semimajor",
    "system",
    "type",
    "unit",
    "usage",
    "vertical",
];

/// What is to be done.
#[derive(Drop)]
pub struct Job {
    /// The level.
    pub level: Level,
    /// The words of paths whose parts are written first.
    pub order: Vec<StepWord>,
    /// The work.
    pub work: Work,
}

/// Why a request is no job.
#[derive(Clone, Copy, Debug, Error)]
pub enum JobFault {
    /// The word after `--level` names no level.
    #[error("no such level")]
    Level,
    /// A word after `--first` is in no path.
    #[error("no such part")]
    Part,
    /// Memory ran out.
    #[error("out of memory")]
    Memory,
}

impl From<AllocError> for JobFault {
    ghost use Rattle.std.specs.Prelude.{◌≡◌};
    ghost use Rattle.crs_desk.specs.declared.line.job.JobFault.TheVariants.{Memory};

    ghost from_gives = { λ _ fault. fault ≡ Memory };

    fn from(_error: AllocError) -> JobFault {
        JobFault::Memory
    }
}

impl Request {
    /// What is to be done. The level is judged before the words of paths: `Level` if its word names none, else `Part`
    /// if a word after `--first`, between commas, is in no path.
    pub fn into_job(self, alloc: Global) -> Result<Job, JobFault>
        ensures job { IfOk result (IsJobOf self) }
        ensures fault { IfErr result (IsJobFault self) }
    {
        match self {
            Request::Canon(level) => {
                let work = Work::Standard(Task::Canon(Layout::OneText));
                at_level(alloc, &level, &[], work)
            }
            Request::Check => {
                let work = Work::Standard(Task::Check(Layout::OneText, Manner::Lines));
                let (level, order) = (Level::Full, Vec::new(alloc));
                Ok(Job { level, order, work })
            }
            Request::Same(first, second, level) => {
                let rules = LineWords::of(alloc, &[])?;
                let kind = WordKind::Text;
                let pair = LinePair {
                    kind,
                    first,
                    second,
                    rules,
                };
                let comparison = Comparison::Same(Manner::Lines);
                at_level(alloc, &level, &[], Work::Pair(comparison, pair))
            }
            Request::Group(level) => {
                let work = Work::Standard(Task::Group(PLAIN));
                at_level(alloc, &level, &[], work)
            }
            Request::Other { level, order, work } => at_level(
                alloc,
                &level,
                order.as_slice(),
                work,
            ),
        }
    }
}

fn at_level(
    alloc: Global,
    level: &LineWord,
    order: &[LineWord],
    work: Work,
) -> Result<Job, JobFault>
    ensures job { IfOk result (DoesAt level.now order.now work) }
    ensures fault { IfErr result (IsJobFaultAt level.now order.now) }
{
    let level = level_of(level)?;
    let order = order_of(alloc, order)?;
    Ok(Job { level, order, work })
}

fn level_of(word: &LineWord) -> Result<Level, JobFault>
    ensures named { IfOk result (λ level. Some level ≡ level_named word.now) }
    ensures fault { IfErr result (λ fault. (fault ≡ JobFault.Level) × (level_named word.now ≡ None)) }
{
    match word.as_str() {
        "full" => Ok(Level::Full),
        "definition" => Ok(Level::Definition),
        _ => Err(JobFault::Level),
    }
}

// The words of all `--first`, each of which has some with commas between them.
fn order_of(alloc: Global, given: &[LineWord]) -> Result<Vec<StepWord>, JobFault>
    ensures ok { IfOk result (λ order. (order.items ≡ order_of given.now) × Each IsInPaths (order_of given.now)) }
    ensures fault { IfErr result (IsPartFault (order_of given.now)) }
{
    let mut order = Vec::new(alloc);
    for words in given {
        add_words(words.as_str(), &mut order)?;
    }
    Ok(order)
}

// Adds the words of a text, which commas part.
fn add_words(text: &str, order: &mut Vec<StepWord>) -> Result<(), JobFault>
    ensures ok { OnOk result ((order.new.items ≡ order.old.items ++ words_meant text.now) × Each IsInPaths (words_meant text.now)) }
    ensures fault { IfErr result (IsPartFault (words_meant text.now)) }
{
    let mut rest = text;
    while let Some((word, left)) = rest.split_once(',') {
        add_word(word, order)?;
        rest = left;
    }
    add_word(rest, order)
}

// Adds the word of a path that is asked for: `axis` for `axes` too.
fn add_word(word: &str, order: &mut Vec<StepWord>) -> Result<(), JobFault>
    ensures ok { OnOk result ((order.new.items ≡ order.old.items ++ word_meant word.now ∷ []) × IsInPaths (word_meant word.now)) }
    ensures fault { IfErr result (IsPartFault (word_meant word.now ∷ [])) }
{
    let word = if word == "axes" { "axis" } else { word };
    if !is_in_paths(word) {
        return Err(JobFault::Part);
    }
    let word = StepWord::new(*order.allocator(), word.as_bytes())?;
    order.push(word).map_err(AllocError::from)?;
    Ok(())
}

fn is_in_paths(word: &str) -> bool
    ensures { (result ≡ true) ↔ IsInPaths word.now }
{
    is_among(&PATH_WORDS, word)
}

fn is_among(words: &[&str], word: &str) -> bool
    ensures { result ≡ list_any (λ known. bytes_eq known.now word.now) words.now }
{
    words.iter().any(|known| *known == word)
}
