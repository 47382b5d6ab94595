use crate::{LineWord, LineWords, Listing, Manner, WordKind};
use std::alloc::AllocError;
use thiserror::Error;

/// What a command line asks for. A level is the word after `--level`, whatever it is, and `full` if none is named.
#[derive(Debug, Drop)]
pub enum Request {
    /// The canonical text of the text on standard input, at a level.
    Canon(LineWord),
    /// Whether the text on standard input is accepted, and what it spells.
    Check,
    /// Whether two texts spell the same CRS: the first, the second, and a level.
    Same(LineWord, LineWord, LineWord),
    /// Which lines of standard input, one text per line, spell the same CRS, at a level.
    Group(LineWord),
    /// Any other work, at a level.
    Other {
        level: LineWord,
        /// The words after each `--first`, whatever words they are.
        order: LineWords,
        work: Work,
    },
}

/// What is done with texts and files. A file has its name in the command line; `-` is standard input.
#[derive(Debug, Drop)]
pub enum Work {
    /// A task over standard input, without rules.
    Standard(Task),
    /// What a text spells, or why it is refused, is explained; the rules files of these names don't change that.
    Text {
        how: Manner,
        text: LineWord,
        rules: LineWords,
    },
    /// Two texts are compared.
    Pair(Comparison, LinePair),
    /// A task over at least one file, under the rules of rules files, if there are some.
    Files {
        task: Task,
        names: LineWords,
        rules: LineWords,
        /// Whether each line begins with the file's name even if there is one file.
        named: bool,
    },
    /// At least one rules file is judged, with names of files or without.
    Rules {
        names: LineWords,
        /// The names of the files of texts in which the rules are to be used.
        used: LineWords,
        named: bool,
    },
}

/// Two texts of a command line, or two files, and the rules files under which they are compared, if there are some.
#[derive(Debug, Drop)]
pub struct LinePair {
    /// What the words are.
    pub kind: WordKind,
    /// The first.
    pub first: LineWord,
    /// The second.
    pub second: LineWord,
    /// The names of the rules files.
    pub rules: LineWords,
}

/// How two texts are compared.
#[derive(Clone, Copy, Debug)]
pub enum Comparison {
    /// Whether they spell the same CRS, or the first part that differs.
    Same(Manner),
    /// Each part that differs.
    Explain(Manner),
}

/// How texts are arranged in an input.
#[derive(Clone, Copy, Debug)]
pub enum Layout {
    /// All of it is one text.
    OneText,
    /// Each line is a text, which `--lines` asks for.
    Lines,
}

/// What is asked of an input.
#[derive(Clone, Copy, Debug)]
pub enum Task {
    /// The canonical text of each text.
    Canon(Layout),
    /// The digest of each canonical text.
    Digest(Layout),
    /// Whether each text is accepted, and what it spells.
    Check(Layout, Manner),
    /// Which lines, or which files, with one text each, spell the same CRS.
    Group(Listing),
    /// What the text spells, or why it is refused, explained.
    Explain(Manner),
}

/// Why a command line gives no request.
#[derive(Debug, Drop, Error)]
pub enum RequestFault {
    /// The line is wrong, or asks for help or the version: `clap`'s own text, on the stream that `clap` picks.
    #[error("{0}")]
    Line(clap::Error),
    /// Memory ran out.
    #[error("out of memory")]
    Memory(AllocError),
}
