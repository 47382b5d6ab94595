//! Hints, the nodes that they name, and the tables in which they are looked for.
pub(crate) mod before;
pub(crate) mod class;
pub(crate) mod front;
pub(crate) mod glance;
pub(crate) mod meanings;
pub(crate) mod place;
pub(crate) mod sentence;
pub(crate) mod writing;

/// What to say of a text.
#[derive(Clone, Copy)]
pub(crate) struct Hint<'a> {
    /// A sentence or more, with `{}` where something is filled in.
    pub(crate) sentence: &'static str,
    pub(crate) filling: Filling<'a>,
    pub(crate) about: About,
}

/// What a hint is about, as far as another hint beside it depends on that.
#[derive(Clone, Copy)]
pub(crate) enum About {
    /// A class of CRS that isn't read: beside it damage is named.
    Class,
    /// What follows a complete text, which is no damage: a second text may follow WKT1.
    Behind,
    Other,
}

/// What is filled into a sentence.
#[derive(Clone, Copy)]
pub(crate) enum Filling<'a> {
    Nothing,
    Words(&'a [u8]),
    /// A word, in capitals.
    Capitals(&'a [u8]),
    /// A word, as a shell takes it, behind these bytes.
    Argument(&'static [u8], &'a [u8]),
    /// What to do with a text that PROJ reads, and the word of its transformation, if it has one.
    ByProj(&'a [u8]),
    Place(usize),
    /// A control character, in hexadecimal digits.
    Control(u8),
    Node(NodeStart<'a>),
    /// A node inside another.
    Inside(NodeStart<'a>, NodeStart<'a>),
    /// Nodes that are open, behind these bytes if there are any.
    Open(&'static [u8], &'a [NodeStart<'a>]),
}

impl<'a> Hint<'a> {
    /// The same, about this.
    pub(crate) fn about(mut self, about: About) -> Hint<'a> {
        self.about = about;
        self
    }
}

/// A node of a text: where it begins, its keyword, which may be no bytes, and its opening delimiter.
#[derive(Clone, Copy, Default)]
pub(crate) struct NodeStart<'t> {
    pub(crate) begin: usize,
    pub(crate) keyword: &'t [u8],
    pub(crate) delimiter: u8,
}

/// The hint of a sentence into which nothing is filled.
pub(crate) fn said(sentence: &'static str) -> Option<Hint<'static>> {
    filled(sentence, Filling::Nothing)
}

/// The hint of a sentence into which this is filled.
pub(crate) fn filled<'a>(sentence: &'static str, filling: Filling<'a>) -> Option<Hint<'a>> {
    let about = About::Other;
    Some(Hint {
        sentence,
        filling,
        about,
    })
}

/// Bytes to look for, and the sentence for them, with the words that are filled in.
pub(crate) type Entry = (&'static [u8], &'static str, &'static [u8]);

/// The hint of the first of these entries with which the bytes begin.
pub(crate) fn by_first_bytes(bytes: &[u8], entries: &[Entry]) -> Option<Hint<'static>> {
    let entry = entries.iter().find(|it| bytes.starts_with(it.0))?;
    filled(entry.1, Filling::Words(entry.2))
}
