//! What comes before a place: a look at delimiters and quoted texts, token by token, which takes no memory.
use crate::hint::NodeStart;
use crate::hint::glance::{back, front, is_of_word, looked_at, names, rest, split_word};
use arrayvec::ArrayVec;
use crs_shape::{Class, known, root_class};

// Nodes that only a CRS or a base CRS has.
const IN_CRS: [Class; 11] = [
    Class::GeodeticFrame,
    Class::VerticalFrame,
    Class::GeodeticEnsemble,
    Class::Dynamic,
    Class::PrimeMeridian,
    Class::CoordinateSystem,
    Class::Axis,
    Class::Conversion,
    Class::GeoidModel,
    Class::Usage,
    Class::Remark,
];

/// What comes before a place, or begins there.
#[derive(Drop)]
pub(crate) struct Before<'t> {
    /// The text before the place.
    pub(crate) text: &'t [u8],
    /// The delimiters that are open, the outermost first: at most 12 before a refusal's place, and one may begin there.
    pub(crate) open: ArrayVec<NodeStart<'t>, 13>,
    quote: Option<usize>,
    /// Whether a delimiter was closed.
    has_closed: bool,
    /// Where the first quoted text begins that has nodes inside.
    pub(crate) quote_missing: Option<usize>,
    /// The first node that is where none of its kind can be, and the node that it is in.
    pub(crate) outside: Option<(NodeStart<'t>, NodeStart<'t>)>,
}

/// What comes before a place of a text.
pub(crate) fn look_before(text: &[u8], place: usize) -> Before<'_> {
    let seen = front(text, place.saturating_add(400));
    let mut found = Before {
        text: front(text, place),
        open: ArrayVec::new(),
        quote: None,
        has_closed: false,
        quote_missing: None,
        outside: None,
    };
    for (at, byte) in seen.iter().enumerate() {
        if !found.goes_on(seen, place, at, *byte) {
            break;
        }
    }
    if let Some(begin) = found.quote {
        found.end_quote(rest(seen, begin), begin);
    }
    found
}

impl<'t> Before<'t> {
    /// The delimiter that was opened last.
    pub(crate) fn innermost(&self) -> Option<NodeStart<'t>> {
        self.open.last().copied()
    }

    /// Whether delimiters were opened, and all are closed again.
    pub(crate) fn is_complete(&self) -> bool {
        self.has_closed && self.open.is_empty()
    }

    // Takes the byte at `at`; false where what follows doesn't count.
    fn goes_on(&mut self, text: &'t [u8], place: usize, at: usize, byte: u8) -> bool {
        match (self.quote, byte) {
            (Some(begin), b'"') => {
                self.end_quote(front(rest(text, begin), at.saturating_sub(begin)), begin);
                self.quote = None;
                true
            }
            (Some(_), _) => true,
            (None, b'"') => {
                self.quote = (at <= place).then_some(at);
                at <= place
            }
            (None, b'[' | b'(') => self.enter(node_at(text, at, byte), place),
            (None, b']' | b')') => {
                if at < place && self.open.pop().is_some() {
                    self.has_closed = true;
                }
                at < place
            }
            (None, _) => true,
        }
    }

    fn end_quote(&mut self, quoted: &[u8], begin: usize) {
        let opening = self.innermost().map_or(b'[', |it| it.delimiter);
        if self.quote_missing.is_none() && has_node(looked_at(quoted, 0), opening) {
            self.quote_missing = Some(begin);
        }
    }

    // A node that begins at the place itself counts too: what is missing may belong before it.
    fn enter(&mut self, node: NodeStart<'t>, place: usize) -> bool {
        if node.begin > place {
            return false;
        }
        if let Some(outer) = self.innermost()
            && self.outside.is_none()
            && names(node.keyword, &IN_CRS)
            && holds_none(outer.keyword)
        {
            self.outside = Some((node, outer));
        }
        node.begin != place && self.open.try_push(node).is_ok()
    }
}

// Whether it is the keyword of a node that can't have any of `IN_CRS`, since it is neither a CRS nor a base CRS.
fn holds_none(keyword: &[u8]) -> bool {
    known(keyword) && root_class(keyword).is_none() && !names(keyword, &[Class::BaseCrs])
}

/// The node whose opening delimiter is at a place.
pub(crate) fn node_at(text: &[u8], at: usize, delimiter: u8) -> NodeStart<'_> {
    let ahead = front(text, at).trim_ascii_end();
    let run = ahead.iter().rev().take_while(|it| is_of_word(**it)).count();
    let word = back(ahead, run);
    // A keyword begins with a letter.
    let letter = word.iter().position(|it| it.is_ascii_alphabetic());
    let keyword = rest(word, letter.unwrap_or(run));
    NodeStart {
        begin: ahead.len().saturating_sub(keyword.len()),
        keyword,
        delimiter,
    }
}

// Whether a quoted text has, at a comma, the end of a node or the next one's beginning, as where a quote is missing.
fn has_node(quoted: &[u8], opening: u8) -> bool {
    let closing = if opening == b'[' { b']' } else { b')' };
    (0..quoted.len()).any(|at| match rest(quoted, at) {
        [b',', behind @ ..] => {
            front(quoted, at).trim_ascii_end().last() == Some(&closing)
                || matches!(split_word(behind), ([_, ..], [next, ..]) if *next == opening)
        }
        _ => false,
    })
}
