//! The delimiters that are open where a text is refused.
ghost use Rattle.std.specs.Prelude.{◌≡◌, ◌<◌, ℕ, None, [], length, drop, reverse, MatchOption};
ghost use Rattle.crs_text.specs.Items.{Item};
ghost use Rattle.crs_text.specs.Viable.{opens};
ghost use Rattle.crs_text.specs.TextFault.{RefusesText, SpellsNode};
ghost use Rattle.crs_text.specs.inner.Lexing.{IsLexed};
ghost use Rattle.crs_text.specs.Innermost.{IsInnermost};
ghost use Rattle.crs_text.specs.inner.Nesting.{IsPassed, IsHalted, IsAnswered};

use crate::lexing::{Lexed, rest_of, token_at};
use crate::scanning::after_white;
use arrayvec::ArrayVec;

/// The places of open delimiters, in the order in which they were opened: no more are open before a refusal. Profile.
type Nest = ArrayVec<usize, 12>;

// How many bytes the token has that begins at this place, by which delimiters are opened and closed.
fn pass(nest: &mut Nest, text: &[u8], at: usize, lexed: Lexed) -> Option<usize>
    requires within { at < length text.now }
    requires lexed { IsLexed (drop at text.now) lexed }
    ensures { MatchOption result (IsHalted text.now at (reverse nest.old.items) (reverse nest.new.items))
        (IsPassed text.now at (reverse nest.old.items) (reverse nest.new.items)) }
{
    match lexed {
        Lexed::Number { length } => Some(length),
        Lexed::Text { length } => Some(length + 2),
        Lexed::Word { length } => Some(length),
        Lexed::Comma => Some(1),
        Lexed::Opening { square: _ } if nest.is_full() => None,
        Lexed::Opening { square: _ } => {
            nest.push(at);
            Some(1)
        }
        Lexed::Closing { square: _ } => {
            nest.pop();
            Some(1)
        }
        Lexed::Flaw { reason: _, skip: _ } => None,
    }
}

fn innermost(text: &[u8], place: usize) -> Option<usize>
    ensures { IsAnswered text.now place result }
{
    let end = place.min(text.len());
    let mut nest = Nest::new();
    let mut at = after_white(text, 0);
    while at < end {
        let lexed = token_at(rest_of(text, at));
        match pass(&mut nest, text, at, lexed) {
            Some(size) => at = after_white(text, at + size),
            None => return nest.pop(),
        }
    }
    nest.pop()
}

/// The place of the innermost delimiter that is open where a text is refused, with this place and a
/// number from 1 to 8: most likely the node to repair. None: none is open there.
///
/// It takes no memory; time is linear in the text. At the end of a text that is a node, none is open.
/// For any other place nothing is promised. Profile.
pub fn open_delimiter(text: &[u8], place: usize) -> Option<usize>
    ensures refused { (number : ℕ) (r : RefusesText text.now number place) →
        MatchOption result (opens r.before ≡ []) (IsInnermost text.now r.before) }
    ensures whole { (item : Item) → SpellsNode text.now item → place ≡ length text.now → result ≡ None }
{
    innermost(text, place)
}
