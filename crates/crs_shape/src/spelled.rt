//! Words of closed lists, letter case aside.
ghost use Rattle.std.specs.Prelude.{◌≡◌, ◌↔◌, IsTrue, map};
ghost use Rattle.std.specs.Char.{to_ascii_lowercase};

// Whether bytes spell this word, letter case aside. Mostly they are the word as it is written, which takes the comparison
// of a few machine words where the word is a constant.
#[inline(always)]
pub(crate) fn is_spelled(word: &[u8], bytes: &[u8]) -> bool
    ensures { IsTrue result ↔ (map to_ascii_lowercase word.now ≡ map to_ascii_lowercase bytes.now) }
{
    word == bytes || has_letters(word, bytes)
}

// Out of line, since the compiler would otherwise make one loop of those for several words.
#[inline(never)]
fn has_letters(word: &[u8], bytes: &[u8]) -> bool
    ensures { IsTrue result ↔ (map to_ascii_lowercase word.now ≡ map to_ascii_lowercase bytes.now) }
{
    word.eq_ignore_ascii_case(bytes)
}
