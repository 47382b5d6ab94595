//! Lines of bytes: where one ends, and its text.
ghost use Rattle.std.specs.Prelude.{◌≡◌, ◌≢◌, ◌<◌, ◌++◌, ◌∷◌, [], ℕ, List, IfErr, MatchOption, OnErr, OnOk, length};
ghost use Rattle.crs_streams.specs.Lines.{AreLines, HasNoFeed, IsSplit, IsTextOf};

use crate::RunFault;
use bstr::ByteSlice;

/// The most bytes of a line before its line feed.
pub const MAX_LINE: usize = 1_048_576;

/// The bytes before the first line feed, and those after it. `None`: there is no line feed.
pub fn split_line(bytes: &[u8]) -> Option<(&[u8], &[u8])>
    ensures { MatchOption result (HasNoFeed bytes.now) (λ parts. IsSplit bytes.now parts.0.now parts.1.now) }
{
    match bytes.find_byte(b'\n') {
        Some(at) => Some((&bytes[..at], &bytes[at + 1..])),
        None => None,
    }
}

/// The text of a line that ended at a line feed, without a return at its end.
pub fn text_of(line: &[u8]) -> &[u8]
    ensures { IsTextOf line.now result.now }
{
    match line.split_last() {
        Some((b'\r', text)) => text,
        _ => line,
    }
}

/// The text of the first of all lines, and the bytes after it: none where it has no line feed.
pub fn first_line(bytes: &[u8]) -> (&[u8], &[u8])
    requires { bytes.now ≢ [] }
    ensures lines { (lines : List (List ℕ)) → AreLines result.1.now lines → AreLines bytes.now (result.0.now ∷ lines) }
    ensures less { length result.1.now < length bytes.now }
{
    match split_line(bytes) {
        Some((line, rest)) => (text_of(line), rest),
        None => (bytes, &[]),
    }
}

/// Appends the bytes of a line that goes on. `Memory`: there is no memory for them, and `out` is as before.
pub fn append_bytes(out: &mut Vec<u8>, bytes: &[u8]) -> Result<(), RunFault>
    ensures appended { OnOk result (out.new.items ≡ out.old.items ++ bytes.now) }
    ensures unchanged { OnErr result (out.new.items ≡ out.old.items) }
    ensures fault { IfErr result (λ fault. fault ≡ RunFault.Memory) }
{
    out.extend_from_slice(bytes).map_err(|_| RunFault::Memory)
}
