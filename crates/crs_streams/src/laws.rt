//! Laws of lines: calls that do nothing, and whose contracts are the laws.
ghost use Rattle.std.specs.Prelude.{◌≡◌, ℕ, List, map};
ghost use Rattle.bstr.specs.Text.{lines_of, without_terminator};
ghost use Rattle.crs_streams.specs.inner.Cutting.{CutsLines};
ghost use Rattle.crs_streams.specs.Lines.{AreLines};

/// Bytes have one list of lines, and it is the one that `bstr` cuts.
pub fn lines_are_one()
    ensures one { (bytes : List ℕ) (a b : List (List ℕ)) → AreLines bytes a → AreLines bytes b → a ≡ b }
    ensures cut { (bytes : List ℕ) → AreLines bytes (map without_terminator (lines_of bytes)) }
{}

/// Bytes are cut into lines at their line feeds, piece by piece, as at once.
pub fn lines_are_cut()
    ensures { CutsLines }
{}
