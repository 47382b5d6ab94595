//! The code points that tell two values apart which may print alike.
ghost use Rattle.std.specs.Prelude.{◌≡◌, ◌++◌, OnOk};
ghost use Rattle.crs_explain.specs.CodePoints.{code_points, points_of};

use crate::Made;
use bstr::ByteSlice;
use crs_streams::append_code_point;

/// Appends the code points of the first characters in which two values differ, such as ` (U+0410 | U+0041)`, unless
/// both are ASCII or a value ends there. `AllocError`: no memory for it, and `out` has a beginning of it.
pub(crate) fn append_code_points(first: &[u8], second: &[u8], out: &mut Vec<u8>) -> Made<()>
    ensures { OnOk result (out.new.items ≡ out.old.items ++ code_points first.now second.now) }
{
    let mut left = first.chars();
    let mut others = second.chars();
    while let (Some(x), Some(y)) = (left.next(), others.next()) {
        if x != y {
            return append_points(x, y, out);
        }
    }
    Ok(())
}

fn append_points(x: char, y: char, out: &mut Vec<u8>) -> Made<()>
    ensures { OnOk result (out.new.items ≡ out.old.items ++ points_of x y) }
{
    if x < '\u{80}' && y < '\u{80}' || x == '"' || y == '"' {
        return Ok(());
    }
    out.extend_from_slice(b" (")?;
    append_code_point(x, out)?;
    out.extend_from_slice(b" | ")?;
    append_code_point(y, out)?;
    out.extend_from_slice(b")")
}
