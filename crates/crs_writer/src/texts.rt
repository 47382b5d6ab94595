//! Bytes, and items of one token or of one argument.
ghost use Rattle.std.specs.Prelude.{◌≡◌, ◌∷◌, ◌++◌, [], OnOk};
ghost use Rattle.std.specs.Option.{option_copied};
ghost use Rattle.crs_decimal.specs.Numbers.{plain};
ghost use Rattle.crs_text.specs.Items.{End, More};
ghost use Rattle.crs_text.specs.Written.{item_text, others_text};
ghost use Rattle.crs_normal.specs.inner.SpelledItems.{code_item, number_item};
ghost use Rattle.crs_writer.specs.inner.Openings.{opened, text_behind};

use crate::is_short;
use crate::parts::Appended;
use crs_decimal::Decimal;

/// Appends bytes. `AllocError`: there is no memory for them. Profile.
#[inline(always)]
pub fn append(out: &mut Vec<u8>, bytes: &[u8]) -> Appended
    ensures { OnOk result (out.new.items ≡ out.old.items ++ bytes.now) }
{
    out.extend_from_slice(bytes)
}

/// Appends a comma, and the bytes of an item. `AllocError`: there is no memory for them. Profile.
pub fn append_item(out: &mut Vec<u8>, bytes: &[u8]) -> Appended
    ensures { OnOk result (out.new.items ≡ out.old.items ++ 44 ∷ bytes.now) }
{
    append(out, b",")?;
    append(out, bytes)
}

/// Appends an opening, which ends with a quote, a text, and the other quote. `AllocError`: no memory for them. Profile.
#[inline(always)]
pub fn open_text(out: &mut Vec<u8>, opening: &[u8], text: &[u8]) -> Appended
    ensures { OnOk result (out.new.items ≡ out.old.items ++ opened opening.now text.now) }
{
    append(out, opening)?;
    append(out, text)?;
    append(out, b"\"")
}

fn write_text_node(out: &mut Vec<u8>, opening: &[u8], text: &[u8]) -> Appended
    ensures { OnOk result (out.new.items ≡ out.old.items ++ (opened opening.now text.now ++ 93 ∷ [])) }
{
    open_text(out, opening, text)?;
    append(out, b"]")
}

/// Appends a node of one text, if there is one; its opening begins with a comma. `AllocError`: no memory. Profile.
#[inline(always)]
pub fn write_optional_text(out: &mut Vec<u8>, opening: &[u8], text: Option<&[u8]>) -> Appended
    ensures { OnOk result (out.new.items ≡ out.old.items ++ text_behind opening.now (option_copied text.entry)) }
{
    match text {
        None => Ok(()),
        Some(text) => write_text_node(out, opening, text),
    }
}

/// Appends a number in its canonical spelling. `AllocError`: there is no memory for it. Profile.
pub fn write_decimal(out: &mut Vec<u8>, value: &Decimal) -> Appended
    ensures { OnOk result (out.new.items ≡ out.old.items ++ plain value.now) }
{
    crs_decimal::laws::plain_is_the_one();
    value.write(out)
}

/// Appends an opening, which ends with the delimiter, and a number. `AllocError`: there is no memory for them. Profile.
#[inline(always)]
pub fn open_number(out: &mut Vec<u8>, opening: &[u8], value: &Decimal) -> Appended
    ensures { OnOk result (out.new.items ≡ out.old.items ++ (opening.now ++ plain value.now)) }
{
    append(out, opening)?;
    write_decimal(out, value)
}

/// Appends a number after a comma. `AllocError`: there is no memory for it. Profile.
pub fn write_number(out: &mut Vec<u8>, value: &Decimal) -> Appended
    ensures { OnOk result (out.new.items ≡ out.old.items ++ 44 ∷ item_text (number_item value.now)) }
{
    append(out, b",")?;
    write_decimal(out, value)
}

/// Appends a code or a version after a comma. `AllocError`: there is no memory for it. Profile.
pub fn write_code(out: &mut Vec<u8>, raw: &[u8]) -> Appended
    ensures { OnOk result (out.new.items ≡ out.old.items ++ others_text (More (code_item raw.now) End)) }
{
    if is_short(raw) {
        append(out, b",")?;
        append(out, raw)
    } else {
        open_text(out, b",\"", raw)
    }
}
