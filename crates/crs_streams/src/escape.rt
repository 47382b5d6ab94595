//! Texts as one line can show them.
ghost use Rattle.std.specs.Prelude.{◌≡◌, ◌++◌, ◌≤◌, ◌<◌, ◌/◌, ◌%◌, ◌||◌, OnOk, codes, false};
ghost use Rattle.bstr.specs.Escape.{escape_byte, hex_digit};
ghost use Rattle.crs_streams.specs.Escaped.{code_point, coded, composes, digits_above, escaped, hex_byte, hides, shown_char, steers};

use bstr::{ByteSlice, ByteVec};
use std::alloc::AllocError;

/// Appends a text as a line shows it: backslashes are escaped, and what steers a terminal, ends a line, turns a text,
/// shows as a blank or as nothing or composes with the character before it, such as `\\`, `\n`, `\x1B` and `\u202E`;
/// what isn't UTF-8 is U+FFFD. `AllocError`: there is no memory for it.
pub fn append_escaped(bytes: &[u8], out: &mut Vec<u8>) -> Result<(), AllocError>
    ensures { OnOk result (out.new.items ≡ out.old.items ++ escaped bytes.now) }
{
    for c in bytes.chars() {
        append_char(c, out)?;
    }
    Ok(())
}

fn append_char(c: char, out: &mut Vec<u8>) -> Result<(), AllocError>
    ensures { OnOk result (out.new.items ≡ out.old.items ++ shown_char c) }
{
    if c == ' ' {
        out.push(b' ').map_err(AllocError::from)
    } else if c < '\u{80}' {
        append_byte(c as u8, out)
    } else if is_coded(c) {
        append_code(c as u16, out)
    } else {
        out.push_char(c)
    }
}

/// Whether a character from U+0080 on is written by its code.
pub(crate) fn is_coded(c: char) -> bool
    ensures { result ≡ coded c }
{
    steers(c) || hides(c) || composes(c)
}

// Whether a character shows as a blank or as nothing.
fn hides(c: char) -> bool
    ensures { result ≡ hides c }
{
    matches!(
        c,
        '\u{a0}' | '\u{ad}' | '\u{2000}'..='\u{200d}' | '\u{202f}' | '\u{205f}'..='\u{206f}' | '\u{3000}' | '\u{fe00}'..='\u{fe0f}' | '\u{feff}'
    )
}

// Whether a character stands on the one before it, so that the two look like one character.
fn composes(c: char) -> bool
    ensures { result ≡ composes c }
{
    matches!(c, '\u{300}'..='\u{36f}' | '\u{3099}' | '\u{309a}')
}

// Whether a character from U+0080 on steers a terminal, ends a line or changes the direction of a text.
fn steers(c: char) -> bool
    ensures { result ≡ steers c }
{
    matches!(
        c,
        '\u{80}'..='\u{9f}' | '\u{61c}' | '\u{200e}' | '\u{200f}' | '\u{2028}'..='\u{202e}' | '\u{2066}'..='\u{2069}'
    )
}

fn append_byte(byte: u8, out: &mut Vec<u8>) -> Result<(), AllocError>
    ensures { OnOk result (out.new.items ≡ out.old.items ++ escape_byte byte) }
{
    match byte {
        b'\0' => out.extend_from_slice(b"\\0"),
        b'\t' => out.extend_from_slice(b"\\t"),
        b'\n' => out.extend_from_slice(b"\\n"),
        b'\r' => out.extend_from_slice(b"\\r"),
        b'\\' => out.extend_from_slice(b"\\\\"),
        b'!'..=b'~' => out.push(byte).map_err(AllocError::from),
        _ => {
            out.extend_from_slice(b"\\x")?;
            append_hex(byte, out)
        }
    }
}

/// Appends a character by its code, such as `\u202E`.
pub(crate) fn append_code(code: u16, out: &mut Vec<u8>) -> Result<(), AllocError>
    ensures { OnOk result (out.new.items ≡ out.old.items ++ (codes "\\u" ++ hex_byte (code / 256) ++ hex_byte (code % 256))) }
{
    out.extend_from_slice(b"\\u")?;
    append_hex((code / 256) as u8, out)?;
    append_hex((code % 256) as u8, out)
}

/// Appends the code point of a character, such as `U+0041`. `AllocError`: there is no memory for it.
pub fn append_code_point(c: char, out: &mut Vec<u8>) -> Result<(), AllocError>
    ensures { OnOk result (out.new.items ≡ out.old.items ++ code_point c) }
{
    let code = c as u32;
    out.extend_from_slice(b"U+")?;
    append_above(code, out)?;
    append_hex((code / 256 % 256) as u8, out)?;
    append_hex((code % 256) as u8, out)
}

fn append_above(code: u32, out: &mut Vec<u8>) -> Result<(), AllocError>
    requires { code ≤ 0x10FFFF }
    ensures { OnOk result (out.new.items ≡ out.old.items ++ digits_above code) }
{
    let above = (code / 0x1_0000) as u8;
    if code < 0x1_0000 {
        Ok(())
    } else if code < 0x10_0000 {
        out.push(hex_digit(above)).map_err(AllocError::from)
    } else {
        append_hex(above, out)
    }
}

/// Appends two hexadecimal digits.
pub(crate) fn append_hex(byte: u8, out: &mut Vec<u8>) -> Result<(), AllocError>
    ensures { OnOk result (out.new.items ≡ out.old.items ++ hex_byte byte) }
{
    out.extend_from_slice(&[hex_digit(byte / 16), hex_digit(byte % 16)])
}

fn hex_digit(value: u8) -> u8
    requires { value ≤ 15 }
    ensures { result ≡ hex_digit value }
{
    if value < 10 {
        b'0' + value
    } else {
        b'A' - 10 + value
    }
}
