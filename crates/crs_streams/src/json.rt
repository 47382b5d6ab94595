//! Texts and members of objects in JSON (RFC 8259), in one line.
ghost use Rattle.std.specs.Prelude.{◌≡◌, ◌++◌, OnOk};
ghost use Rattle.std.specs.List.{flat_map};
ghost use Rattle.std.specs.Str.{is_utf8};
ghost use Rattle.bstr.specs.Utf8.{lossy_chars};
ghost use Rattle.crs_streams.specs.Json.{json_bytes, json_char, json_string, json_text, json_value, key, number_member, text_member, value_member};

use crate::escape::{append_code, append_hex, is_coded};
use crate::number::append_number;
use bstr::{ByteSlice, ByteVec};
use std::alloc::AllocError;

/// Appends a text as a string, in which a quote and a backslash have a backslash before them, and what steers a
/// terminal, ends a line, changes the direction of a text, shows as a blank or as nothing or composes with the character
/// before it is a code, such as `\u202E`; or, if it isn't UTF-8, as an object with its bytes as two hexadecimal digits
/// each, such as `{"bytes":"FF"}`. `AllocError`: no memory for it.
pub fn append_text(bytes: &[u8], out: &mut Vec<u8>) -> Result<(), AllocError>
    ensures { OnOk result (out.new.items ≡ out.old.items ++ json_text bytes.now) }
{
    if is_utf8(bytes) {
        append_string(bytes, out)
    } else {
        append_bytes(bytes, out)
    }
}

/// The same, or `null` where there are no bytes. `AllocError`: there is no memory for it.
pub fn append_text_or_null(bytes: &[u8], out: &mut Vec<u8>) -> Result<(), AllocError>
    ensures { OnOk result (out.new.items ≡ out.old.items ++ json_value bytes.now) }
{
    if bytes.is_empty() {
        return out.extend_from_slice(b"null");
    }
    append_text(bytes, out)
}

/// Appends the name of a further member of an object, such as `,"name":`. `AllocError`: there is no memory for it.
#[tactic(auto, using(crate::proofs::JsonLemmas::key_appended))]
pub fn append_key(name: &[u8], out: &mut Vec<u8>) -> Result<(), AllocError>
    ensures { OnOk result (out.new.items ≡ out.old.items ++ key name.now) }
{
    out.extend_from_slice(b",\"")?;
    out.extend_from_slice(name)?;
    out.extend_from_slice(b"\":")
}

/// Appends a further member that is a number. `AllocError`: there is no memory for it.
pub fn append_number_member(name: &[u8], number: usize, out: &mut Vec<u8>) -> Result<(), AllocError>
    ensures { OnOk result (out.new.items ≡ out.old.items ++ number_member name.now number) }
{
    append_key(name, out)?;
    append_number(number, out)
}

/// Appends a further member that is a text. `AllocError`: there is no memory for it.
pub fn append_text_member(name: &[u8], text: &[u8], out: &mut Vec<u8>) -> Result<(), AllocError>
    ensures { OnOk result (out.new.items ≡ out.old.items ++ text_member name.now text.now) }
{
    append_key(name, out)?;
    append_text(text, out)
}

/// Appends a further member that is a text, or `null` where there are no bytes. `AllocError`: no memory.
pub fn append_value_member(name: &[u8], text: &[u8], out: &mut Vec<u8>) -> Result<(), AllocError>
    ensures { OnOk result (out.new.items ≡ out.old.items ++ value_member name.now text.now) }
{
    append_key(name, out)?;
    append_text_or_null(text, out)
}

fn is_utf8(bytes: &[u8]) -> bool
    ensures { result ≡ is_utf8 bytes.now }
{
    bytes.is_utf8()
}

fn append_string(bytes: &[u8], out: &mut Vec<u8>) -> Result<(), AllocError>
    ensures { OnOk result (out.new.items ≡ out.old.items ++ json_string bytes.now) }
{
    out.extend_from_slice(b"\"")?;
    append_chars(bytes, out)?;
    out.extend_from_slice(b"\"")
}

fn append_chars(bytes: &[u8], out: &mut Vec<u8>) -> Result<(), AllocError>
    ensures { OnOk result (out.new.items ≡ out.old.items ++ flat_map json_char (lossy_chars bytes.now)) }
{
    for c in bytes.chars() {
        append_char(c, out)?;
    }
    Ok(())
}

fn append_char(c: char, out: &mut Vec<u8>) -> Result<(), AllocError>
    ensures { OnOk result (out.new.items ≡ out.old.items ++ json_char c) }
{
    if c == '"' || c == '\\' {
        out.extend_from_slice(&[b'\\', c as u8])
    } else if c < ' ' || c == '\u{7f}' || is_coded(c) {
        append_code(c as u16, out)
    } else {
        out.push_char(c)
    }
}

fn append_bytes(bytes: &[u8], out: &mut Vec<u8>) -> Result<(), AllocError>
    ensures { OnOk result (out.new.items ≡ out.old.items ++ json_bytes bytes.now) }
{
    out.extend_from_slice(b"{\"bytes\":\"")?;
    for byte in bytes {
        append_hex(*byte, out)?;
    }
    out.extend_from_slice(b"\"}")
}
