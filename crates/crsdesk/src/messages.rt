//! Lines on standard error. A failure of standard error itself can't be reported.
use crate::fault::Fault;
use crs_desk::{append_escaped, is_verbose};
use std::alloc::{AllocError, Global};
use std::env::Env;
use std::fmt::Display;
use std::str;

// Linux bounds a word of the command line at this many bytes.
const MAX_WORD: usize = 131_072;

/// `crsdesk: NAME: WHAT`, the name escaped as a line shows it.
pub fn tell_of<D: Display + Drop>(rt: &HostRuntime, name: &str, what: D) {
    tell(rt, name, ": ", what);
}

/// The message on a name, after these words; only the words if there is no memory for the name.
pub fn tell<D: Display + Drop>(rt: &HostRuntime, name: &str, words: &str, what: D) {
    let mut shown = Vec::new(rt.alloc());
    if append_escaped(name.as_bytes(), &mut shown).is_ok() {
        let shown = str::from_utf8(&shown).unwrap_or(name);
        let _ = eprintln!(rt; "crsdesk: {shown}{words}{what}");
    } else {
        let _ = eprintln!(rt; "crsdesk: {what}");
    }
}

/// `clap`'s text of a wrong command line, in which the words that it repeats are escaped.
pub fn tell_usage(rt: &HostRuntime, error: &clap::Error) {
    if let Ok(shown) = usage_shown(rt.alloc(), error)
        && let Ok(text) = str::from_utf8(&shown)
    {
        let _ = eprint!(rt; "{text}");
    } else {
        let _ = error.print(rt);
    }
}

// Each line escaped; the line feeds stay.
fn usage_shown(alloc: Global, error: &clap::Error) -> Result<Vec<u8>, AllocError> {
    let text = format!(in alloc; "{error}")?;
    let mut shown = Vec::new(alloc);
    for line in text.lines() {
        append_escaped(line.as_bytes(), &mut shown)?;
        shown.push(b'\n')?;
    }
    Ok(shown)
}

/// The words behind the program's name, also those that aren't UTF-8.
pub fn words_of(rt: &HostRuntime) -> Result<Vec<Vec<u8>>, AllocError> {
    let mut room = vec![in rt.alloc(); 0u8; MAX_WORD]?;
    let mut words = Vec::new(rt.alloc());
    for number in 1..usize::MAX {
        let Ok(length) = rt.arg(number, &mut room) else {
            break;
        };
        words.push(Vec::from_slice(rt.alloc(), &room[..length])?)?;
    }
    Ok(words)
}

/// Whether the words behind the program's name ask for reasons.
pub fn is_verbose_line(rt: &HostRuntime) -> bool {
    match words_of(rt) {
        Ok(words) => is_verbose(&words),
        Err(_) => false,
    }
}

// What stands before a word that isn't UTF-8: no word of a command line has a NUL byte.
const MARK: char = '\0';

/// The words of a command line that has these behind the program's name. One that isn't UTF-8, and no option, can only name a
/// file, which the toolchain doesn't open: it is a mark and its bytes, shown.
pub fn line_words(rt: &HostRuntime, words: &[Vec<u8>]) -> Result<Vec<String>, Fault> {
    let mut texts = Vec::new(rt.alloc());
    let program = String::from_str(rt.alloc(), "crsdesk")?;
    texts.push(program).map_err(AllocError::from)?;
    for word in words {
        texts.push(line_word(rt, word)?).map_err(AllocError::from)?;
    }
    Ok(texts)
}

fn line_word(rt: &HostRuntime, word: &[u8]) -> Result<String, Fault> {
    if let Ok(text) = str::from_utf8(word) {
        return Ok(String::from_str(rt.alloc(), text)?);
    }
    if word.first() == Some(&b'-') {
        return Err(Fault::Word);
    }
    let mut marked = String::new(rt.alloc());
    marked.push(MARK)?;
    marked.push_str(&bytes_shown(rt.alloc(), word)?)?;
    Ok(marked)
}

/// Whether a word isn't UTF-8.
pub fn is_marked(word: &str) -> bool {
    word.starts_with(MARK)
}

/// Reports a file whose name isn't UTF-8, if this is such a name.
pub fn tell_marked(rt: &HostRuntime, name: &str) -> bool {
    let Some(shown) = name.strip_prefix(MARK) else {
        return false;
    };
    let _ = eprintln!(rt; "crsdesk: {shown}: the name isn't UTF-8");
    true
}

/// A line for each of these words that isn't UTF-8, with its bytes: those outside ASCII as `\xHH`.
pub fn tell_bad_words(rt: &HostRuntime, words: &[Vec<u8>]) {
    for place in 0..words.len() {
        tell_bad_word(rt, place + 1, words[place].as_slice());
    }
}

fn tell_bad_word(rt: &HostRuntime, number: usize, word: &[u8]) {
    if str::from_utf8(word).is_err()
        && let Ok(shown) = bytes_shown(rt.alloc(), word)
    {
        let _ = eprintln!(rt; "crsdesk: word {number}: {shown}");
    }
}

fn bytes_shown(alloc: Global, bytes: &[u8]) -> Result<String, AllocError> {
    let mut shown = String::new(alloc);
    for byte in bytes {
        match byte {
            b'\\' => shown.push_str("\\\\")?,
            b' '..=b'~' => shown.push(*byte as char)?,
            _ => write!(shown, "\\x{byte:02X}")?,
        }
    }
    Ok(shown)
}
