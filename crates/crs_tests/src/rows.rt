//! Files of rows in the form of those in `tests`: `let`, and tables of `call`, `input`, `times`, `pieces`, `output`.
use crs_surface::{Answer, Row, put_answer, unusable};
use std::alloc::AllocError;
use std::rt::Files;
use std::{fs, io};

/// Runs the rows of the file of this name, and prints those that differ, and then a count.
pub fn run_file(rt: &(impl Files + Print + AllocGlobal), name: &str) -> io::Result<()> {
    let path = format!(in rt.alloc(); "{name}.rows")?;
    let text = fs::read_to_string(rt, path.as_str())?;
    let mut reader = Reader {
        names: Vec::new(rt.alloc()),
        columns: "",
        call: "",
        rows: 0,
        differ: 0,
    };
    for line in text.as_str().lines() {
        reader.read(rt, line)?;
    }
    let Reader { rows, differ, .. } = &reader;
    println!(rt; "{name}: {rows} rows, {differ} differ")
}

// What was read of a file.
#[derive(Drop)]
struct Reader<'t> {
    names: Vec<(&'t str, Vec<u8>)>,
    columns: &'t str,
    // the call of all rows of a table
    call: &'t str,
    rows: u64,
    differ: u64,
}

impl<'t> Reader<'t> {
    fn read(&mut self, rt: &(impl Print + AllocGlobal), line: &'t str) -> io::Result<()> {
        let (key, rest) = split_word(line);
        match key {
            "let" => {
                let (name, text) = split_word(rest);
                let text = self.text_of(text)?;
                self.names.push((name, text))?;
            }
            "table" => {
                self.columns = rest;
                self.call = "";
            }
            "call" => self.call = rest,
            "case" => self.ask(rt, rest)?,
            "" | "#" => (),
            _ => return Err(unusable()),
        }
        Ok(())
    }

    // Asks what a case asks, and prints what came where the case has another answer.
    fn ask(&mut self, rt: &(impl Print + AllocGlobal), case: &'t str) -> io::Result<()> {
        let mut fields = case.split(" | ");
        let name = fields.next().unwrap_or("");
        let mut row = Row::new(rt.alloc());
        row.set_call(self.call);
        let mut expected = Vec::new(rt.alloc());
        for (column, field) in self.columns.split(" | ").zip(fields) {
            match column {
                "#" => (),
                "call" => row.set_call(field),
                "output" => expected = self.text_of(field)?,
                "input" | "times" | "pieces" => self.add(&mut row, column, field)?,
                _ => return Err(unusable()),
            }
        }
        let mut came = Answer::new(rt.alloc());
        put_answer(&mut came, &row);
        self.rows = self.rows.saturating_add(1);
        if came.bytes()? != expected.as_slice() {
            self.differ = self.differ.saturating_add(1);
            println!(rt; "{name}:")?;
            came.print(rt)?;
        }
        Ok(())
    }

    // Adds a text, once or so many times, or in pieces of so many bytes.
    fn add(&self, row: &mut Row<'t>, column: &str, field: &str) -> Result<(), AllocError> {
        let (count, text) = match column {
            "input" => ("1", field),
            _ => split_word(field),
        };
        let text = self.text_of(text)?;
        if column != "pieces" {
            return row.add(count.parse().unwrap_or(0), &text);
        }
        for piece in text.chunks(count.parse().unwrap_or(1).max(1)) {
            row.add(1, piece)?;
        }
        Ok(())
    }

    // The bytes that a text means: `\n`, `\r`, `\t`, `\\`, `\xhh` and `\{NAME}`, every other character for itself.
    fn text_of(&self, text: &str) -> Result<Vec<u8>, AllocError> {
        let mut out = Vec::new(*self.names.allocator());
        let mut rest = text.as_bytes();
        for _turn in 0..text.len() {
            rest = match rest {
                [] => break,
                [b'\\', b'{', after @ ..] => self.put_named(&mut out, after)?,
                [b'\\', b'x', high, low, after @ ..] => {
                    out.push(digit_of(*high).wrapping_mul(16) | digit_of(*low))?;
                    after
                }
                [b'\\', byte, after @ ..] => {
                    out.push(plain_of(*byte))?;
                    after
                }
                [byte, after @ ..] => {
                    out.push(*byte)?;
                    after
                }
            };
        }
        Ok(out)
    }

    // Appends the text whose name this begins with, up to a brace; gives what comes after it.
    fn put_named<'r>(&self, out: &mut Vec<u8>, rest: &'r [u8]) -> Result<&'r [u8], AllocError> {
        let mut parts = rest.splitn(2, |byte| *byte == b'}');
        let name = parts.next().unwrap_or(&[]);
        for (own, text) in &self.names {
            if own.as_bytes() == name {
                out.extend_from_slice(text)?;
            }
        }
        Ok(parts.next().unwrap_or(&[]))
    }
}

fn digit_of(byte: u8) -> u8 {
    match byte {
        b'0'..=b'9' => byte - b'0',
        _ => byte.saturating_sub(b'a').saturating_add(10),
    }
}

fn plain_of(byte: u8) -> u8 {
    match byte {
        b'n' => b'\n',
        b'r' => b'\r',
        b't' => b'\t',
        _ => byte,
    }
}

fn split_word(line: &str) -> (&str, &str) {
    line.split_once(' ').unwrap_or((line, ""))
}
