//! How a catalogue is written: one line per group and refused line, as text or as an object of JSON.
ghost use Rattle.std.specs.Prelude.{◌≡◌, ◌++◌, IfOk, OnOk, Some};
ghost use Rattle.std.specs.List.{flat_map};
ghost use Rattle.crs_group.specs.Catalogue.{GroupParts, nth};
ghost use Rattle.std.specs.Str.{is_utf8};
ghost use Rattle.crs_group.specs.GroupOutput.{blank_written, catalogue_text, group_line, group_lines, is_listed, label, labels_text};
ghost use Rattle.crs_group.specs.GroupOutput.{listed_line, parting, place_text, refused_written, shown_byte, shown_file, shown_name, without_blank};
ghost use Rattle.crs_group.specs.GroupObjects.{group_object, json_line, place_member, places_members, refused_object};
ghost use Rattle.crs_streams.specs.Json.{json_array, json_more};

use crate::Listing;
use crate::ledger::Ledger;
use bstr::ByteSlice;
use crs_streams::json::{append_key, append_number_member, append_text, append_text_member};
use crs_streams::{append_escaped, append_number, append_refusal};
use crs_text::Refusal;
use std::alloc::{AllocError, Global};

/// The groups of a ledger that are listed, and after them what is blank and what is refused.
pub fn listed_text(alloc: Global, listing: Listing, ledger: &Ledger) -> Result<Vec<u8>, AllocError>
    ensures { IfOk result (λ text. text.items
        ≡ catalogue_text listing ledger.now.names ledger.now.blanks ledger.now.catalogue) }
{
    let mut text = Vec::new(alloc);
    Listed { listing, ledger }.write(&mut text)?;
    Ok(text)
}

// A ledger, of which these groups are written in this way.
#[derive(Clone, Copy)]
struct Listed<'l> {
    listing: Listing,
    ledger: &'l Ledger,
}

impl Listed<'_> {
    // The groups that are listed, and after them the blank lines and the refused ones.
    fn write(self, out: &mut Vec<u8>) -> Result<(), AllocError>
        ensures { OnOk result (out.new.items ≡ out.old.items
            ++ catalogue_text self.entry.listing self.entry.ledger.now.names self.entry.ledger.now.blanks
            self.entry.ledger.now.catalogue) }
    {
        self.write_groups(out)?;
        self.write_blank_lines(out)?;
        self.write_refused_lines(out)
    }

    fn write_groups(self, out: &mut Vec<u8>) -> Result<(), AllocError>
        ensures { OnOk result (out.new.items ≡ out.old.items
            ++ group_lines self.entry.listing self.entry.ledger.now.names 1 self.entry.ledger.now.catalogue.groups) }
    {
        for at in 0..self.ledger.catalogue().groups() {
            self.write_numbered(out, at + 1)?;
        }
        Ok(())
    }

    // The group of this number, as an object or a line, if it is listed.
    fn write_numbered(self, out: &mut Vec<u8>, number: usize) -> Result<(), AllocError>
        ensures { (group : GroupParts) → nth number self.entry.ledger.now.catalogue.groups ≡ Some group →
            OnOk result (out.new.items ≡ out.old.items
            ++ listed_line self.entry.listing self.entry.ledger.now.names number group) }
    {
        let catalogue = self.ledger.catalogue();
        let (Some(lines), Some(text)) = (catalogue.lines(number), catalogue.text(number)) else {
            return Ok(());
        };
        if !is_listed(self.listing, lines) {
            return Ok(());
        }
        if self.listing.json {
            return self.write_group_object(out, number, lines, text);
        }
        self.write_line(out, number, lines)
    }

    // `group N: L1 L2 ..` and a line end.
    fn write_line(self, out: &mut Vec<u8>, number: usize, lines: &[u64]) -> Result<(), AllocError>
        ensures { (group : GroupParts) → group.lines ≡ lines.now → OnOk result (out.new.items ≡ out.old.items
            ++ group_line self.entry.listing self.entry.ledger.now.names number group) }
    {
        out.extend_from_slice(b"group ")?;
        append_number(number, out)?;
        out.push(b':')?;
        self.write_labels(out, lines)?;
        out.push(b'\n').map_err(AllocError::from)
    }

    // ` L1 L2 ..`, or after tabs the names of these lines.
    fn write_labels(self, out: &mut Vec<u8>, numbers: &[u64]) -> Result<(), AllocError>
        ensures { OnOk result (out.new.items ≡ out.old.items
            ++ labels_text self.entry.listing self.entry.ledger.now.names numbers.now) }
    {
        for number in numbers {
            out.push(self.parting())?;
            self.write_label(out, *number)?;
        }
        Ok(())
    }

    fn write_label(self, out: &mut Vec<u8>, number: u64) -> Result<(), AllocError>
        ensures { OnOk result (out.new.items ≡ out.old.items
            ++ label self.entry.listing self.entry.ledger.now.names number) }
    {
        if self.listing.files {
            return append_file(self.ledger.names().at(number), out);
        }
        if self.listing.names {
            return append_name(self.ledger.names().at(number), out);
        }
        append_number(number as usize, out)
    }

    fn parting(self) -> u8
        ensures { result ≡ parting self.entry.listing }
    {
        if self.listing.names && !self.listing.files {
            b'\t'
        } else {
            b' '
        }
    }

    // `line L: `, or `FILE: `.
    fn write_place(self, out: &mut Vec<u8>, line: u64) -> Result<(), AllocError>
        ensures { OnOk result (out.new.items ≡ out.old.items
            ++ place_text self.entry.listing self.entry.ledger.now.names line) }
    {
        if !self.listing.files {
            out.extend_from_slice(b"line ")?;
        }
        self.write_label(out, line)?;
        out.extend_from_slice(b": ")
    }

    fn write_blank_lines(self, out: &mut Vec<u8>) -> Result<(), AllocError>
        ensures { OnOk result (out.new.items ≡ out.old.items ++ flat_map (blank_written self.entry.listing
            self.entry.ledger.now.names) self.entry.ledger.now.blanks) }
    {
        for line in self.ledger.blanks() {
            self.write_blank(out, *line)?;
        }
        Ok(())
    }

    // A blank line, as an object or a line.
    fn write_blank(self, out: &mut Vec<u8>, line: u64) -> Result<(), AllocError>
        ensures { OnOk result (out.new.items ≡ out.old.items
            ++ blank_written self.entry.listing self.entry.ledger.now.names line) }
    {
        if self.listing.json {
            self.write_place_member(out, line)?;
            return out.extend_from_slice(b",\"blank\":true}\n");
        }
        self.write_place(out, line)?;
        out.extend_from_slice(b"blank\n")
    }

    fn write_refused_lines(self, out: &mut Vec<u8>) -> Result<(), AllocError>
        ensures { OnOk result (out.new.items ≡ out.old.items ++ flat_map (refused_written self.entry.listing
            self.entry.ledger.now.names) self.entry.ledger.now.catalogue.refused) }
    {
        for (line, refusal) in self.ledger.catalogue().refused() {
            self.write_refused(out, *line, *refusal)?;
        }
        Ok(())
    }

    // A refused line, as an object or a line.
    fn write_refused(self, out: &mut Vec<u8>, line: u64, refusal: Refusal) -> Result<(), AllocError>
        ensures { OnOk result (out.new.items ≡ out.old.items
            ++ refused_written self.entry.listing self.entry.ledger.now.names (line, refusal)) }
    {
        if self.listing.json {
            return self.write_refused_object(out, line, refusal);
        }
        self.write_place(out, line)?;
        append_refusal(out, refusal)?;
        out.push(b'\n').map_err(AllocError::from)
    }

    // The group of this number, which has these lines and this text.
    fn write_group_object(
        self,
        out: &mut Vec<u8>,
        number: usize,
        lines: &[u64],
        text: &[u8],
    ) -> Result<(), AllocError>
        ensures { OnOk result (out.new.items ≡ out.old.items
            ++ group_object self.entry.listing self.entry.ledger.now.names number lines.now text.now) }
    {
        out.extend_from_slice(b"{\"group\":")?;
        append_number(number, out)?;
        self.write_places(out, lines)?;
        append_text_member(b"canonical", text, out)?;
        out.extend_from_slice(b"}\n")
    }

    // What is in a group: the numbers of lines, and their names, or files.
    fn write_places(self, out: &mut Vec<u8>, lines: &[u64]) -> Result<(), AllocError>
        ensures { OnOk result (out.new.items ≡ out.old.items
            ++ places_members self.entry.listing self.entry.ledger.now.names lines.now) }
    {
        if self.listing.files {
            append_key(b"files", out)?;
            return self.write_array(out, true, lines);
        }
        append_key(b"lines", out)?;
        self.write_array(out, false, lines)?;
        if self.listing.names {
            append_key(b"line_names", out)?;
            self.write_array(out, true, lines)?;
        }
        Ok(())
    }

    // An array of the numbers of lines, or of their names.
    fn write_array(self, out: &mut Vec<u8>, named: bool, numbers: &[u64]) -> Result<(), AllocError>
        ensures { OnOk result (out.new.items ≡ out.old.items
            ++ json_array (json_line named self.entry.ledger.now.names) numbers.now) }
    {
        match numbers {
            [] => out.extend_from_slice(b"[]"),
            [first, others @ ..] => {
                out.extend_from_slice(b"[")?;
                self.write_member(out, named, *first)?;
                self.write_more(out, named, others)?;
                out.extend_from_slice(b"]")
            }
        }
    }

    // Numbers or names, each after a comma.
    fn write_more(self, out: &mut Vec<u8>, named: bool, numbers: &[u64]) -> Result<(), AllocError>
        ensures { OnOk result (out.new.items ≡ out.old.items
            ++ json_more (json_line named self.entry.ledger.now.names) numbers.now) }
    {
        for number in numbers {
            out.extend_from_slice(b",")?;
            self.write_member(out, named, *number)?;
        }
        Ok(())
    }

    fn write_member(self, out: &mut Vec<u8>, named: bool, number: u64) -> Result<(), AllocError>
        ensures { OnOk result (out.new.items ≡ out.old.items ++ json_line named self.entry.ledger.now.names number) }
    {
        if named {
            return append_text(self.ledger.names().at(number), out);
        }
        append_number(number as usize, out)
    }

    // An object begins with the number of a line and its name, or with a file.
    fn write_place_member(self, out: &mut Vec<u8>, line: u64) -> Result<(), AllocError>
        ensures { OnOk result (out.new.items ≡ out.old.items
            ++ place_member self.entry.listing self.entry.ledger.now.names line) }
    {
        if self.listing.files {
            out.extend_from_slice(b"{\"file\":")?;
            return append_text(self.ledger.names().at(line), out);
        }
        out.extend_from_slice(b"{\"line\":")?;
        append_number(line as usize, out)?;
        if self.listing.names {
            append_text_member(b"line_name", self.ledger.names().at(line), out)?;
        }
        Ok(())
    }

    fn write_refused_object(
        self,
        out: &mut Vec<u8>,
        line: u64,
        refusal: Refusal,
    ) -> Result<(), AllocError>
        ensures { OnOk result (out.new.items ≡ out.old.items
            ++ refused_object self.entry.listing self.entry.ledger.now.names (line, refusal)) }
    {
        self.write_place_member(out, line)?;
        append_number_member(b"refused", usize::from(refusal.number()), out)?;
        append_text_member(b"name", refusal.name().as_bytes(), out)?;
        append_number_member(b"place", refusal.place(), out)?;
        out.extend_from_slice(b"}\n")
    }
}

// A name as a line shows it.
fn append_name(name: &[u8], out: &mut Vec<u8>) -> Result<(), AllocError>
    ensures { OnOk result (out.new.items ≡ out.old.items ++ shown_name name.now) }
{
    if is_utf8(name) {
        return append_escaped(name, out);
    }
    for byte in name {
        append_byte(*byte, out)?;
    }
    Ok(())
}

fn is_utf8(name: &[u8]) -> bool
    ensures { result ≡ is_utf8 name.now }
{
    name.is_utf8()
}

fn append_byte(byte: u8, out: &mut Vec<u8>) -> Result<(), AllocError>
    ensures { OnOk result (out.new.items ≡ out.old.items ++ shown_byte byte) }
{
    if byte < 128 {
        return append_escaped(&[byte], out);
    }
    let digits = hex::encode_upper(*out.allocator(), [byte])?;
    out.extend_from_slice(b"\\x")?;
    out.extend_from_slice(digits.as_bytes())
}

// The name of a file, in which blanks are escaped too.
fn append_file(name: &[u8], out: &mut Vec<u8>) -> Result<(), AllocError>
    ensures { OnOk result (out.new.items ≡ out.old.items ++ shown_file name.now) }
{
    let mut shown = Vec::new(*out.allocator());
    append_escaped(name, &mut shown)?;
    append_without_blanks(&shown, out)
}

fn append_without_blanks(bytes: &[u8], out: &mut Vec<u8>) -> Result<(), AllocError>
    ensures { OnOk result (out.new.items ≡ out.old.items ++ flat_map without_blank bytes.now) }
{
    for byte in bytes {
        append_without_blank(*byte, out)?;
    }
    Ok(())
}

fn append_without_blank(byte: u8, out: &mut Vec<u8>) -> Result<(), AllocError>
    ensures { OnOk result (out.new.items ≡ out.old.items ++ without_blank byte) }
{
    if byte == b' ' {
        return out.extend_from_slice(b"\\x20");
    }
    out.push(byte).map_err(AllocError::from)
}

fn is_listed(listing: Listing, lines: &[u64]) -> bool
    ensures { result ≡ is_listed listing lines.now }
{
    !listing.repeated || lines.len() > 1
}
