//! The calls on decimals and on the numbers of refusals.
use crate::answer::Answer;
use crate::row::Row;
use crs_decimal::{Decimal, NumberFault};
use crs_text::Refusal;
use std::str;

/// What a call returns for the number that is read, or `fault` and what it displays: its `plain` spelling, `text` and
/// the next part with it behind, its parts, `whole` and the number that it is, or whether it equals the next part's.
pub fn put_number(out: &mut Answer, row: &Row<'_>, call: &str) {
    if let Some(number) = parsed(out, row.part(0)) {
        match call {
            "parse" => put_spelled(out, &number, "plain ", b""),
            "write" => put_spelled(out, &number, "text ", row.part(1)),
            "digits" => put_parts(out, &number),
            "whole" => match number.whole() {
                Some(whole) => write!(out, "whole {whole}"),
                None => out.put("none"),
            },
            _ => put_equality(out, &number, row.part(1)),
        }
    }
}

// The number that is read; None where there is none, whose fault is put.
fn parsed(out: &mut Answer, input: &[u8]) -> Option<Decimal> {
    match Decimal::parse(input) {
        Ok(number) => return Some(number),
        Err(fault @ (NumberFault::Malformed | NumberFault::Range)) => write!(out, "fault {fault}"),
    }
    None
}

/// The plain spelling of a number behind a word and a text.
pub fn put_spelled(out: &mut Answer, number: &Decimal, word: &str, text: &[u8]) {
    out.put_after(word, text);
    let done = number.write(out.end());
    out.note(done);
}

// The sign, the digits and the power of a number, and `zero` where it is one.
fn put_parts(out: &mut Answer, number: &Decimal) {
    let sign = if number.is_negative() { '-' } else { '+' };
    let digits: u128 = number.digits();
    let power: i32 = number.power();
    write!(out, "sign {sign}, digits {digits}, power {power}");
    out.put(if number.is_zero() { ", zero" } else { "" });
}

// `equal` where two numbers are the same by `==` and by `same_number`, in either order; `different` by both else.
fn put_equality(out: &mut Answer, a: &Decimal, other: &[u8]) {
    if let Some(b) = parsed(out, other) {
        out.put(
            match (equality(a, &b), a.same_number(&b), b.same_number(a)) {
                (true, true, true) => "equal",
                (false, false, false) => "different",
                _ => "one way",
            },
        );
    }
}

fn equality<T: Copy + Eq>(a: &T, b: &T) -> bool {
    let copy = *a;
    copy == *b
}

/// `name` and the name of the refusal that has this number; `none` if no refusal has it.
pub fn put_name(out: &mut Answer, input: &[u8]) {
    match refusal_of(input) {
        Some(refusal) => write!(out, "name {}", refusal.name()),
        None => out.put("none"),
    }
}

fn refusal_of(digits: &[u8]) -> Option<Refusal> {
    let number: u8 = str::from_utf8(digits).ok()?.parse().ok()?;
    Refusal::new(number, 0)
}
