//! The calls on the shapes of texts.
use crate::answer::Answer;
use crate::row::Row;
use crate::texts::read_agreed;
use crs_shape::{Class, Slot, class_of, fit, fit_root, keywords, root_class, slots};
use crs_text::{Fault, read_items};
use std::str;

/// `class` and the root class's first keyword, or a refusal; `another answer in pieces` if pieces give one.
pub fn put_class(out: &mut Answer, input: &[u8]) {
    if let Some(items) = read_agreed(out, input)
        && let Some(class) = out.accepted(fit_root(&items).map_err(Fault::Refused))
    {
        out.put("class ");
        put_keyword(out, class);
    }
}

fn put_keyword(out: &mut Answer, class: Class) {
    if let Some(keyword) = keywords(class).first() {
        out.put_bytes(keyword.spelling());
    }
}

// The class that keywords lead to, with blanks between: a root's, then each in the class before it; None is put.
fn class_at(out: &mut Answer, path: &[u8]) -> Option<Class> {
    let class = named_class(path);
    if class.is_none() {
        out.put("none");
    }
    class
}

fn named_class(path: &[u8]) -> Option<Class> {
    let mut keywords = str::from_utf8(path).ok()?.split(' ');
    let mut class = root_class(keywords.next()?.as_bytes())?;
    for keyword in keywords {
        class = class_of(class, keyword.as_bytes())?;
    }
    Some(class)
}

/// `keywords` and the keywords of the class that these lead to from a root; `none` if they name nothing there.
pub fn put_keywords(out: &mut Answer, input: &[u8]) {
    if let Some(class) = class_at(out, input) {
        out.put("keywords");
        for keyword in keywords(class) {
            out.put_after(" ", keyword.spelling());
        }
    }
}

/// The slots of the class that keywords lead to: each with its classes' first keywords, or `number`, `text` and `word`,
/// joined by `|`, and a mark: `?` if it may be left out, `+` if it may be repeated, `*` for both.
pub fn put_slots(out: &mut Answer, input: &[u8]) {
    if let Some(class) = class_at(out, input) {
        out.put("slots");
        let slots: &'static [Slot] = slots(class);
        for slot in slots {
            out.put(" ");
            put_slot(out, slot);
        }
    }
}

fn put_slot(out: &mut Answer, slot: &Slot) {
    let classes: &'static [Class] = slot.classes();
    for (index, class) in classes.iter().enumerate() {
        out.put(if index > 0 { "|" } else { "" });
        put_class_word(out, *class);
    }
    out.put(match (slot.required(), slot.many()) {
        (true, false) => "",
        (false, false) => "?",
        (true, true) => "+",
        (false, true) => "*",
    });
}

fn put_class_word(out: &mut Answer, class: Class) {
    match class {
        Class::Number => out.put("number"),
        Class::Text => out.put("text"),
        Class::Word => out.put("word"),
        _ => put_keyword(out, class),
    }
}

/// `fits` if a text has the shape of the class that the keywords of the part before it lead to, or its refusal.
pub fn put_fit(out: &mut Answer, row: &Row<'_>) {
    if let Some(class) = class_at(out, row.part(0))
        && let Some(items) = out.accepted(read_items(out.alloc(), row.part(1)))
        && let Some(()) = out.accepted(fit(&items, items.root(), class).map_err(Fault::Refused))
    {
        out.put("fits");
    }
}
