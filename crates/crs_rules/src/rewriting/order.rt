//! Axes whose order doesn't count: they are put in order of their texts, or of those that they have in another CRS.
ghost use Rattle.std.specs.Prelude.{◌≡◌, ◌≢◌, ◌<◌, ◌+◌, ◌↔◌, [], IfOk, IsFalse, IsTrue, List, OnOk, length, map, ℕ};
ghost use Rattle.std.specs.Cmp.Lexicographic.{slice_cmp};
ghost use Rattle.std.specs.List.{slice_index_or, swap};
ghost use Rattle.std.specs.Ordering.{nat_cmp};
ghost use Rattle.std.specs.declared.cmp.Ordering.TheVariants.{Greater};
ghost use Rattle.crs_value.specs.declared.values.level.Level.TheVariants as levels;
ghost use Rattle.crs_normal.specs.inner.PartTexts.{axis_text};
ghost use Rattle.crs_value.specs.Values.{AxisParts};
ghost use Rattle.crs_rules.specs.FormOrder.{put, put_across, put_compound, put_crs, put_geodetic, put_projected, put_vertical};
ghost use Rattle.crs_rules.specs.Rules.{Meaning};
ghost use Rattle.crs_rules.specs.Rewritten.{arranged_crs, ascending, axis, renamed};
ghost use Rattle.crs_rules.specs.inner.Sinking.{AreKeys, axes_across, axes_along, axes_up, IsOrderlessCrs, sunk_from};

use crs_canon::Canonical;
use crs_value::{
    Axis, Change, Compound, Crs, Geodetic, Horizontal, Level, List, Projected, System, Vertical,
};
use std::alloc::{AllocError, Global};
use std::cmp::Ordering;
use std::marker::Model;

// The text of an axis.
#[derive(Drop)]
struct AxisText {
    bytes: Vec<u8>,
}

impl Model for AxisText {
    ghost Value = { List ℕ };

    ghost view = { λ text. text.bytes.items };
}

impl AxisText {
    fn is_above(&self, other: &AxisText) -> bool
        ensures { IsTrue result ↔ (slice_cmp nat_cmp self.now other.now ≡ Greater) }
    {
        self.bytes.as_slice().cmp(other.bytes.as_slice()) == Ordering::Greater
    }
}

fn text_of(alloc: Global, axis: &Axis<'_>) -> Result<AxisText, AllocError>
    ensures { IfOk result (λ text. text ≡ axis_text levels.Full axis.now) }
{
    axis.laws();
    let mut bytes = Vec::new(alloc);
    axis.write(alloc, Level::Full, &mut bytes)?;
    Ok(AxisText { bytes })
}

fn texts_of(alloc: Global, axes: &[Axis<'_>]) -> Result<Vec<AxisText>, AllocError>
    ensures { IfOk result (λ texts. texts.items ≡ map (axis_text levels.Full) axes.now) }
{
    let mut texts = Vec::new(alloc);
    for axis in axes {
        texts.push(text_of(alloc, axis)?)?;
    }
    Ok(texts)
}

// Exchanges the axis at this place and the next one, and their texts.
fn exchange(axes: &mut List<Axis<'_>>, texts: &mut Vec<AxisText>, at: usize)
    requires texts { AreKeys texts.old.items axes.old }
    requires at { at + 1 < length axes.old }
    ensures axes { axes.new ≡ swap axes.old at (at + 1) }
    ensures texts { (text : AxisParts → List ℕ) → texts.old.items ≡ map text axes.old →
        texts.new.items ≡ map text axes.new }
{
    axes.swap(at, at + 1);
    texts.swap(at, at + 1);
}

// Whether the text at this place is above the next one.
fn is_above_next(texts: &[AxisText], at: usize) -> bool
    ensures yes { IsTrue result → (at + 1 < length texts.now) × ((d : List ℕ) →
        slice_cmp nat_cmp (slice_index_or texts.now at d) (slice_index_or texts.now (at + 1) d) ≡ Greater) }
    ensures no { IsFalse result → at + 1 < length texts.now → (d : List ℕ) →
        slice_cmp nat_cmp (slice_index_or texts.now at d) (slice_index_or texts.now (at + 1) d) ≢ Greater }
{
    if at < texts.len() && at + 1 < texts.len() {
        texts[at].is_above(&texts[at + 1])
    } else {
        false
    }
}

// Puts the axis at this place where it belongs among those behind it, which are in order of their texts.
fn sink(axes: &mut List<Axis<'_>>, texts: &mut Vec<AxisText>, from: usize)
    requires texts { AreKeys texts.old.items axes.old }
    requires from { from < length axes.old }
    ensures axes { (text : AxisParts → List ℕ) → texts.old.items ≡ map text axes.old →
        axes.new ≡ sunk_from text from axes.old }
    ensures texts { (text : AxisParts → List ℕ) → texts.old.items ≡ map text axes.old →
        texts.new.items ≡ map text axes.new }
{
    let mut at = from;
    while is_above_next(texts.as_slice(), at) {
        exchange(axes, texts, at);
        at += 1;
    }
}

// Puts axes in order of their texts.
fn sort(axes: &mut List<Axis<'_>>, texts: &mut Vec<AxisText>)
    requires { AreKeys texts.old.items axes.old }
    ensures { (text : AxisParts → List ℕ) → texts.old.items ≡ map text axes.old → axes.new ≡ ascending text axes.old }
{
    let mut from = axes.as_slice().len();
    while from > 0 {
        from -= 1;
        sink(axes, texts, from);
    }
}

// Takes the order of an axis away.
#[derive(Drop)]
struct Unordered;

impl<'a> Change<Axis<'a>> for Unordered {
    ghost use Rattle.crs_rules.specs.ReorderedAxes.{unordered};

    ghost changed = { λ c axis. unordered axis };

    fn change(&self, value: &mut Axis<'a>) {
        value.order = None;
    }
}

// Puts the axes of a system in order of these texts, without orders.
fn put(system: &mut System<'_>, texts: &mut Vec<AxisText>)
    requires { AreKeys texts.old.items system.old.axes }
    ensures { (text : AxisParts → List ℕ) → texts.old.items ≡ map text system.old.axes →
        system.new ≡ put text system.old }
{
    sort(&mut system.axes, texts);
    system.axes.change_each(&Unordered);
}

fn put_geodetic(value: &mut Geodetic<'_>, texts: &mut Vec<AxisText>)
    requires { AreKeys texts.old.items value.old.system.axes }
    ensures { (text : AxisParts → List ℕ) → texts.old.items ≡ map text value.old.system.axes →
        value.new ≡ put_geodetic text value.old }
{
    put(&mut value.system, texts);
}

fn put_projected(value: &mut Projected<'_>, texts: &mut Vec<AxisText>)
    requires { AreKeys texts.old.items value.old.system.axes }
    ensures { (text : AxisParts → List ℕ) → texts.old.items ≡ map text value.old.system.axes →
        value.new ≡ put_projected text value.old }
{
    put(&mut value.system, texts);
}

fn put_vertical(value: &mut Vertical<'_>, texts: &mut Vec<AxisText>)
    requires { AreKeys texts.old.items value.old.system.axes }
    ensures { (text : AxisParts → List ℕ) → texts.old.items ≡ map text value.old.system.axes →
        value.new ≡ put_vertical text value.old }
{
    put(&mut value.system, texts);
}

fn put_across(horizontal: &mut Horizontal<'_>, texts: &mut Vec<AxisText>)
    requires { AreKeys texts.old.items (axes_along horizontal.old) }
    ensures { (text : AxisParts → List ℕ) → texts.old.items ≡ map text (axes_along horizontal.old) →
        horizontal.new ≡ put_across text horizontal.old }
{
    match horizontal {
        Horizontal::Geodetic(found) => put_geodetic(found, texts),
        Horizontal::Projected(found) => put_projected(found, texts),
    }
}

fn put_compound(value: &mut Compound<'_>, across: &mut Vec<AxisText>, up: &mut Vec<AxisText>)
    requires across { AreKeys across.old.items (axes_along value.old.horizontal) }
    requires up { AreKeys up.old.items value.old.vertical.system.axes }
    ensures { (text : AxisParts → List ℕ) → across.old.items ≡ map text (axes_along value.old.horizontal) →
        up.old.items ≡ map text value.old.vertical.system.axes → value.new ≡ put_compound text value.old }
{
    put_across(&mut value.horizontal, across);
    put_vertical(&mut value.vertical, up);
}

// Puts the axes of both parts of a CRS in order of these texts, without orders.
fn put_crs(crs: &mut Crs<'_>, across: &mut Vec<AxisText>, up: &mut Vec<AxisText>)
    requires across { AreKeys across.old.items (axes_across crs.old) }
    requires up { AreKeys up.old.items (axes_up crs.old) }
    ensures { (text : AxisParts → List ℕ) → across.old.items ≡ map text (axes_across crs.old) →
        up.old.items ≡ map text (axes_up crs.old) → crs.new ≡ put_crs text crs.old }
{
    match crs {
        Crs::Geodetic(found) => put_geodetic(found, across),
        Crs::Projected(found) => put_projected(found, across),
        Crs::Vertical(found) => put_vertical(found, up),
        Crs::Compound(found) => put_compound(found, across, up),
    }
}

fn axes_across<'c, 'a>(crs: &'c Crs<'a>) -> &'c [Axis<'a>]
    ensures { result.now ≡ axes_across crs.now }
{
    match crs {
        Crs::Geodetic(found) => found.system.axes.as_slice(),
        Crs::Projected(found) => found.system.axes.as_slice(),
        Crs::Vertical(_) => &[],
        Crs::Compound(found) => axes_along(&found.horizontal),
    }
}

fn axes_along<'c, 'a>(horizontal: &'c Horizontal<'a>) -> &'c [Axis<'a>]
    ensures { result.now ≡ axes_along horizontal.now }
{
    match horizontal {
        Horizontal::Geodetic(found) => found.system.axes.as_slice(),
        Horizontal::Projected(found) => found.system.axes.as_slice(),
    }
}

fn axes_up<'c, 'a>(crs: &'c Crs<'a>) -> &'c [Axis<'a>]
    ensures { result.now ≡ axes_up crs.now }
{
    match crs {
        Crs::Geodetic(_) | Crs::Projected(_) => &[],
        Crs::Vertical(found) => found.system.axes.as_slice(),
        Crs::Compound(found) => found.vertical.system.axes.as_slice(),
    }
}

// Puts the axes of a CRS that have no orders in order of their texts.
pub(crate) fn arrange_crs(alloc: Global, crs: &mut Crs<'_>) -> Result<(), AllocError>
    requires { IsOrderlessCrs crs.old }
    ensures { OnOk result (crs.new ≡ arranged_crs (axis_text levels.Full) crs.old) }
{
    let mut across = texts_of(alloc, axes_across(crs))?;
    let mut up = texts_of(alloc, axes_up(crs))?;
    put_crs(crs, &mut across, &mut up);
    Ok(())
}

// Orders a CRS's axes by the texts that they have in another, the first but for its axes and names under rules.
pub(crate) fn put_as_in(alloc: Global, crs: &mut Crs<'_>, other: Crs<'_>) -> Result<(), AllocError>
    requires { (r : Meaning) × (other ≡ renamed r crs.old) }
    ensures { OnOk result ((r : Meaning) → other.entry ≡ renamed r crs.old →
        crs.new ≡ put_crs (λ a. axis_text levels.Full (axis r a)) crs.old) }
{
    let mut across = texts_of(alloc, axes_across(&other))?;
    let mut up = texts_of(alloc, axes_up(&other))?;
    put_crs(crs, &mut across, &mut up);
    Ok(())
}
