//! The first arguments of a CRS of those classes that its checks and its reading ask for, found in one walk.
ghost use Rattle.std.specs.Prelude.{◌+◌, ◌^◌, ◌<◌, IsTrue};
ghost use Rattle.crs_text.specs.Items.{HasId, arguments};
ghost use Rattle.crs_value.specs.inner.FirstArguments.{AreFirsts, AreNoted};
ghost use Rattle.crs_value.specs.Reading.{is_same};
ghost use Rattle.crs_value.specs.inner.Arguments.{item_at};

use crs_shape::{Class, class_in};
use crs_text::{ItemId, Items};

// The first argument of each of these classes, None where there is none; and how many axes there are.
#[derive(Clone, Copy, Default)]
pub(crate) struct Firsts {
    pub(crate) system: Option<ItemId>,
    pub(crate) axis: Option<ItemId>,
    pub(crate) axes: usize,
    pub(crate) unit: Option<ItemId>,
    pub(crate) scope: Option<ItemId>,
    pub(crate) area: Option<ItemId>,
    pub(crate) bbox: Option<ItemId>,
    pub(crate) extent: Option<ItemId>,
    pub(crate) remark: Option<ItemId>,
    pub(crate) usage: Option<ItemId>,
    pub(crate) identifier: Option<ItemId>,
    pub(crate) dynamic: Option<ItemId>,
}

impl Firsts {
    // One argument more, of this class. In line it would hold all fields in registers, of which there are too few.
    #[inline(never)]
    fn note(&mut self, class: Class, id: ItemId)
        requires { IsTrue (is_same Class.Axis class) → self.old.axes + 1 < 2 ^ 64 }
        ensures { AreNoted self.old self.new class id }
    {
        let first = Some(id);
        match class {
            Class::CoordinateSystem => self.system = self.system.or(first),
            Class::Axis => {
                self.axis = self.axis.or(first);
                self.axes += 1;
            }
            Class::AxisUnit => self.unit = self.unit.or(first),
            Class::Scope => self.scope = self.scope.or(first),
            Class::Area => self.area = self.area.or(first),
            Class::BoundingBox => self.bbox = self.bbox.or(first),
            Class::VerticalExtent => self.extent = self.extent.or(first),
            Class::Remark => self.remark = self.remark.or(first),
            Class::Usage => self.usage = self.usage.or(first),
            Class::Identifier => self.identifier = self.identifier.or(first),
            Class::Dynamic => self.dynamic = self.dynamic.or(first),
            _ => {}
        }
    }
}

// The first arguments of a node of this class.
pub(crate) fn firsts_of(items: &Items<'_>, id: ItemId, parent: Class) -> Firsts
    requires { HasId items.now id }
    ensures { AreFirsts items.now parent (arguments (item_at items.now id)) result }
{
    // The axes are no more than the arguments, whose number is a usize.
    let _bound = items.arg_count(id);
    let mut firsts = Firsts::default();
    let mut next = items.arg(id, 0);
    while let Some(argument) = next {
        if let Some(class) = class_in(items, argument, parent) {
            firsts.note(class, argument);
        }
        next = items.next(argument);
    }
    firsts
}
