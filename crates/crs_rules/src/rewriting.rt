//! CRSs under rules, rewritten in place.
ghost use Rattle.std.specs.Prelude.{◌≡◌, map};
ghost use Rattle.std.specs.Option.{option_map};
ghost use Rattle.crs_rules.specs.Rules.{Meaning, meaning};

use crate::rules::Rules;
use crs_value::{Change, List};

pub(crate) mod crs;
mod frames;
mod missing;
pub(crate) mod order;
mod parts;

// A part that rules change.
trait RuledPart<'a>: Sized + Drop {
    ghost under: { Meaning → Self → Self };

    fn rewrite(&mut self, rules: &'a Rules)
        ensures { self.new ≡ under (meaning rules.now) self.old };
}

// Rewrites a part that may be missing.
fn rewrite_part<'a, T: RuledPart<'a>>(part: &mut Option<T>, rules: &'a Rules)
    ensures { part.new ≡ option_map (T.under (meaning rules.now)) part.old }
{
    if let Some(found) = part {
        found.rewrite(rules);
    }
}

// What rules do to each member of a list.
#[derive(Drop)]
struct Rewriting<'a>(&'a Rules);

impl<'a, T: RuledPart<'a>> Change<T> for Rewriting<'a> {
    ghost changed = { λ c part. T.under (meaning c.0.now) part };

    fn change(&self, value: &mut T) {
        value.rewrite(self.0);
    }
}

fn rewrite_each<'a, T: RuledPart<'a>>(members: &mut List<T>, rules: &'a Rules)
    ensures { members.new ≡ map (T.under (meaning rules.now)) members.old }
{
    members.change_each(&Rewriting(rules));
}
