//! Keywords, classes and slots, the closed lists of words, and the exact refusal of a shape.
#![tactic(auto)]

mod bit_set;
mod class;
mod direction;
mod expectation;
mod fitting;
mod keyword;
pub mod laws;
mod near;
mod rows;
mod seeking;
mod slot;
mod spelled;
mod system_type;
mod table;
mod unit_kind;

pub use class::Class;
pub use direction::Direction;
pub use expectation::{Expected, classes};
pub use fitting::{class_at_root, class_in, expected, fit, fit_root, misplaced};
pub use keyword::{keywords, known, root_class};
pub use near::nearest;
pub use seeking::{Sought, stands_as};
pub use slot::Slot;
pub use system_type::SystemType;
pub use table::{class_of, slots};
pub use unit_kind::UnitKind;
