//! Levels, and what each keeps.
ghost use Rattle.std.specs.Prelude.{◌≡◌};
ghost use Rattle.std.specs.Option.{option_copied};
ghost use Rattle.crs_value.specs.Kept.{kept, kept_one};

/// What counts when two CRSs are compared, and what a canonical text says. Profile.
#[derive(Clone, Copy, Debug, PartialEq, Eq)]
pub enum Level {
    /// Everything that the text says.
    Full,
    /// Only the definition: everything but identifiers, usages and remarks.
    Definition,
}

impl Level {
    /// What the level keeps of the identifiers or usages of a part. Profile.
    pub fn kept<T>(self, members: &[T]) -> &[T]
        ensures { result.now ≡ kept self members.now }
    {
        match self {
            Level::Full => members,
            Level::Definition => &[],
        }
    }

    /// What the level keeps of one usage that may be missing. Profile.
    pub fn kept_one<T>(self, member: Option<&T>) -> Option<&T>
        ensures { option_copied result ≡ kept_one self (option_copied member.entry) }
    {
        match self {
            Level::Full => member,
            Level::Definition => None,
        }
    }

    /// What the level keeps of a remark. Profile.
    pub fn kept_text(self, text: Option<&[u8]>) -> Option<&[u8]>
        ensures { option_copied result ≡ kept_one self (option_copied text.entry) }
    {
        match self {
            Level::Full => text,
            Level::Definition => None,
        }
    }
}
