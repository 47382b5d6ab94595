/// What `explain` writes.
#[derive(Clone, Copy, Debug)]
pub enum Manner {
    /// In lines for a person.
    Lines,
    /// As objects of JSON, one per line.
    Objects,
}
