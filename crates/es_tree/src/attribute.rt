/// What a node says of a field that is read as an attribute.
#[derive(Clone, Copy, Debug, PartialEq, Eq)]
pub enum Attribute<'a> {
    /// The node has no such attribute.
    Absent,
    Flag(bool),
    Words(&'a str),
    /// How many children and holes stand in the field, which is a list.
    Length(u32),
}
