//! Selectors as plain data: what contracts see of a `Selector`.
use es_text::{Items, Txt};

/// How the nodes of two neighbouring compounds stand to each other.
#[derive(Clone, Copy, Debug, PartialEq, Eq)]
pub enum Combinator {
    /// White space: the second is anywhere below the first.
    Descendant,
    /// `>`: the first is the parent of the second.
    Child,
    /// `+`: the second comes directly behind the first in one list field.
    Next,
    /// `~`: the second comes somewhere behind the first in one list field.
    Later,
}

/// How a length is compared with a number.
#[derive(Clone, Copy, Debug, PartialEq, Eq)]
pub enum Comparison {
    Less,
    LessOrEqual,
    Greater,
    GreaterOrEqual,
}

/// What is asked of an attribute.
#[derive(Drop)]
pub enum Condition {
    /// `[a]`: it is there.
    IsThere,
    /// `[a=v]`: its text is this one.
    Is(Txt),
    /// `[a!=v]`: its text is another one, or it has none, or isn't there.
    IsNot(Txt),
    /// `[a<n]`: it is a length, which compares so with the number.
    Compares(Comparison, u32),
}

/// A group of kinds that has a word of its own.
#[derive(Clone, Copy, Debug, PartialEq, Eq)]
pub enum Group {
    Statement,
    Declaration,
    Expression,
    Pattern,
    Function,
}

/// One condition on a node.
#[derive(Drop)]
pub enum Atom {
    /// `*`
    Any,
    /// A word for a kind, as the code of the kind that it names, if it names one.
    Kind(Option<u16>),
    /// `[a.b..]`: the names of the path, and what is asked of what stands at its end.
    Attribute(Items<Txt>, Condition),
    /// `.f`: the node stands in this field of its parent.
    Field(Txt),
    /// `.f.g`: the node stands in the field g of a node that stands in f.
    FieldOf(Txt, Txt),
    /// `:statement` and its like.
    Group(Group),
    /// `:not(S)`
    Not(Items<Chain<Atom>>),
    /// `:is(S)` or `:matches(S)`
    Is(Items<Chain<Atom>>),
    /// `:has(S)`
    Has(Items<Chain<Atom>>),
    /// `:nth-child(n)` or `:first-child`
    NthChild(u32),
    /// `:nth-last-child(n)` or `:last-child`
    NthLastChild(u32),
}

/// A compound, which is one atom or more, with what stands before it.
#[derive(Drop)]
pub struct Link<A> {
    pub combinator: Combinator,
    pub compound: Items<A>,
}

/// Compounds that are joined by combinators.
#[derive(Drop)]
pub struct Chain<A> {
    pub first: Items<A>,
    pub links: Items<Link<A>>,
}

/// What a selector says: chains that are separated by commas, and whether `:exit` stands at the end.
#[derive(Drop)]
pub struct Spelling {
    pub chains: Items<Chain<Atom>>,
    pub exit: bool,
}
