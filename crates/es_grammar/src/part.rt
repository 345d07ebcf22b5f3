//! What the rules of the grammar are made of.
use crate::context::Change;
use crate::symbol::Symbol;

/// A node of a greater height is too high.
pub const GREATEST_HEIGHT: u32 = 1000;

/// So many symbols may stand inside of one another that take room.
pub const ROOM: u32 = 500;

/// What reads one token.
#[derive(Clone, Copy)]
pub enum Terminal {
    /// The word or punctuator of this text: its position, from 0, among the punctuators, the reserved
    /// words and the words that the grammar names besides.
    Spelled(u8),
    /// Each word, reserved or not.
    Word,
    /// A word that isn't reserved.
    Name,
    /// `#` and a name.
    Private,
    Number,
    Text,
    RegExp,
    /// A template without substitutions.
    Full,
    /// A template up to its first `${`.
    Head,
    /// A template from a `}` to the next `${`.
    Middle,
    /// A template from a `}` to its end.
    Tail,
    /// `get` or `set`.
    AccessorWord,
    /// `var`, `let` or `const`.
    DeclarationWord,
    AssignmentOperator,
    EqualityOperator,
    /// But `in`, which not every context reads.
    RelationalOperator,
    ShiftOperator,
    AdditiveOperator,
    MultiplicativeOperator,
    UnaryOperator,
    UpdateOperator,
}

/// The name of a child field or an attribute of nodes.
#[derive(Clone, Copy)]
pub enum Field {
    Alternate,
    Argument,
    Arguments,
    Async,
    Await,
    Bigint,
    Block,
    Body,
    Callee,
    Cases,
    Computed,
    Consequent,
    Declaration,
    Declarations,
    Delegate,
    Directive,
    Discriminant,
    Elements,
    Exported,
    Expression,
    Expressions,
    Finalizer,
    Generator,
    Handler,
    Id,
    Imported,
    Init,
    Key,
    Kind,
    Label,
    Left,
    Local,
    Meta,
    Method,
    Name,
    Object,
    Operator,
    Optional,
    Param,
    Params,
    Prefix,
    Properties,
    Property,
    Quasi,
    Quasis,
    Raw,
    Regex,
    Right,
    Shorthand,
    Source,
    SourceType,
    Specifiers,
    Static,
    SuperClass,
    Tag,
    Tail,
    Test,
    Update,
    Value,
}

/// What has to hold at a place of a rule. Nothing is read by it.
#[derive(Clone, Copy)]
pub enum Condition {
    /// No line ends before the next token.
    SameLine,
    /// The next token is `[` or `{`.
    BracketNext,
    /// The next token is neither `[` nor `{`.
    NoBracketNext,
    /// The next token isn't `{`.
    NoBraceNext,
    /// The next token is a comma.
    CommaNext,
    /// The next token isn't a comma.
    NoCommaNext,
    /// The next token is `in`.
    InNext,
    /// The next token is `.` or `[`.
    MemberNext,
    /// The next token is `.`, `[` or `(`.
    MemberOrCallNext,
    /// The next token is neither `(` nor `.`.
    NoImportExpressionNext,
    /// The next token isn't `{`, `function` or `class`, nor `async` with `function` behind it on its line.
    ExpressionNext,
    /// The next token is `}` or the end, or a line ends before it.
    SemicolonLeftOut,
    /// `await` is an operator here.
    AwaitIsOperator,
    /// `yield` is an operator here.
    YieldIsOperator,
    /// `in` is read as an operator here.
    InIsOperator,
    /// What was read last is an Identifier or a MemberExpression.
    PlainTarget,
    /// What was read is no pattern, or a value behind it.
    PatternHasValue,
    /// What was read is no `||` or `&&` that has no parentheses.
    NoLogicalOperator,
    /// What was read is no unary operator or `await` that has no parentheses.
    NoUnaryOperator,
    /// What was read is the key `constructor`, and no computed one.
    ConstructorKey,
}

/// What the attribute `kind` of a member says that no word of the source says.
#[derive(Clone, Copy)]
pub enum MemberKind {
    Init,
    Method,
    Constructor,
}

/// What stands in a row of a rule.
#[derive(Clone, Copy)]
pub enum Part {
    /// Reads the token.
    Token(Terminal),
    /// Reads the token, whose words are the value of this attribute.
    Words(Terminal, Field),
    /// Reads the token as a node of this kind, into this field.
    Leaf(Terminal, u16, Option<Field>),
    /// Gives the next token as such a node, and doesn't read it.
    Twin(Terminal, u16, Option<Field>),
    /// Reads the symbol in the changed context; its children go into this field.
    Symbol(Symbol, Change, Option<Field>),
    /// The same with one less room.
    Deeper(Symbol, Change, Option<Field>),
    /// Goes on where the condition holds.
    Check(Condition),
    /// A child that is left out.
    Hole,
    /// Sets the attribute, which is false elsewhere.
    Flag(Field),
    /// Sets the attribute `kind`.
    Kind(MemberKind),
    /// Says what kind of node the symbol around makes.
    Becomes(u16),
    /// The texts at the head of what was read are directives.
    Directives,
}

/// What a row makes of what its parts gave.
#[derive(Clone, Copy)]
pub enum Product {
    /// It gives them on.
    Parts,
    /// A node of this kind.
    Node(u16),
    /// A node of the kind that one of the parts says, or, where none does, as `Parts`.
    Becoming,
}

/// Parts one after the other.
#[derive(Clone, Copy)]
pub struct Alternative {
    pub makes: Product,
    pub parts: &'static [Part],
}

/// An option or, if it is `many`, a repetition of the rows. It ends where one of the conditions doesn't hold.
#[derive(Clone, Copy)]
pub struct Turns {
    pub conditions: &'static [Condition],
    pub rows: &'static [Alternative],
    pub many: bool,
}

/// The rule of a symbol.
#[derive(Clone, Copy)]
pub enum Rule {
    /// The first of the rows that reads.
    Choice(&'static [Alternative]),
    More(Turns),
    /// The rows any number of times, separated by commas. One comma may stand at the end.
    Commas(&'static [Alternative]),
    /// A symbol, and then turns that take what was read before into what they make.
    Behind(Symbol, Turns),
}
