//! The fields of each kind of nodes, and what they hold.
ghost use Rattle.std.specs.Prelude.{◌≡◌, length, map, position};
ghost use Rattle.std.specs.Str.{bytes_eq};
ghost use Rattle.es_tables.specs.Nodes.{child_fields, field_index, fields_of};
ghost use Rattle.es_tables.specs.Nodes.{held_by, kind_fields, node_rows};

/// What a child field holds.
#[derive(Clone, Copy, Debug, PartialEq, Eq)]
pub enum Holds {
    /// Exactly one child.
    One,
    /// A child, or nothing.
    Optional,
    /// A list of children and holes.
    Many,
}

/// A field of a kind of nodes.
struct Field {
    name: &'static str,
    /// `None` for an attribute.
    holds: Option<Holds>,
}

/// An array of lists of fields: for each kind its child fields, then its attributes. The kind before
/// each row stands for the reader alone.
macro_rules! fields {
    ($($kind:ident [$($holds:ident $child:literal),*] [$($attribute:literal),*])*) => {
        [$(&[
            $(Field { name: $child, holds: Some(Holds::$holds) },)*
            $(Field { name: $attribute, holds: None },)*
        ]),*]
    };
}

/// The fields of each kind, child fields in the order of the walk, then attributes, in the order of
/// the kinds' codes.
static FIELDS: [&[Field]; 71] = fields![
    Program [Many "body"] ["sourceType"]
    ExpressionStatement [One "expression"] ["directive"]
    BlockStatement [Many "body"] []
    StaticBlock [Many "body"] []
    ClassBody [Many "body"] []
    EmptyStatement [] []
    DebuggerStatement [] []
    ThisExpression [] []
    Super [] []
    WithStatement [One "object", One "body"] []
    ReturnStatement [Optional "argument"] []
    ThrowStatement [Optional "argument"] []
    LabeledStatement [One "label", One "body"] []
    BreakStatement [Optional "label"] []
    ContinueStatement [Optional "label"] []
    IfStatement [One "test", One "consequent", Optional "alternate"] []
    SwitchStatement [One "discriminant", Many "cases"] []
    SwitchCase [Optional "test", Many "consequent"] []
    TryStatement [One "block", Optional "handler", Optional "finalizer"] []
    CatchClause [Optional "param", One "body"] []
    WhileStatement [One "test", One "body"] []
    DoWhileStatement [One "body", One "test"] []
    ForStatement [Optional "init", Optional "test", Optional "update", One "body"] []
    ForInStatement [One "left", One "right", One "body"] []
    ForOfStatement [One "left", One "right", One "body"] ["await"]
    FunctionDeclaration [Optional "id", Many "params", One "body"] ["async", "generator"]
    FunctionExpression [Optional "id", Many "params", One "body"] ["async", "generator"]
    ArrowFunctionExpression [Many "params", One "body"] ["async", "expression"]
    VariableDeclaration [Many "declarations"] ["kind"]
    VariableDeclarator [One "id", Optional "init"] []
    ClassDeclaration [Optional "id", Optional "superClass", One "body"] []
    ClassExpression [Optional "id", Optional "superClass", One "body"] []
    MethodDefinition [One "key", One "value"] ["kind", "static", "computed"]
    PropertyDefinition [One "key", Optional "value"] ["static", "computed"]
    Identifier [] ["name"]
    PrivateIdentifier [] ["name"]
    Literal [] ["raw", "value", "regex", "bigint"]
    ArrayExpression [Many "elements"] []
    ArrayPattern [Many "elements"] []
    ObjectExpression [Many "properties"] []
    ObjectPattern [Many "properties"] []
    Property [One "key", One "value"] ["kind", "method", "shorthand", "computed"]
    UnaryExpression [One "argument"] ["operator", "prefix"]
    UpdateExpression [One "argument"] ["operator", "prefix"]
    BinaryExpression [One "left", One "right"] ["operator"]
    LogicalExpression [One "left", One "right"] ["operator"]
    AssignmentExpression [One "left", One "right"] ["operator"]
    AssignmentPattern [One "left", One "right"] []
    MemberExpression [One "object", One "property"] ["computed", "optional"]
    CallExpression [One "callee", Many "arguments"] ["optional"]
    NewExpression [One "callee", Many "arguments"] []
    ConditionalExpression [One "test", One "consequent", One "alternate"] []
    SequenceExpression [Many "expressions"] []
    YieldExpression [Optional "argument"] ["delegate"]
    AwaitExpression [One "argument"] []
    SpreadElement [One "argument"] []
    RestElement [One "argument"] []
    TemplateLiteral [Many "quasis", Many "expressions"] []
    TemplateElement [] ["raw", "tail"]
    TaggedTemplateExpression [One "tag", One "quasi"] []
    ChainExpression [One "expression"] []
    ImportExpression [One "source"] []
    MetaProperty [One "meta", One "property"] []
    ImportDeclaration [Many "specifiers", One "source"] []
    ImportSpecifier [One "imported", One "local"] []
    ImportDefaultSpecifier [One "local"] []
    ImportNamespaceSpecifier [One "local"] []
    ExportNamedDeclaration [Optional "declaration", Many "specifiers", Optional "source"] []
    ExportSpecifier [One "local", One "exported"] []
    ExportDefaultDeclaration [One "declaration"] []
    ExportAllDeclaration [Optional "exported", One "source"] []
];

/// The index, from 0, of the name among the fields of the kind with this code, child fields first
/// in the order of the walk, then attributes: the code of that field. `None` where no kind has the
/// code, or the kind has no field of the name. The attribute `length` of a list field has no index
/// of its own.
pub fn field_of(kind: u16, name: &str) -> Option<u16>
    ensures { result ≡ field_index kind name.now }
{
    let index = index_of(fields_of(kind), name)?;
    Some(index as u16)
}

/// What the child field with this code holds; `None` where the kind has no such child field.
pub fn child_field(kind: u16, field: u16) -> Option<Holds>
    ensures { result ≡ held_by kind field }
{
    fields_of(kind).get(field as usize)?.holds
}

/// How many child fields the kind with this code has: none where no kind has it.
pub fn count_child_fields(kind: u16) -> usize
    ensures { result ≡ length (child_fields kind) }
{
    fields_of(kind)
        .iter()
        .filter(|field| field.holds.is_some())
        .count()
}

/// The fields of the kind with this code, none where no kind has it.
fn fields_of(kind: u16) -> &'static [Field]
    ensures { map (λ field. (field.name.now, field.holds)) result.now ≡ kind_fields kind }
{
    match all_fields().get(kind as usize) {
        Some(fields) => fields,
        None => &[],
    }
}

/// The fields of each kind, in the order of the kinds' codes.
fn all_fields() -> &'static [&'static [Field]]
    ensures { map (λ fields. map (λ field. (field.name.now, field.holds)) fields.now) result.now
        ≡ map fields_of node_rows }
{
    &FIELDS
}

/// The index, from 0, of the field with this name.
fn index_of(fields: &[Field], name: &str) -> Option<usize>
    ensures { result ≡ position (λ field. bytes_eq name.now field.name.now) fields.now }
{
    fields.iter().position(|field| name == field.name)
}
