//! The groups of kinds that have words of their own.
ghost use Rattle.std.specs.Prelude.{◌≡◌, map};
ghost use Rattle.es_tables.specs.Nodes.{kind_words};
ghost use Rattle.es_selectors.specs.KindAtoms.{groups_of, kind_word, word_in_group};

use crate::selector::Group;

/// Which groups a kind is of.
#[derive(Clone, Copy)]
pub struct Groups {
    statement: bool,
    declaration: bool,
    expression: bool,
    pattern: bool,
    function: bool,
}

const NONE: Groups = Groups {
    statement: false,
    declaration: false,
    expression: false,
    pattern: false,
    function: false,
};

const STATEMENT: Groups = Groups {
    statement: true,
    declaration: false,
    expression: false,
    pattern: false,
    function: false,
};

const DECLARATION: Groups = Groups {
    statement: true,
    declaration: true,
    expression: false,
    pattern: false,
    function: false,
};

const FUNCTION_DECLARATION: Groups = Groups {
    statement: true,
    declaration: true,
    expression: false,
    pattern: false,
    function: true,
};

const EXPRESSION: Groups = Groups {
    statement: false,
    declaration: false,
    expression: true,
    pattern: true,
    function: false,
};

const FUNCTION_EXPRESSION: Groups = Groups {
    statement: false,
    declaration: false,
    expression: true,
    pattern: true,
    function: true,
};

const PATTERN: Groups = Groups {
    statement: false,
    declaration: false,
    expression: false,
    pattern: true,
    function: false,
};

/// An array of groups. The kind before each row stands for the reader alone.
macro_rules! groups {
    ($($kind:ident $groups:ident)*) => {
        [$($groups),*]
    };
}

/// The groups of each kind, in the order of the kinds' codes.
static GROUPS: [Groups; 71] = groups![
    Program NONE
    ExpressionStatement STATEMENT
    BlockStatement STATEMENT
    StaticBlock NONE
    ClassBody NONE
    EmptyStatement STATEMENT
    DebuggerStatement STATEMENT
    ThisExpression EXPRESSION
    Super NONE
    WithStatement STATEMENT
    ReturnStatement STATEMENT
    ThrowStatement STATEMENT
    LabeledStatement STATEMENT
    BreakStatement STATEMENT
    ContinueStatement STATEMENT
    IfStatement STATEMENT
    SwitchStatement STATEMENT
    SwitchCase NONE
    TryStatement STATEMENT
    CatchClause NONE
    WhileStatement STATEMENT
    DoWhileStatement STATEMENT
    ForStatement STATEMENT
    ForInStatement STATEMENT
    ForOfStatement STATEMENT
    FunctionDeclaration FUNCTION_DECLARATION
    FunctionExpression FUNCTION_EXPRESSION
    ArrowFunctionExpression FUNCTION_EXPRESSION
    VariableDeclaration DECLARATION
    VariableDeclarator NONE
    ClassDeclaration DECLARATION
    ClassExpression EXPRESSION
    MethodDefinition NONE
    PropertyDefinition NONE
    Identifier EXPRESSION
    PrivateIdentifier NONE
    Literal EXPRESSION
    ArrayExpression EXPRESSION
    ArrayPattern PATTERN
    ObjectExpression EXPRESSION
    ObjectPattern PATTERN
    Property NONE
    UnaryExpression EXPRESSION
    UpdateExpression EXPRESSION
    BinaryExpression EXPRESSION
    LogicalExpression EXPRESSION
    AssignmentExpression EXPRESSION
    AssignmentPattern PATTERN
    MemberExpression EXPRESSION
    CallExpression EXPRESSION
    NewExpression EXPRESSION
    ConditionalExpression EXPRESSION
    SequenceExpression EXPRESSION
    YieldExpression EXPRESSION
    AwaitExpression EXPRESSION
    SpreadElement NONE
    RestElement NONE
    TemplateLiteral EXPRESSION
    TemplateElement NONE
    TaggedTemplateExpression EXPRESSION
    ChainExpression EXPRESSION
    ImportExpression EXPRESSION
    MetaProperty EXPRESSION
    ImportDeclaration DECLARATION
    ImportSpecifier NONE
    ImportDefaultSpecifier NONE
    ImportNamespaceSpecifier NONE
    ExportNamedDeclaration DECLARATION
    ExportSpecifier NONE
    ExportDefaultDeclaration DECLARATION
    ExportAllDeclaration DECLARATION
];

/// The groups of each kind, in the order of the kinds' codes.
#[tactic(auto, unfolding(crate::specs::KindAtoms::word_in_group))]
fn all_groups() -> &'static [Groups]
    ensures { result.now ≡ map groups_of kind_words }
{
    &GROUPS
}

/// The groups of the kind with this code, none where no kind has it.
fn groups_of(kind: u16) -> Groups
    ensures { result ≡ groups_of (kind_word kind) }
{
    match all_groups().get(kind as usize) {
        Some(groups) => *groups,
        None => NONE,
    }
}

/// Whether the kind with this code is of the group.
pub fn is_in_group(group: Group, kind: u16) -> bool
    ensures { result ≡ word_in_group group (kind_word kind) }
{
    let groups = groups_of(kind);
    match group {
        Group::Statement => groups.statement,
        Group::Declaration => groups.declaration,
        Group::Expression => groups.expression,
        Group::Pattern => groups.pattern,
        Group::Function => groups.function,
    }
}
