//! What isn't there, since none of the tokens is next with which it begins.
ghost use Rattle.std.specs.Prelude.{◌≡◌, map, true};
ghost use Rattle.std.specs.Bool.{OnTrue};
ghost use Rattle.std.specs.List.{list_all};
ghost use Rattle.es_grammar.specs.declared.draft.Draft.{Draft as DraftOf};
ghost use Rattle.es_grammar.specs.declared.draft.Outcome.TheVariants.{Not};
ghost use Rattle.es_grammar.specs.Firsts.{turn_rows};
ghost use Rattle.es_grammar.specs.Grammar.{rule_of};
ghost use Rattle.es_grammar.specs.Reading.{ReadsChoice, ReadsParts};
ghost use Rattle.es_grammar.specs.Rules.{row};
ghost use Rattle.es_parser.specs.Fronts.{at_first, front_of, is_same, lacks_part, lacks_row};
ghost use Rattle.es_parser.specs.Fronts.{lacks_symbol, lacks_terminal, lacks_turns, turn_front};
ghost use Rattle.es_parser.specs.Kept.{HasTerminals};
ghost use Rattle.es_parser.specs.Turns.{IsOver};

use crate::reader::Reader;
use crate::terminals::has;
use es_grammar::{Alternative, Change, Part, Spot, Symbol, Terminal};

/// The set that stands before the symbol among these.
macro_rules! fronts {
    ($symbol:ident; $($set:literal: $($name:ident)+),*) => {
        match $symbol {
            $($(Symbol::$name)|+ => Some($set),)*
            _ => None,
        }
    };
}

/// The set of the terminals that can begin the symbol, if it reads a token before anything that takes
/// room.
#[tactic(auto, unfolding(crate::specs::Fronts::has_front, es_grammar::specs::FirstSets::first_of))]
fn front_of(symbol: Symbol) -> Option<u128>
    ensures { result ≡ front_of symbol }
{
    fronts![symbol;
        0x2: BindingIdentifier SingleNameBinding LabelledStatement ImportedDefaultBinding,
        0x10_0a20_4801_0000_0000_0000_0150_00fa: PrimaryExpression, 0x100_0019: PropertyName,
        0xc0: TemplateLiteral, 0x10_0ab1_4801_0000_0000_0000_0150_00fa: LeftHandSideExpression
        CallChain CallChainStart NewCallee NewCalleeStart UpdateExpression AssignmentElement
        AssignmentTarget, 0x5: MemberName, 0x10_0000_0000_0000_0000_0000_0000: NewExpression,
        0x40_0000: Arguments FunctionRest, 0x18_0ab1_4801_0000_0000_0000_015c_00fa: UnaryExpression
        ExponentiationExpression MultiplicativeExpression AdditiveExpression ShiftExpression,
        0x18_0ab1_4801_0000_0000_0000_015c_00fe: RelationalExpression RelationalOperand
        EqualityExpression BitwiseANDExpression BitwiseXORExpression BitwiseORExpression
        LogicalANDExpression LogicalORExpression ShortCircuitExpression ConditionalExpression
        SimpleAssignment, 0x1c_0ab1_4801_0000_0000_0000_015c_00fe: AssignmentExpression Expression
        ExpressionStatement, 0x110_0000: DestructuringAssignment AssignmentPattern,
        0x1f_5ff1_e84d_2000_0000_0000_115c_00fe: Statement, 0x10_0000: Block FunctionBody ClassBody
        NamedImports, 0x1f_5ff9_e84f_2000_0000_0000_115c_00fe: StatementListItem,
        0x8_0002_0000_0000_0000_0000_0000: LexicalDeclaration,
        0x4000_0000_0000_0000_0000_0000_0000: VariableStatement, 0x110_0002: DeclaratorList
        Declarator BindingTarget BindingElement ForBinding,
        0x8000_0000_0000_0000_0000_0000: IfStatement,
        0x40_0000_0000_0000_0000_0000: DoWhileStatement,
        0x1_0000_0000_0000_0000_0000_0000_0000: WhileStatement,
        0x2000_0000_0000_0000_0000_0000: ForStatement,
        0x10_0ab1_4801_0000_0000_0000_0150_08fa: ForAwaitHead ForInOfHead,
        0x100_0002_0000_0000_0000_0000_0000_0000: ForInOfObject, 0x800: ForDeclaration,
        0x4_0000_0000_0000_0000_0000: ContinueStatement, 0x2000_0000_0000_0000_0000: BreakStatement,
        0x40_0000_0000_0000_0000_0000_0000: ReturnStatement,
        0x2_0000_0000_0000_0000_0000_0000_0000: WithStatement,
        0x100_0000_0000_0000_0000_0000_0000: SwitchStatement,
        0x10_4000_0000_0000_0000_0000: CaseClause,
        0x400_0000_0000_0000_0000_0000_0000: ThrowStatement,
        0x1000_0000_0000_0000_0000_0000_0000: TryStatement,
        0x1000_8000_0000_0000_0000_0000: TryClauses, 0x8000_0000_0000_0000_0000: CatchClause,
        0x1000_0000_0000_0000_0000_0000: Finally, 0x8_0000_0000_0000_0000_0000: DebuggerStatement,
        0x10_0000_4000_0000_0000_0000_0000_0000: FunctionDeclaration DefaultFunction
        FunctionExpression, 0x10_0000_0000_0000_0000_0000_0040_0002: ArrowFunction,
        0x40_0002: ArrowParameters, 0x4_0000_0000_0000_0000_0000_0000_0000: YieldExpression,
        0x1_0000_0000_0000_0000_0000: ClassDeclaration DefaultClass ClassExpression,
        0x30_0000_0000_0000_0000_0100_1100_041d: ClassElement, 0x11: ConstructorName
        ModuleExportName, 0x10_0000_0000_0000_0000_0100_0000_0400: PrefixedMethod,
        0x100_001d: ClassElementName, 0x1f_5ff9_ea4f_2000_0000_0000_115c_00fe: ModuleItem,
        0x1_0000_0000_0000_0000_0000_0000: ImportDeclaration, 0x100_0010_0002: ImportClause,
        0x100_0000_0000: NameSpaceImport, 0x200_0000_0000_0000_0000_0000: ExportDeclaration
    ]
}

/// The set of the terminals that begin the turns behind the symbol's head.
#[tactic(auto, unfolding(crate::specs::Fronts::turn_front))]
fn turn_front(symbol: Symbol) -> Option<u128>
    ensures { result ≡ turn_front symbol }
{
    fronts![symbol;
        0x400_0000_0540_00c0: CallChain, 0x500_00c0: NewCallee, 0x8_0000: UpdateExpression,
        0x800_0000_0000: ExponentiationExpression, 0x2_0000: MultiplicativeExpression, 0x1_0000:
        AdditiveExpression, 0x8000: ShiftExpression, 0x2_0000_0000_0000_0000_0000_4000:
        RelationalExpression, 0x2000: EqualityExpression, 0x2_0000_0000_0000: BitwiseANDExpression,
        0x8_0000_0000_0000: BitwiseXORExpression, 0x4_0000_0000_0000: BitwiseORExpression,
        0x40_0000_0000_0000: LogicalANDExpression, 0x80_0000_0000_0000: LogicalORExpression,
        0x100_0000_0000_0000: ShortCircuitExpression, 0x200_0000_0000_0000: ConditionalExpression,
        0x1000: SimpleAssignment, 0x1000_0000_0000_0000: AssignmentElement BindingElement
        SingleNameBinding, 0x2000_0000: Expression DeclaratorList
    ]
}

/// Whether none of the set's terminals begins a turn behind the symbol's head.
fn lacks_turns(set: u128, symbol: Symbol) -> bool
    ensures { result ≡ lacks_turns set symbol }
{
    match turn_front(symbol) {
        Some(front) => front & set == 0,
        None => false,
    }
}

/// Whether none of the set's terminals begins the symbol.
fn lacks_symbol(set: u128, symbol: Symbol) -> bool
    ensures { result ≡ lacks_symbol set symbol }
{
    match front_of(symbol) {
        Some(front) => front & set == 0,
        None => false,
    }
}

fn lacks_terminal(set: u128, terminal: Terminal) -> bool
    ensures { result ≡ lacks_terminal set terminal }
{
    match terminal {
        Terminal::Middle | Terminal::Tail => false,
        other => !has(set, other),
    }
}

fn is_same(change: Change) -> bool
    ensures { result ≡ is_same change }
{
    match change {
        Change::Same => true,
        _ => false,
    }
}

/// Whether none of the set's terminals begins the part, if it reads something.
#[tactic(auto, unfolding(crate::specs::Fronts::lacks_part))]
fn lacks_part(set: u128, part: Part) -> Option<bool>
    ensures { result ≡ lacks_part set part }
{
    match part {
        Part::Token(terminal) => Some(lacks_terminal(set, terminal)),
        Part::Words(terminal, _) => Some(lacks_terminal(set, terminal)),
        Part::Leaf(terminal, _, _) => Some(lacks_terminal(set, terminal)),
        Part::Symbol(symbol, change, _) => Some(is_same(change) && lacks_symbol(set, symbol)),
        Part::Deeper(..) => Some(false),
        _ => None,
    }
}

/// The same of the first part that reads something.
fn lacks_parts(set: u128, parts: &[Part]) -> bool
    ensures { result ≡ at_first (lacks_part set) parts.now }
{
    for each in parts {
        match lacks_part(set, *each) {
            Some(so) => return so,
            None => {}
        }
    }
    false
}

/// The same of each of the rows.
fn lacks_rows(set: u128, rows: &[Alternative]) -> bool
    ensures { result ≡ list_all (lacks_row set) (map row rows.now) }
{
    for each in rows {
        if !lacks_parts(set, each.parts) {
            return false;
        }
    }
    true
}

/// Whether the parts aren't there, since none of the tokens is next with which they begin. The set has
/// the terminals that read the next token.
#[inline(never)]
pub fn is_missing(_reader: &Reader, set: u128, parts: &[Part], spot: Spot) -> bool
    requires { HasTerminals _reader.now spot.context spot.at set }
    ensures { OnTrue result
        ((draft : DraftOf) → ReadsParts _reader.now parts.now spot draft Not) }
{
    lacks_parts(set, parts)
}

/// The same of each of the rows.
pub fn are_missing(_reader: &Reader, set: u128, rows: &[Alternative], spot: Spot) -> bool
    requires { HasTerminals _reader.now spot.context spot.at set }
    ensures { OnTrue result
        ((seed : DraftOf) → ReadsChoice _reader.now (map row rows.now) spot seed Not) }
{
    lacks_rows(set, rows)
}

/// Whether no turn comes behind the symbol's head, since none of the tokens is next with which one begins.
/// The set has the terminals that read the next token.
pub fn is_quiet(_reader: &Reader, symbol: Symbol, set: u128, spot: Spot) -> bool
    requires { HasTerminals _reader.now spot.context spot.at set }
    ensures { OnTrue result (IsOver _reader.now (turn_rows (rule_of symbol)) spot) }
{
    lacks_turns(set, symbol)
}
