//! How the rules are written in Rust: as in the definition, with macros in place of its functions.

/// The terminal that reads the token of this text, or the one of this name.
macro_rules! terminal {
    ("{") => { Terminal::Spelled(0) };
    ("}") => { Terminal::Spelled(1) };
    ("(") => { Terminal::Spelled(2) };
    (")") => { Terminal::Spelled(3) };
    ("[") => { Terminal::Spelled(4) };
    ("]") => { Terminal::Spelled(5) };
    (".") => { Terminal::Spelled(6) };
    ("...") => { Terminal::Spelled(7) };
    (";") => { Terminal::Spelled(8) };
    (",") => { Terminal::Spelled(9) };
    ("<") => { Terminal::Spelled(10) };
    (">") => { Terminal::Spelled(11) };
    ("<=") => { Terminal::Spelled(12) };
    (">=") => { Terminal::Spelled(13) };
    ("==") => { Terminal::Spelled(14) };
    ("!=") => { Terminal::Spelled(15) };
    ("===") => { Terminal::Spelled(16) };
    ("!==") => { Terminal::Spelled(17) };
    ("+") => { Terminal::Spelled(18) };
    ("-") => { Terminal::Spelled(19) };
    ("*") => { Terminal::Spelled(20) };
    ("/") => { Terminal::Spelled(21) };
    ("%") => { Terminal::Spelled(22) };
    ("**") => { Terminal::Spelled(23) };
    ("++") => { Terminal::Spelled(24) };
    ("--") => { Terminal::Spelled(25) };
    ("<<") => { Terminal::Spelled(26) };
    (">>") => { Terminal::Spelled(27) };
    (">>>") => { Terminal::Spelled(28) };
    ("&") => { Terminal::Spelled(29) };
    ("|") => { Terminal::Spelled(30) };
    ("^") => { Terminal::Spelled(31) };
    ("!") => { Terminal::Spelled(32) };
    ("~") => { Terminal::Spelled(33) };
    ("&&") => { Terminal::Spelled(34) };
    ("||") => { Terminal::Spelled(35) };
    ("??") => { Terminal::Spelled(36) };
    ("?") => { Terminal::Spelled(37) };
    ("?.") => { Terminal::Spelled(38) };
    (":") => { Terminal::Spelled(39) };
    ("=") => { Terminal::Spelled(40) };
    ("=>") => { Terminal::Spelled(41) };
    ("+=") => { Terminal::Spelled(42) };
    ("-=") => { Terminal::Spelled(43) };
    ("*=") => { Terminal::Spelled(44) };
    ("/=") => { Terminal::Spelled(45) };
    ("%=") => { Terminal::Spelled(46) };
    ("**=") => { Terminal::Spelled(47) };
    ("<<=") => { Terminal::Spelled(48) };
    (">>=") => { Terminal::Spelled(49) };
    (">>>=") => { Terminal::Spelled(50) };
    ("&=") => { Terminal::Spelled(51) };
    ("|=") => { Terminal::Spelled(52) };
    ("^=") => { Terminal::Spelled(53) };
    ("&&=") => { Terminal::Spelled(54) };
    ("||=") => { Terminal::Spelled(55) };
    ("??=") => { Terminal::Spelled(56) };
    ("break") => { Terminal::Spelled(57) };
    ("case") => { Terminal::Spelled(58) };
    ("catch") => { Terminal::Spelled(59) };
    ("class") => { Terminal::Spelled(60) };
    ("const") => { Terminal::Spelled(61) };
    ("continue") => { Terminal::Spelled(62) };
    ("debugger") => { Terminal::Spelled(63) };
    ("default") => { Terminal::Spelled(64) };
    ("delete") => { Terminal::Spelled(65) };
    ("do") => { Terminal::Spelled(66) };
    ("else") => { Terminal::Spelled(67) };
    ("enum") => { Terminal::Spelled(68) };
    ("export") => { Terminal::Spelled(69) };
    ("extends") => { Terminal::Spelled(70) };
    ("false") => { Terminal::Spelled(71) };
    ("finally") => { Terminal::Spelled(72) };
    ("for") => { Terminal::Spelled(73) };
    ("function") => { Terminal::Spelled(74) };
    ("if") => { Terminal::Spelled(75) };
    ("import") => { Terminal::Spelled(76) };
    ("in") => { Terminal::Spelled(77) };
    ("instanceof") => { Terminal::Spelled(78) };
    ("let") => { Terminal::Spelled(79) };
    ("new") => { Terminal::Spelled(80) };
    ("null") => { Terminal::Spelled(81) };
    ("return") => { Terminal::Spelled(82) };
    ("super") => { Terminal::Spelled(83) };
    ("switch") => { Terminal::Spelled(84) };
    ("this") => { Terminal::Spelled(85) };
    ("throw") => { Terminal::Spelled(86) };
    ("true") => { Terminal::Spelled(87) };
    ("try") => { Terminal::Spelled(88) };
    ("typeof") => { Terminal::Spelled(89) };
    ("var") => { Terminal::Spelled(90) };
    ("void") => { Terminal::Spelled(91) };
    ("while") => { Terminal::Spelled(92) };
    ("with") => { Terminal::Spelled(93) };
    ("yield") => { Terminal::Spelled(94) };
    ("await") => { Terminal::Spelled(95) };
    ("async") => { Terminal::Spelled(96) };
    ("static") => { Terminal::Spelled(97) };
    ("get") => { Terminal::Spelled(98) };
    ("set") => { Terminal::Spelled(99) };
    ("of") => { Terminal::Spelled(100) };
    ("from") => { Terminal::Spelled(101) };
    ("as") => { Terminal::Spelled(102) };
    ("target") => { Terminal::Spelled(103) };
    ("meta") => { Terminal::Spelled(104) };
    ($name:ident) => { Terminal::$name };
}

/// Reads a token.
macro_rules! token {
    ($text:tt) => { Part::Token(terminal!($text)) };
}

/// Reads a token as the value of an attribute.
macro_rules! words {
    ($terminal:tt into $field:ident) => { Part::Words(terminal!($terminal), Field::$field) };
}

/// Reads a token as a node.
macro_rules! leaf {
    ($terminal:tt as $kind:ident) => { Part::Leaf(terminal!($terminal), kind::$kind, None) };
    ($terminal:tt as $kind:ident into $field:ident) => {
        Part::Leaf(terminal!($terminal), kind::$kind, Some(Field::$field))
    };
}

/// Gives the next token as a node.
macro_rules! twin {
    ($terminal:tt as $kind:ident into $field:ident) => {
        Part::Twin(terminal!($terminal), kind::$kind, Some(Field::$field))
    };
}

/// Reads a symbol.
macro_rules! read {
    ($symbol:ident) => { Part::Symbol(Symbol::$symbol, Change::Same, None) };
    ($symbol:ident into $field:ident) => {
        Part::Symbol(Symbol::$symbol, Change::Same, Some(Field::$field))
    };
    ($symbol:ident under $change:ident) => {
        Part::Symbol(Symbol::$symbol, Change::$change, None)
    };
    ($symbol:ident under $change:ident into $field:ident) => {
        Part::Symbol(Symbol::$symbol, Change::$change, Some(Field::$field))
    };
}

/// Reads a symbol with one less room.
macro_rules! deeper {
    ($symbol:ident) => { Part::Deeper(Symbol::$symbol, Change::Same, None) };
    ($symbol:ident into $field:ident) => {
        Part::Deeper(Symbol::$symbol, Change::Same, Some(Field::$field))
    };
    ($symbol:ident under $change:ident into $field:ident) => {
        Part::Deeper(Symbol::$symbol, Change::$change, Some(Field::$field))
    };
}

/// The same between brackets.
macro_rules! inside {
    ($symbol:ident) => { Part::Deeper(Symbol::$symbol, Change::Brackets, None) };
    ($symbol:ident into $field:ident) => {
        Part::Deeper(Symbol::$symbol, Change::Brackets, Some(Field::$field))
    };
}

macro_rules! check {
    ($condition:ident) => { Part::Check(Condition::$condition) };
}

macro_rules! flag {
    ($field:ident) => { Part::Flag(Field::$field) };
}

macro_rules! kind {
    ($kind:ident) => { Part::Kind(MemberKind::$kind) };
}

macro_rules! becomes {
    ($kind:ident) => { Part::Becomes(kind::$kind) };
}

/// A row that makes a node of this kind.
macro_rules! node {
    ($kind:ident; $($part:expr),* $(,)?) => {
        Alternative { makes: Product::Node(kind::$kind), parts: &[$($part),*] }
    };
}

/// A row that gives on what its parts give.
macro_rules! plain {
    ($($part:expr),* $(,)?) => {
        Alternative { makes: Product::Parts, parts: &[$($part),*] }
    };
}

/// A row that makes a node of the kind that one of its parts says.
macro_rules! becoming {
    ($($part:expr),* $(,)?) => {
        Alternative { makes: Product::Becoming, parts: &[$($part),*] }
    };
}

macro_rules! turns {
    ([$($condition:ident),*], [$($row:expr),*], $many:literal) => {
        Turns { conditions: &[$(Condition::$condition),*], rows: &[$($row),*], many: $many }
    };
}

macro_rules! choice {
    ($($row:expr),* $(,)?) => { Rule::Choice(&[$($row),*]) };
}

macro_rules! commas {
    ($($row:expr),* $(,)?) => { Rule::Commas(&[$($row),*]) };
}

macro_rules! option {
    (where $($condition:ident),*; $($row:expr),* $(,)?) => {
        Rule::More(turns!([$($condition),*], [$($row),*], false))
    };
    ($($row:expr),* $(,)?) => { Rule::More(turns!([], [$($row),*], false)) };
}

macro_rules! any_number {
    ($($row:expr),* $(,)?) => { Rule::More(turns!([], [$($row),*], true)) };
}

/// A symbol with an option or a repetition behind it.
macro_rules! behind {
    ($head:ident, option; where $($condition:ident),*; $($row:expr),* $(,)?) => {
        Rule::Behind(Symbol::$head, turns!([$($condition),*], [$($row),*], false))
    };
    ($head:ident, option; $($row:expr),* $(,)?) => {
        Rule::Behind(Symbol::$head, turns!([], [$($row),*], false))
    };
    ($head:ident, any_number; where $($condition:ident),*; $($row:expr),* $(,)?) => {
        Rule::Behind(Symbol::$head, turns!([$($condition),*], [$($row),*], true))
    };
    ($head:ident, any_number; $($row:expr),* $(,)?) => {
        Rule::Behind(Symbol::$head, turns!([], [$($row),*], true))
    };
}

/// The rule of a symbol, by the symbols of a chapter and their rules.
macro_rules! rules {
    ($symbol:ident else $other:expr; $($name:ident is $rule:ident),* $(,)?) => {
        match $symbol {
            $(Symbol::$name => $rule,)*
            _ => $other,
        }
    };
}

pub(crate) use any_number;
pub(crate) use becomes;
pub(crate) use becoming;
pub(crate) use behind;
pub(crate) use check;
pub(crate) use choice;
pub(crate) use commas;
pub(crate) use deeper;
pub(crate) use flag;
pub(crate) use inside;
pub(crate) use kind;
pub(crate) use leaf;
pub(crate) use node;
pub(crate) use option;
pub(crate) use plain;
pub(crate) use read;
pub(crate) use rules;
pub(crate) use terminal;
pub(crate) use token;
pub(crate) use turns;
pub(crate) use twin;
pub(crate) use words;
