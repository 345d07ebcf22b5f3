//! The text of a comment, and the directive that it begins with.
ghost use Rattle.std.specs.Prelude.{◌≡◌, ◌≤◌, IsTrue, length, slice_range};
ghost use Rattle.std.specs.Str.{chars};
ghost use Rattle.es_text.specs.declared.source.TheConstants.{MOST_TEXT_BYTES};
ghost use Rattle.es_text.specs.Rest.{begins};
ghost use Rattle.es_messages.specs.Classes.{is_blank};
ghost use Rattle.es_messages.specs.Directives.{begins_remark, block_directive_of, contents_in};
ghost use Rattle.es_messages.specs.Directives.{directive_of, remark_at, text_in};
ghost use Rattle.es_messages.specs.Seen.{seen};
ghost use Rattle.es_messages.specs.Stretches.{Characters, width};

use crate::character::{Class, is_blank, is_word, run};
use crate::stretch::Stretch;

/// What the first word of a comment says that the comment does.
#[derive(Clone, Copy, Debug, PartialEq, Eq)]
pub enum Directive {
    Disabling,
    Enabling,
    DisablingLine,
    DisablingNextLine,
    /// It sets how serious the reports of rules are.
    Setting,
    /// It sets which names are global variables.
    Globals,
}

/// How many characters `/*`, `*/`, `//` and `#!` have.
const MARK_LEN: usize = 2;

/// The fewest hyphens that begin a remark.
const REMARK_HYPHENS: usize = 2;

/// Whether a remark begins here: white space, at least two hyphens and white space.
fn begins_remark(text: &[char]) -> bool
    ensures { result ≡ begins_remark text.now }
{
    let [c, rest @ ..] = text else {
        return false;
    };
    if !is_blank(*c) {
        return false;
    }
    let hyphens = run(Class::Hyphen, rest);
    hyphens >= REMARK_HYPHENS && begins_blank(&rest[hyphens..])
}

/// Whether white space stands at the front.
fn begins_blank(text: &[char]) -> bool
    ensures { result ≡ begins is_blank text.now }
{
    match text {
        [c, ..] => is_blank(*c),
        [] => false,
    }
}

/// How many characters stand in front of the remark, or all where there is none.
fn remark_at(text: &[char]) -> usize
    ensures value { result ≡ remark_at text.now }
    ensures bound { result ≤ length text.now }
{
    for i in 0..text.len() {
        if begins_remark(&text[i..]) {
            return i;
        }
    }
    text.len()
}

/// What stands between the marks of a comment.
fn contents(block: bool, whole: Stretch) -> Stretch
    ensures { seen result ≡ contents_in block (seen whole.entry) }
{
    let inner = if block {
        whole.front(whole.list.len().saturating_sub(MARK_LEN))
    } else {
        whole
    };
    inner.behind(MARK_LEN.min(inner.list.len()))
}

/// The text of a comment: without its marks, white space at its ends and a remark.
pub fn text_in(block: bool, whole: Stretch) -> Stretch
    ensures { seen result ≡ text_in block (seen whole.entry) }
{
    let inner = contents(block, whole).trimmed();
    inner.front(remark_at(inner.list)).trimmed()
}

/// The directive with this first word, in a block comment or in another one.
pub fn directive_of(block: bool, word: &[char]) -> Option<Directive>
    ensures { result ≡ directive_of block word.now }
{
    if is_word(word, b"eslint-disable-line") {
        Some(Directive::DisablingLine)
    } else if is_word(word, b"eslint-disable-next-line") {
        Some(Directive::DisablingNextLine)
    } else if block {
        block_directive_of(word)
    } else {
        None
    }
}

/// The directive that is one in block comments alone.
fn block_directive_of(word: &[char]) -> Option<Directive>
    ensures { result ≡ block_directive_of word.now }
{
    if is_word(word, b"eslint-disable") {
        Some(Directive::Disabling)
    } else if is_word(word, b"eslint-enable") {
        Some(Directive::Enabling)
    } else if is_word(word, b"eslint") {
        Some(Directive::Setting)
    } else if is_word(word, b"global") || is_word(word, b"globals") {
        Some(Directive::Globals)
    } else {
        None
    }
}
