//! White space, line ends and comments.
ghost use Rattle.std.specs.Prelude.{◌≡◌, false, IfSome};
ghost use Rattle.std.specs.Option.{option_map};
ghost use Rattle.es_text.specs.Skipped.{after_block, after_line, after_slash, hold_line};
ghost use Rattle.es_lexer.specs.Cursors.{GoesOn, rest_of, StepsOn};
ghost use Rattle.es_lexer.specs.Pieces.{behind_skipped_from, piece_from, piece_of, skipped_from};

use crate::class::{Class, is_line_terminator, is_white_space};
use crate::cursor::Cursor;

#[derive(Clone, Copy)]
pub enum PieceKind {
    /// White space or a line end.
    Blank,
    Comment { block: bool },
}

/// One white space, line end or comment.
#[derive(Clone, Copy)]
pub struct Piece<'a> {
    pub kind: PieceKind,
    /// Whether it is or holds a line end.
    pub line: bool,
    /// The cursor behind it.
    pub end: Cursor<'a>,
}

/// What is skipped here, one piece of it.
#[tactic(auto, unfolding(es_text::specs::Skipped::piece))]
pub fn piece_at(start: Cursor<'_>) -> Option<Piece<'_>>
    ensures value { option_map piece_of result ≡ piece_from start.entry }
    ensures moves { IfSome result (λ piece. StepsOn start.entry piece.end) }
{
    let (c, next) = start.next()?;
    let line = is_line_terminator(c);
    if is_white_space(c) || line {
        return Some(Piece {
            kind: PieceKind::Blank,
            line,
            end: next,
        });
    }
    if c == '/' {
        return slash_comment(next);
    }
    if start.offset == 0 && c == '#' {
        let mark = next.just('!')?;
        return Some(line_comment(mark));
    }
    None
}

/// The comment whose first slash stands before this cursor.
#[tactic(auto, unfolding(es_text::specs::Skipped::after_slash))]
fn slash_comment(start: Cursor<'_>) -> Option<Piece<'_>>
    ensures value { option_map piece_of result ≡ after_slash (rest_of start.entry) }
    ensures moves { IfSome result (λ piece. GoesOn start.entry piece.end) }
{
    let (c, next) = start.next()?;
    match c {
        '/' => Some(line_comment(next)),
        '*' => block_comment(next),
        _ => None,
    }
}

/// The comment of one line, behind its `//` or `#!`.
fn line_comment(start: Cursor<'_>) -> Piece<'_>
    ensures value { piece_of result ≡ after_line (rest_of start.entry) }
    ensures moves { GoesOn start.entry result.end }
{
    Piece {
        kind: PieceKind::Comment { block: false },
        line: false,
        end: start.past(Class::InLine),
    }
}

/// The block comment, behind its `/*`.
#[tactic(auto, unfolding(es_text::specs::Skipped::after_block))]
fn block_comment(start: Cursor<'_>) -> Option<Piece<'_>>
    ensures value { option_map piece_of result ≡ after_block false (rest_of start.entry) }
    ensures moves { IfSome result (λ piece. GoesOn start.entry piece.end) }
{
    let mut at = start;
    let mut line = false;
    while let Some((c, next)) = at.next() {
        if c == '*'
            && let Some(end) = next.just('/')
        {
            return Some(Piece {
                kind: PieceKind::Comment { block: true },
                line,
                end,
            });
        }
        line = line || is_line_terminator(c);
        at = next;
    }
    None
}

/// What was skipped from a cursor on.
#[derive(Clone, Copy)]
pub struct Gap<'a> {
    /// Whether a line ends in it.
    pub line: bool,
    /// The cursor behind it.
    pub end: Cursor<'a>,
}

/// Skips all white space, line ends and comments from here on.
pub fn skip(start: Cursor<'_>) -> Gap<'_>
    ensures line { result.line ≡ hold_line (skipped_from start.entry) }
    ensures behind { rest_of result.end ≡ behind_skipped_from start.entry }
    ensures moves { GoesOn start.entry result.end }
{
    let mut end = start;
    let mut line = false;
    while let Some(piece) = piece_at(end) {
        line |= piece.line;
        end = piece.end;
    }
    Gap { line, end }
}
