ghost use Rattle.std.specs.Prelude.{◌≡◌, ◌≤◌, ◌++◌, length, All, IfOk, OnOk};
ghost use Rattle.std.specs.Str.{IsCharBoundary};
ghost use Rattle.es_text.specs.declared.source.TheConstants.{MOST_TEXT_BYTES};
ghost use Rattle.es_text.specs.Texts.{text_bytes};
ghost use Rattle.es_text.specs.Tokens.{comments_between};
ghost use Rattle.es_lexer.specs.Pieces.{comments_from};

use crate::cursor::Cursor;
use crate::skip::{PieceKind, piece_at};
use es_text::{Comment, NoMemory, Source, Span, Token};
use std::alloc::Global;

/// The comments before the first of these tokens of the text, and between them, in order.
///
/// The tokens are those that `next` reads one behind the other from offset 0 on. It takes time in the
/// number of the tokens and the length of what stands between them, and memory for the comments, or
/// answers `NoMemory`.
pub fn comments(alloc: Global, source: &Source, tokens: &[Token]) -> Result<Vec<Comment>, NoMemory>
    requires { All (λ token. IsCharBoundary (text_bytes source.now) token.span.end) tokens.now }
    ensures { IfOk result (λ comments.
        comments.items ≡ comments_between (text_bytes source.now) 0 tokens.now) }
{
    let text = source.text();
    let mut comments = Vec::new(alloc);
    let mut offset = 0;
    for token in tokens {
        gather(text, offset, &mut comments)?;
        offset = token.span.end as usize;
    }
    Ok(comments)
}

/// Puts the comments that are skipped from this offset on at the end.
fn gather(text: &str, offset: usize, comments: &mut Vec<Comment>) -> Result<(), NoMemory>
    requires boundary { IsCharBoundary text.now offset }
    requires short { length text.now ≤ MOST_TEXT_BYTES }
    ensures { OnOk result (
        comments.new.items ≡ comments.old.items ++ comments_from text.now offset) }
{
    let mut end = Cursor::at(text, offset);
    while let Some(piece) = piece_at(end) {
        if let PieceKind::Comment { block } = piece.kind {
            let span = Span {
                start: end.offset as u32,
                end: piece.end.offset as u32,
            };
            comments.push(Comment { block, span })?;
        }
        end = piece.end;
    }
    Ok(())
}
