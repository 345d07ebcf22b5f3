//! Lists in comments.
ghost use Rattle.std.specs.Prelude.{◌≡◌, [], ◌∷◌, ◌+◌, ◌<◌, ◌≤◌, IfNone, IfSome, length};
ghost use Rattle.std.specs.List.{slice_split};
ghost use Rattle.es_messages.specs.Classes.{is_comma};
ghost use Rattle.es_messages.specs.Directives.{words};
ghost use Rattle.es_messages.specs.Seen.{listed_in, placed_in, seen, size_of};
ghost use Rattle.es_messages.specs.Stretches.{placed};

use crate::character::{Class, run};
use crate::stretch::Stretch;

/// What stands up to the first comma, and what stands behind that, if there is one.
fn first_piece(stretch: Stretch) -> (Stretch, Option<Stretch>)
    ensures value { placed stretch.entry.at (slice_split is_comma stretch.entry.list.now)
        ≡ seen result.0 ∷ placed_in result.1 }
    ensures shorter { size_of result.1 ≤ length stretch.entry.list.now }
{
    let n = run(Class::NoComma, stretch.list);
    if n < stretch.list.len() {
        (stretch.front(n), Some(stretch.behind(n + 1)))
    } else {
        (stretch, None)
    }
}

/// The first part of a list, of which this is left, and what is left of it behind that.
pub fn next_part<'a>(left: Option<Stretch<'a>>) -> Option<(Stretch<'a>, Option<Stretch<'a>>)>
    ensures some { IfSome result (λ found. listed_in left.entry ≡ seen found.0 ∷ listed_in found.1) }
    ensures shorter { IfSome result (λ found. size_of found.1 < size_of left.entry) }
    ensures none { IfNone result (listed_in left.entry ≡ []) }
{
    let mut rest = left;
    while let Some(stretch) = rest {
        let (piece, behind) = first_piece(stretch);
        let part = piece.trimmed();
        if !part.list.is_empty() {
            return Some((part, behind));
        }
        rest = behind;
    }
    None
}

/// The first part between commas and white space, and what follows it.
pub fn next_word(text: &[char]) -> Option<(&[char], &[char])>
    ensures some { IfSome result (λ found. words text.now ≡ found.0.now ∷ words found.1.now) }
    ensures shorter { IfSome result (λ found. length found.1.now < length text.now) }
    ensures none { IfNone result (words text.now ≡ []) }
{
    let rest = &text[run(Class::Separator, text)..];
    if rest.is_empty() {
        return None;
    }
    let n = run(Class::NoSeparator, rest);
    Some((&rest[..n], &rest[n..]))
}
