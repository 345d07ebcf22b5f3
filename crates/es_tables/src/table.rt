//! Tables of texts in byte order, and the look-ups in them.
ghost use Rattle.std.specs.Prelude.{ℕ, ◌≡◌, List, length, IfSome, IfNone};
ghost use Rattle.std.specs.Option.{option_copied};
ghost use Rattle.es_tables.specs.Rows.{HasRow, IsOrdered, IsPrefix, IsLongestPrefix};
ghost use Rattle.es_tables.specs.Searches.{last_prefix_in};

use crate::Row;

/// `N` rows.
#[derive(Clone, Copy)]
pub struct Table<const N: usize> {
    pub rows: &'static [Row],
    ghost sized: { length rows.now ≡ N },
}

impl<const N: usize> Table<N> {
    /// The row with this text.
    pub fn find(&self, text: &str) -> Option<&Row>
        requires { IsOrdered self.now.rows.now }
        ensures row { IfSome result (λ row. HasRow self.now.rows.now row.now.text.now row.now.code) }
        ensures text { IfSome result (λ row. row.now.text.now ≡ text.now) }
        ensures missing { IfNone result ((code : ℕ) → HasRow self.now.rows.now text.now code → ⊥) }
    {
        match self.rows.binary_search_by(|row| row.text.cmp(text)) {
            Ok(at) => Some(&self.rows[at]),
            Err(_) => None,
        }
    }

    /// The row with the longest text that is a prefix of `bytes`.
    pub fn longest(&self, bytes: &[u8]) -> Option<&Row>
        requires { IsOrdered self.now.rows.now }
        ensures row { IfSome result (λ row. HasRow self.now.rows.now row.now.text.now row.now.code) }
        ensures longest { IfSome result (λ row. IsLongestPrefix self.now.rows.now bytes.now row.now.text.now) }
        ensures missing { IfNone result
            ((text : List ℕ) (code : ℕ) →
            HasRow self.now.rows.now text code → IsPrefix text bytes.now → ⊥) }
    {
        let end = self
            .rows
            .partition_point(|row| row.text.as_bytes() <= bytes);
        last_prefix(&self.rows[..end], bytes)
    }
}

/// The last row whose text is a prefix of `bytes`, looked for among the last rows that begin with the
/// same byte.
fn last_prefix<'a>(rows: &'a [Row], bytes: &[u8]) -> Option<&'a Row>
    ensures { option_copied result ≡ last_prefix_in bytes.now rows.now }
{
    rows.iter()
        .rev()
        .take_while(|row| row.text.as_bytes().first() == bytes.first())
        .find(|row| bytes.starts_with(row.text.as_bytes()))
}
