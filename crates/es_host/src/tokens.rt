//! Tokens of a file by where they begin, which halving finds.
ghost use Rattle.std.specs.Prelude.{Bool, ◌≡◌, ◌≤◌, All, drop, length, nat_le, nat_lt, reverse, slice_get, slice_range, take, IfSome, IsTrue};
ghost use Rattle.std.specs.List.{filter};
ghost use Rattle.std.specs.List.Sorted.{IsNonDecreasingBy};
ghost use Rattle.es_text.specs.declared.span.Span.{Span};
ghost use Rattle.es_text.specs.Spans.{is_part};
ghost use Rattle.es_text.specs.Texts.{text_bytes};
ghost use Rattle.es_host.specs.Files.{IsWhole, file_in};
ghost use Rattle.es_host.specs.TokensAround.{AreInside, IsInside, begins_in, comments_in, is_in_pair, is_some_token};
ghost use Rattle.es_host.specs.TokensAround.{past_parentheses, token_after, token_before, tokens_before, tokens_from, tokens_in};

use crate::file::FileView;
use es_grammar::nodes_lie;
use es_text::{Comment, Span, Token, parts_lie, tokens_lie};

impl FileView<'_> {
    /// The tokens of the text, whose places rise.
    fn tokens(&self) -> &[Token]
        requires whole { IsWhole (file_in self.now) }
        ensures tokens { result.now ≡ (file_in self.now).parsed.tokens }
        ensures order { IsNonDecreasingBy (λ token. token.span.start) result.now }
        ensures inside { AreInside (file_in self.now) result.now }
    {
        nodes_lie();
        parts_lie();
        // A text is UTF-8, as its call says.
        let _text = self.source.text();
        self.parsed.tokens.as_slice()
    }

    /// The tokens that begin before the offset, in order. It takes time in the logarithm of the number of
    /// tokens, as the calls below do.
    pub fn tokens_before(&self, offset: u32) -> &[Token]
        requires whole { IsWhole (file_in self.now) }
        ensures tokens { result.now ≡ tokens_before (file_in self.now) offset }
        ensures inside { AreInside (file_in self.now) result.now }
    {
        let tokens = self.tokens();
        &tokens[..count_before(tokens, offset)]
    }

    /// The tokens that begin at the offset or behind it, in order. The last is the end of the text.
    pub fn tokens_from(&self, offset: u32) -> &[Token]
        requires whole { IsWhole (file_in self.now) }
        ensures tokens { result.now ≡ tokens_from (file_in self.now) offset }
        ensures inside { AreInside (file_in self.now) result.now }
    {
        let tokens = self.tokens();
        &tokens[count_before(tokens, offset)..]
    }

    /// The tokens that begin in the span, in order: where it is a node's, those of the node.
    pub fn tokens_in(&self, span: Span) -> &[Token]
        requires whole { IsWhole (file_in self.now) }
        ensures tokens { result.now ≡ tokens_in (file_in self.now) span }
        ensures inside { AreInside (file_in self.now) result.now }
    {
        let tokens = self.tokens();
        begun_in(tokens, span)
    }

    /// The last token that begins before the offset.
    pub fn token_before(&self, offset: u32) -> Option<Token>
        requires whole { IsWhole (file_in self.now) }
        ensures token { result ≡ token_before (file_in self.now) offset }
        ensures inside { IfSome result (λ token. IsInside (file_in self.now) token.span) }
    {
        nth_back(self.tokens_before(offset), 0)
    }

    /// The first token that begins at the offset or behind it.
    pub fn token_after(&self, offset: u32) -> Option<Token>
        requires whole { IsWhole (file_in self.now) }
        ensures token { result ≡ token_after (file_in self.now) offset }
        ensures inside { IfSome result (λ token. IsInside (file_in self.now) token.span) }
    {
        nth(self.tokens_from(offset), 0)
    }

    /// Whether `(` stands before the span and `)` behind it, once so many tokens are left out on both sides.
    /// Around a node, those are the parentheses around it, but for those that a statement or a call has.
    pub fn is_in_pair(&self, span: Span, left_out: usize) -> bool
        requires whole { IsWhole (file_in self.now) }
        ensures { result ≡ is_in_pair (file_in self.now) span left_out }
    {
        let open = nth_back(self.tokens_before(span.start), left_out);
        let close = nth(self.tokens_from(span.end), left_out);
        self.is_some_token(open, "(") && self.is_some_token(close, ")")
    }

    /// Whether there is a token, and it is this text.
    fn is_some_token(&self, token: Option<Token>, text: &str) -> bool
        requires { IfSome token (λ token. IsInside (file_in self.now) token.span) }
        ensures { result ≡ is_some_token (file_in self.now) text.now token }
    {
        match token {
            Some(token) => self.text_of(token.span) == text,
            None => false,
        }
    }

    /// The first token at the offset or behind it that isn't `)`: behind a node the token that follows it
    /// and the parentheses around it.
    pub fn past_parentheses(&self, offset: u32) -> Option<Token>
        requires whole { IsWhole (file_in self.now) }
        ensures token { result ≡ past_parentheses (file_in self.now) offset }
        ensures inside { IfSome result (λ token. IsInside (file_in self.now) token.span) }
    {
        for token in self.tokens_from(offset) {
            if !self.is_some_token(Some(*token), ")") {
                return Some(*token);
            }
        }
        None
    }

    /// The comments that begin in the span, in order.
    pub fn comments_in(&self, span: Span) -> &[Comment]
        requires whole { IsWhole (file_in self.now) }
        ensures { result.now ≡ comments_in (file_in self.now) span }
    {
        let comments = self.comments();
        begun_in(comments, span)
    }

    /// The comments of the text, whose places rise.
    fn comments(&self) -> &[Comment]
        requires whole { IsWhole (file_in self.now) }
        ensures comments { result.now ≡ (file_in self.now).parsed.comments }
        ensures order { IsNonDecreasingBy (λ comment. comment.span.start) result.now }
    {
        tokens_lie();
        // A text is UTF-8, as its call says.
        let _text = self.source.text();
        self.parsed.comments.as_slice()
    }

    /// The part of the text that the span names, without a copy.
    pub fn text_of(&self, span: Span) -> &str
        requires { IsInside (file_in self.now) span }
        ensures { result.now ≡ slice_range (text_bytes (file_in self.now).text) span.start span.end }
    {
        parts_lie();
        self.source.slice(span)
    }
}

/// The token at this index, from 0.
fn nth(tokens: &[Token], index: usize) -> Option<Token>
    ensures token { result ≡ slice_get tokens.now index }
    ensures each { (test : Span → Bool) → All (λ token. IsTrue (test token.span)) tokens.now
        → IfSome result (λ token. IsTrue (test token.span)) }
{
    tokens.get(index).copied()
}

/// The token at this index, counted from the last, from 0.
fn nth_back(tokens: &[Token], index: usize) -> Option<Token>
    ensures token { result ≡ slice_get (reverse tokens.now) index }
    ensures each { (test : Span → Bool) → All (λ token. IsTrue (test token.span)) tokens.now
        → IfSome result (λ token. IsTrue (test token.span)) }
{
    let last = tokens.len().checked_sub(1)?;
    nth(tokens, last.checked_sub(index)?)
}

/// What takes a part of a text.
trait Spanned {
    ghost place: { Self → Span };

    fn span(&self) -> Span
        ensures { result ≡ place self.now };
}

impl Spanned for Token {
    ghost place = { λ token. token.span };

    fn span(&self) -> Span {
        self.span
    }
}

impl Spanned for Comment {
    ghost place = { λ comment. comment.span };

    fn span(&self) -> Span {
        self.span
    }
}

/// Those of the items that begin in the span.
fn begun_in<T: Spanned>(items: &[T], span: Span) -> &[T]
    requires order { IsNonDecreasingBy (λ item. (T.place item).start) items.now }
    ensures { result.now ≡ filter (λ item. begins_in span (T.place item)) items.now }
{
    let from = &items[count_before(items, span.start)..];
    &from[..count_before(from, span.end)]
}

/// How many of the items begin before the offset.
fn count_before<T: Spanned>(items: &[T], offset: u32) -> usize
    requires order { IsNonDecreasingBy (λ item. (T.place item).start) items.now }
    ensures bound { result ≤ length items.now }
    ensures before { take result items.now ≡ filter (λ item. nat_lt (T.place item).start offset) items.now }
    ensures behind { drop result items.now ≡ filter (λ item. nat_le offset (T.place item).start) items.now }
{
    items.partition_point(
        |item: &T| -> bool
            ensures { result ≡ nat_lt (T.place item.now).start offset }
        { item.span().start < offset },
    )
}
