ghost use Rattle.std.specs.Prelude.{◌≡◌, ◌≤◌, ◌<◌, length, IfOk, IfErr, OnOk, slice_index, slice_range, string_bytes};
ghost use Rattle.std.specs.List.Sorted.{IsNonDecreasing};
ghost use Rattle.std.specs.Str.{chars, encode_utf8_all, IsAscii, IsCharBoundary};
ghost use Rattle.bstr.specs.Utf8.{lossy_chars};
ghost use Rattle.es_text.specs.LineStarts.{is_plain_byte, line_starts, IsLineAt, IsLineStep};
ghost use Rattle.es_text.specs.SourceFaults.{most_bytes, TellsLength};
ghost use Rattle.es_text.specs.Texts.{ends_line, IsPlain, place_at, text_bytes, text_of, units_at};

use crate::memory::NoMemory;
use crate::span::{Place, Span};
use crate::unit_counts::UnitCounts;
use bstr::ByteSlice;
use std::alloc::Global;
use std::borrow::CowStr;
use std::marker::Model;

/// The most bytes of a file that is read.
pub const MOST_BYTES: usize = 2_097_152;

/// The most bytes of a source's text: U+FFFD takes three, and may stand for one byte of the file.
pub const MOST_TEXT_BYTES: usize = 6_291_456;

/// Why a file's bytes are no source.
#[derive(Clone, Copy, Debug, PartialEq, Eq)]
pub enum SourceFault {
    /// The file has more than `MOST_BYTES` bytes: this many.
    TooLong { bytes: u64 },
    /// Out of memory.
    NoMemory,
}

impl From<NoMemory> for SourceFault {
    ghost use Rattle.std.specs.Prelude.{◌≡◌};
    ghost use Rattle.es_text.specs.declared.source.SourceFault.TheVariants as fault;

    ghost from_gives = { λ _ made. made ≡ fault.NoMemory };

    fn from(_error: NoMemory) -> SourceFault {
        SourceFault::NoMemory
    }
}

/// The text of a file, which finds the place of an offset and the UTF-16 units before it fast.
///
/// Contracts see its characters, and whether a byte order mark stood in front of them. An offset
/// counts bytes of the text's UTF-8, without the mark.
#[derive(Drop, Debug)]
pub struct Source {
    text: String,
    marked: bool,
    starts: Vec<u32>,
    counts: UnitCounts,
}

impl Model for Source {
    ghost use Rattle.std.specs.Prelude.{◌≡◌, ◌≤◌, length};
    ghost use Rattle.std.specs.Str.{chars};
    ghost use Rattle.std.specs.String.{string_bytes};
    ghost use Rattle.es_text.specs.declared.source.TheConstants.{MOST_TEXT_BYTES};
    ghost use Rattle.es_text.specs.LineStarts.{line_starts};
    ghost use Rattle.es_text.specs.Texts.{Text};
    ghost use Rattle.es_text.specs.UnitCounts.{CountsUnits};

    ghost Value = { Text };

    ghost view = { λ source.
        record { characters = chars (string_bytes source.text); marked = source.marked } };

    ghost invariant = { λ source.
        (source.starts.items ≡ line_starts (chars (string_bytes source.text)))
        × (length (string_bytes source.text) ≤ MOST_TEXT_BYTES)
        × CountsUnits (string_bytes source.text) source.counts };
}

impl Source {
    /// The text of a file. U+FFFD stands for each maximal piece of it that is no UTF-8 (Unicode, 3.9),
    /// and one leading byte order mark is taken off.
    ///
    /// `TooLong` where the file has more than `MOST_BYTES` bytes. It takes time in their number, and
    /// memory for the text.
    pub fn new(alloc: Global, bytes: &[u8]) -> Result<Source, SourceFault>
        ensures ok { IfOk result (λ source. source ≡ text_of bytes.now) }
        ensures ascii { IfOk result (λ source. IsAscii bytes.now → IsPlain bytes.now source) }
        ensures short { OnOk result (length bytes.now ≤ most_bytes) }
        ensures fault { IfErr result (TellsLength (length bytes.now)) }
    {
        if bytes.len() > MOST_BYTES {
            return Err(SourceFault::TooLong {
                bytes: bytes.len() as u64,
            });
        }
        Ok(Source::read(alloc, bytes)?)
    }

    /// This text as it is, also where it begins with U+FEFF: no mark stands in front of it.
    ///
    /// `TooLong` where it has more than `MOST_BYTES` bytes. It takes time in their number, and memory
    /// for the text.
    pub fn from_text(alloc: Global, text: &str) -> Result<Source, SourceFault>
        ensures ok { IfOk result (IsPlain (chars text.now)) }
        ensures bytes { IfOk result (λ source. text_bytes source ≡ text.now) }
        ensures short { OnOk result (length text.now ≤ most_bytes) }
        ensures fault { IfErr result (TellsLength (length text.now)) }
    {
        if text.len() > MOST_BYTES {
            return Err(SourceFault::TooLong {
                bytes: text.len() as u64,
            });
        }
        Ok(Source::copied(alloc, text)?)
    }

    fn copied(alloc: Global, text: &str) -> Result<Source, NoMemory>
        requires { length text.now ≤ MOST_TEXT_BYTES }
        ensures { IfOk result (IsPlain (chars text.now)) }
    {
        let text = String::from_str(alloc, text)?;
        Source::of(alloc, text, false)
    }

    fn read(alloc: Global, bytes: &[u8]) -> Result<Source, NoMemory>
        requires { length bytes.now ≤ MOST_BYTES }
        ensures { IfOk result (λ source. source ≡ text_of bytes.now) }
    {
        let text = decode(alloc, bytes)?;
        match text.as_str().strip_prefix('\u{feff}') {
            Some(rest) => {
                let rest = String::from_str(alloc, rest)?;
                Source::of(alloc, rest, true)
            }
            None => Source::of(alloc, text, false),
        }
    }

    fn of(alloc: Global, text: String, marked: bool) -> Result<Source, NoMemory>
        requires { length (string_bytes text) ≤ MOST_TEXT_BYTES }
        ensures { IfOk result (λ source.
            source ≡ record { characters = chars (string_bytes text); marked = marked }) }
    {
        let starts = line_starts(alloc, text.as_str())?;
        let counts = UnitCounts::of(alloc, text.as_str())?;
        Ok(Source {
            text,
            marked,
            starts,
            counts,
        })
    }

    /// The text, in UTF-8.
    pub fn text(&self) -> &str
        ensures bytes { result.now ≡ text_bytes self.now }
        ensures characters { chars result.now ≡ self.now.characters }
        ensures bound { length result.now ≤ MOST_TEXT_BYTES }
        ensures start { IsCharBoundary (text_bytes self.now) 0 }
    {
        self.text.as_str()
    }

    /// Whether a byte order mark stood in front of the text.
    pub fn marked(&self) -> bool
        ensures { result ≡ self.now.marked }
    {
        self.marked
    }

    /// The part of the text that the span names, without a copy.
    pub fn slice(&self, span: Span) -> &str
        requires order { span.start ≤ span.end }
        requires start { IsCharBoundary (text_bytes self.now) span.start }
        requires end { IsCharBoundary (text_bytes self.now) span.end }
        ensures { result.now ≡ slice_range (text_bytes self.now) span.start span.end }
    {
        &self.text()[span.start as usize..span.end as usize]
    }

    /// The place of the character that begins at this offset, or of the text's end.
    ///
    /// Lines end at LF, CR, U+2028 and U+2029 (ECMA-262, 12.3), and CR LF is one end. It costs a
    /// binary search over the lines, and a count over 255 bytes at most, twice.
    pub fn place(&self, at: u32) -> Place
        requires { IsCharBoundary (text_bytes self.now) at }
        ensures { result ≡ place_at self.now.characters at }
    {
        let line = line_at(self.starts.as_slice(), at);
        let start = self.starts[line] as usize;
        let text = self.text.as_str();
        let units = self.counts.count_before(text, at as usize);
        let units_before_line = self.counts.count_before(text, start);
        Place {
            line: line as u32 + 1,
            column: (units - units_before_line) as u32 + 1,
        }
    }

    /// How many UTF-16 code units stand before the character that begins at this offset, or before
    /// the text's end.
    ///
    /// In ASCII it's the offset itself, and in other texts costs a count over 255 bytes at most.
    pub fn units(&self, at: u32) -> u32
        requires { IsCharBoundary (text_bytes self.now) at }
        ensures units { result ≡ units_at self.now.characters at }
        ensures bound { result ≤ at }
    {
        self.counts.count_before(self.text.as_str(), at as usize) as u32
    }
}

/// The bytes as text, with U+FFFD for each piece that is no UTF-8.
fn decode(alloc: Global, bytes: &[u8]) -> Result<String, NoMemory>
    ensures { IfOk result (λ text. string_bytes text ≡ encode_utf8_all (lossy_chars bytes.now)) }
{
    let text = match bytes.to_str_lossy(alloc)? {
        CowStr::Borrowed(text) => String::from_str(alloc, text)?,
        CowStr::Owned(text) => text,
    };
    Ok(text)
}

/// The offsets at which the lines of the text start.
fn line_starts(alloc: Global, text: &str) -> Result<Vec<u32>, NoMemory>
    requires { length text.now ≤ MOST_TEXT_BYTES }
    ensures { IfOk result (λ starts. starts.items ≡ line_starts (chars text.now)) }
{
    let mut starts = Vec::new(alloc);
    starts.push(0)?;
    let mut at = 0;
    while at < text.len() {
        let (end, ends_line) = character_at(text, at);
        at = end;
        if ends_line {
            starts.push(at as u32)?;
        }
    }
    Ok(starts)
}

/// The end of the character that begins at this offset, and whether a line ends with it.
fn character_at(text: &str, at: usize) -> (usize, bool)
    requires boundary { IsCharBoundary text.now at }
    requires within { at < length text.now }
    ensures { IsLineStep text.now at result.0 result.1 }
{
    if is_plain(text.as_bytes()[at]) {
        return (at + 1, false);
    }
    let mut rest = text[at..].chars();
    match rest.next() {
        Some(c) => (at + c.len_utf8(), is_line_end(c, rest.as_str())),
        None => unreachable!(),
    }
}

/// Whether the byte is a character of ASCII that ends no line.
fn is_plain(byte: u8) -> bool
    ensures { result ≡ is_plain_byte byte }
{
    byte < 128 && byte != 10 && byte != 13
}

/// Whether a line ends behind the character, with this text behind it.
fn is_line_end(c: char, following: &str) -> bool
    ensures { result ≡ ends_line c (chars following.now) }
{
    match c {
        '\r' => !following.starts_with('\n'),
        '\n' | '\u{2028}' | '\u{2029}' => true,
        _ => false,
    }
}

/// The line of this offset, from 0, by the offsets at which the lines start.
fn line_at(starts: &[u32], at: u32) -> usize
    requires rise { IsNonDecreasing starts.now }
    requires some { 0 < length starts.now }
    requires first { slice_index starts.now 0 ≤ at }
    ensures { IsLineAt starts.now result at }
{
    starts.partition_point(|start| *start <= at) - 1
}
