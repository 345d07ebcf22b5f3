use crate::{Items, Place, Source, SourceFault, Span, Txt, push_at};
use std::alloc::{AllocError, Global};
use std::test::Fail;

/// The place as `line:column`, if a character begins at the offset or the text ends there.
fn place_at(alloc: Global, source: &Source, at: u32) -> Result<String, AllocError> {
    if !source.text().is_char_boundary(at as usize) {
        return format!(in alloc; "inside a character");
    }
    let Place { line, column } = source.place(at);
    format!(in alloc; "{line}:{column}")
}

/// The UTF-16 units before the offset, or `None` inside a character.
fn units_at(source: &Source, at: u32) -> Option<u32> {
    if source.text().is_char_boundary(at as usize) {
        Some(source.units(at))
    } else {
        None
    }
}

fn part(source: &Source, start: u32, end: u32) -> Option<&str> {
    let text = source.text();
    let on_boundaries = text.is_char_boundary(start as usize)
        && text.is_char_boundary(end as usize);
    if start <= end && on_boundaries {
        Some(source.slice(Span { start, end }))
    } else {
        None
    }
}

#[test]
fn lists_and_texts(rt: HostRuntime) -> Result<(), Fail> {
    let mut lists = Items::new(rt.alloc());
    lists.push(Items::from_vec(vec![in rt.alloc(); 1, 2]?))?;
    lists.push(Items::new(rt.alloc()))?;
    push_at(&mut lists, 1, 7)?;
    assert_eq!(rt; lists.len(), 2);
    assert_eq!(rt; lists.as_slice()[0].as_slice(), [1, 2].as_slice());
    assert_eq!(rt; lists.into_vec()[1].as_slice(), [7].as_slice());
    let word = Txt::new(rt.alloc(), "größe")?;
    assert_eq!(rt; word.as_str(), "größe");
    assert_eq!(rt; word.copy(rt.alloc())?.as_str(), "größe");
    Ok(())
}

const LINES: &[u8] = b"ab\ncd\r\nef\rgh";

const WIDE: &[u8] = b"\x22\xff\xf0\x9f\x98\x80\x22; debugger\n";

const SEPARATORS: &[u8] = b"a\xe2\x80\xa8b\xe2\x80\xa9c";

static PLACES: [(&[u8], u32, &str); 19] = [
    (LINES, 0, "1:1"),
    (LINES, 2, "1:3"),
    (LINES, 3, "2:1"),
    (LINES, 5, "2:3"),
    (LINES, 6, "2:4"),
    (LINES, 7, "3:1"),
    (LINES, 9, "3:3"),
    (LINES, 10, "4:1"),
    (LINES, 12, "4:3"),
    (b"a\n", 2, "2:1"),
    (b"", 0, "1:1"),
    (b"\0\t\tx", 3, "1:4"),
    (WIDE, 4, "1:3"),
    (WIDE, 5, "inside a character"),
    (WIDE, 8, "1:5"),
    (WIDE, 11, "1:8"),
    (WIDE, 20, "2:1"),
    (SEPARATORS, 4, "2:1"),
    (SEPARATORS, 8, "3:1"),
];

#[test]
fn places(rt: HostRuntime) -> Result<(), Fail> {
    for &(bytes, at, want) in &PLACES {
        let source = Source::new(rt.alloc(), bytes)?;
        let place = place_at(rt.alloc(), &source, at)?;
        assert_eq!(rt; place.as_str(), want, "at {at}");
    }
    Ok(())
}

static UNITS: [(&[u8], u32, Option<u32>); 13] = [
    (b"", 0, Some(0)),
    (b"ab\r\ncd", 0, Some(0)),
    (b"ab\r\ncd", 4, Some(4)),
    (b"ab\r\ncd", 6, Some(6)),
    (b"\xef\xbb\xbfa\xf0\x9f\x98\x80", 0, Some(0)),
    (b"\xef\xbb\xbfa\xf0\x9f\x98\x80", 1, Some(1)),
    (b"\xef\xbb\xbfa\xf0\x9f\x98\x80", 5, Some(3)),
    (b"\xc3\xa9\xe2\x80\xa8\xe2\x82\xac", 2, Some(1)),
    (b"\xc3\xa9\xe2\x80\xa8\xe2\x82\xac", 8, Some(3)),
    (WIDE, 4, Some(2)),
    (WIDE, 5, None),
    (WIDE, 8, Some(4)),
    (WIDE, 20, Some(16)),
];

#[test]
fn units(rt: HostRuntime) -> Result<(), Fail> {
    for &(bytes, at, want) in &UNITS {
        let source = Source::new(rt.alloc(), bytes)?;
        assert_eq!(rt; units_at(&source, at), want, "at {at}");
    }
    Ok(())
}

#[test]
fn long_lines(rt: HostRuntime) -> Result<(), Fail> {
    let mut bytes = vec![in rt.alloc(); b'a'; 1_000]?;
    let plain = Source::new(rt.alloc(), bytes.as_slice())?;
    let place = place_at(rt.alloc(), &plain, 900)?;
    assert_eq!(rt; place.as_str(), "1:901");
    bytes.extend_from_slice(b"\xf0\x9f\x98\x80;\xe2\x80\xa8;")?;
    let mixed = Source::new(rt.alloc(), bytes.as_slice())?;
    let places = [
        (767, "1:768"),
        (768, "1:769"),
        (1_004, "1:1003"),
        (1_009, "2:2"),
    ];
    for (at, want) in places {
        let place = place_at(rt.alloc(), &mixed, at)?;
        assert_eq!(rt; place.as_str(), want, "at {at}");
    }
    assert_eq!(rt; units_at(&mixed, 1_024), None);
    assert_eq!(rt; units_at(&mixed, 1_009), Some(1_005));
    Ok(())
}

static TEXTS: [(&[u8], &str, bool); 4] = [
    (b"\xef\xbb\xbfvar a;", "var a;", true),
    (b"\xef\xbb\xbf\xef\xbb\xbf", "\u{feff}", true),
    (b"\0\tx", "\0\tx", false),
    (b"\xff", "\u{fffd}", false),
];

#[test]
fn texts(rt: HostRuntime) -> Result<(), Fail> {
    for &(bytes, text, marked) in &TEXTS {
        let source = Source::new(rt.alloc(), bytes)?;
        assert_eq!(rt; source.text(), text);
        assert_eq!(rt; source.marked(), marked);
    }
    let source = Source::new(rt.alloc(), b"let x = 1;")?;
    assert_eq!(rt; part(&source, 4, 5), Some("x"));
    assert_eq!(rt; part(&source, 8, 10), Some("1;"));
    Ok(())
}

#[test]
fn lengths(rt: HostRuntime) -> Result<(), Fail> {
    let mut bytes = vec![in rt.alloc(); b'a'; 2_097_152]?;
    let longest = Source::new(rt.alloc(), bytes.as_slice())?;
    assert_eq!(rt; longest.text().len(), 2_097_152);
    bytes.push(b'a')?;
    let fault = Source::new(rt.alloc(), bytes.as_slice()).err();
    assert_eq!(rt; fault, Some(SourceFault::TooLong { bytes: 2_097_153 }));
    let again = Source::from_text(rt.alloc(), longest.text())?;
    assert_eq!(rt; again.text(), longest.text());
    let mut text = String::from_str(rt.alloc(), longest.text())?;
    text.push('a')?;
    let fault = Source::from_text(rt.alloc(), text.as_str()).err();
    assert_eq!(rt; fault, Some(SourceFault::TooLong { bytes: 2_097_153 }));
    let marked = Source::from_text(rt.alloc(), "\u{feff}a\n")?;
    assert_eq!(rt; marked.text(), "\u{feff}a\n");
    assert_eq!(rt; marked.marked(), false);
    assert_eq!(rt; place_at(rt.alloc(), &marked, 4)?.as_str(), "1:3");
    Ok(())
}

static DECODED: [(&[u8], &str); 22] = [
    (b"\xc3\xa9", "\u{e9}"),
    (b"\xc0\x80", "\u{fffd}\u{fffd}"),
    (b"\xc1\xbf", "\u{fffd}\u{fffd}"),
    (b"\xc3A", "\u{fffd}A"),
    (b"\x80\xbf", "\u{fffd}\u{fffd}"),
    (b"\xff\xfe", "\u{fffd}\u{fffd}"),
    (b"\xe2\x82", "\u{fffd}"),
    (b"\xe2\x82\xac", "\u{20ac}"),
    (b"\xe2(\xa1", "\u{fffd}(\u{fffd}"),
    (b"\xe0\x80\x80", "\u{fffd}\u{fffd}\u{fffd}"),
    (b"\xed\xa0\x80", "\u{fffd}\u{fffd}\u{fffd}"),
    (b"\xed\x9f\xbf", "\u{d7ff}"),
    (b"\xf0\x9f\x98", "\u{fffd}"),
    (b"\xf0\x9f\x98\x80", "\u{1f600}"),
    (b"\xf0\x9fA", "\u{fffd}A"),
    (b"\xf0\x80\x80\x80", "\u{fffd}\u{fffd}\u{fffd}\u{fffd}"),
    (b"\xf4\x8f\xbf\xbf", "\u{10ffff}"),
    (b"\xf4\x90\x80\x80", "\u{fffd}\u{fffd}\u{fffd}\u{fffd}"),
    (b"\xf5\x80", "\u{fffd}\u{fffd}"),
    (b"\xe2\x82\xe2\x82\xac", "\u{fffd}\u{20ac}"),
    (b"\xef\xbb", "\u{fffd}"),
    (b"\xef\xbb\xbf\xef\xbb", "\u{fffd}"),
];

/// The values are those of Python's `bytes.decode('utf-8', 'replace')`, without a leading mark.
#[test]
fn bytes_that_are_no_utf8(rt: HostRuntime) -> Result<(), Fail> {
    for byte in 0..=255u8 {
        let source = Source::new(rt.alloc(), &[byte])?;
        let want = if byte < 128 { byte as char } else { '\u{fffd}' };
        assert_eq!(rt; source.text().chars().next(), Some(want));
        assert_eq!(rt; source.text().len(), want.len_utf8());
    }
    for &(bytes, text) in &DECODED {
        let source = Source::new(rt.alloc(), bytes)?;
        assert_eq!(rt; source.text(), text);
    }
    Ok(())
}

/// A number that tells texts apart.
fn sum_of(text: &str) -> u64 {
    let mut sum: u64 = 0;
    for byte in text.bytes() {
        sum = sum.wrapping_mul(31).wrapping_add(byte as u64);
    }
    sum
}

/// All pairs of bytes, an `a` behind each. The length and the sum are those of Python's
/// `bytes.decode('utf-8', 'replace')`.
#[test]
fn pairs_of_bytes(rt: HostRuntime) -> Result<(), Fail> {
    let mut bytes = Vec::new(rt.alloc());
    for first in 0..=255u8 {
        for second in 0..=255u8 {
            bytes.extend_from_slice(&[first, second, b'a'])?;
        }
    }
    let source = Source::new(rt.alloc(), bytes.as_slice())?;
    assert_eq!(rt; source.text().len(), 316_352);
    assert_eq!(rt; sum_of(source.text()), 4_003_403_394_162_441_024);
    Ok(())
}
