//! Texts with fixes, and what a pass makes of them.
/// The span of a fix and its text.
pub type Change = (u32, u32, &'static str);

// Fixes, the text that a pass of them makes, and which are taken, by the rule that is told in the README.
pub static FIXES: [(&str, &[Change], &str, &str); 42] = [
    ("abcdef", &[], "abcdef", ""),
    ("abcdef", &[(0, 1, "x")], "xbcdef", "Y"),
    ("abcdef", &[(0, 0, "x")], "xabcdef", "Y"),
    ("abcdef", &[(6, 6, "x")], "abcdefx", "Y"),
    ("abcdef", &[(0, 6, "")], "", "Y"),
    ("abcdef", &[(1, 3, "")], "adef", "Y"),
    ("abcdef", &[(0, 1, "x"), (1, 2, "y")], "xbcdef", "YN"),
    ("abcdef", &[(0, 1, "x"), (2, 3, "y")], "xbydef", "YY"),
    ("abcdef", &[(2, 3, "y"), (0, 1, "x")], "xbydef", "YY"),
    ("abcdef", &[(0, 3, "x"), (1, 2, "y")], "xdef", "YN"),
    ("abcdef", &[(1, 2, "y"), (0, 3, "x")], "xdef", "NY"),
    ("abcdef", &[(0, 0, "x"), (0, 0, "y")], "xabcdef", "YN"),
    ("abcdef", &[(0, 0, "x"), (0, 1, "y")], "xabcdef", "YN"),
    ("abcdef", &[(0, 1, "y"), (0, 0, "x")], "xabcdef", "NY"),
    ("abcdef", &[(0, 0, "x"), (1, 1, "y")], "xaybcdef", "YY"),
    ("abcdef", &[(1, 1, "x"), (1, 2, "y")], "axbcdef", "YN"),
    (
        "abcdef",
        &[(0, 2, "x"), (2, 4, "y"), (4, 6, "z")],
        "xcdz",
        "YNY",
    ),
    (
        "abcdef",
        &[(0, 2, "x"), (1, 5, "y"), (3, 4, "z")],
        "xczef",
        "YNY",
    ),
    (
        "abcdef",
        &[(5, 6, "x"), (3, 4, "y"), (1, 2, "z")],
        "azcyex",
        "YYY",
    ),
    ("abcdef", &[(0, 1, "xx"), (0, 1, "yy")], "xxbcdef", "YN"),
    ("abcdef", &[(0, 6, "x"), (6, 6, "y")], "x", "YN"),
    ("abcdef", &[(0, 5, "x"), (6, 6, "y")], "xfy", "YY"),
    ("", &[(0, 0, "x")], "x", "Y"),
    ("", &[(0, 0, "x"), (0, 0, "y")], "x", "YN"),
    ("größe", &[(2, 4, "o")], "große", "Y"),
    ("größe", &[(4, 6, "ss")], "grösse", "Y"),
    ("größe", &[(2, 4, "oe"), (6, 7, "E")], "groeßE", "YY"),
    ("a😀b", &[(1, 5, "")], "ab", "Y"),
    ("a\nb", &[(1, 2, "\r\n")], "a\r\nb", "Y"),
    ("abc", &[(1, 2, "b")], "abc", "Y"),
    ("abc", &[(3, 3, ";")], "abc;", "Y"),
    ("abc", &[(2, 3, "z"), (2, 2, "y")], "abyc", "NY"),
    (
        "abcdefgh",
        &[(0, 1, "1"), (2, 3, "2"), (4, 5, "3"), (6, 7, "4")],
        "1b2d3f4h",
        "YYYY",
    ),
    (
        "abcdefgh",
        &[(6, 7, "4"), (4, 5, "3"), (2, 3, "2"), (0, 1, "1")],
        "1b2d3f4h",
        "YYYY",
    ),
    (
        "abcdefgh",
        &[(0, 4, "x"), (4, 4, "y"), (5, 5, "z")],
        "xezfgh",
        "YNY",
    ),
    ("abcdefgh", &[(1, 7, ""), (0, 1, "x")], "xbcdefgh", "NY"),
    ("abcdefgh", &[(1, 7, ""), (0, 0, "x")], "xah", "YY"),
    ("abcdefgh", &[(3, 3, ""), (3, 3, "")], "abcdefgh", "YN"),
    ("abcd", &[(0, 4, "dcba")], "dcba", "Y"),
    ("abcd", &[(0, 1, ""), (2, 3, ""), (3, 4, "")], "bd", "YYN"),
    ("\u{feff}a", &[(0, 3, "")], "a", "Y"),
    (
        "abcd",
        &[(2, 4, "x"), (2, 3, "y"), (2, 2, "z"), (0, 1, "w")],
        "wbzcd",
        "NNYY",
    ),
];

// Fixes of a text of the most bytes that a file may have, how the new text begins, and which are taken.
pub static LONG: [(&[Change], &str, &str); 4] = [
    (&[(0, 0, "b")], "aaa", "N"),
    (&[(0, 1, "b")], "baa", "Y"),
    (&[(0, 0, "bb"), (5, 7, "")], "bbaaaaaa", "YY"),
    (&[(0, 0, "bb"), (5, 6, "")], "aaa", "NN"),
];
