use crate::{Glob, GlobFault, glob_matches};
use std::alloc::Global;
use std::test::Fail;

// A line is a glob, the names that it matches behind ` + `, and those that it doesn't match behind ` - `, all with
// blanks between them. The values come by hand from the rules of `Glob`; those without braces, classes and `!` in
// odd places agree with the documentation of minimatch (with `dot`). Each name is a pair with its glob.
static MATCHES: [&str; 84] = [
    "a.js + a.js - b.js a.jsx xa.js a/a.js src/a.js",
    "*.js + a.js .js .a.js a.b.js - a.ts a.js.map src/a.js js",
    "* + a a.js .git - a/b a/b/c",
    "*a + a ba aa bba - b ab a/a",
    "a* + a ab a.js - ba b a/b",
    "a*b + ab axb axxb abb a.b - a b aba xab a/b",
    "*a*b* + ab xaxbx aabb ab.js - ba a b axx",
    "*a*a* + aa axa xaxaxa - a xax",
    "a*b*c + abc axbxc abbcc abcbc - acb abcx ac",
    "*.test.js + a.test.js .test.js a.test.test.js - a.js a.test.ts test.js",
    "*ab + ab aab abab xab - aba ba abb",
    "*aab + aaab aaaab aabaab - aaba abab",
    "** + a a/b a/b/c a.js .a/.b",
    "**/*.js + a.js src/a.js src/b/a.js .js - a.ts src/a.ts a.js/b",
    "**/a + a b/a b/c/a a/a - b a/b ba",
    "**/a/** + a a/b b/a b/a/c a/a/a - b b/c",
    "a/** + a a/b a/b/c a/.b - b b/a ab ab/c",
    "a/**/b + a/b a/x/b a/x/y/b a/b/b - a b a/bb a/b/c x/a/b",
    "a/*/b + a/x/b a/.x/b - a/b a/x/y/b",
    "a/*/ + a/b/c a/b/c/d - a/b a",
    "**/a/**/b + a/b x/a/b a/x/b x/a/y/b a/a/b/b - a b/a a/b/c",
    "**/**/a + a b/a b/c/a - b a/b",
    "a/**/**/b + a/b a/x/b a/x/y/b - a b",
    "**/*.test.js + a.test.js b/c.test.js - a.js test.js",
    "**/a/*/b/** + a/x/b a/x/b/c z/a/x/b a/a/x/b - a/b a/x/y/b",
    "**/x/x/y + x/x/y x/x/x/y a/x/x/y - x/y x/x/x x/x/y/z",
    "a** + a ab abc - a/b b",
    "**a + a ba - b/a",
    "a/**b + a/b a/xb - a/x/b",
    "*** + a abc - a/b",
    "? + a . é 😀 - ab a/b",
    "?? + ab é😀 - a abc a/b a/",
    "a?c + abc a.c a?c - ac abbc a/c",
    "?*.js + a.js ab.js - .js",
    "[abc] + a b c - d ab A",
    "[a-c] + a b c - d - -a",
    "[a-]x + ax -x - bx x",
    "[-a]x + ax -x - bx",
    "[a-c-e]x + ax bx cx -x ex - dx",
    "[z-a] - z a m - y",
    "[!z-a] + z a - za",
    "[!a] + b A . ! - a ab a/",
    "[!a-c]x + dx Ax -x - ax bx cx x",
    "[a!] + a ! - b",
    "[!!] + a b - ! aa",
    "[^a] + ^ a - b",
    "[*] + * - a **",
    "[?] + ? - a",
    "[{] + { - a",
    "[a,b] + a b , - ab",
    "[a/b]c + ac bc - /c a/c",
    "a[/]b - a/b ab a[/]b",
    "[\\]a + \\a - a ]a",
    "[é-ü] + é ü ö - e u",
    "[[]a + [a - a ]a",
    "x] + x] - x",
    "x} + x} - x",
    "a,b + a,b - a b",
    "{a,b} + a b - c ab a,b {a,b}",
    "{a,b}.js + a.js b.js - c.js a.jsb.js",
    "*.{js,mjs,cjs} + a.js a.mjs b.cjs - a.ts a.js.ts a.",
    "{a,b}{c,d} + ac ad bc bd - ab cd a acd",
    "{a} + a - {a} b",
    "a{} + a - a{}",
    "a{,b} + a ab - b a,b",
    "{a,,b}c + ac c bc - a abc",
    "{src,test}/**/*.js + src/a.js test/b/c.js src/a/b/c.js - lib/a.js src/a.ts",
    "{a/b,c}/d + a/b/d c/d - a/d b/d a/c/d",
    "{**,a}/b + b x/b a/b x/y/b - a b/c",
    "{[a,b],c} + a b , c - [a d",
    "{a\\,b,c} + a,b c - a b",
    "{a\\}b,c} + a}b c - a b}",
    "{*,?}.js + a.js ab.js .js - a.ts",
    "\\* + * - a \\*",
    "a\\bc + abc - a\\bc ac",
    "a\\\\ + a\\ - a a\\\\",
    "\\!a + !a - a",
    "a\\/b + a/b - ab a\\/b",
    "\\{a,b} + {a,b} - a b",
    "./a.js + a.js - ./a.js b.js",
    "./**/*.js + a.js src/a.js - a.ts",
    "././a + ./a - a",
    "src/ + src/a src/a/b src/.a - src a src.js lib/src/a",
    "**/ + a a/b .git",
];

// The same with a `!`, a slash at an end, and parts that are empty.
static MORE_MATCHES: [&str; 16] = [
    "!a.js + b.js src/a.js - a.js",
    "!*.js + a.ts src/a.js - a.js b.js",
    "!**/*.js + a.ts src/a.css - a.js src/a.js",
    "!!a + a b - !a",
    "!./a + b ./a - a",
    "!src/ + src a - src/a src/b/c",
    "!{a,b} + c ab - a b",
    "!\\!a + a - !a",
    "**/node_modules/ + node_modules/a a/node_modules/b/c - node_modules a/node_modules node_modules.js",
    ".git/ + .git/config .git/a/b - .git a/.git/b git/a",
    "a//b - a/b a//b a a/x/b",
    "/a - a /a b/a",
    "/ - a a/b",
    "//a - a a/a",
    "a/b/ + a/b/c a/b/c/d - a/b a/c/d",
    "{a,b}/ + a/x b/x/y - a b c/x",
];

/// The first name of the line that the glob treats otherwise than it says.
fn wrong_name<'a>(alloc: Global, line: &'a str) -> Result<Option<&'a str>, Fail> {
    let mut words = line.split(' ');
    let Some(text) = words.next() else {
        return Ok(None);
    };
    let glob = Glob::read(alloc, text)?;
    let mut matched = true;
    for word in words {
        if word == "+" {
            matched = true;
        } else if word == "-" {
            matched = false;
        } else if glob_matches(&glob, word) != matched {
            return Ok(Some(word));
        }
    }
    Ok(None)
}

#[test]
fn globs_match_names(rt: HostRuntime) -> Result<(), Fail> {
    let alloc = rt.alloc();
    for line in &MATCHES {
        assert_eq!(rt; (*line, wrong_name(alloc, line)?), (*line, None));
    }
    for line in &MORE_MATCHES {
        assert_eq!(rt; (*line, wrong_name(alloc, line)?), (*line, None));
    }
    Ok(())
}

// What is no glob, and what is one, by the rules of `Glob::read`.
static BAD: [&str; 40] = [
    "",
    "!",
    "./",
    "!./",
    "[",
    "[a",
    "a[",
    "[]",
    "[!]",
    "[]a]",
    "[!]a]",
    "a[]",
    "{",
    "{a",
    "a{b",
    "{a,b",
    "{a{b}}",
    "{{a}}",
    "{a,{b,c}}",
    "{a,b}{",
    "{a}{b",
    "\\",
    "a\\",
    "{a\\",
    "[a\\",
    "a\\\\\\",
    "@(a)",
    "+(a)",
    "!(a)",
    "?(a)",
    "*(a)",
    "a*(b)",
    "\\@(a)",
    "[@(]",
    "{a,@(b)}",
    "a!(b",
    "{[}",
    "{[}]",
    "[{",
    "{a\\}",
];

static GOOD: [&str; 28] = [
    "(a)", "a(b)", "()", "@", "a@b(c", "-(a)", "[(]", "]", "}", ",", "a\\\\", "{}", "!{}", "!a",
    "...", ".", "..", "./.", "/", "!!", "!/", "[!!]", "[a]]", "{a}}", "{[{]}", "{\\{}", "\\[",
    "[[]",
];

#[test]
fn bad_globs_are_refused(rt: HostRuntime) -> Result<(), Fail> {
    let alloc = rt.alloc();
    for text in &BAD {
        let refused = matches!(Glob::read(alloc, text), Err(GlobFault::BadGlob));
        assert_eq!(rt; (*text, refused), (*text, true));
    }
    for text in &GOOD {
        let read = Glob::read(alloc, text).is_ok();
        assert_eq!(rt; (*text, read), (*text, true));
    }
    Ok(())
}

/// The text so often, behind another one.
fn repeated(alloc: Global, front: &str, part: &str, times: u32) -> Result<String, Fail> {
    let mut text = String::from_str(alloc, front)?;
    for _ in 0..times {
        text.push_str(part)?;
    }
    Ok(text)
}

// A front, a part, how often that stands behind it, and whether the whole is a glob: at most 1,000 characters and
// at most 64 patterns.
static LIMITS: [(&str, &str, u32, bool); 12] = [
    ("", "a", 1000, true),
    ("", "a", 1001, false),
    ("", "é", 1000, true),
    ("!", "a", 999, true),
    ("!", "a", 1000, false),
    ("./", "a", 999, false),
    ("", "{a,b}", 6, true),
    ("", "{a,b}", 7, false),
    ("", "{a}", 300, true),
    ("{a,b,c,d}", "{a,b,c,d}", 2, true),
    ("{a,b,c,d,e}", "{a,b,c,d}", 2, false),
    ("{a,b,c,d,e,f,g,h,i}", "{a,b,c,d,e,f,g,h}", 1, false),
];

#[test]
fn long_globs_are_refused(rt: HostRuntime) -> Result<(), Fail> {
    let alloc = rt.alloc();
    for (front, part, times, read) in &LIMITS {
        let text = repeated(alloc, front, part, *times)?;
        assert_eq!(rt;
            (*part, *times, Glob::read(alloc, text.as_str()).is_ok()),
            (*part, *times, *read)
        );
    }
    let commas = repeated(alloc, "{", ",", 63)?;
    assert_eq!(rt;
        Glob::read(alloc, repeated(alloc, commas.as_str(), "}", 1)?.as_str()).is_ok(),
        true
    );
    let commas = repeated(alloc, "{", ",", 64)?;
    assert_eq!(rt;
        Glob::read(alloc, repeated(alloc, commas.as_str(), "}", 1)?.as_str()).is_ok(),
        false
    );
    Ok(())
}

#[test]
fn matching_is_linear(rt: HostRuntime) -> Result<(), Fail> {
    let alloc = rt.alloc();
    let stars = repeated(alloc, "", "*a", 100)?;
    let glob = Glob::read(alloc, stars.as_str())?;
    assert_eq!(rt;
        glob_matches(&glob, repeated(alloc, "b", "a", 200)?.as_str()),
        true
    );
    assert_eq!(rt;
        glob_matches(&glob, repeated(alloc, "b", "a", 99)?.as_str()),
        false
    );
    let folders = repeated(alloc, "", "**/a/", 50)?;
    let glob = Glob::read(alloc, folders.as_str())?;
    assert_eq!(rt;
        glob_matches(&glob, repeated(alloc, "a", "/a", 50)?.as_str()),
        true
    );
    assert_eq!(rt;
        glob_matches(&glob, repeated(alloc, "a", "/a", 49)?.as_str()),
        false
    );
    Ok(())
}
