//! Tables of results with the texts of their reports.
//!
//! A result is given by lines: `= NAME`, then a line for each message, `LINE:COLUMN-LINE:COLUMN SEVERITY RULE FIX
//! MESSAGE`, where the severity is `fatal` for a text that isn't read, and `-` stands for no rule and for no fix;
//! a suppressed message follows `~ `, and the text after fixes follows `> `.

use crate::{json, stylish};
use es_messages::{FileResult, Message, UnitFix};
use es_text::{Items, NoMemory, Severity, Txt};
use std::alloc::Global;
use std::test::Fail;

/// Results and their stylish reports, by ESLint's formatter `stylish`.
static STYLISH: [(&str, &str); 10] = [
    ("", ""),
    ("= a.js", ""),
    (
        "= a.js\n\
         1:1-1:9 error no-debugger - Unexpected 'debugger' statement.\n\
         1:9-1:9 error semi 8-8:; Missing semicolon.\n\
         1:9-1:9 error eol-last 8-8:; Newline required at end of file but not found.",
        "\na.js\n\
         \u{20} 1:1  error  Unexpected 'debugger' statement.                no-debugger\n\
         \u{20} 1:9  error  Missing semicolon.                              semi\n\
         \u{20} 1:9  error  Newline required at end of file but not found.  eol-last\n\
         \n✖ 3 problems (3 errors, 0 warnings)\n\
         \u{20} 2 errors and 0 warnings potentially fixable with the `--fix` option.\n",
    ),
    (
        "= src/store.js\n\
         11:18-11:20 error eqeqeq - Expected '===' and instead saw '=='.\n\
         17:28-18:1 error semi 408-408:; Missing semicolon.\n\
         20:7-20:12 error getter-return - Expected to return a value in getter.\n\
         21:5-23:6 warn no-unreachable-loop - Invalid loop. Its body allows only one iteration.",
        "\nsrc/store.js\n\
         \u{20} 11:18  error    Expected '===' and instead saw '=='.               eqeqeq\n\
         \u{20} 17:28  error    Missing semicolon.                                 semi\n\
         \u{20} 20:7   error    Expected to return a value in getter.              getter-return\n\
         \u{20} 21:5   warning  Invalid loop. Its body allows only one iteration.  no-unreachable-loop\n\
         \n✖ 4 problems (3 errors, 1 warning)\n\
         \u{20} 1 error and 0 warnings potentially fixable with the `--fix` option.\n",
    ),
    (
        "= dist/a.js\n\
         0:0-0:0 warn - - File ignored because of a matching ignore pattern.\n\
         = ../b.js\n\
         0:0-0:0 warn - - File ignored because outside of base path.\n\
         = c.js\n\
         = notes.txt\n\
         0:0-0:0 warn - - File ignored because no matching configuration was supplied.",
        "\ndist/a.js\n\
         \u{20} 0:0  warning  File ignored because of a matching ignore pattern.\n\
         \n../b.js\n\
         \u{20} 0:0  warning  File ignored because outside of base path.\n\
         \nnotes.txt\n\
         \u{20} 0:0  warning  File ignored because no matching configuration was supplied.\n\
         \n✖ 3 problems (0 errors, 3 warnings)\n",
    ),
    (
        "= a.js\n1:1-1:1 fatal - - Parsing error: unreadable item.",
        "\na.js\n  1:1  error  Parsing error: unreadable item.\n\n✖ 1 problem (1 error, 0 warnings)\n",
    ),
    (
        "= a.js\n3:4-3:5 warn semi 2-3: Extra.",
        "\na.js\n  3:4  warning  Extra.  semi\n\n✖ 1 problem (0 errors, 1 warning)\n\
         \u{20} 0 errors and 1 warning potentially fixable with the `--fix` option.\n",
    ),
    (
        "= a.js\n1:1-1:2 error a - größer\n1:1-1:2 error b - 😀😀\n100:1000-100:1001 error c - x",
        "\na.js\n\
         \u{20} 1:1       error  größer  a\n\
         \u{20} 1:1       error  😀😀      b\n\
         \u{20} 100:1000  error  x       c\n\
         \n✖ 3 problems (3 errors, 0 warnings)\n",
    ),
    (
        "= a.js\n1:1-1:1 error - - Longer than the other.\n1:2-1:3 error a - Short.",
        "\na.js\n\
         \u{20} 1:1  error  Longer than the other.\n\
         \u{20} 1:2  error  Short.                  a\n\
         \n✖ 2 problems (2 errors, 0 warnings)\n",
    ),
    ("= a.js\n~ 1:1-1:2 error a - Suppressed.\n> b", ""),
];

/// Results and their JSON reports.
static JSON: [(&str, &str); 5] = [
    ("", "[]\n"),
    (
        "= a.js\n1:1-1:10 error no-debugger - Unexpected 'debugger' statement.",
        "[{\"errorCount\":1,\"fatalErrorCount\":0,\"filePath\":\"a.js\",\"fixableErrorCount\":0,\"fixableWarningCount\":0,\
         \"messages\":[{\"column\":1,\"endColumn\":10,\"endLine\":1,\"line\":1,\"message\":\"Unexpected 'debugger' statement.\",\
         \"ruleId\":\"no-debugger\",\"severity\":2}],\"suppressedMessages\":[],\"warningCount\":0}]\n",
    ),
    (
        "= a.js\n1:1-1:1 fatal - - Parsing error: nested too deeply.",
        "[{\"errorCount\":1,\"fatalErrorCount\":1,\"filePath\":\"a.js\",\"fixableErrorCount\":0,\"fixableWarningCount\":0,\
         \"messages\":[{\"column\":1,\"endColumn\":1,\"endLine\":1,\"fatal\":true,\"line\":1,\
         \"message\":\"Parsing error: nested too deeply.\",\"ruleId\":null,\"severity\":2}],\
         \"suppressedMessages\":[],\"warningCount\":0}]\n",
    ),
    (
        "= ä\"b.js\n1:2-1:2 error semi 1-1:; Missing semicolon.\n2:1-2:2 warn a 5-7: A \"b\".\n\
         2:1-2:2 warn c - D.\n~ 3:4-5:6 warn b 8-9:x Y.\n> a;",
        "[{\"errorCount\":1,\"fatalErrorCount\":0,\"filePath\":\"ä\\\"b.js\",\"fixableErrorCount\":1,\"fixableWarningCount\":1,\
         \"messages\":[{\"column\":2,\"endColumn\":2,\"endLine\":1,\"fix\":{\"range\":[1,1],\"text\":\";\"},\"line\":1,\
         \"message\":\"Missing semicolon.\",\"ruleId\":\"semi\",\"severity\":2},\
         {\"column\":1,\"endColumn\":2,\"endLine\":2,\"fix\":{\"range\":[5,7],\"text\":\"\"},\"line\":2,\
         \"message\":\"A \\\"b\\\".\",\"ruleId\":\"a\",\"severity\":1},\
         {\"column\":1,\"endColumn\":2,\"endLine\":2,\"line\":2,\"message\":\"D.\",\"ruleId\":\"c\",\"severity\":1}],\
         \"output\":\"a;\",\"suppressedMessages\":[{\"column\":4,\"endColumn\":6,\"endLine\":5,\
         \"fix\":{\"range\":[8,9],\"text\":\"x\"},\"line\":3,\"message\":\"Y.\",\"ruleId\":\"b\",\"severity\":1}],\
         \"warningCount\":2}]\n",
    ),
    (
        "= a.js\n= b.js",
        "[{\"errorCount\":0,\"fatalErrorCount\":0,\"filePath\":\"a.js\",\"fixableErrorCount\":0,\"fixableWarningCount\":0,\
         \"messages\":[],\"suppressedMessages\":[],\"warningCount\":0},\
         {\"errorCount\":0,\"fatalErrorCount\":0,\"filePath\":\"b.js\",\"fixableErrorCount\":0,\"fixableWarningCount\":0,\
         \"messages\":[],\"suppressedMessages\":[],\"warningCount\":0}]\n",
    ),
];

/// The text up to the mark, and what follows it.
fn cut<'a>(text: &'a str, mark: &str) -> (&'a str, &'a str) {
    text.split_once(mark).unwrap_or((text, ""))
}

/// `FIRST:SECOND`, as numbers.
fn numbers(text: &str, mark: &str) -> (u32, u32) {
    let (first, second) = cut(text, mark);
    (
        first.parse::<u32>().unwrap_or(0),
        second.parse::<u32>().unwrap_or(0),
    )
}

/// The fix that `START-END:TEXT` gives.
fn fix_of(alloc: Global, given: &str) -> Result<Option<UnitFix>, NoMemory> {
    if given == "-" {
        return Ok(None);
    }
    let (ends, text) = cut(given, ":");
    let (start, end) = numbers(ends, "-");
    let text = Txt::new(alloc, text)?;
    Ok(Some(UnitFix { start, end, text }))
}

/// The message that a line gives.
fn message_of(alloc: Global, given: &str) -> Result<Message, NoMemory> {
    let (place, rest) = cut(given, " ");
    let (severity, rest) = cut(rest, " ");
    let (rule, rest) = cut(rest, " ");
    let (fix, text) = cut(rest, " ");
    let (start, end) = cut(place, "-");
    let (line, column) = numbers(start, ":");
    let (end_line, end_column) = numbers(end, ":");
    Ok(Message {
        rule: if rule == "-" {
            None
        } else {
            Some(Txt::new(alloc, rule)?)
        },
        severity: if severity == "warn" {
            Severity::Warn
        } else {
            Severity::Error
        },
        text: Txt::new(alloc, text)?,
        line,
        column,
        end_line,
        end_column,
        fix: fix_of(alloc, fix)?,
        fatal: severity == "fatal",
    })
}

/// The results that the lines give.
fn results_of(alloc: Global, given: &str) -> Result<Vec<(Txt, FileResult)>, NoMemory> {
    let mut results = Vec::new(alloc);
    for part in given.split("= ").skip(1) {
        let (name, lines) = cut(part, "\n");
        let named = (Txt::new(alloc, name)?, result_of(alloc, lines)?);
        results.push(named)?;
    }
    Ok(results)
}

/// The result that the lines of one file give.
fn result_of(alloc: Global, lines: &str) -> Result<FileResult, NoMemory> {
    let mut messages = Items::new(alloc);
    let mut suppressed = Items::new(alloc);
    let mut output = None;
    for line in lines.split("\n").filter(|line| !line.is_empty()) {
        if let Some(line) = line.strip_prefix("~ ") {
            suppressed.push(message_of(alloc, line)?)?;
        } else if let Some(text) = line.strip_prefix("> ") {
            output = Some(Txt::new(alloc, text)?);
        } else {
            messages.push(message_of(alloc, line)?)?;
        }
    }
    Ok(FileResult {
        messages,
        suppressed,
        output,
    })
}

#[test]
fn stylish_reports(rt: HostRuntime) -> Result<(), Fail> {
    let alloc = rt.alloc();
    for (given, want) in &STYLISH {
        let results = results_of(alloc, given)?;
        let report = stylish(alloc, results.as_slice())?;
        assert_eq!(rt; report.as_str(), *want);
    }
    Ok(())
}

#[test]
fn json_reports(rt: HostRuntime) -> Result<(), Fail> {
    let alloc = rt.alloc();
    for (given, want) in &JSON {
        let results = results_of(alloc, given)?;
        let report = json(alloc, results.as_slice())?;
        assert_eq!(rt; report.as_str(), *want);
    }
    Ok(())
}
