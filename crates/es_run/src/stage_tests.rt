//! What a run makes of what it has to tell, and how it ends: the status, the report and the line by ESLint's guide
//! ("Command Line Interface Reference": `--quiet`, `--max-warnings`), writes before the print, all by hand.
use crate::ending::end;
use crate::linting::left_out_result;
use crate::reporting::{Manner, make};
use crate::status::status_code;
use es_files::{MemoryFiles, MemorySink};
use es_messages::{FileResult, Message};
use es_text::{Items, Severity, Txt};
use std::alloc::Global;
use std::process::Abort;
use std::test::Fail;

/// What is told of a file: its name, a letter for each message, `E` for an error and `W` for a warning, the same for
/// those that comments suppress, and the text after its fixes, which is empty where no fix was made.
type Told = (&'static str, &'static str, &'static str, &'static str);

/// What is told, how, and what comes of it.
struct Case {
    told: &'static [Told],
    quiet: bool,
    limit: Option<u32>,
    /// A write that fails: its number, from 1, and how many bytes it leaves.
    failure: Option<(u64, u64)>,
    /// How many bytes the output takes before it fails, if it does.
    cut: Option<u64>,
    status: u8,
    out: &'static str,
    err: &'static str,
    /// Files and what they hold afterwards. `a.js`, `b.js` and `c.js` held `old` before.
    left: &'static [(&'static str, &'static str)],
}

static CASES: [Case; 11] = [
    // Nothing is told: the report is empty.
    Case {
        told: &[],
        quiet: false,
        limit: Some(0),
        failure: None,
        cut: None,
        status: 0,
        out: "",
        err: "",
        left: &[("a.js", "old")],
    },
    // One warning: without a limit, and at the limit.
    Case {
        told: &[("a.js", "W", "", "")],
        quiet: false,
        limit: None,
        failure: None,
        cut: None,
        status: 0,
        out: "
a.js
  1:1  warning  W

✖ 1 problem (0 errors, 1 warning)
",
        err: "",
        left: &[],
    },
    Case {
        told: &[("a.js", "W", "", "")],
        quiet: false,
        limit: Some(1),
        failure: None,
        cut: None,
        status: 0,
        out: "
a.js
  1:1  warning  W

✖ 1 problem (0 errors, 1 warning)
",
        err: "",
        left: &[],
    },
    // Past the limit in two files, and where warnings aren't shown.
    Case {
        told: &[("a.js", "W", "", ""), ("b.js", "W", "", "")],
        quiet: false,
        limit: Some(1),
        failure: None,
        cut: None,
        status: 1,
        out: "
a.js
  1:1  warning  W

b.js
  1:1  warning  W

✖ 2 problems (0 errors, 2 warnings)
",
        err: "esl: too many warnings (maximum: 1)\n",
        left: &[],
    },
    Case {
        told: &[("a.js", "WW", "W", "")],
        quiet: true,
        limit: Some(1),
        failure: None,
        cut: None,
        status: 1,
        out: "",
        err: "esl: too many warnings (maximum: 1)\n",
        left: &[],
    },
    // With an error there is no line of the limit, and what comments suppress counts for nothing.
    Case {
        told: &[("a.js", "WE", "", "")],
        quiet: false,
        limit: Some(0),
        failure: None,
        cut: None,
        status: 1,
        out: "
a.js
  1:1  warning  W
  1:1  error    E

✖ 2 problems (1 error, 1 warning)
",
        err: "",
        left: &[],
    },
    Case {
        told: &[("a.js", "W", "W", ""), ("b.js", "E", "", "")],
        quiet: true,
        limit: Some(0),
        failure: None,
        cut: None,
        status: 1,
        out: "
b.js
  1:1  error  E

✖ 1 problem (1 error, 0 warnings)
",
        err: "",
        left: &[],
    },
    Case {
        told: &[("a.js", "", "EW", "")],
        quiet: false,
        limit: Some(0),
        failure: None,
        cut: None,
        status: 0,
        out: "",
        err: "",
        left: &[],
    },
    // Fixes are written, also those of a file with nothing to show.
    Case {
        told: &[
            ("a.js", "W", "", "new a"),
            ("b.js", "", "", ""),
            ("c.js", "", "", "new c"),
        ],
        quiet: true,
        limit: None,
        failure: None,
        cut: None,
        status: 0,
        out: "",
        err: "",
        left: &[("a.js", "new a"), ("b.js", "old"), ("c.js", "new c")],
    },
    // A write that fails: earlier files are written, later ones aren't, and nothing is printed.
    Case {
        told: &[
            ("a.js", "E", "", "new a"),
            ("b.js", "", "", "new b"),
            ("c.js", "", "", "new c"),
        ],
        quiet: false,
        limit: None,
        failure: Some((2, 3)),
        cut: None,
        status: 2,
        out: "",
        err: "esl: cannot write: b.js\n",
        left: &[("a.js", "new a"), ("b.js", "new"), ("c.js", "old")],
    },
    // A print that fails comes after all writes.
    Case {
        told: &[("a.js", "E", "", "new a")],
        quiet: false,
        limit: None,
        failure: None,
        cut: Some(3),
        status: 2,
        out: "\na.",
        err: "esl: cannot print\n",
        left: &[("a.js", "new a")],
    },
];

fn messages_of(alloc: Global, letters: &str) -> Result<Items<Message>, Fail> {
    let mut messages = Items::new(alloc);
    for letter in letters.as_bytes() {
        let is_error = *letter == b'E';
        messages.push(Message {
            rule: None,
            severity: if is_error {
                Severity::Error
            } else {
                Severity::Warn
            },
            text: Txt::new(alloc, if is_error { "E" } else { "W" })?,
            line: 1,
            column: 1,
            end_line: 1,
            end_column: 1,
            fix: None,
            fatal: false,
        })?;
    }
    Ok(messages)
}

fn results_of(alloc: Global, told: &[Told]) -> Result<Vec<(Txt, FileResult)>, Fail> {
    let mut results = Vec::new(alloc);
    for (name, messages, suppressed, output) in told {
        let result = FileResult {
            messages: messages_of(alloc, messages)?,
            suppressed: messages_of(alloc, suppressed)?,
            output: if output.is_empty() {
                None
            } else {
                Some(Txt::new(alloc, output)?)
            },
        };
        results.push((Txt::new(alloc, name)?, result))?;
    }
    Ok(results)
}

fn files_of(alloc: Global, case: &Case) -> Result<MemoryFiles, Fail> {
    let mut files = MemoryFiles::new(alloc)?;
    files.hold(alloc, "a.js", b"old")?;
    files.hold(alloc, "b.js", b"old")?;
    files.hold(alloc, "c.js", b"old")?;
    if let Some((call, left)) = case.failure {
        files.fail(alloc, true, call, left)?;
    }
    Ok(files)
}

#[test]
fn ends_of_runs(rt: HostRuntime) -> Result<(), Fail> {
    let alloc = rt.alloc();
    let config = Txt::new(alloc, "eslint.config.json")?;
    for (number, case) in CASES.iter().enumerate() {
        let mut files = files_of(alloc, case)?;
        let mut out = MemorySink::new(alloc)?;
        if let Some(left) = case.cut {
            out.fail(alloc, 1, left)?;
        }
        let mut err = MemorySink::new(alloc)?;
        let manner = Manner {
            json: false,
            quiet: case.quiet,
            limit: case.limit,
        };
        let made = make(alloc, &config, manner, results_of(alloc, case.told)?)?;
        let status = end(alloc, &config, made, &mut files, &mut out, &mut err);
        assert_eq!(rt; status_code(&status), case.status, "case {number}");
        assert_eq!(rt; out.got(), case.out.as_bytes(), "case {number}");
        assert_eq!(rt; err.got(), case.err.as_bytes(), "case {number}");
        for (name, bytes) in case.left {
            assert_eq!(rt; files.held(name), Some(bytes.as_bytes()), "case {number}");
        }
    }
    Ok(())
}

#[test]
fn a_file_that_is_left_out(rt: HostRuntime) -> Result<(), Fail> {
    let alloc = rt.alloc();
    let told = left_out_result(alloc, "File ignored.")?;
    assert_eq!(rt; told.messages.len(), 1);
    assert_eq!(rt; told.messages.as_slice()[0].text.as_str(), "File ignored.");
    assert_eq!(rt; told.suppressed.len(), 0);
    assert!(rt; told.output.is_none());
    Ok(())
}
