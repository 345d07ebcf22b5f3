//! Runs with `--fix` over files in memory. What is left and printed is worked out by hand.
ghost use Rattle.std.specs.Prelude.{◌≡◌, ◌<◌, ◌^◌, All, [], length};
ghost use Rattle.es_settings.specs.declared.verdict.Verdict.TheVariants.{Fine};

use crate::tests::{files_of, status_of};
use crate::watch::{ToArray, ToThis};
use es_files::MemorySink;
use es_host::{EachFile, EachNode, Kit, Rule};
use es_rules_plain::{EolLast, NoDebugger, NoExtraSemi, NoTrailingSpaces, Semi};
use es_run::status_code;
use std::alloc::Global;
use std::process::Abort;
use std::test::Fail;

static CONFIG: &str =
    r#"{"rules": {"semi": 2, "no-extra-semi": 2, "eol-last": 2, "no-trailing-spaces": 2,
    "no-debugger": 2, "array": 2, "this": 2}}"#;

/// The bytes of `a.js`, what it holds after a run with `--fix`, what is printed of it then, and the status.
struct Case {
    bytes: &'static [u8],
    fixed: &'static [u8],
    report: &'static str,
    status: u8,
}

// Each place has one fix a pass: the second one there waits for the next pass. A byte order mark stands in
// front again. What isn't UTF-8 is written as U+FFFD, but only where a fix changes the text. The last case
// has ten passes, after which the text is what it was, and is linted once more.
static CASES: [Case; 11] = [
    Case {
        bytes: b"a;;  \n",
        fixed: b"a;\n",
        report: "",
        status: 0,
    },
    Case {
        bytes: b"debugger",
        fixed: b"debugger;\n",
        report: "
a.js
  1:1  error  Unexpected 'debugger' statement.  no-debugger

✖ 1 problem (1 error, 0 warnings)
",
        status: 1,
    },
    Case {
        bytes: b"\xef\xbb\xbfa",
        fixed: b"\xef\xbb\xbfa;\n",
        report: "",
        status: 0,
    },
    Case {
        bytes: b"a;  \r\n",
        fixed: b"a;\r\n",
        report: "",
        status: 0,
    },
    Case {
        bytes: b"a\r\nb\r\n",
        fixed: b"a;\r\nb;\r\n",
        report: "",
        status: 0,
    },
    Case {
        bytes: b"'\xf0\x9f\x98\x80'; debugger;;",
        fixed: b"'\xf0\x9f\x98\x80'; debugger;\n",
        report: "
a.js
  1:7  error  Unexpected 'debugger' statement.  no-debugger

✖ 1 problem (1 error, 0 warnings)
",
        status: 1,
    },
    Case {
        bytes: b"'\xff\xf0\x9f\x98\x80'",
        fixed: b"'\xef\xbf\xbd\xf0\x9f\x98\x80';\n",
        report: "",
        status: 0,
    },
    Case {
        bytes: b"'\xff';\n",
        fixed: b"'\xff';\n",
        report: "",
        status: 0,
    },
    Case {
        bytes: b"// eslint-disable-next-line semi\na\nb // eslint-disable-line\n",
        fixed: b"// eslint-disable-next-line semi\na\nb // eslint-disable-line\n",
        report: "",
        status: 0,
    },
    Case {
        bytes: b"a b;\n",
        fixed: b"a b;\n",
        report: "
a.js
  1:1  error  Parsing error: unreadable item.

✖ 1 problem (1 error, 0 warnings)
",
        status: 1,
    },
    Case {
        bytes: b"this;\n",
        fixed: b"this;\n",
        report: "
a.js
  1:1  error  no  this

✖ 1 problem (1 error, 0 warnings)
  1 error and 0 warnings potentially fixable with the `--fix` option.
",
        status: 1,
    },
];

/// Asserts what a run with `--fix` leaves and prints of the file of each case.
fn expect_fixed<R: Rule>(
    rt: &impl Abort,
    alloc: Global,
    rules: Vec<R>,
    cases: &[Case],
) -> Result<(), Fail>
    requires few { length rules.items < 2 ^ 32 }
    requires options { All (λ rule. (R.meaning rule).verdict [] ≡ Fine) rules.items }
{
    let mut kits = Vec::new(alloc);
    kits.push(Kit::new(rules))?;
    for case in cases {
        let mut files = files_of(alloc, CONFIG, "a.js", case.bytes)?;
        let (mut out, mut err) = (MemorySink::new(alloc)?, MemorySink::new(alloc)?);
        let words = ["--fix", "a.js"];
        let status = status_of(alloc, &words, &mut kits, &mut files, &mut out, &mut err)?;
        assert_eq!(rt; files.held("a.js"), Some(case.fixed));
        assert_eq!(rt; out.got(), case.report.as_bytes());
        assert_eq!(rt; (status_code(&status), err.got().len()), (case.status, 0));
    }
    Ok(())
}

#[test]
fn files_are_fixed(rt: HostRuntime) -> Result<(), Fail> {
    let alloc = rt.alloc();
    let mut rules: Vec<Box<dyn Rule + Send>> = Vec::new(alloc);
    rules.push(Box::new(alloc, EachNode::new(alloc, Semi))?)?;
    rules.push(Box::new(alloc, EachNode::new(alloc, NoExtraSemi))?)?;
    rules.push(Box::new(alloc, EachFile::new(EolLast))?)?;
    rules.push(Box::new(alloc, EachFile::new(NoTrailingSpaces))?)?;
    rules.push(Box::new(alloc, EachNode::new(alloc, NoDebugger))?)?;
    rules.push(Box::new(alloc, EachNode::new(alloc, ToArray))?)?;
    rules.push(Box::new(alloc, EachNode::new(alloc, ToThis))?)?;
    expect_fixed(&rt, alloc, rules, &CASES)
}
