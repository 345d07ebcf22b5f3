//! Runs over files in memory. What is left, printed and told is worked out by hand.
//!
//! A case is parts, each begun by `@`: `held NAME` and the bytes of a file; `words`, one a line; `fails read` or
//! `fails write` with the number of the call that fails and the bytes that it leaves; `cut`, how many bytes the output
//! takes. Then come the status with how often the rules listened, `out`, `err`, and `left NAME` with what a file holds.

pub(crate) static CASES: [&str; 28] = [
    // No configuration, one that isn't JSON, and the first fault of one.
    "@held a.js
debugger;
@words
a.js@status 2 0
@out
@err
esl: no configuration: eslint.config.json
",
    "@held eslint.config.json
{@held a.js
debugger;
@words
a.js@status 2 0
@out
@err
esl: eslint.config.json: NotJson at\u{20}
",
    "@held eslint.config.json
[{}, {\"rules\": {\"no\": 1}}]@words
no.js@status 2 0
@out
@err
esl: eslint.config.json: UnknownRule at /1/rules/no
",
    // A configuration that can't be read.
    "@held eslint.config.json
[]@held a.js
a;
@words
a.js@fails read
1 0@status 2 0
@out
@err
esl: cannot read: eslint.config.json
",
    // One file, two, and the same without a rule.
    "@held eslint.config.json
{\"rules\": {\"no-debugger\": 2}}@held a.js
debugger;
@words
a.js@status 1 1
@out

a.js
  1:1  error  Unexpected 'debugger' statement.  no-debugger

✖ 1 problem (1 error, 0 warnings)
@err
@left a.js
debugger;
",
    "@held eslint.config.json
{\"rules\": {\"no-debugger\": 2}}@held a.js
debugger;
@held b.js
a
@held c.js
a b@words
c.js
b.js
a.js@status 1 2
@out

c.js
  1:1  error  Parsing error: unreadable item.

a.js
  1:1  error  Unexpected 'debugger' statement.  no-debugger

✖ 2 problems (2 errors, 0 warnings)
@err
",
    "@held eslint.config.json
[]@held a.js
debugger
@words
a.js@status 0 1
@out
@err
",
    // Another configuration's name, and a run over no name.
    "@held c.json
{\"rules\": {\"no-debugger\": 2}}@held a.js
debugger
@words
-c
c.json
a.js@status 1 1
@out

a.js
  1:1  error  Unexpected 'debugger' statement.  no-debugger

✖ 1 problem (1 error, 0 warnings)
@err
",
    // Files that aren't linted aren't read: none of these is held.
    "@held eslint.config.json
[{\"ignores\": [\"dist/\"]}]@words
node_modules/a.js
dist/b.js
a.txt
../a.js
/a.js@status 0 0
@out

node_modules/a.js
  0:0  warning  File ignored because of a matching ignore pattern.

dist/b.js
  0:0  warning  File ignored because of a matching ignore pattern.

a.txt
  0:0  warning  File ignored because no matching configuration was supplied.

../a.js
  0:0  warning  File ignored because outside of base path.

/a.js
  0:0  warning  File ignored because outside of base path.

✖ 5 problems (0 errors, 5 warnings)
@err
",
    // The first refusal in the order of names.
    "@held eslint.config.json
{\"rules\": {\"semi\": 2}}@held a.js
a
@words
--fix
a.js
b.js
c.js@status 2 0
@out
@err
esl: no such file: b.js
@left a.js
a
",
    "@held eslint.config.json
{\"rules\": {\"semi\": 2}}@held a.js
a
@held b.js
b
@words
--fix
a.js
b.js
c.js@fails read
3 0@status 2 0
@out
@err
esl: cannot read: b.js
@left a.js
a
@left b.js
b
",
    // Warnings, without and with a limit: at the limit, and past it. With an error the limit isn't told.
    "@held eslint.config.json
[{\"rules\": {\"no-debugger\": \"warn\"}}]@held a.js
debugger;debugger
@words
a.js@status 0 1
@out

a.js
  1:1   warning  Unexpected 'debugger' statement.  no-debugger
  1:10  warning  Unexpected 'debugger' statement.  no-debugger

✖ 2 problems (0 errors, 2 warnings)
@err
",
    "@held eslint.config.json
[{\"rules\": {\"no-debugger\": \"warn\"}}]@held a.js
debugger;
@held b.js
debugger
@words
--quiet
--max-warnings
2
a.js
b.js@status 0 2
@out
@err
",
    "@held eslint.config.json
[{\"rules\": {\"no-debugger\": \"warn\"}}]@held a.js
debugger;
@held b.js
debugger
@words
--quiet
--max-warnings
1
a.js
b.js@status 1 2
@out
@err
esl: too many warnings (maximum: 1)
",
    "@held eslint.config.json
[{\"rules\": {\"no-debugger\": \"warn\"}}]@held a.js
debugger;
@held b.js
a b
@words
--quiet
--max-warnings
0
a.js
b.js@status 1 1
@out

b.js
  1:1  error  Parsing error: unreadable item.

✖ 1 problem (1 error, 0 warnings)
@err
",
    "@held eslint.config.json
[]@words
--max-warnings
0
a.txt@status 1 0
@out

a.txt
  0:0  warning  File ignored because no matching configuration was supplied.

✖ 1 problem (0 errors, 1 warning)
@err
esl: too many warnings (maximum: 0)
",
    // Comments may change what is set, unless the configuration or the words forbid it.
    "@held eslint.config.json
{\"rules\": {\"no-debugger\": 2}}@held a.js
debugger; // eslint-disable-line
@words
a.js@status 0 1
@out
@err
",
    "@held eslint.config.json
{\"rules\": {\"no-debugger\": 2}}@held a.js
debugger; // eslint-disable-line
@words
--no-inline-config
a.js@status 1 1
@out

a.js
  1:1  error  Unexpected 'debugger' statement.  no-debugger

✖ 1 problem (1 error, 0 warnings)
@err
",
    "@held eslint.config.json
[{\"rules\": {\"no-debugger\": 2}, \"linterOptions\": {\"noInlineConfig\": true}}]@held a.js
debugger; // eslint-disable-line
@words
a.js@status 1 1
@out

a.js
  1:1  error  Unexpected 'debugger' statement.  no-debugger

✖ 1 problem (1 error, 0 warnings)
@err
",
    // Each file under what is set for it.
    "@held eslint.config.json
[{\"files\": [\"a/*.js\"], \"rules\": {\"no-debugger\": 1}}, {\"files\": [\"b/**\"], \"rules\": {\"semi\": 2}}]@held a/a.js
debugger
@held b/b.ts
debugger
@held c.cjs
return
@words
a/a.js
b/b.ts
c.cjs@status 1 3
@out

a/a.js
  1:1  warning  Unexpected 'debugger' statement.  no-debugger

b/b.ts
  1:9  error  Missing semicolon.  semi

✖ 2 problems (1 error, 1 warning)
  1 error and 0 warnings potentially fixable with the `--fix` option.
@err
",
    // JSON, with errors alone.
    "@held eslint.config.json
{\"rules\": {\"no-debugger\": 2}}@held a.js
debugger;
@words
-f
json
--quiet
a.js
b.txt@status 1 1
@out
[{\"errorCount\":1,\"fatalErrorCount\":0,\"filePath\":\"a.js\",\"fixableErrorCount\":0,\"fixableWarningCount\":0,\"messages\":[{\"column\":1,\"endColumn\":10,\"endLine\":1,\"line\":1,\"message\":\"Unexpected 'debugger' statement.\",\"ruleId\":\"no-debugger\",\"severity\":2}],\"suppressedMessages\":[],\"warningCount\":0},{\"errorCount\":0,\"fatalErrorCount\":0,\"filePath\":\"b.txt\",\"fixableErrorCount\":0,\"fixableWarningCount\":0,\"messages\":[],\"suppressedMessages\":[],\"warningCount\":0}]
@err
",
    "@held eslint.config.json
[]@words
-f
json
b.txt@status 0 0
@out
[{\"errorCount\":0,\"fatalErrorCount\":0,\"filePath\":\"b.txt\",\"fixableErrorCount\":0,\"fixableWarningCount\":0,\"messages\":[{\"column\":0,\"endColumn\":0,\"endLine\":0,\"line\":0,\"message\":\"File ignored because no matching configuration was supplied.\",\"ruleId\":null,\"severity\":1}],\"suppressedMessages\":[],\"warningCount\":1}]
@err
",
    // Fixes, written in order; one that fails ends the run, with earlier ones held and later ones as they were.
    "@held eslint.config.json
{\"rules\": {\"semi\": 2}}@held a.js
a
@held b.js
b;
@held c.js
c
@words
--fix
a.js
b.js
c.js@status 0 5
@out
@err
@left a.js
a;
@left b.js
b;
@left c.js
c;
",
    "@held eslint.config.json
{\"rules\": {\"semi\": 2}}@held a.js
a
@held b.js
b
@held c.js
c
@words
--fix
a.js
b.js
c.js@fails write
2 1@status 2 6
@out
@err
esl: cannot write: b.js
@left a.js
a;
@left b.js
b@left c.js
c
",
    // Warnings aren't fixed with `--quiet`.
    "@held eslint.config.json
{\"rules\": {\"semi\": 1}}@held a.js
a
@words
--fix
--quiet
a.js@status 0 1
@out
@err
@left a.js
a
",
    // Printing fails: the files are written, and a first part of the report went out.
    "@held eslint.config.json
{\"rules\": {\"semi\": 2, \"no-debugger\": 2}}@held a.js
debugger
@words
--fix
a.js@cut
6@status 2 2
@out

a.js
@err
esl: cannot print
@left a.js
debugger;
",
    "@held eslint.config.json
[{\"rules\": {\"no-debugger\": \"warn\"}}]@held a.js
debugger
@words
--max-warnings
0
a.js@cut
0@status 2 1
@out
@err
esl: cannot print
",
    // A text in the configuration's own name is linted as any other.
    "@held a.js
[]
@words
-c
a.js
a.js@status 0 1
@out
@err
@left a.js
[]
",
];
