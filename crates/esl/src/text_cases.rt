//! More runs over files in memory: single texts, failed calls, words and generated texts. All by hand.

pub(crate) static CASES: [&str; 43] = [
    // One text under one rule: its places, its comments, and what is told of a text that is not parsed.
    "@held eslint.config.json
{\"rules\": {\"no-debugger\": 2}}@held a.js
a()
@words
a.js@status 0 1
@out
@err
",
    "@held eslint.config.json
{\"rules\": {\"no-debugger\": 2}}@held a.js
\tdebugger\t;@words
a.js@status 1 1
@out

a.js
  1:2  error  Unexpected 'debugger' statement.  no-debugger

✖ 1 problem (1 error, 0 warnings)
@err
",
    "@held eslint.config.json
{\"rules\": {\"no-debugger\": 2}}@held a.js
{ debugger; ; } debugger;@words
a.js@status 1 1
@out

a.js
  1:3   error  Unexpected 'debugger' statement.  no-debugger
  1:17  error  Unexpected 'debugger' statement.  no-debugger

✖ 2 problems (2 errors, 0 warnings)
@err
",
    "@held eslint.config.json
{\"rules\": {\"no-debugger\": 2}}@held a.js
debugger; let a; var a;
@words
a.js@status 1 0
@out

a.js
  1:22  error  Parsing error: early error E5.

✖ 1 problem (1 error, 0 warnings)
@err
",
    "@held eslint.config.json
{\"rules\": {\"no-debugger\": 2}}@held a.js
debugger;
  a b;
@words
a.js@status 1 0
@out

a.js
  2:3  error  Parsing error: unreadable item.

✖ 1 problem (1 error, 0 warnings)
@err
",
    "@held eslint.config.json
{\"rules\": {\"no-debugger\": 2}}@held a.js
// eslint-disable-next-line no-debugger
a;
@words
a.js@status 0 1
@out

a.js
  1:1  warning  Unused eslint-disable directive (no problems were reported from 'no-debugger').

✖ 1 problem (0 errors, 1 warning)
@err
",
    "@held eslint.config.json
{\"rules\": {\"no-debugger\": 2}}@held a.js
/* eslint-disable no-debugger */ debugger;
/* eslint-enable */ debugger;
@words
a.js@status 1 1
@out

a.js
  2:21  error  Unexpected 'debugger' statement.  no-debugger

✖ 1 problem (1 error, 0 warnings)
@err
",
    "@held eslint.config.json
{\"rules\": {\"no-debugger\": 2}}@held a.js
debugger; /* eslint 'no-debugger': \"off\", no-debugger: 1 */
/* eslint semy: 2, a */
@words
a.js@status 1 1
@out

a.js
  1:1  warning  Unexpected 'debugger' statement.  no-debugger
  2:1  error    Bad inline entry 'a'.
  2:1  error    Bad inline entry 'semy: 2'.

✖ 3 problems (2 errors, 1 warning)
@err
",
    "@held eslint.config.json
{\"rules\": {\"no-debugger\": 2}}@held a.js
debugger; // eslint-disable-line -- kept
/* eslint no-debugger: 0 */@words
a.js@status 0 1
@out

a.js
  1:11  warning  Unused eslint-disable directive (no problems were reported).

✖ 1 problem (0 errors, 1 warning)
@err
",
    // Rules that stand at one place, a text without a character, and one that needs two passes.
    "@held eslint.config.json
{\"rules\": {\"eol-last\": 2}}@held a.js
@words
a.js@status 0 1
@out
@err
",
    "@held eslint.config.json
{\"rules\": {\"no-debugger\": 2, \"semi\": 2, \"eol-last\": 2}}@held a.js
debugger@words
a.js@status 1 1
@out

a.js
  1:1  error  Unexpected 'debugger' statement.                no-debugger
  1:9  error  Missing semicolon.                              semi
  1:9  error  Newline required at end of file but not found.  eol-last

✖ 3 problems (3 errors, 0 warnings)
  2 errors and 0 warnings potentially fixable with the `--fix` option.
@err
@left a.js
debugger",
    "@held eslint.config.json
{\"rules\": {\"no-debugger\": 2, \"semi\": 2, \"eol-last\": 2}}@held a.js
debugger@words
--fix
a.js@status 1 3
@out

a.js
  1:1  error  Unexpected 'debugger' statement.  no-debugger

✖ 1 problem (1 error, 0 warnings)
@err
@left a.js
debugger;
",
    "@held eslint.config.json
{\"rules\": {\"semi\": 2}}@held a.js
a
++b
@words
a.js@status 1 1
@out

a.js
  1:2  error  Missing semicolon.  semi
  2:4  error  Missing semicolon.  semi

✖ 2 problems (2 errors, 0 warnings)
  2 errors and 0 warnings potentially fixable with the `--fix` option.
@err
",
    // Options of rules, and those that a later severity alone keeps.
    "@held eslint.config.json
{\"rules\": {\"no-restricted-syntax\": [2, \"Literal[regex]\"]}}@held a.js
x = a / b / c; y = /b/g.test(s)
@words
a.js@status 1 1
@out

a.js
  1:20  error  Using 'Literal[regex]' is not allowed.  no-restricted-syntax

✖ 1 problem (1 error, 0 warnings)
@err
",
    "@held eslint.config.json
[{\"rules\": {\"eqeqeq\": [\"error\", \"smart\"]}}, {\"rules\": {\"eqeqeq\": \"warn\"}}]@held a.js
a == null;
b == c;
@words
a.js@status 0 1
@out

a.js
  2:3  warning  Expected '===' and instead saw '=='.  eqeqeq

✖ 1 problem (0 errors, 1 warning)
@err
",
    "@held eslint.config.json
[{\"rules\": {\"eqeqeq\": [\"error\", \"smart\"]}}, {\"rules\": {\"eqeqeq\": \"warn\"}}]@held a.js
a == null;
b == c;
@words
--max-warnings
1
a.js@status 0 1
@out

a.js
  2:3  warning  Expected '===' and instead saw '=='.  eqeqeq

✖ 1 problem (0 errors, 1 warning)
@err
",
    "@held eslint.config.json
[{\"rules\": {\"eqeqeq\": [\"error\", \"smart\"]}}, {\"rules\": {\"eqeqeq\": \"warn\"}}]@held a.js
a == null;
b == c;
@words
--max-warnings
0
a.js@status 1 1
@out

a.js
  2:3  warning  Expected '===' and instead saw '=='.  eqeqeq

✖ 1 problem (0 errors, 1 warning)
@err
esl: too many warnings (maximum: 0)
",
    "@held eslint.config.json
[{\"rules\": {\"semi\": [\"error\", \"never\"]}}]@held a.js
a
@words
a.js@status 2 0
@out
@err
esl: eslint.config.json: BadOption at /0/rules/semi
",
    "@held eslint.config.json
[{\"rules\": {\"no-restricted-syntax\": [2, \"[a\"]}}]@held a.js
a
@words
a.js@status 2 0
@out
@err
esl: eslint.config.json: BadSelector at /0/rules/no-restricted-syntax
",
    "@held eslint.config.json
[{\"plugins\": {}}]@held a.js
a
@words
a.js@status 2 0
@out
@err
esl: eslint.config.json: UnknownKey at /0/plugins
",
    // A name that is given twice is linted once.
    "@held eslint.config.json
[{\"ignores\": [\"dist/**\"]}, {\"rules\": {}}]@held c.js
@words
dist/a.js
../b.js
c.js
./c.js
notes.txt@status 0 1
@out

dist/a.js
  0:0  warning  File ignored because of a matching ignore pattern.

../b.js
  0:0  warning  File ignored because outside of base path.

notes.txt
  0:0  warning  File ignored because no matching configuration was supplied.

✖ 3 problems (0 errors, 3 warnings)
@err
",
    // Ten names under three entries. A text that is not parsed isn't listened to.
    "@held eslint.config.json
[{\"ignores\": [\"dist/\"]}, {\"files\": [\"src/**\"], \"rules\": {\"no-debugger\": 2, \"semi\": 1}}, {\"files\": [\"**/*.cjs\"], \"rules\": {\"no-undef\": 2}}]@held src/a.js
debugger;
@held src/b.js
a
@held src/c.cjs
debugger
q;
@held d.cjs
q
@held e.js
debugger
@held src/h.mjs
a b
@held src/i.js
a;
@words
src/a.js
src/b.js
src/c.cjs
d.cjs
e.js
dist/f.js
notes.txt
../g.js
src/h.mjs
src/i.js@status 1 6
@out

src/a.js
  1:1  error  Unexpected 'debugger' statement.  no-debugger

src/b.js
  1:2  warning  Missing semicolon.  semi

src/c.cjs
  1:1  error    Unexpected 'debugger' statement.  no-debugger
  1:9  warning  Missing semicolon.                semi
  2:1  error    'q' is not defined.               no-undef

d.cjs
  1:1  error  'q' is not defined.  no-undef

dist/f.js
  0:0  warning  File ignored because of a matching ignore pattern.

notes.txt
  0:0  warning  File ignored because no matching configuration was supplied.

../g.js
  0:0  warning  File ignored because outside of base path.

src/h.mjs
  1:1  error  Parsing error: unreadable item.

✖ 10 problems (5 errors, 5 warnings)
  0 errors and 2 warnings potentially fixable with the `--fix` option.
@err
",
    // Each other read and write of a run over three names, failed in turn.
    "@held eslint.config.json
{\"rules\": {\"semi\": 2}}@held a.js
a
@held b.js
b
@held c.js
c
@words
--fix
a.js
b.js
c.js@fails read
2 0@status 2 0
@out
@err
esl: cannot read: a.js
@left a.js
a
@left b.js
b
@left c.js
c
",
    "@held eslint.config.json
{\"rules\": {\"semi\": 2}}@held a.js
a
@held b.js
b
@held c.js
c
@words
--fix
a.js
b.js
c.js@fails read
4 0@status 2 0
@out
@err
esl: cannot read: c.js
@left a.js
a
@left b.js
b
@left c.js
c
",
    "@held eslint.config.json
{\"rules\": {\"semi\": 2}}@held a.js
a
@held b.js
b
@held c.js
c
@words
--fix
a.js
b.js
c.js@fails write
1 0@status 2 6
@out
@err
esl: cannot write: a.js
@left a.js
@left b.js
b
@left c.js
c
",
    "@held eslint.config.json
{\"rules\": {\"semi\": 2}}@held a.js
a
@held b.js
b
@held c.js
c
@words
--fix
a.js
b.js
c.js@fails write
3 9@status 2 6
@out
@err
esl: cannot write: c.js
@left a.js
a;
@left b.js
b;
@left c.js
c;
",
    "@held eslint.config.json
{\"rules\": {\"semi\": 2}}@held a.js
a
@words
--fix
a.js@fails write
1 1@status 2 2
@out
@err
esl: cannot write: a.js
@left a.js
a",
    "@held eslint.config.json
{\"rules\": {\"semi\": 2}}@held a.js
a
@words
--fix
a.js@fails write
1 2@status 2 2
@out
@err
esl: cannot write: a.js
@left a.js
a;",
    // Without `--fix`, or where no fix changes the text, no write is tried: the first one would fail.
    "@held eslint.config.json
{\"rules\": {\"semi\": 2}}@held a.js
a
@words
a.js@fails write
1 0@status 1 1
@out

a.js
  1:2  error  Missing semicolon.  semi

✖ 1 problem (1 error, 0 warnings)
  1 error and 0 warnings potentially fixable with the `--fix` option.
@err
@left a.js
a
",
    "@held eslint.config.json
{\"rules\": {\"semi\": 2}}@held a.js
a;
@words
--fix
a.js@fails write
1 0@status 0 1
@out
@err
@left a.js
a;
",
    // Words that make no plan.
    "@held eslint.config.json
{\"rules\": {\"semi\": 2}}@held a.js
a
@status 2 0
@out
@err
esl: bad arguments
@left a.js
a
",
    "@held eslint.config.json
{\"rules\": {\"semi\": 2}}@held a.js
a
@words
@status 2 0
@out
@err
esl: bad arguments
@left a.js
a
",
    "@held eslint.config.json
{\"rules\": {\"semi\": 2}}@held a.js
a
@words
--fix@status 2 0
@out
@err
esl: bad arguments
@left a.js
a
",
    "@held eslint.config.json
{\"rules\": {\"semi\": 2}}@held a.js
a
@words
--fix
--fix
a.js@status 2 0
@out
@err
esl: bad arguments
@left a.js
a
",
    "@held eslint.config.json
{\"rules\": {\"semi\": 2}}@held a.js
a
@words
--fixes
a.js@status 2 0
@out
@err
esl: bad arguments
@left a.js
a
",
    "@held eslint.config.json
{\"rules\": {\"semi\": 2}}@held a.js
a
@words
-f
xml
a.js@status 2 0
@out
@err
esl: bad arguments
@left a.js
a
",
    "@held eslint.config.json
{\"rules\": {\"semi\": 2}}@held a.js
a
@words
--max-warnings
x
a.js@status 2 0
@out
@err
esl: bad arguments
@left a.js
a
",
    "@held eslint.config.json
{\"rules\": {\"semi\": 2}}@held a.js
a
@words
--generate
3
a.js@status 2 0
@out
@err
esl: bad arguments
@left a.js
a
",
    "@held eslint.config.json
{\"rules\": {\"semi\": 2}}@held a.js
a
@words
--generate
10001@status 2 0
@out
@err
esl: bad arguments
@left a.js
a
",
    // Generated texts: `debugger` and the name of the function are reported on each line.
    "@words
--generate
0@status 0 1
@out
generated 0: 0 bytes, 0 problems
@err
",
    "@words
--generate
3@status 1 1
@out
generated 3: 216 bytes, 6 problems
@err
",
    "@words
--generate
10@status 1 1
@out
generated 10: 722 bytes, 20 problems
@err
",
    "@words
--generate
1@cut
4@status 2 1
@out
gene@err
esl: cannot print
",
];
