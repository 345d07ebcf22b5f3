ghost use Rattle.std.specs.Prelude.{◌≡◌, ◌<◌, All, IfOk};
ghost use Rattle.std.specs.Str.{IsCharBoundary};
ghost use Rattle.es_text.specs.Texts.{text_bytes};

use crate::{LexFault, LexMode, comments, next};
use es_text::{NoMemory, Source, Steps, Token, TokenKind};
use std::alloc::Global;
use std::marker::Brand;
use std::sync::ledger::{Blank, Ledger};
use std::test::Fail;

/// The punctuators, in the order of their codes.
const PUNCTUATORS: &str = "
    { } ( ) [ ] . ... ; , < > <= >= == != === !== + - * / % ** ++ -- << >> >>> & | ^ ! ~ && || ?? ? ?. :
    = => += -= *= /= %= **= <<= >>= >>>= &= |= ^= &&= ||= ??=
";

/// The forms of ECMA-262, 12.2 to 12.8, and their nearest refused neighbours: modes, a text and its tokens,
/// one case a line. A mode is D, R or T for Division, RegExp and TemplateTail; the last one holds for all
/// further tokens. `␊` and `␍` stand for LF and CR. A token is its kind or its punctuator, and its span in
/// bytes, with `^` before it where a line ends in front of it; `End` has its offset alone, and so has `None`,
/// where no token fits. Comments follow.
const CASES: &str =
    "D { } ( ) [ ] . ... ; , -> {0-1 }2-3 (4-5 )6-7 [8-9 ]10-11 .12-13 ...14-17 ;18-19 ,20-21 End21
D < > <= >= == != === !== + - -> <0-1 >2-3 <=4-6 >=7-9 ==10-12 !=13-15 ===16-19 !==20-23 +24-25 -26-27 End27
D * / % ** ++ -- << >> >>> & -> *0-1 /2-3 %4-5 **6-8 ++9-11 --12-14 <<15-17 >>18-20 >>>21-24 &25-26 End26
D | ^ ! ~ && || ?? ? ?. : -> |0-1 ^2-3 !4-5 ~6-7 &&8-10 ||11-13 ??14-16 ?17-18 ?.19-21 :22-23 End23
D = => += -= *= /= %= **= <<= >>= -> =0-1 =>2-4 +=5-7 -=8-10 *=11-13 /=14-16 %=17-19 **=20-23 <<=24-27 >>=28-31 End31
D >>>= &= |= ^= &&= ||= ??= -> >>>=0-4 &=5-7 |=8-10 ^=11-13 &&=14-17 ||=18-21 ??=22-25 End25
D a?.5:b -> Word0-1 ?1-2 Number2-4 :4-5 Word5-6 End6
D a>>>=b -> Word0-1 >>>=1-5 Word5-6 End6
D 1a -> None0
DDDTT `${`${a}`}` -> Head0-3 Head3-6 Word6-7 Tail7-9 Tail9-11 End11
D $ _ a1 $_a -> Word0-1 Word2-3 Word4-6 Word7-10 End10
D this.if -> Word0-4 .4-5 Word5-7 End7
D größe 中文 \u{212e} -> Word0-7 Word8-14 Word15-18 End18
D a\u{200c}\u{200d}1 -> Word0-8 End8
D \u{200c}a -> None0
D a\u{301}b -> Word0-4 End4
D \u{301}a -> None0
D #a #$1 #_ -> Private0-2 Private3-6 Private7-9 End9
D # a -> None0
D #1 -> None0
D # -> None0
D a#b -> Word0-1 Private1-3 End3
D a @ -> Word0-1 None2
D \\u0061 -> None0
D 0 7 10 1234567890 -> Number0-1 Number2-3 Number4-6 Number7-17 End17
D 1_000_000 1_0.0_1e1_0 -> Number0-9 Number10-21 End21
D 1_ -> None0
D 1__0 -> None0
D _1 -> Word0-2 End2
D 0_1 -> None0
D 1. 1.5 1.e3 .5 .5e1 -> Number0-2 Number3-6 Number7-11 Number12-14 Number15-19 End19
D 1._5 -> None0
D 1.5_ -> None0
D 1_.5 -> None0
D ._5 -> .0-1 Word1-3 End3
D .5_0 -> Number0-4 End4
D .5_ -> .0-1 None1
D .5a -> .0-1 None1
D 1..a -> Number0-2 .2-3 Word3-4 End4
D 1.a -> None0
D 1...a -> Number0-2 .2-3 .3-4 Word4-5 End5
D 1e5 1E5 1e+5 1e-5 1.5E+10 -> Number0-3 Number4-7 Number8-12 Number13-17 Number18-25 End25
D 1e -> None0
D 1e+ -> None0
D 1e_5 -> None0
D 1e5_ -> None0
D 1e5.5 -> Number0-3 Number3-5 End5
D 1e5a -> None0
D 1+1-1 -> Number0-1 +1-2 Number2-3 -3-4 Number4-5 End5
D 3in -> None0
D 3 in -> Number0-1 Word2-4 End4
D 3$ -> None0
D 3\"a\" -> Number0-1 Text1-4 End4
D 3中 -> None0
D 0n 1n 1_0n 0x1Fn 0O17n 0b1n -> Number0-2 Number3-5 Number6-10 Number11-16 Number17-22 Number23-27 End27
D 1nn -> None0
D 1n1 -> None0
D 1N -> None0
D 01n -> None0
D 00n -> None0
D 08n -> None0
D 1.n -> None0
D 1.0n -> None0
D 1e1n -> None0
D .5n -> .0-1 Number1-3 End3
D 1n.5 -> Number0-2 Number2-4 End4
D 0xdead_BEEF 0Xf 0o17 0b101 0B1_0 -> Number0-11 Number12-15 Number16-20 Number21-26 Number27-32 End32
D 0b102 -> None0
D 0b12 -> None0
D 0b2 -> None0
D 0o18 -> None0
D 0o8 -> None0
D 0xg -> None0
D 0xfg -> None0
D 0x -> None0
D 0x_1 -> None0
D 0x1_ -> None0
D 0x1__2 -> None0
D 0x1.5 -> Number0-3 Number3-5 End5
D 0x1.a -> Number0-3 .3-4 Word4-5 End5
D 0b1.1 -> Number0-3 Number3-5 End5
D 0xe+1 -> Number0-3 +3-4 Number4-5 End5
D 00 07 017 -> Number0-2 Number3-5 Number6-9 End9
D 08 09 018 0778 -> Number0-2 Number3-5 Number6-9 Number10-14 End14
D 07.5 -> Number0-2 Number2-4 End4
D 07.a -> Number0-2 .2-3 Word3-4 End4
D 08.5 08.5e1 09e1 018. -> Number0-4 Number5-11 Number12-16 Number17-21 End21
D 07e1 -> None0
D 01_1 -> None0
D 08_1 -> None0
D 08.1_1 -> Number0-6 End6
D 0.5 0e1 0.0_1 -> Number0-3 Number4-7 Number8-13 End13
D 0a -> None0
D \"\" '' \"a'b\" 'a\"b' -> Text0-2 Text3-5 Text6-11 Text12-17 End17
D \"a\\\"b\" '\\\\' -> Text0-6 Text7-11 End11
D \"größe \u{2028} \u{2029}\" -> Text0-17 End17
D \"a -> None0
D \"a\\\" -> None0
D \"\\ -> None0
D \"a' -> None0
D \"//\" a -> Text0-4 Word5-6 End6
D \"\\u{zz}\\x\"a -> Text0-10 Word10-11 End11
R /a/ -> RegExp0-3 End3
R /a/gimsuy -> RegExp0-9 End9
R /a/$_1中 -> RegExp0-9 End9
RD /[/]/ a -> RegExp0-5 Word6-7 End7
RD /[\\]/]/ a -> RegExp0-7 Word8-9 End9
RD /[[]/]/ -> RegExp0-5 ]5-6 /6-7 End7
RD /]/ a -> RegExp0-3 Word4-5 End5
RD /\\// a -> RegExp0-4 Word5-6 End6
RD /\\[/ a -> RegExp0-4 Word5-6 End6
RD /=/ a -> RegExp0-3 Word4-5 End5
RD /a*/ b -> RegExp0-4 Word5-6 End6
R /a -> None0
R /[/ -> None0
R /a\\/ -> None0
R / -> None0
R /* -> None0
R /* a -> None0
R //a -> End3 //0-3
R /**/b -> Word4-5 End5 /*0-4
R /a\u{2028}b/ -> None0
R /a\\\u{2029}b/ -> None0
D /a/ -> /0-1 Word1-2 /2-3 End3
T /a/ -> /0-1 Word1-2 /2-3 End3
D a/b/c -> Word0-1 /1-2 Word2-3 /3-4 Word4-5 End5
D /=1 -> /=0-2 Number2-3 End3
D /* a -> /0-1 *1-2 Word3-4 End4
D /*/ -> /0-1 *1-2 /2-3 End3
RDDD /a/ / b -> RegExp0-3 /4-5 Word6-7 End7
D `` `a` `a$b` `$` -> Full0-2 Full3-6 Full7-12 Full13-16 End16
D `\\`` `\\${` -> Full0-4 Full5-10 End10
D `$\\{` -> Full0-5 End5
D `$${` -> Head0-4 None4
D `{}` -> Full0-4 End4
DDT `a${b}c` -> Head0-4 Word4-5 Tail5-8 End8
DDTDT `a${b}c${d}e` -> Head0-4 Word4-5 Middle5-9 Word9-10 Tail10-13 End13
DT `${}` -> Head0-3 Tail3-5 End5
DDD `${a}` -> Head0-3 Word3-4 }4-5 None5
DDR `${a} -> Head0-3 Word3-4 }4-5 End5
T }a -> None0
T }${ -> Middle0-3 End3
T {a -> {0-1 Word1-2 End2
D `a -> None0
D `\\ -> None0
D `中${ -> Head0-6 End6
RRT `${/}/}` -> Head0-3 RegExp3-6 Tail6-8 End8
D >>>>= -> >>>0-3 >=3-5 End5
D >>>>>= -> >>>0-3 >>=3-6 End6
D ==== -> ===0-3 =3-4 End4
D !==== -> !==0-3 ==3-5 End5
D =>= -> =>0-2 =2-3 End3
D .. -> .0-1 .1-2 End2
D .... -> ...0-3 .3-4 End4
D ***= -> **0-2 *=2-4 End4
D **== -> **=0-3 =3-4 End4
D +++ -> ++0-2 +2-3 End3
D ---> -> --0-2 -2-3 >3-4 End4
D <<<= -> <<0-2 <=2-4 End4
D &&&= -> &&0-2 &=2-4 End4
D |||= -> ||0-2 |=2-4 End4
D ???= -> ??0-2 ?2-3 =3-4 End4
D ??.5 -> ??0-2 Number2-4 End4
D ?.a -> ?.0-2 Word2-3 End3
D ?..5 -> ?.0-2 Number2-4 End4
D ?.[ -> ?.0-2 [2-3 End3
D ?.5 -> ?0-1 Number1-3 End3
D ?.\u{663} -> ?.0-2 None2
D ?. -> ?.0-2 End2
D ?. 5 -> ?.0-2 Number3-4 End4
D a?b:c -> Word0-1 ?1-2 Word2-3 :3-4 Word4-5 End5
D !a!=b -> !0-1 Word1-2 !=2-4 Word4-5 End5
D a<!--b -> Word0-1 <1-2 !2-3 --3-5 Word5-6 End6
D  -> End0
D     -> End3
D a\u{a0}b\u{feff}c -> Word0-1 Word3-4 Word7-8 End8
D a\u{180e}b -> Word0-1 None1
D a\u{200b}b -> Word0-1 None1
D a\u{85}b -> Word0-1 None1
D /**/a/* */b/***/c -> Word4-5 Word10-11 Word16-17 End17 /*0-4 /*5-10 /*11-16
D /*/*/a -> Word5-6 End6 /*0-5
D a// b -> Word0-1 End5 //1-5
D a/*b -> Word0-1 /1-2 *2-3 Word3-4 End4
D #!a b -> End5 //0-5
D  #!a -> None1
D #a!b -> Private0-2 !2-3 Word3-4 End4
D a #!b -> Word0-1 None2
D 中/*é*/ö -> Word0-3 Word9-11 End11 /*3-9
DDT `${/*}*/a}`/**/ -> Head0-3 Word8-9 Tail9-11 End15 /*3-8 /*11-15
D /*a*//*b*/; -> ;10-11 End11 /*0-5 /*5-10
D a/*//*/b//*/c -> Word0-1 Word7-8 End13 /*1-7 //8-13
D #! -> End2 //0-2
D #! /* -> End5 //0-5
D \"/*\"/**/ -> Text0-4 End8 /*4-8
D a␊b -> Word0-1 ^Word2-3 End3
D a␍b -> Word0-1 ^Word2-3 End3
D a␍␊b -> Word0-1 ^Word3-4 End4
D a\u{2028}b -> Word0-1 ^Word4-5 End5
D a\u{2029}b -> Word0-1 ^Word4-5 End5
D a\u{85}b -> Word0-1 None1
D a\tb -> Word0-1 Word2-3 End3
D a\u{b}b -> Word0-1 Word2-3 End3
D a\u{c}b -> Word0-1 Word2-3 End3
D a\u{a0}b -> Word0-1 Word3-4 End4
D a\u{feff}b -> Word0-1 Word4-5 End5
D a\u{1680}b -> Word0-1 Word4-5 End5
D a\u{1fff}b -> Word0-1 None1
D a\u{2000}b -> Word0-1 Word4-5 End5
D a\u{2001}\u{2002}\u{2003}\u{2004}\u{2005}b -> Word0-1 Word16-17 End17
D a\u{2006}\u{2007}\u{2008}\u{2009}b -> Word0-1 Word13-14 End14
D a\u{200a}b -> Word0-1 Word4-5 End5
D a\u{200b}b -> Word0-1 None1
D a\u{202f}b -> Word0-1 Word4-5 End5
D a\u{205f}b -> Word0-1 Word4-5 End5
D a\u{3000}b -> Word0-1 Word4-5 End5
D ␊ -> ^End1
D ␊a␊ -> ^Word1-2 ^End3
D a/*␊*/b -> Word0-1 ^Word6-7 End7 /*1-6
D a/*␍*/b -> Word0-1 ^Word6-7 End7 /*1-6
D a/*\u{2028}*/b -> Word0-1 ^Word8-9 End9 /*1-8
D a/*\u{2029}*/ /**/b -> Word0-1 ^Word13-14 End14 /*1-8 /*9-13
D a//x␊b -> Word0-1 ^Word5-6 End6 //1-4
D a//x\u{2028}b -> Word0-1 ^Word7-8 End8 //1-4
D a//x␍␊//y␊b -> Word0-1 ^Word10-11 End11 //1-4 //6-9
D #!x␊/**/a -> ^Word8-9 End9 //0-3 /*4-8
D #!x\u{2029}a -> ^Word6-7 End7 //0-3
D ␊#!x -> None1
D 'a\\␊b' -> Text0-6 End6
D 'a\\␍b' -> Text0-6 End6
D 'a\\␍␊b' -> Text0-7 End7
D 'a\\␍␊␊b' -> None0
D 'a\\␊␍b' -> None0
D 'a␊b' -> None0
D 'a␍b' -> None0
D `a␊␍\u{2028}b`c -> Full0-9 Word9-10 End10
R /a␊b/ -> None0
R /a\\␊b/ -> None0
R /[␍]/ -> None0
R ␊/a/␊g -> ^RegExp1-4 ^Word5-6 End6
D a␊++␊b -> Word0-1 ^++2-4 ^Word5-6 End6";

fn mode_of(letter: u8) -> LexMode {
    match letter {
        b'R' => LexMode::RegExp,
        b'T' => LexMode::TemplateTail,
        _ => LexMode::Division,
    }
}

fn name_of(kind: TokenKind) -> &'static str {
    match kind {
        TokenKind::Word => "Word",
        TokenKind::Private => "Private",
        TokenKind::Punctuator(code) => {
            PUNCTUATORS
                .split_ascii_whitespace()
                .nth(code as usize)
                .unwrap_or("none")
        },
        TokenKind::Number => "Number",
        TokenKind::Text => "Text",
        TokenKind::RegExp => "RegExp",
        TokenKind::Full => "Full",
        TokenKind::Head => "Head",
        TokenKind::Middle => "Middle",
        TokenKind::Tail => "Tail",
        TokenKind::End => "End",
    }
}

/// What is read of a text: its tokens up to the end, or up to the offset at which none fits.
#[derive(Drop)]
struct Reading {
    tokens: Vec<Token>,
    stop: Option<u32>,
}

fn read<L: Ledger>(
    alloc: Global,
    source: &Source,
    modes: &str,
    steps: &mut Steps<L>,
) -> Result<Reading, NoMemory>
    ensures { IfOk result (λ reading.
        All (λ token. IsCharBoundary (text_bytes source.now) token.span.end) reading.tokens.items) }
{
    let letters = modes.as_bytes();
    let mut tokens = Vec::new(alloc);
    let mut mode = LexMode::Division;
    let mut at = 0;
    for turn in 0..source.text().len() + 1 {
        if turn < letters.len() {
            mode = mode_of(letters[turn]);
        }
        match next(source, at, mode, steps) {
            Ok(token) => {
                tokens.push(token)?;
                if token.kind == TokenKind::End {
                    return Ok(Reading { tokens, stop: None });
                }
                at = token.span.end;
            }
            Err(LexFault::NoToken { at }) => {
                return Ok(Reading {
                    tokens,
                    stop: Some(at),
                });
            }
        }
    }
    Ok(Reading { tokens, stop: None })
}

/// What is read of a text, as the tables write it.
fn told<L: Ledger>(
    alloc: Global,
    source: &Source,
    modes: &str,
    steps: &mut Steps<L>,
) -> Result<String, NoMemory> {
    let reading = read(alloc, source, modes, steps)?;
    let mut told = String::new(alloc);
    for token in &reading.tokens {
        let line = if token.line_before { "^" } else { "" };
        let (start, end) = (token.span.start, token.span.end);
        if token.kind == TokenKind::End {
            told.push_str(format!(in alloc; "{line}End{end}")?.as_str())?;
        } else {
            let name = name_of(token.kind);
            told.push_str(format!(in alloc; "{line}{name}{start}-{end} ")?.as_str())?;
        }
    }
    if let Some(at) = reading.stop {
        told.push_str(format!(in alloc; "None{at}")?.as_str())?;
        return Ok(told);
    }
    for comment in &comments(alloc, source, reading.tokens.as_slice())? {
        let mark = if comment.block { "/*" } else { "//" };
        let (start, end) = (comment.span.start, comment.span.end);
        told.push_str(format!(in alloc; " {mark}{start}-{end}")?.as_str())?;
    }
    Ok(told)
}

/// The text of a case: `␊` and `␍` stand for LF and CR.
fn text_of(alloc: Global, case: &str) -> Result<String, NoMemory> {
    let mut text = String::new(alloc);
    for c in case.chars() {
        text.push(match c {
            '␊' => '\n',
            '␍' => '\r',
            c => c,
        })?;
    }
    Ok(text)
}

/// The first case of the table that is read otherwise, with what is read.
fn wrong_case<L: Ledger>(alloc: Global, blank: Blank) -> Result<Option<String>, Fail>
    requires name { blank.name ≡ L.name }
    requires parts { blank.parts ≡ L.parts }
    requires some { 0 < blank.parts }
{
    let mut steps = Steps::<L>::new(blank);
    for line in CASES.split('\n') {
        let Some((modes, case)) = line.split_once(' ') else {
            return Ok(Some(String::from_str(alloc, line)?));
        };
        let Some((text, want)) = case.split_once(" -> ") else {
            return Ok(Some(String::from_str(alloc, line)?));
        };
        let text = text_of(alloc, text)?;
        let source = Source::new(alloc, text.as_str().as_bytes())?;
        let told = told(alloc, &source, modes, &mut steps)?;
        if told.as_str() != want {
            return Ok(Some(format!(in alloc; "{line}: {told}")?));
        }
    }
    Ok(None)
}

#[test]
fn tokens(rt: HostRuntime) -> Result<(), Fail> {
    let wrong = wrong_case::<Brand>(rt.alloc(), Blank::new(1))?;
    assert_eq!(rt; wrong.as_deref(), None);
    Ok(())
}
