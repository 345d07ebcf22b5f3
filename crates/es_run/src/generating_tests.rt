//! The bytes of generated texts. They are written out by hand.
use crate::generating::generated_text;
use std::process::Abort;
use std::test::Fail;

static TEXT: &str = "function f1(a) { for (;;) { if (a > 1) { return a; } a++; } debugger; }
function f2(a) { for (;;) { if (a > 2) { return a; } a++; } debugger; }
function f3(a) { for (;;) { if (a > 3) { return a; } a++; } debugger; }
";

static TENTH: &str = "function f10(a) { for (;;) { if (a > 10) { return a; } a++; } debugger; }
";

// Numbers of lines and of bytes: a line with a number of one digit has 72 bytes, and each digit more adds two.
static LENGTHS: [(u32, usize); 6] = [
    (0, 0),
    (1, 72),
    (3, 216),
    (9, 648),
    (10, 722),
    (10_000, 777_788),
];

#[test]
fn texts_of_some_lines(rt: HostRuntime) -> Result<(), Fail> {
    let alloc = rt.alloc();
    let three = generated_text(alloc, 3)?;
    assert_eq!(rt; three.as_slice(), TEXT.as_bytes());
    let ten = generated_text(alloc, 10)?;
    assert!(rt; ten.as_slice().starts_with(TEXT.as_bytes()));
    assert!(rt; ten.as_slice().ends_with(TENTH.as_bytes()));
    for &(count, bytes) in &LENGTHS {
        let text = generated_text(alloc, count)?;
        assert_eq!(rt; text.len(), bytes);
    }
    Ok(())
}
