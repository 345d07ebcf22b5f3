ghost use Rattle.std.specs.Prelude.{◌≡◌, ◌≤◌, ◌*◌, length, take, IfOk};
ghost use Rattle.es_text.specs.UnitCounts.{units_begun, units_begun_in, AreMarks, CountsUnits};

use crate::memory::NoMemory;
use crate::source::MOST_TEXT_BYTES;
use std::alloc::Global;

/// How many bytes stand from one mark to the next.
pub const BYTES_A_MARK: usize = 256;

/// What counts the UTF-16 code units before an offset of a text fast.
///
/// A unit counts where its character's UTF-8 begins, so that bytes alone tell the number.
#[derive(Drop, Debug)]
pub struct UnitCounts {
    /// Whether the text is ASCII: its bytes are its units, and there are no marks.
    ascii: bool,
    /// The units that begin before offset 0, before offset 256, and so on.
    marks: Vec<u32>,
}

impl UnitCounts {
    /// What is kept of this text, which is gone over once.
    pub fn of(alloc: Global, text: &str) -> Result<UnitCounts, NoMemory>
        requires { length text.now ≤ MOST_TEXT_BYTES }
        ensures { IfOk result (CountsUnits text.now) }
    {
        let ascii = text.is_ascii();
        let marks = if ascii {
            Vec::new(alloc)
        } else {
            unit_marks(alloc, text.as_bytes())?
        };
        Ok(UnitCounts { ascii, marks })
    }

    /// How many units begin before the offset, in the text that was counted.
    pub fn count_before(&self, text: &str, at: usize) -> usize
        requires within { at ≤ length text.now }
        requires counted { CountsUnits text.now self.now }
        ensures { result ≡ units_begun_in (take at text.now) }
    {
        if self.ascii {
            at
        } else {
            count_by_marks(self.marks.as_slice(), text.as_bytes(), at)
        }
    }
}

/// How many units begin before the offset: those before the last mark, and those since.
fn count_by_marks(marks: &[u32], bytes: &[u8], at: usize) -> usize
    requires within { at ≤ length bytes.now }
    requires marked { AreMarks bytes.now marks.now }
    ensures { result ≡ units_begun_in (take at bytes.now) }
{
    let mark = at / BYTES_A_MARK;
    marks[mark] as usize + count_units(&bytes[mark * BYTES_A_MARK..at])
}

/// How many units begin before each 256th byte.
fn unit_marks(alloc: Global, bytes: &[u8]) -> Result<Vec<u32>, NoMemory>
    requires { length bytes.now ≤ MOST_TEXT_BYTES }
    ensures { IfOk result (λ marks. AreMarks bytes.now marks.items) }
{
    let mut marks = Vec::new(alloc);
    marks.push(0)?;
    let mut units = 0;
    for mark in 0..bytes.len() / BYTES_A_MARK {
        let start = mark * BYTES_A_MARK;
        units += count_units(&bytes[start..start + BYTES_A_MARK]);
        marks.push(units as u32)?;
    }
    Ok(marks)
}

/// How many units begin at these bytes.
fn count_units(bytes: &[u8]) -> usize
    requires { length bytes.now ≤ MOST_TEXT_BYTES }
    ensures units { result ≡ units_begun_in bytes.now }
    ensures bound { result ≤ 2 * length bytes.now }
{
    let mut units = 0;
    for byte in bytes {
        units += units_begun(*byte);
    }
    units
}

/// How many units the character takes that begins at this byte of UTF-8, or 0 where none begins.
fn units_begun(byte: u8) -> usize
    ensures { result ≡ units_begun byte }
{
    match byte {
        0..=127 => 1,
        128..=191 => 0,
        192..=239 => 1,
        240..=255 => 2,
    }
}
