//! A short notation of skeletons, for tests. A small letter is a label, and a large one a
//! completion: `N` normal, `Y` and `F` the truths, `B`, `D` and `E` breaks with three targets, `C`
//! continue, `R` return, `T` throw, `S` short. `.T` is an exit with throw, `:B` an entry of that
//! break, `(x y)` a list, `|x y` a choice, `*x` a loop, `^T x y` is `x` with `y` where it throws,
//! and `/x y` is `x` with the finalizer `y`.

use crate::{Completion, Skeleton};
use es_fork::Label;
use es_text::NoMemory;
use std::alloc::Global;

fn completion_of(letter: u8) -> Completion {
    match letter {
        b'N' => Completion::Normal,
        b'Y' => Completion::Truth(true),
        b'F' => Completion::Truth(false),
        b'B' => Completion::Break(0),
        b'D' => Completion::Break(1),
        b'E' => Completion::Break(2),
        b'C' => Completion::Continue(0),
        b'R' => Completion::Return,
        b'T' => Completion::Throw,
        _ => Completion::Short,
    }
}

/// Reads from the right: what was read last stands on top.
#[derive(Drop)]
struct Reader {
    alloc: Global,
    parts: Vec<Skeleton>,
    /// How many parts there were at the end of each open list.
    marks: Vec<usize>,
    completion: Completion,
}

impl Reader {
    /// The part on top; an empty list, where there is none.
    fn part(&mut self) -> Skeleton {
        match self.parts.pop() {
            Some(part) => part,
            None => Skeleton::list(Vec::new(self.alloc)),
        }
    }

    fn list(&mut self) -> Result<Skeleton, NoMemory> {
        let mark = self.marks.pop().unwrap_or(0);
        let mut list = Vec::new(self.alloc);
        for _ in mark..self.parts.len() {
            if let Some(part) = self.parts.pop() {
                list.push(part)?;
            }
        }
        Ok(Skeleton::list(list))
    }

    fn of_two(&mut self, byte: u8) -> Result<Skeleton, NoMemory> {
        let first = self.part();
        let second = self.part();
        match byte {
            b'|' => Skeleton::choice(self.alloc, first, second),
            b'/' => Skeleton::finally(self.alloc, first, second),
            _ => Skeleton::catch(self.alloc, self.completion, first, second),
        }
    }

    fn read(&mut self, byte: u8) -> Result<(), NoMemory> {
        let made = match byte {
            b' ' => return Ok(()),
            b')' => {
                self.marks.push(self.parts.len())?;
                return Ok(());
            }
            b'A'..=b'Z' => {
                self.completion = completion_of(byte);
                return Ok(());
            }
            b'(' => self.list()?,
            b'.' => Skeleton::Exit(self.completion),
            b':' => Skeleton::Entry(self.completion),
            b'*' => {
                let part = self.part();
                Skeleton::repeated(self.alloc, part)?
            }
            b'|' | b'/' | b'^' => self.of_two(byte)?,
            letter => Skeleton::Emit(Label::Enter(u32::from(letter))),
        };
        self.parts.push(made)?;
        Ok(())
    }
}

/// The skeleton of a text in the notation.
pub fn skeleton_of(alloc: Global, text: &str) -> Result<Skeleton, NoMemory> {
    let mut reader = Reader {
        alloc,
        parts: Vec::new(alloc),
        marks: Vec::new(alloc),
        completion: Completion::Normal,
    };
    for byte in text.as_bytes().iter().rev() {
        reader.read(*byte)?;
    }
    match reader.parts.pop() {
        Some(skeleton) => Ok(skeleton),
        None => Ok(Skeleton::list(Vec::new(alloc))),
    }
}
