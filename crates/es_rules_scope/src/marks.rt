//! Numbers that are marked.
ghost use Rattle.std.specs.Prelude.{ℕ, ◌≡◌, ◌||◌, ◌++◌, ◌==◌, IfOk, OnOk};
ghost use Rattle.es_scopes.specs.Declarations.{some_list};
ghost use Rattle.es_rules_scope.specs.Marks.{AreMarked, is_marked};

use es_text::NoMemory;
use std::alloc::Global;

/// Marks these numbers. The marks take room for the greatest of them.
#[tactic(auto, using(crate::proofs::MarksLemmas::marked_more))]
pub fn marks_of(alloc: Global, numbers: &[u32]) -> Result<Vec<bool>, NoMemory>
    ensures { IfOk result (λ marks. AreMarked numbers.now marks.items) }
{
    let mut marks = Vec::new(alloc);
    for number in numbers {
        mark(&mut marks, *number)?;
    }
    Ok(marks)
}

/// Puts a number, if there is one, at the end.
pub fn put(numbers: &mut Vec<u32>, number: Option<u32>) -> Result<(), NoMemory>
    ensures { OnOk result (numbers.new.items ≡ numbers.old.items ++ some_list number) }
{
    if let Some(number) = number {
        numbers.push(number)?;
    }
    Ok(())
}

/// Marks one more number.
fn mark(marks: &mut Vec<bool>, number: u32) -> Result<(), NoMemory>
    ensures { OnOk result ((other : ℕ) →
        is_marked marks.new.items other ≡ ((number == other) || is_marked marks.old.items other)) }
{
    let index = number as usize;
    if index >= marks.len() {
        marks.resize(index + 1, false)?;
    }
    marks[index] = true;
    Ok(())
}

/// Whether the number is marked.
pub fn is_marked(marks: &[bool], number: usize) -> bool
    ensures { result ≡ is_marked marks.now number }
{
    match marks.get(number) {
        Some(mark) => *mark,
        None => false,
    }
}
