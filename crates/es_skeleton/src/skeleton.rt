ghost use Rattle.std.specs.Prelude.{◌≡◌, IfOk};
ghost use Rattle.es_skeleton.specs.declared.completion.Completion.TheVariants.{Normal};
ghost use Rattle.es_skeleton.specs.Controls.{Exit, Catch, Choice, Loop, Finally};
ghost use Rattle.es_skeleton.specs.Shapes.{entry_of, shape, onto};

use crate::completion::Completion;
use es_fork::Label;
use es_text::NoMemory;
use std::alloc::Global;

/// What a part of a program may do: which labels, in which order, and how it ends.
#[derive(Drop)]
pub enum Skeleton {
    /// The label, and then a normal end.
    Emit(Label),
    /// This completion at once.
    Exit(Completion),
    /// The first part; where it ends with the completion, the second part follows.
    Catch(Completion, Box<Skeleton>, Box<Skeleton>),
    /// One of the two parts.
    Choice(Box<Skeleton>, Box<Skeleton>),
    /// The part again and again, as long as it ends normally.
    Loop(Box<Skeleton>),
    /// The first part, and the second at each of its ends. Where the second ends normally, the
    /// first part's completion goes on; else the second's.
    Finally(Box<Skeleton>, Box<Skeleton>),
    /// The parts one after another, as long as they end normally.
    Seq(Vec<Skeleton>),
    /// In a list: where a part before ended with the completion, the parts from here on follow, as
    /// they follow a normal end. By itself a normal end.
    Entry(Completion),
}

impl Skeleton {
    /// The parts one after another.
    pub fn list(parts: Vec<Skeleton>) -> Skeleton
        ensures { shape result ≡ onto (Exit Normal) parts.items }
    {
        Skeleton::Seq(parts)
    }

    /// The first part; where it ends with the completion, the second part follows.
    pub fn catch(
        alloc: Global,
        completion: Completion,
        first: Skeleton,
        second: Skeleton,
    ) -> Result<Skeleton, NoMemory>
        ensures { IfOk result
            (λ made. shape made ≡ Catch completion (shape first) (shape second)) }
    {
        let first = Box::new(alloc, first)?;
        let second = Box::new(alloc, second)?;
        Ok(Skeleton::Catch(completion, first, second))
    }

    /// One of the two parts.
    pub fn choice(alloc: Global, first: Skeleton, second: Skeleton) -> Result<Skeleton, NoMemory>
        ensures { IfOk result (λ made. shape made ≡ Choice (shape first) (shape second)) }
    {
        let first = Box::new(alloc, first)?;
        let second = Box::new(alloc, second)?;
        Ok(Skeleton::Choice(first, second))
    }

    /// The part again and again, as long as it ends normally.
    pub fn repeated(alloc: Global, part: Skeleton) -> Result<Skeleton, NoMemory>
        ensures { IfOk result (λ made. shape made ≡ Loop (shape part)) }
    {
        Ok(Skeleton::Loop(Box::new(alloc, part)?))
    }

    /// The body, and at each of its ends the finalizer.
    pub fn finally(alloc: Global, body: Skeleton, finalizer: Skeleton) -> Result<Skeleton, NoMemory>
        ensures { IfOk result (λ made. shape made ≡ Finally (shape body) (shape finalizer)) }
    {
        let body = Box::new(alloc, body)?;
        let finalizer = Box::new(alloc, finalizer)?;
        Ok(Skeleton::Finally(body, finalizer))
    }

    /// The completion of an `Entry`.
    pub(crate) fn entry(&self) -> Option<Completion>
        ensures { result ≡ entry_of self.now }
    {
        match self {
            Skeleton::Entry(completion) => Some(*completion),
            _ => None,
        }
    }
}
