use es_text::NoMemory;

/// Why a text isn't read as a glob.
#[derive(Clone, Copy, Debug, PartialEq, Eq)]
pub enum GlobFault {
    /// It isn't one.
    BadGlob,
    /// Out of memory.
    NoMemory,
}

impl From<NoMemory> for GlobFault {
    ghost use Rattle.std.specs.Prelude.{◌≡◌};
    ghost use Rattle.es_globs.specs.declared.fault.GlobFault.TheVariants as fault;

    ghost from_gives = { λ _ made. made ≡ fault.NoMemory };

    fn from(_error: NoMemory) -> GlobFault {
        GlobFault::NoMemory
    }
}
