/// What a run does with the fixes of reports.
#[derive(Clone, Copy, Debug, PartialEq, Eq)]
pub enum Mode {
    /// It makes none.
    Report,
    /// It makes them, as ESLint's `--fix`.
    FixAll,
    /// It makes those of errors, as `--fix` with `--quiet`.
    FixErrors,
}
