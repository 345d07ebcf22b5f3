ghost use Rattle.std.specs.Prelude.{◌≡◌, IfOk};

use es_text::NoMemory;

/// The index as a number of a scope or variable, of which there are 2^32. Past them the answer is
/// `NoMemory`.
pub fn number(index: usize) -> Result<u32, NoMemory>
    ensures { IfOk result (λ number. number ≡ index) }
{
    u32::try_from(index).map_err(|_too_many| NoMemory)
}
