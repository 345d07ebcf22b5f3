ghost use Rattle.std.specs.Prelude.{◌≡◌, IfOk};

use es_text::NoMemory;
use std::alloc::Global;
use std::marker::Model;

/// A call that failed: the name that it was given, and whether it was a write.
#[derive(Drop)]
pub struct FailedCall {
    name: String,
    writes: bool,
}

impl Model for FailedCall {
    ghost use Rattle.std.specs.Prelude.{string_bytes};
    ghost use Rattle.es_files.specs.Outside.{Call};
    ghost use Rattle.es_files.specs.Fakes.{coded_call};

    ghost Value = { Call };

    ghost coded = { coded_call };

    ghost view = { λ call. record { name = string_bytes call.name; writes = call.writes } };
}

impl FailedCall {
    /// Copies the name.
    pub fn new(alloc: Global, name: &str, writes: bool) -> Result<FailedCall, NoMemory>
        ensures { IfOk result (λ call. call ≡ record { name = name.now; writes = writes }) }
    {
        let name = String::from_str(alloc, name)?;
        Ok(FailedCall { name, writes })
    }
}
