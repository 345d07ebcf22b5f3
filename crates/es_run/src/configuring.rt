//! The configuration of a run.
ghost use Rattle.std.specs.Prelude.{◌≡◌, ◌≤◌, IfErr, IfOk, OnOk, encode_utf8_all, length};
ghost use Rattle.std.specs.Option.{ForSome};
ghost use Rattle.es_config.specs.Configurations.{AreTakenChanges};
ghost use Rattle.es_config.specs.Entries.{layers_of};
ghost use Rattle.es_config.specs.Reading.{known};
ghost use Rattle.es_run.specs.Stages.{IsConfigured, IsUnconfigured, blames_config, config_fault_of};

use crate::status::{Fault, StopCause};
use es_config::{Config, ConfigFault, read};
use es_files::{Files, ReadFault};
use es_settings::Known;
use es_text::Txt;
use std::alloc::Global;

/// The most bytes of a configuration that is read.
const MOST_CONFIG_BYTES: u64 = 1_048_576;

/// What a fault of reading the configuration's bytes is to the run.
fn config_fault_of(fault: ReadFault, name: Txt) -> Fault
    ensures { result ≡ config_fault_of fault name }
{
    match fault {
        ReadFault::Missing => Fault::Stop(StopCause::ConfigMissing),
        ReadFault::TooLong => Fault::Stop(StopCause::TooLong { name }),
        ReadFault::Failed => Fault::Stop(StopCause::CannotRead { name }),
        ReadFault::NoMemory => Fault::NoMemory,
    }
}

/// The configuration that is held under this name, in which these rules may be named.
pub(crate) fn configure<K: Known, F: Files>(
    alloc: Global,
    name: &Txt,
    rules: &K,
    files: &mut F,
) -> Result<Config, Fault>
    ensures value { IfOk result (λ config. ForSome (F.state files.old).holds (λ held.
        IsConfigured (known (K.ids rules.now) (K.verdict rules.now)) held name.now (layers_of config.entries))) }
    ensures count { IfOk result (λ config. config.count ≡ length (K.ids rules.now)) }
    ensures taken { IfOk result (λ config. AreTakenChanges
        (K.verdict rules.now) (length (K.ids rules.now)) (layers_of config.entries)) }
    ensures refused { IfErr result (λ fault. ForSome (F.state files.old).holds (λ held.
        IsUnconfigured (known (K.ids rules.now) (K.verdict rules.now)) held name.now fault)) }
    ensures blame { IfErr result (blames_config name.now (F.state files.old) (F.state files.new)) }
    ensures still { OnOk result (F.state files.new ≡ F.state files.old) }
    ensures same { (F.state files.new).holds ≡ (F.state files.old).holds }
    ensures later { (F.state files.old).faults ≤ (F.state files.new).faults }
{
    let bytes = match files.read(alloc, name.as_str(), MOST_CONFIG_BYTES) {
        Ok(bytes) => bytes,
        Err(fault) => return Err(config_fault_of(fault, name.copy(alloc)?)),
    };
    match read(alloc, bytes.as_slice(), rules) {
        Ok(config) => Ok(config),
        Err(ConfigFault::Bad { kind, pointer }) => {
            Err(Fault::Stop(StopCause::BadConfig { kind, pointer }))
        }
        Err(ConfigFault::NoMemory) => Err(Fault::NoMemory),
    }
}
