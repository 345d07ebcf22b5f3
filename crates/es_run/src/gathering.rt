//! What a run gathers before it lints.
ghost use Rattle.std.specs.Prelude.{◌≡◌, ◌≤◌, ◌+◌, All, IfErr, IfOk, OnOk, length, map};
ghost use Rattle.std.specs.Option.{ForSome};
ghost use Rattle.es_text.specs.SourceFaults.{most_bytes};
ghost use Rattle.es_config.specs.Outcomes.{outcome_in};
ghost use Rattle.es_run.specs.Gathering.{bytes_in, gathered, most_total_bytes, part_of, read_of};
ghost use Rattle.es_run.specs.Stages.{BlamesNames, BlamesName, IsGatheredAs, IsPartOf, IsReadAs, KeepsPart, fault_of, name_in, named_part_in, part_in};

use crate::status::{Fault, StopCause};
use es_config::{Config, Decision, for_name};
use es_files::{Files, ReadFault};
use es_settings::FileConfig;
use es_text::{Items, Txt};
use std::alloc::Global;

/// The most bytes of a file that is read.
const MOST_BYTES: u64 = 2_097_152;

/// The most bytes of all files together.
const MOST_TOTAL_BYTES: u64 = 134_217_728;

/// What is gathered of a name.
#[derive(Drop)]
pub(crate) enum Part {
    /// The file is linted: what is set for it, and its bytes.
    Source(FileConfig, Vec<u8>),
    /// It isn't, and this is told of it.
    LeftOut(&'static str),
}

/// What a fault of reading the name is to the run.
fn fault_of(fault: ReadFault, name: Txt) -> Fault
    ensures { result ≡ fault_of fault name }
{
    match fault {
        ReadFault::Missing => Fault::Stop(StopCause::NoFile { name }),
        ReadFault::TooLong => Fault::Stop(StopCause::TooLong { name }),
        ReadFault::Failed => Fault::Stop(StopCause::CannotRead { name }),
        ReadFault::NoMemory => Fault::NoMemory,
    }
}

/// The bytes that are held under this name, where so many were read before.
pub(crate) fn read_source<F: Files>(
    alloc: Global,
    name: &Txt,
    before: u64,
    files: &mut F,
) -> Result<Vec<u8>, Fault>
    requires { before ≤ most_total_bytes }
    ensures value { ForSome (F.state files.old).holds (λ held. IsReadAs held before name.now result) }
    ensures short { IfOk result (λ bytes. length bytes.items ≤ most_bytes) }
    ensures few { IfOk result (λ bytes. before + length bytes.items ≤ most_total_bytes) }
    ensures blame { IfErr result (BlamesName name.now (F.state files.old) (F.state files.new)) }
    ensures still { OnOk result (F.state files.new ≡ F.state files.old) }
    ensures same { (F.state files.new).holds ≡ (F.state files.old).holds }
    ensures later { (F.state files.old).faults ≤ (F.state files.new).faults }
{
    let bytes = match files.read(alloc, name.as_str(), MOST_BYTES) {
        Ok(bytes) => bytes,
        Err(fault) => return Err(fault_of(fault, name.copy(alloc)?)),
    };
    let total = before + bytes.len() as u64;
    if total > MOST_TOTAL_BYTES {
        return Err(Fault::Stop(StopCause::TooMuch { bytes: total }));
    }
    Ok(bytes)
}

/// What comes of a name, where so many bytes were read before. A file that isn't linted isn't read.
fn part_of<F: Files>(
    alloc: Global,
    config: &Config,
    inline: bool,
    name: &Txt,
    before: u64,
    files: &mut F,
) -> Result<Part, Fault>
    requires { before ≤ most_total_bytes }
    ensures value { ForSome (F.state files.old).holds (λ held.
        IsPartOf inline held before name.now (outcome_in config.now name.now) result) }
    ensures few { IfOk result (λ part. before + bytes_in (part_in part) ≤ most_total_bytes) }
    ensures taken { IfOk result (KeepsPart config.now) }
    ensures blame { IfErr result (BlamesName name.now (F.state files.old) (F.state files.new)) }
    ensures still { OnOk result (F.state files.new ≡ F.state files.old) }
    ensures same { (F.state files.new).holds ≡ (F.state files.old).holds }
    ensures later { (F.state files.old).faults ≤ (F.state files.new).faults }
{
    match for_name(alloc, config, name.as_str())? {
        Decision::Lint(mut set) => {
            set.inline = set.inline && inline;
            let bytes = read_source(alloc, name, before, files)?;
            Ok(Part::Source(set, bytes))
        }
        Decision::Ignored => Ok(Part::LeftOut(
            "File ignored because of a matching ignore pattern.",
        )),
        Decision::Unmatched => Ok(Part::LeftOut(
            "File ignored because no matching configuration was supplied.",
        )),
        Decision::Outside => Ok(Part::LeftOut("File ignored because outside of base path.")),
    }
}

/// The bytes that were read for it.
fn bytes_in(part: &Part) -> u64
    ensures { result ≡ bytes_in (part_in part.now) }
{
    match part {
        Part::Source(_, bytes) => bytes.len() as u64,
        Part::LeftOut(_) => 0,
    }
}

/// What is gathered of these names in their order, each once decided and read, up to the first refusal. Nothing is
/// written.
pub(crate) fn gather<F: Files>(
    alloc: Global,
    config: &Config,
    inline: bool,
    names: Items<Txt>,
    files: &mut F,
) -> Result<Vec<(Txt, Part)>, Fault>
    ensures value { ForSome (F.state files.old).holds (λ held.
        IsGatheredAs (gathered inline (outcome_in config.now) held 0 names) result) }
    ensures taken { IfOk result (λ parts. All (λ named. KeepsPart config.now named.1) parts.items) }
    ensures named { IfOk result (λ parts. map name_in parts.items ≡ names) }
    ensures blame { IfErr result (BlamesNames names (F.state files.old) (F.state files.new)) }
    ensures still { OnOk result (F.state files.new ≡ F.state files.old) }
    ensures same { (F.state files.new).holds ≡ (F.state files.old).holds }
    ensures later { (F.state files.old).faults ≤ (F.state files.new).faults }
{
    let mut parts = Vec::new(alloc);
    let mut total = 0;
    for name in names.into_vec() {
        let part = match part_of(alloc, config, inline, &name, total, files) {
            Ok(part) => part,
            Err(fault) => return Err(fault),
        };
        total += bytes_in(&part);
        parts.push((name, part))?;
    }
    Ok(parts)
}
