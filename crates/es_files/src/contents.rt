ghost use Rattle.std.specs.Prelude.{◌≡◌, ◌≢◌, ◌≤◌, length, IfOk, OnOk, OnErr, option_copied};
ghost use Rattle.std.specs.FinMap as map;
ghost use Rattle.es_files.specs.Outside.{HoldsMore};

use crate::outside::ReadFault;
use es_text::NoMemory;
use std::alloc::Global;
use std::collections::BTreeMap;
use std::marker::Model;

/// Names and what they hold, in memory.
#[derive(Drop)]
pub struct Contents {
    files: BTreeMap<String, Vec<u8>>,
}

impl Model for Contents {
    ghost use Rattle.std.specs.Coded.{coded_list, coded_ℕ};
    ghost use Rattle.std.specs.FinMap as map;
    ghost use Rattle.es_files.specs.Outside.{Held};
    ghost use Rattle.es_files.specs.Seen.{held_of};

    ghost Value = { Held };

    ghost coded = { map.code (coded_list coded_ℕ) (coded_list coded_ℕ) };

    ghost view = { λ contents. held_of contents.files.entries };
}

impl Contents {
    /// Nothing held, which takes no memory.
    pub fn new(alloc: Global) -> Contents
        ensures { result ≡ map.empty }
    {
        Contents {
            files: BTreeMap::new(alloc),
        }
    }

    /// What the name holds, or `None` exactly where it is not held.
    pub fn get(&self, name: &str) -> Option<&[u8]>
        ensures { option_copied result ≡ map.get self.now name.now }
    {
        match self.files.get(name) {
            Some(bytes) => Some(bytes.as_slice()),
            None => None,
        }
    }

    /// Makes the name hold the bytes, in place of what it held. `NoMemory` leaves all as it was.
    pub fn put(&mut self, alloc: Global, name: &str, bytes: &[u8]) -> Result<(), NoMemory>
        ensures ok { OnOk result (self.new ≡ map.insert self.old name.now bytes.now) }
        ensures err { OnErr result (self.new ≡ self.old) }
    {
        let key = String::from_str(alloc, name)?;
        let copy = Vec::from_slice(alloc, bytes)?;
        self.files.insert(key, copy)?;
        Ok(())
    }

    /// A copy of what the name holds, where it is at most `limit` bytes. `Missing` comes where the
    /// name isn't held, `TooLong` where it holds more, and `NoMemory` where there is none for the
    /// copy.
    pub fn read(&self, alloc: Global, name: &str, limit: u64) -> Result<Vec<u8>, ReadFault>
        ensures ok { IfOk result (λ bytes. map.get self.now name.now ≡ Some bytes.items) }
        ensures within { IfOk result (λ bytes. length bytes.items ≤ limit) }
        ensures missing { result ≡ Err ReadFault.Missing → map.get self.now name.now ≡ None }
        ensures long { result ≡ Err ReadFault.TooLong → HoldsMore self.now name.now limit }
        ensures never { result ≢ Err ReadFault.Failed }
    {
        let Some(bytes) = self.get(name) else {
            return Err(ReadFault::Missing);
        };
        if bytes.len() as u64 > limit {
            return Err(ReadFault::TooLong);
        }
        match Vec::from_slice(alloc, bytes) {
            Ok(copy) => Ok(copy),
            Err(_) => Err(ReadFault::NoMemory),
        }
    }
}
