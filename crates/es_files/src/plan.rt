ghost use Rattle.std.specs.Prelude.{◌≡◌, OnOk, OnErr};
ghost use Rattle.es_files.specs.Fakes.{counted, next_failure, no_calls, with_failure};

use es_text::NoMemory;
use std::alloc::Global;
use std::collections::BTreeMap;
use std::marker::Model;

/// The calls of one kind: how many were made, and which are to fail.
#[derive(Drop)]
pub struct Plan {
    made: u64,
    fails: BTreeMap<u64, u64>,
}

impl Model for Plan {
    ghost use Rattle.es_files.specs.Fakes.{Calls, coded_calls};
    ghost use Rattle.es_files.specs.Seen.{numbers_of};

    ghost Value = { Calls };

    ghost coded = { coded_calls };

    ghost view = { λ plan. record { made = plan.made; fails = numbers_of plan.fails.entries } };
}

impl Plan {
    /// No call was made and none is to fail. It takes no memory.
    pub fn new(alloc: Global) -> Plan
        ensures { result ≡ no_calls }
    {
        Plan {
            made: 0,
            fails: BTreeMap::new(alloc),
        }
    }

    /// The call of this number, from 1, is to fail and to leave `left` bytes, in place of what was
    /// planned for it before.
    pub fn fail(&mut self, call: u64, left: u64) -> Result<(), NoMemory>
        ensures ok { OnOk result (self.new ≡ with_failure self.old call left) }
        ensures err { OnErr result (self.new ≡ self.old) }
    {
        self.fails.insert(call, left)?;
        Ok(())
    }

    /// Counts a call, and answers how many bytes it leaves where it is to fail.
    pub fn next_call(&mut self) -> Option<u64>
        ensures planned { result ≡ next_failure self.old }
        ensures after { self.new ≡ counted self.old }
    {
        self.made = self.made.saturating_add(1);
        self.fails.get(&self.made).copied()
    }
}
