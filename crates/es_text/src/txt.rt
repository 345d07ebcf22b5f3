ghost use Rattle.std.specs.Prelude.{◌≡◌, IfOk};
ghost use Rattle.std.specs.Str.{chars, encode_utf8_all};

use crate::memory::NoMemory;
use std::alloc::Global;
use std::marker::Model;

/// A text of its own memory, which contracts see as the list of its characters.
#[derive(Drop, Debug)]
pub struct Txt {
    text: String,
}

impl Model for Txt {
    ghost use Rattle.std.specs.Prelude.{List, ℕ};
    ghost use Rattle.std.specs.Str.{chars};
    ghost use Rattle.std.specs.String.{string_bytes};

    ghost Value = { List ℕ };

    ghost view = { λ txt. chars (string_bytes txt.text) };
}

impl Txt {
    /// A copy of the text, or `NoMemory`.
    pub fn new(alloc: Global, text: &str) -> Result<Txt, NoMemory>
        ensures { IfOk result (λ txt. txt ≡ chars text.now) }
    {
        let text = String::from_str(alloc, text)?;
        Ok(Txt { text })
    }

    /// Its characters, in UTF-8.
    pub fn as_str(&self) -> &str
        ensures bytes { result.now ≡ encode_utf8_all self.now }
        ensures characters { chars result.now ≡ self.now }
    {
        self.text.as_str()
    }

    /// An equal text in memory of its own, or `NoMemory`.
    pub fn copy(&self, alloc: Global) -> Result<Txt, NoMemory>
        ensures { IfOk result (λ copy. copy ≡ self.now) }
    {
        Txt::new(alloc, self.as_str())
    }
}
