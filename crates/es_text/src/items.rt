ghost use Rattle.std.specs.Prelude.{◌≡◌, [], ◌∷◌, ◌++◌, ◌<◌, length, IfOk, IfErr, OnOk, OnErr};
ghost use Rattle.es_text.specs.Lists.{pushed_at};

use std::alloc::{AllocFailed, Global};
use std::marker::Model;

/// A list that contracts see as its items. It may stand inside the type of its own items.
#[derive(Drop)]
pub struct Items<T> {
    items: Vec<T>,
}

impl<T> Model for Items<T> {
    ghost use Rattle.std.specs.Prelude.{List};
    ghost use Rattle.std.specs.Coded.{coded_list};

    ghost Value = { List T };

    ghost coded = { coded_list T.code };

    ghost view = { λ list. list.items.items };
}

impl<T> Items<T> {
    /// The empty list, which takes no memory.
    pub fn new(alloc: Global) -> Items<T>
        ensures { result ≡ [] }
    {
        Items {
            items: Vec::new(alloc),
        }
    }

    /// The list with the items of the Vec, which keeps its memory.
    pub fn from_vec(items: Vec<T>) -> Items<T>
        ensures { result ≡ items.items }
    {
        Items { items }
    }

    /// The Vec of the items, which keeps its memory.
    pub fn into_vec(self) -> Vec<T>
        ensures { result.items ≡ self }
    {
        let Items { items } = self;
        items
    }

    /// The items.
    pub fn as_slice(&self) -> &[T]
        ensures { result.now ≡ self.now }
    {
        self.items.as_slice()
    }

    /// How many items there are.
    pub fn len(&self) -> usize
        ensures { result ≡ length self.now }
    {
        self.items.len()
    }

    /// Puts an item at the end. A refused push leaves the list and hands the item back.
    pub fn push(&mut self, item: T) -> Result<(), AllocFailed<T>>
        ensures ok { OnOk result (self.new ≡ self.old ++ item ∷ []) }
        ensures err { OnErr result (self.new ≡ self.old) }
        ensures back { IfErr result (λ refused. refused.value ≡ item) }
    {
        self.items.push(item)
    }
}

/// Puts an item at the end of the list at this index, and leaves the other lists. A refused push
/// leaves all and hands the item back.
pub fn push_at<T>(lists: &mut Items<Items<T>>, at: usize, item: T) -> Result<(), AllocFailed<T>>
    requires { at < length lists.old }
    ensures ok { OnOk result (lists.new ≡ pushed_at lists.old at item) }
    ensures err { OnErr result (lists.new ≡ lists.old) }
    ensures back { IfErr result (λ refused. refused.value ≡ item) }
{
    let list = &mut lists.items[at];
    if list.items.is_empty() {
        // Most lists of a tree keep one item. Where memory is short, the push tells so.
        let _ = list.items.try_reserve_exact(1);
    }
    list.push(item)
}
