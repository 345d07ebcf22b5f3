use crate::around::parent;
use crate::tree::Tree;

/// The nodes around a node, from its parent out to the Program.
#[derive(Drop)]
pub struct Ancestors<'a> {
    tree: &'a Tree,
    next: Option<u32>,
}

impl<'a> Ancestors<'a> {
    ghost use Rattle.std.specs.Prelude.{◌≡◌, ◌∷◌};
    ghost use Rattle.es_tree.specs.Around.{ancestors, left};

    /// The nodes around the node. One step takes constant time.
    pub fn of(tree: &'a Tree, node: u32) -> Ancestors<'a>
        ensures { left result ≡ ancestors tree.now node }
    {
        Ancestors {
            tree,
            next: parent(tree, node),
        }
    }

    /// The node itself, and then the nodes around it.
    pub fn from(tree: &'a Tree, node: u32) -> Ancestors<'a>
        ensures { left result ≡ node ∷ ancestors tree.now node }
    {
        Ancestors {
            tree,
            next: Some(node),
        }
    }
}

impl Iterator for Ancestors<'_> {
    ghost use Rattle.std.specs.Iterator.{YieldsFirst, item_count};
    ghost use Rattle.es_tree.specs.Around.{left};

    type Item = u32;

    ghost next_gives = { YieldsFirst left };

    ghost remaining = { item_count left };

    fn next(&mut self) -> Option<u32> {
        let node = self.next?;
        self.next = parent(self.tree, node);
        Some(node)
    }
}
