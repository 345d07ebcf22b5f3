//! The scopes from one outwards.
ghost use Rattle.std.specs.Prelude.{◌≡◌, ◌∷◌};
ghost use Rattle.es_scopes.specs.Chains.{AreNested, beyond, home, is_home, outward, scope_around};

use crate::opened::holds_vars;
use crate::scope::Scope;

/// The scope around a scope, or `None` for the Program's and for what is no scope's number.
fn scope_around(scopes: &[Scope], scope: u32) -> Option<u32>
    ensures { result ≡ scope_around scopes.now scope }
{
    scopes.get(scope as usize)?.parent
}

/// The scopes that are left of those from one outwards.
#[derive(Drop)]
pub struct Outward<'a> {
    scopes: &'a [Scope],
    next: Option<u32>,
    ghost nested: { AreNested scopes.now },
}

impl<'a> Outward<'a> {
    ghost use Rattle.es_scopes.specs.Left.{left};

    /// The scope, and then those around it. One step takes constant time.
    pub fn from(scopes: &'a [Scope], scope: u32) -> Outward<'a>
        requires { AreNested scopes.now }
        ensures { left result ≡ outward scopes.now scope }
    {
        Outward {
            scopes,
            next: Some(scope),
        }
    }
}

impl Iterator for Outward<'_> {
    ghost use Rattle.std.specs.Iterator.{YieldsFirst, item_count};
    ghost use Rattle.es_scopes.specs.Left.{left};

    type Item = u32;

    ghost next_gives = { YieldsFirst left };

    ghost remaining = { item_count left };

    fn next(&mut self) -> Option<u32> {
        let scope = self.next?;
        self.next = scope_around(self.scopes, scope);
        Some(scope)
    }
}

/// Whether the scope is one that `var` doesn't leave.
fn is_home(scopes: &[Scope], scope: u32) -> bool
    ensures { result ≡ is_home scopes.now scope }
{
    match scopes.get(scope as usize) {
        Some(scope) => holds_vars(scope.kind),
        None => false,
    }
}

/// The innermost scope from this one outwards that `var` doesn't leave.
pub fn home(scopes: &[Scope], scope: u32) -> Option<u32>
    requires { AreNested scopes.now }
    ensures { result ≡ home scopes.now scope }
{
    for around in Outward::from(scopes, scope) {
        if is_home(scopes, around) {
            return Some(around);
        }
    }
    None
}
