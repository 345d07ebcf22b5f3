use std::collections::HashMap;

/// What is looked up of a whole tree: the first nodes that declare names, and the first `default`
/// of each switch.
#[derive(Drop)]
pub struct Firsts<'a> {
    /// At each scope and name the first `let`, `const`, `class` or `import` of it.
    pub lexical: HashMap<(u32, &'a str), u32>,
    /// Where a lexical one stands, the first declaration of any kind.
    pub declared: HashMap<(u32, &'a str), u32>,
    /// At each class body and private name the first that declares it.
    pub private_names: HashMap<(u32, &'a str), u32>,
    /// At each switch the first `default`.
    pub defaults: HashMap<u32, u32>,
}
