use es_scopes::Scopes;
use es_settings::FileConfig;
use es_text::Source;
use es_tree::Parsed;

/// A file that is linted. It is whole where `parsed` is what the text of `source` is parsed as, under the
/// source type that is set, and `scopes` are those of its tree, as `es_scopes::analyse` gives them.
#[derive(Drop)]
pub struct FileView<'a> {
    pub source: &'a Source,
    pub parsed: &'a Parsed,
    pub scopes: &'a Scopes,
    pub config: &'a FileConfig,
}

/// What a rule may look at while it is called.
#[derive(Drop)]
pub struct Ctx<'a> {
    pub file: &'a FileView<'a>,
    /// While a node is told, the numbers of the nodes above it, from the Program down to its parent;
    /// else empty.
    pub ancestors: &'a [u32],
}
