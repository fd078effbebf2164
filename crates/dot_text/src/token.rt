use port_types::Text;

/// A token of a document. An ID has its bytes: of a quoted text, what stands between its quotes, with each `\"` as a
/// double quote. `graph`, `node` and `edge` are one token, since a default is all that they begin.
#[derive(Drop)]
pub(crate) enum Token {
    Id(Text),
    Digraph,
    Subgraph,
    Default,
    Strict,
    Open,
    Close,
    OpenList,
    CloseList,
    Semicolon,
    Comma,
    Equals,
    Arrow,
}
