ghost use Rattle.std.specs.Prelude.{◌≡◌, bytes_eq};
ghost use Rattle.std.specs.List.{list_any};
ghost use Rattle.components.specs.Node.{is_owned, row_keys};

use crate::kind::Kind;

/// Whether the kind owns the attribute with this key, so that it is no kept one: `type`, `in`, `out`, and those that the kind's row of the table of components names.
pub fn owns(kind: &Kind, key: &[u8]) -> bool
    ensures { result ≡ is_owned kind.now key.now }
{
    key == b"type".as_slice()
        || key == b"in".as_slice()
        || key == b"out".as_slice()
        || names(kind, key)
}

/// Whether the kind's row of the table names the attribute.
fn names(kind: &Kind, key: &[u8]) -> bool
    ensures { result ≡ list_any (bytes_eq key.now) (row_keys kind.now) }
{
    match kind {
        Kind::Operator(..) => key == b"op".as_slice(),
        Kind::Constant(..) => key == b"value".as_slice(),
        Kind::Pure(..) => key == b"fun".as_slice(),
        Kind::Init(..) => key == b"value".as_slice() || key == b"ooo".as_slice(),
        Kind::Tagger(..) => key == b"tags".as_slice(),
        Kind::Entry(_)
        | Kind::Exit(_)
        | Kind::Buffer(_)
        | Kind::Fork(..)
        | Kind::Join(_)
        | Kind::Split(_)
        | Kind::Source0(_)
        | Kind::Sink0(_)
        | Kind::Mux(_)
        | Kind::Branch(_)
        | Kind::Merge(..)
        | Kind::CtrlMerge(..) => false,
    }
}
