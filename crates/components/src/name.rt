ghost use Rattle.std.specs.Prelude.{◌↔◌, IsTrue};
ghost use Rattle.components.specs.Name.{IsName};

use port_types::Text;

/// The greatest length of a name in bytes.
const MAX_NAME: usize = 255;

/// Whether a node may have this name: 1 to 255 bytes, none of them below 33, a double quote or a backslash.
pub fn is_name(name: &Text) -> bool
    ensures { IsTrue result ↔ IsName name.now }
{
    let bytes = name.bytes();
    !bytes.is_empty()
        && bytes.len() <= MAX_NAME
        && bytes
            .iter()
            .all(|byte| *byte >= 33 && *byte != b'"' && *byte != b'\\')
}
