ghost use Rattle.std.specs.Prelude.{◌≡◌, ◌↔◌, IsSome, IfSome, nat_eq, string_bytes};
ghost use Rattle.std.specs.Cmp.{partial_equiv_from_equiv};
ghost use Rattle.std.specs.Cmp.Lexicographic.{pointwise, nat_list_eq_equiv};
ghost use Rattle.std.specs.Str.{IsUtf8};

use std::marker::Model;

/// A text: bytes that are UTF-8. Contracts see its bytes.
#[derive(Clone, Debug, Drop)]
pub struct Text {
    text: String,
}

impl Model for Text {
    ghost use Rattle.std.specs.Prelude.{List, ℕ, string_bytes};

    ghost Value = { List ℕ };

    ghost view = { λ t. string_bytes t.text };
}

impl PartialEq for Text {
    ghost eq = { pointwise nat_eq };

    ghost laws = { partial_equiv_from_equiv nat_list_eq_equiv };

    fn eq(&self, other: &Text) -> bool {
        self.text == other.text
    }
}

impl Eq for Text {
    ghost laws = { nat_list_eq_equiv };
}

impl Text {
    /// The text of these bytes, or `None` exactly where they are not UTF-8. Takes no memory.
    pub fn new(bytes: Vec<u8>) -> Option<Text>
        ensures utf8 { IsSome result ↔ IsUtf8 bytes.items }
        ensures bytes { IfSome result (λ text. text ≡ bytes.items) }
    {
        match String::from_utf8(bytes) {
            Ok(text) => {
                // A proof knows that a `String` is UTF-8 once it is read as a `str`.
                let _ = text.as_str();
                Some(Text { text })
            }
            Err(_) => None,
        }
    }

    /// The text that a string holds. Takes no memory.
    pub fn from_string(text: String) -> Text
        ensures { result ≡ string_bytes text }
    {
        Text { text }
    }

    /// The bytes of the text.
    pub fn bytes(&self) -> &[u8]
        ensures same { result.now ≡ self.now }
        ensures utf8 { IsUtf8 result.now }
    {
        self.text.as_str().as_bytes()
    }

    /// The same as `&str`.
    pub fn as_str(&self) -> &str
        ensures { result.now ≡ self.now }
    {
        self.text.as_str()
    }
}
