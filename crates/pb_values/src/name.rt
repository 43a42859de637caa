use std::marker::Model;

/// A name in a text: its bytes, and the place of its first byte, from 0.
#[derive(Drop)]
pub struct Name {
    bytes: Vec<u8>,
    at: u32,
}

impl Model for Name {
    ghost use Rattle.pb_values.specs.Name.{NameValue};

    ghost Value = { NameValue };

    ghost view = { λ n. record { bytes = n.bytes.items; at = n.at } };
}

impl Name {
    ghost use Rattle.std.specs.Prelude.{◌≡◌, bytes_eq};

    /// The name of these bytes at this place.
    pub fn new(bytes: Vec<u8>, at: u32) -> Name
        ensures { result ≡ record { bytes = bytes.items; at = at } }
    {
        Name { bytes, at }
    }

    /// The bytes of the name.
    pub fn bytes(&self) -> &[u8]
        ensures { result.now ≡ self.now.bytes }
    {
        self.bytes.as_slice()
    }

    /// The place of its first byte, from 0.
    pub fn at(&self) -> u32
        ensures { result ≡ self.now.at }
    {
        self.at
    }

    /// Whether both have the same bytes, wherever they stand.
    pub fn is_same(&self, other: &Name) -> bool
        ensures { result ≡ bytes_eq self.now.bytes other.now.bytes }
    {
        self.bytes.as_slice() == other.bytes.as_slice()
    }
}
