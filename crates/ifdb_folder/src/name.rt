// Names of disks.
ghost use Rattle.std.specs.Prelude.{◌≡◌, ◌≤◌, bytes_eq, length};

use std::marker::Model;

/// A name of at most 255 bytes. Contracts see its bytes.
#[derive(Drop)]
pub struct Name {
    bytes: [u8; 255],
    len: usize,
}

impl Model for Name {
    ghost use Rattle.std.specs.Prelude.{ℕ, ◌≤◌, List, take};

    ghost Value = { List ℕ };

    ghost view = { λ n. take n.len n.bytes };

    ghost invariant = { λ n. n.len ≤ 255 };
}

impl Name {
    /// This name.
    pub fn of(name: &str) -> Name
        requires { length name.now ≤ 255 }
        ensures { result ≡ name.now }
    {
        let mut bytes = [0; 255];
        let text = name.as_bytes();
        bytes[..text.len()].copy_from_slice(text);
        Name {
            bytes,
            len: text.len(),
        }
    }

    /// Whether it is this name.
    pub fn is(&self, name: &str) -> bool
        ensures { result ≡ bytes_eq self.now name.now }
    {
        &self.bytes[..self.len] == name.as_bytes()
    }
}
