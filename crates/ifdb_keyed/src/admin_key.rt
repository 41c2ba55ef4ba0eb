// The key of admin.
ghost use Rattle.std.specs.Prelude.{◌≡◌, ◌<◌, ◌≤◌, ◌⊎◌, length, take, IfSome, None};

/// The most bytes of a key.
pub const LONGEST_KEY: usize = 64;

/// A key of 1 to `LONGEST_KEY` bytes, by which a server's peers are admin. Contracts cite its bytes as `key_bytes`.
#[derive(Clone, Copy)]
pub struct AdminKey {
    bytes: [u8; LONGEST_KEY],
    count: usize,
    ghost some: { 0 < count },
    ghost within: { count ≤ 64 },
}

impl AdminKey {
    /// The key of these bytes; `None` exactly where there are none of them, or more than `LONGEST_KEY`.
    pub fn new(text: &[u8]) -> Option<AdminKey>
        ensures bytes { IfSome result (λ key. take key.count key.bytes ≡ text.now) }
        ensures none { result ≡ None → (length text.now ≡ 0) ⊎ (64 < length text.now) }
        ensures some { IfSome result (λ key. (0 < length text.now) × (length text.now ≤ 64)) }
    {
        if text.is_empty() || text.len() > LONGEST_KEY {
            return None;
        }
        let mut bytes = [0; LONGEST_KEY];
        bytes[..text.len()].copy_from_slice(text);
        Some(AdminKey {
            bytes,
            count: text.len(),
        })
    }

    /// Its bytes.
    pub fn bytes(&self) -> &[u8]
        ensures { result.now ≡ take self.now.count self.now.bytes }
    {
        &self.bytes[..self.count]
    }
}
