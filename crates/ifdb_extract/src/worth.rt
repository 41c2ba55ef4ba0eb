// When a compaction is worth it.
ghost use Rattle.std.specs.Prelude.{◌≡◌};
ghost use Rattle.ifdb_extract.specs.Worth.{is_worth};

// The bytes up to which a log stays as it is.
const SMALL: u64 = 64 << 20;

/// Whether a log of so many bytes is worth a compaction that comes to so many: it is longer than 64 MiB, and longer than four
/// times that.
pub fn is_worth(bytes: u64, comes_to: u64) -> bool
    ensures { result ≡ is_worth bytes comes_to }
{
    bytes > SMALL && bytes / 4 > comes_to
}
