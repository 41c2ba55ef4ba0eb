// The name of a database's new file.
ghost use Rattle.std.specs.Prelude.{◌≡◌, ◌≢◌, ◌≤◌, ◌<◌, ◌++◌, IfOk, IfSome, None, Ok, codes, length, string_bytes};

use std::alloc::{AllocError, Global};

// What stands behind the database's name.
const ENDING: &str = ".new";

/// The name of the file that a database is compacted to: its own, and `.new` behind it. `None` where that has more than 255 bytes.
pub fn spare_name(alloc: Global, name: &str) -> Result<Option<String>, AllocError>
    ensures spelled { IfOk result (λ found. IfSome found (λ spare.
        string_bytes spare ≡ name.now ++ codes ".new")) }
    ensures fits { IfOk result (λ found. IfSome found (λ spare.
        (1 ≤ length (string_bytes spare)) × (length (string_bytes spare) ≤ 255))) }
    ensures apart { IfOk result (λ found. IfSome found (λ spare.
        string_bytes spare ≢ name.now)) }
    ensures none { result ≡ Ok None → 251 < length name.now }
{
    if name.len() > 251 {
        return Ok(None);
    }
    let mut spare = String::new(alloc);
    spare.push_str(name)?;
    spare.push_str(ENDING)?;
    Ok(Some(spare))
}
