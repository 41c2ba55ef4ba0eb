// The one call that does all that the program does.
ghost use Rattle.std.specs.Prelude.{◌≡◌, ◌≤◌};
ghost use Rattle.ifdb_words.specs.First.{behind_first};
ghost use Rattle.ifdb_top.specs.Compact.{DoesCompact, IsCompact};
ghost use Rattle.ifdb_top.specs.Ends.{OnMore};
ghost use Rattle.ifdb_top.specs.Host.{DoesHost, DoesMore, IsHost};
ghost use Rattle.ifdb_top.specs.Inspect.{DoesInspect, IsInspect};

use crate::compacting::compact;
use crate::hosting::host;
use crate::inspecting::inspect;
use crate::more::top_more;
use crate::status::HostStatus;
use ifdb_disk::Shelf;
use ifdb_folder::Folder;
use ifdb_io::{Sink, Site, Source};
use ifdb_loop::GateSite;
use std::alloc::AllocGlobal;
use std::sync::Wait;
use std::thread::Threads;

/// Does what the words say, over this input and output, the site whose doors `serve` serves and the one whose gates `host` does, the
/// folder of databases, and the shelves of journals and of secrets. The words lack the program's name.
///
/// `host --file F --admin-key A --port P`, with options that say by how many loops and how patiently, compacts the database in a file
/// where that is worth it, then serves it, and writes no reply before the file has all that it was answered from; who says the key that
/// the first line of A is is its `admin`, and nobody else is. `compact --file F` compacts it in any case, and serves nobody; `inspect
/// --file F` reads it, and writes how many public changes and rows it has. Where one of these isn't well formed it gets its usage line.
/// Other words are those of `top_more`.
pub fn top_host<
    T: AllocGlobal + Threads + Wait + Sync,
    R: Source,
    W: Sink,
    S: Site,
    G: GateSite,
    F: Folder,
    H: Shelf,
    K: Shelf,
>(
    rt: &T,
    words: &[String],
    input: &mut R,
    output: &mut W,
    site: &mut S,
    gates: &mut G,
    folder: &mut F,
    shelf: &mut H,
    secrets: &mut K,
) -> HostStatus
where
    F::Disk: Send + Drop,
    ensures host { IsHost words.now → DoesHost W.Sink F.Folder F.Disk.Disk K.Shelf K.Disk.Disk
        G.GateSite G.Gate.Gate G.Gate.Port.Port
        output.old output.new gates.old gates.new folder.old folder.new secrets.old secrets.new
        (behind_first words.now) result }
    ensures compact { IsCompact words.now → DoesCompact F.Folder F.Disk.Disk W.Sink
        output.old output.new folder.old folder.new (behind_first words.now) result }
    ensures inspect { IsInspect words.now → DoesInspect F.Folder F.Disk.Disk W.Sink
        output.old output.new folder.old folder.new (behind_first words.now) result }
    ensures more { (IsHost words.now → ⊥) → (IsCompact words.now → ⊥)
        → (IsInspect words.now → ⊥) → OnMore result
        (DoesMore R.Source W.Sink H.Shelf H.Disk.Disk
        S.Site S.Door.Door S.Door.Link.Source S.Door.Link.Sink words.now
        input.old input.new output.old output.new site.old site.new shelf.old shelf.new) }
    ensures other_input { IsHost words.now → input.new ≡ input.old }
    ensures other_gates { (IsHost words.now → ⊥) → gates.new ≡ gates.old }
    ensures other_site { IsHost words.now → site.new ≡ site.old }
    ensures other_secrets { (IsHost words.now → ⊥) → secrets.new ≡ secrets.old }
    ensures other_shelf { IsHost words.now → shelf.new ≡ shelf.old }
    ensures other_folder { (IsHost words.now → ⊥) → (IsCompact words.now → ⊥)
        → (IsInspect words.now → ⊥) → folder.new ≡ folder.old }
    ensures compact_alone { IsCompact words.now
        → (input.new ≡ input.old) × (site.new ≡ site.old) × (shelf.new ≡ shelf.old) }
    ensures inspect_alone { IsInspect words.now
        → (input.new ≡ input.old) × (site.new ≡ site.old) × (shelf.new ≡ shelf.old) }
    ensures input_later { R.faults input.old ≤ R.faults input.new }
    ensures output_later { W.faults output.old ≤ W.faults output.new }
    ensures site_later { S.faults site.old ≤ S.faults site.new }
    ensures gates_later { G.faults gates.old ≤ G.faults gates.new }
    ensures folder_later { F.faults folder.old ≤ F.faults folder.new }
    ensures shelf_later { H.faults shelf.old ≤ H.faults shelf.new }
    ensures secrets_later { K.faults secrets.old ≤ K.faults secrets.new }
{
    match words {
        [word, rest @ ..] if word.as_str() == "host" => {
            host(rt, rest, output, gates, folder, secrets)
        }
        [word, rest @ ..] if word.as_str() == "compact" => {
            compact(rt.alloc(), rest, output, folder)
        }
        [word, rest @ ..] if word.as_str() == "inspect" => {
            inspect(rt.alloc(), rest, output, folder)
        }
        _ => HostStatus::More(top_more(rt, words, input, output, site, shelf)),
    }
}
