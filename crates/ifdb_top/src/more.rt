// The one call that does all that the program does.
ghost use Rattle.std.specs.Prelude.{◌≡◌, ◌≤◌};
ghost use Rattle.ifdb_closure.specs.Bounds.{CallsLeaveSessions, CallsStayWithin};
ghost use Rattle.ifdb_closure.specs.ScriptBounds.{ScriptCallsAreTheOwners, ScriptCallsCommitNothing};
ghost use Rattle.ifdb_trace.specs.Laws.{ProjectionIsHeard};
ghost use Rattle.ifdb_words.specs.First.{behind_first};
ghost use Rattle.ifdb_top.specs.Base.{DoesBase};
ghost use Rattle.ifdb_top.specs.Check.{DoesCheck};
ghost use Rattle.ifdb_top.specs.Closures.{DoesClosures};
ghost use Rattle.ifdb_top.specs.Keep.{DoesKeep};
ghost use Rattle.ifdb_top.specs.More.{IsBase, IsCheck, IsClosures, IsKeep, IsProject, OnBase, exit_code};
ghost use Rattle.ifdb_top.specs.Project.{DoesProject};

use crate::base::{Status, top};
use crate::check::check;
use crate::closures::closures;
use crate::keep::keep;
use crate::project::project;
use ifdb_closure::{call_bounds, script_calls_are_bound};
use ifdb_disk::Shelf;
use ifdb_io::{Sink, Site, Source};
use ifdb_trace::projections_are_heard;
use std::alloc::AllocGlobal;
use std::sync::Wait;
use std::thread::Threads;

/// How the program ended.
#[derive(Clone, Copy, Debug, PartialEq, Eq)]
pub enum MoreStatus {
    /// As `top` may end, with an exit status from 0 to 6.
    Base(Status),
    /// The shelf or its disk failed; exit status 7.
    DiskFault,
    /// The journal is damaged at this byte; exit status 8.
    Damaged(u64),
    /// The trace has a wrong line; exit status 9.
    TraceRefused,
}

impl MoreStatus {
    /// The exit status.
    pub fn exit_code(self) -> u8
        ensures { result ≡ exit_code self }
    {
        match self {
            MoreStatus::Base(status) => status as u8,
            MoreStatus::DiskFault => 7,
            MoreStatus::Damaged(_) => 8,
            MoreStatus::TraceRefused => 9,
        }
    }
}

/// Does what the words say, over this input, output, site and shelf. The words lack the program's name. `check [--limit N]` judges
/// the trace at the input; `project --tags T [--limit N]` writes the lines of the script at the input whose steps are asked inside
/// a level; `keep --file F [--limit N]` runs it over the journal in a file, and adds the steps that can change the state;
/// `closures [--limit N]` runs it with closures. Where these aren't well formed they get their usage line. Other words are
/// those of `top`.
pub fn top_more<T: AllocGlobal + Threads + Wait + Sync, R: Source, W: Sink, S: Site, H: Shelf>(
    rt: &T,
    words: &[String],
    input: &mut R,
    output: &mut W,
    site: &mut S,
    shelf: &mut H,
) -> MoreStatus
    ensures base { IsBase words.now → OnBase result
        (DoesBase R.Source W.Sink S.Site S.Door.Door S.Door.Link.Source S.Door.Link.Sink
        words.now input.old input.new output.old output.new site.old site.new) }
    ensures check { IsCheck words.now → DoesCheck R.Source W.Sink (behind_first words.now)
        input.old input.new output.old output.new result }
    ensures project { IsProject words.now → DoesProject R.Source W.Sink (behind_first words.now)
        input.old input.new output.old output.new result }
    ensures keep { IsKeep words.now → DoesKeep R.Source W.Sink H.Shelf H.Disk.Disk
        (behind_first words.now)
        input.old input.new output.old output.new shelf.old shelf.new result }
    ensures closures { IsClosures words.now → DoesClosures R.Source W.Sink
        (behind_first words.now) input.old input.new output.old output.new result }

    // Laws of the definitions by which `project` and `closures` say what they did.
    ensures heard { ProjectionIsHeard }
    ensures calls_within { CallsStayWithin }
    ensures calls_owned { ScriptCallsAreTheOwners }
    ensures calls_apart { CallsLeaveSessions }
    ensures calls_refused { ScriptCallsCommitNothing }

    // What is so at every end.
    ensures other_site { (IsBase words.now → ⊥) → site.new ≡ site.old }
    ensures other_shelf { (IsKeep words.now → ⊥) → shelf.new ≡ shelf.old }
    ensures input_later { R.faults input.old ≤ R.faults input.new }
    ensures output_later { W.faults output.old ≤ W.faults output.new }
    ensures site_later { S.faults site.old ≤ S.faults site.new }
    ensures shelf_later { H.faults shelf.old ≤ H.faults shelf.new }
{
    projections_are_heard();
    call_bounds();
    script_calls_are_bound();
    match words {
        [word, rest @ ..] if word.as_str() == "check" => check(rt.alloc(), rest, input, output),
        [word, rest @ ..] if word.as_str() == "project" => {
            project(rt.alloc(), rest, input, output)
        }
        [word, rest @ ..] if word.as_str() == "keep" => {
            keep(rt.alloc(), rest, input, output, shelf)
        }
        [word, rest @ ..] if word.as_str() == "closures" => {
            closures(rt.alloc(), rest, input, output)
        }
        _ => MoreStatus::Base(top(rt, words, input, output, site)),
    }
}
