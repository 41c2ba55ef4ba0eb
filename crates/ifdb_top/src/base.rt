// The one call that does all that the program does.
ghost use Rattle.std.specs.Prelude.{◌≡◌, ◌≢◌, ◌^◌, ◌≤◌, ℕ, List, IfOk};
ghost use Rattle.ifdb_io.specs.Causes.{Rose};
ghost use Rattle.ifdb_generate.specs.Script.{script};
ghost use Rattle.ifdb_script.specs.Rehearsal.{rehearsed, rehearsed_text};
ghost use Rattle.ifdb_script.specs.Run.{RanWhole, RanFront, RanPast, RanCut};
ghost use Rattle.ifdb_service.specs.Site.{GivesNone, IsCut, IsDone, IsUnserved};
ghost use Rattle.ifdb_words.specs.Ranges.{IsService};
ghost use Rattle.ifdb_top.specs.Base.{DoesBase};
ghost use Rattle.ifdb_top.specs.Status.{IsMade, IsRunEnd, IsServeEnd, IsUsage};
ghost use Rattle.ifdb_top.specs.Texts.{IsWritten, text_of};

use ifdb_generate::{OutOfMemory, Size, generate};
use ifdb_io::{Failed, Sink, Site, Source, write_all};
use ifdb_script::{ScriptEnd, rehearse, run_script};
use ifdb_service::{ServiceEnd, serve as serve_site};
use ifdb_words::{Command, Service, Text, command_of};
use std::alloc::{AllocGlobal, Global};
use std::sync::Wait;
use std::thread::Threads;

/// How the program ended. The exit status is the variant's place, from 0.
#[derive(Clone, Copy, Debug, PartialEq, Eq)]
pub enum Status {
    /// The words were done.
    Done,
    /// The words ask for nothing that the program does; the usage line was written.
    Usage,
    /// The input failed.
    ReadFault,
    /// The output failed.
    WriteFault,
    /// There was no memory to begin with; nothing was read or written.
    OutOfMemory,
    /// The input has more bytes than the limit.
    TooLarge,
    /// The site failed.
    SiteFault,
}

const USAGE: &str =
    "usage: ifdb run [--limit N] | ifdb serve --port P [--workers W] [--links K] [--limit N] | ifdb generate [--run] N\n";

/// Does what the words say, over this input, output and site. The words lack the program's name. `run [--limit N]` runs the input
/// as a script; `serve --port P [--workers W] [--links K] [--limit N]` serves connections; `generate [--run] N` writes a text.
/// Other words get the usage line.
#[tactic(auto, using(ifdb_script::proofs::RunLaws::cuts_dont_matter))]
pub fn top<T: AllocGlobal + Threads + Wait + Sync, R: Source, W: Sink, S: Site>(
    rt: &T,
    words: &[String],
    input: &mut R,
    output: &mut W,
    site: &mut S,
) -> Status
    ensures { DoesBase R.Source W.Sink S.Site S.Door.Door S.Door.Link.Source S.Door.Link.Sink
        words.now input.old input.new output.old output.new site.old site.new result }
{
    match command_of(rt.alloc(), words) {
        Ok(Some(Command::Run { limit })) => run(rt.alloc(), input, output, limit),
        Ok(Some(Command::Serve(service))) => serve(rt, output, site, service),
        Ok(Some(Command::Write(text))) => write_text(rt.alloc(), output, text),
        Ok(None) => write_usage(output, USAGE),
        Err(_) => Status::OutOfMemory,
    }
}

/// Writes a usage line.
pub(crate) fn write_usage<W: Sink>(output: &mut W, line: &str) -> Status
    ensures ends { IsUsage result }
    ensures text { IsWritten line.now result (W.written output.old) (W.written output.new) }
    ensures write { result ≡ Status.WriteFault → Rose (W.faults output.old) (W.faults output.new) }
    ensures memory { result ≢ Status.OutOfMemory }
    ensures later { W.faults output.old ≤ W.faults output.new }
{
    match write_all(output, line.as_bytes()) {
        Ok(()) => Status::Usage,
        Err(Failed) => Status::WriteFault,
    }
}

/// Writes a text of the generator.
fn write_text<W: Sink>(alloc: Global, output: &mut W, text: Text) -> Status
    ensures ends { IsMade result }
    ensures text { IsWritten (text_of text) result (W.written output.old) (W.written output.new) }
    ensures write { result ≡ Status.WriteFault → Rose (W.faults output.old) (W.faults output.new) }
    ensures memory { result ≡ Status.OutOfMemory → output.new ≡ output.old }
    ensures later { W.faults output.old ≤ W.faults output.new }
{
    match text {
        Text::Script(size) => write_script(output, size),
        Text::Counts(size) => write_counts(alloc, output, size),
    }
}

/// Writes the generator's script, round by round.
fn write_script<W: Sink>(output: &mut W, size: Size) -> Status
    ensures ends { IsMade result }
    ensures text { IsWritten (script size) result (W.written output.old) (W.written output.new) }
    ensures write { result ≡ Status.WriteFault → Rose (W.faults output.old) (W.faults output.new) }
    ensures memory { result ≢ Status.OutOfMemory }
    ensures later { W.faults output.old ≤ W.faults output.new }
{
    match generate(size, output) {
        Ok(()) => Status::Done,
        Err(Failed) => Status::WriteFault,
    }
}

/// Writes what the run of the generator's script counts, unless there was no memory to run it.
fn write_counts<W: Sink>(alloc: Global, output: &mut W, size: Size) -> Status
    ensures ends { IsMade result }
    ensures text { IsWritten (rehearsed_text (rehearsed (script size))) result
        (W.written output.old) (W.written output.new) }
    ensures write { result ≡ Status.WriteFault → Rose (W.faults output.old) (W.faults output.new) }
    ensures memory { result ≡ Status.OutOfMemory → output.new ≡ output.old }
    ensures later { W.faults output.old ≤ W.faults output.new }
{
    let Ok(text) = counts(alloc, size) else {
        return Status::OutOfMemory;
    };
    match write_all(output, &text) {
        Ok(()) => Status::Done,
        Err(Failed) => Status::WriteFault,
    }
}

/// What the run of the generator's script counts, as a text.
fn counts(alloc: Global, size: Size) -> Result<Vec<u8>, OutOfMemory>
    ensures { IfOk result (λ text. text.items ≡ rehearsed_text (rehearsed (script size))) }
{
    rehearse(alloc, size)?.text(alloc)
}

/// Runs a script of at most so many bytes.
fn run<R: Source, W: Sink>(alloc: Global, input: &mut R, output: &mut W, limit: u64) -> Status
    requires { limit ≤ 2 ^ 40 }
    ensures done { result ≡ Status.Done
        → RanWhole limit
        (R.left input.old) (R.left input.new) (W.written output.old) (W.written output.new) }
    ensures read { result ≡ Status.ReadFault → Rose (R.faults input.old) (R.faults input.new) }
    ensures read_front { result ≡ Status.ReadFault → RanFront limit
        (R.left input.old) (R.left input.new) (W.written output.old) (W.written output.new) }
    ensures write { result ≡ Status.WriteFault → Rose (W.faults output.old) (W.faults output.new) }
    ensures write_front { result ≡ Status.WriteFault
        → RanCut limit
        (R.left input.old) (R.left input.new) (W.written output.old) (W.written output.new) }
    ensures too_large { result ≡ Status.TooLarge → RanPast limit
        (R.left input.old) (R.left input.new) (W.written output.old) (W.written output.new) }
    ensures memory { result ≡ Status.OutOfMemory
        → (input.new ≡ input.old) × (output.new ≡ output.old) }
    ensures ends { IsRunEnd result }
    ensures unfailed { result ≢ Status.ReadFault → R.faults input.new ≡ R.faults input.old }
    ensures input_later { R.faults input.old ≤ R.faults input.new }
    ensures output_later { W.faults output.old ≤ W.faults output.new }
{
    match run_script(alloc, input, output, limit) {
        ScriptEnd::Done => Status::Done,
        ScriptEnd::ReadFault => Status::ReadFault,
        ScriptEnd::WriteFault => Status::WriteFault,
        ScriptEnd::OutOfMemory => Status::OutOfMemory,
        ScriptEnd::TooLarge => Status::TooLarge,
    }
}

/// Serves the connections of a site.
fn serve<T: AllocGlobal + Threads + Wait + Sync, W: Sink, S: Site>(
    rt: &T,
    output: &mut W,
    site: &mut S,
    service: Service,
) -> Status
    requires { IsService service }
    ensures done { result ≡ Status.Done
        → IsDone S.Site S.Door.Door S.Door.Link.Source S.Door.Link.Sink W.Sink service
        site.old site.new output.old output.new }
    ensures write { result ≡ Status.WriteFault → Rose (W.faults output.old) (W.faults output.new) }
    ensures cut { result ≡ Status.WriteFault
        → IsCut S.Site S.Door.Door S.Door.Link.Source S.Door.Link.Sink W.Sink service
        site.old site.new output.old output.new }
    ensures site { result ≡ Status.SiteFault → Rose (S.faults site.old) (S.faults site.new) }
    ensures no_doors { result ≡ Status.SiteFault
        → GivesNone S.Site service site.old site.new × (output.new ≡ output.old) }
    ensures memory { result ≡ Status.OutOfMemory
        → IsUnserved S.Site S.Door.Door S.Door.Link.Source S.Door.Link.Sink W.Sink service
        site.old site.new output.old output.new }
    ensures ends { IsServeEnd result }
    ensures output_later { W.faults output.old ≤ W.faults output.new }
    ensures site_later { S.faults site.old ≤ S.faults site.new }
{
    match serve_site(rt, rt.alloc(), output, site, service) {
        ServiceEnd::Done => Status::Done,
        ServiceEnd::WriteFault => Status::WriteFault,
        ServiceEnd::OutOfMemory => Status::OutOfMemory,
        ServiceEnd::SiteFault => Status::SiteFault,
    }
}
