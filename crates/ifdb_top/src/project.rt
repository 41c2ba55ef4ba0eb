// The words of `project`.
ghost use Rattle.std.specs.Prelude.{◌≡◌, ◌^◌, ◌≤◌, map, string_bytes};
ghost use Rattle.ifdb_top.specs.Project.{DoesProject, ProjectsScript};

use crate::base::{Status, write_usage};
use crate::more::MoreStatus;
use ifdb_io::{Sink, Source};
use ifdb_trace::{ProjectEnd, project as project_script};
use ifdb_words::{Project, project_in};
use std::alloc::Global;

const USAGE: &str = "usage: ifdb project --tags T [--limit N]\n";

/// Does what the words behind `project` say: writes the lines of the script at the input whose steps are asked inside a level.
pub fn project<R: Source, W: Sink>(
    alloc: Global,
    words: &[String],
    input: &mut R,
    output: &mut W,
) -> MoreStatus
    ensures done { DoesProject R.Source W.Sink (map string_bytes words.now)
        input.old input.new output.old output.new result }
    ensures input_later { R.faults input.old ≤ R.faults input.new }
    ensures output_later { W.faults output.old ≤ W.faults output.new }
{
    match project_in(alloc, words) {
        Ok(Some(project)) => write_projection(alloc, input, output, &project),
        Ok(None) => MoreStatus::Base(write_usage(output, USAGE)),
        Err(_) => MoreStatus::Base(Status::OutOfMemory),
    }
}

/// Writes a projection.
fn write_projection<R: Source, W: Sink>(
    alloc: Global,
    input: &mut R,
    output: &mut W,
    project: &Project,
) -> MoreStatus
    requires { project.now.limit ≤ 2 ^ 40 }
    ensures projected { ProjectsScript R.Source W.Sink project.now
        input.old input.new output.old output.new result }
    ensures input_later { R.faults input.old ≤ R.faults input.new }
    ensures output_later { W.faults output.old ≤ W.faults output.new }
{
    match project_script(alloc, input, output, project.level.tags(), project.limit) {
        ProjectEnd::Done => MoreStatus::Base(Status::Done),
        ProjectEnd::ReadFault => MoreStatus::Base(Status::ReadFault),
        ProjectEnd::WriteFault => MoreStatus::Base(Status::WriteFault),
        ProjectEnd::OutOfMemory => MoreStatus::Base(Status::OutOfMemory),
        ProjectEnd::TooLarge => MoreStatus::Base(Status::TooLarge),
    }
}
