// Laws of scripts.
ghost use Rattle.ifdb_script.specs.Run.{MemoryIsRefusedAlone};

use ifdb_laws::memory_is_never_told;

/// Error 20 comes of memory that was refused, and of nothing else. Does nothing: its contract is a law.
pub fn memory_is_refused_alone()
    ensures { MemoryIsRefusedAlone }
{
    memory_is_never_told();
}
