// What is true of every database's file.
ghost use Rattle.ifdb_reopen.specs.Laws.{FilesAreRestarted, TitleIsAFile};

use ifdb_log::damaged_has_no_texts;

/// Where a file restores a log, a restart goes on from that log, and is told of no damage. A law: it does nothing.
pub fn files_are_restarted()
    ensures { FilesAreRestarted }
{
    damaged_has_no_texts();
}

/// The title alone is the file of no log. A law: it does nothing.
pub fn title_is_a_file()
    ensures { TitleIsAFile }
{}
