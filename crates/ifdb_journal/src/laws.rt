// What is true of every journal. Each function does nothing: its contract is the law.
ghost use Rattle.ifdb_journal.specs.Reading.{HeldImages, JournalImages};

/// A crash at any moment leaves the records that were read, and then those of the first appends
/// since, in order: each append that was answered, and of the one that wasn't all or nothing.
pub fn journal_images()
    ensures { JournalImages }
{}

/// Between two calls each image has exactly the records that the journal holds.
pub fn held_images()
    ensures { HeldImages }
{}
