// What is true of every log. Each function does nothing: its contract is the law.
ghost use Rattle.ifdb_log.specs.Behind.{BehindImages, BehindLeaves};
ghost use Rattle.ifdb_log.specs.Pieces.{FrontsAreFirstTexts, TextsAreReadAgain};
ghost use Rattle.ifdb_log.specs.Reading.{DamagedHasNoTexts};
ghost use Rattle.ifdb_log.specs.Title.{JournalIsOther, TitleIsDamage};

/// Each image of a disk whose front stands is the front, and behind it an image of what lies there.
pub fn behind_images()
    ensures { BehindImages }
{}

/// What a crash leaves of what lies behind the front, that it leaves of the whole disk behind the front.
#[tactic(auto, using(crate::proofs::Fronts::leaves_tested))]
pub fn behind_leaves()
    ensures { BehindLeaves }
{}

/// Read as a journal, a log is damaged at its first byte.
#[tactic(auto, using(crate::proofs::Titles::title_damage))]
pub fn title_is_damage()
    ensures { TitleIsDamage }
{}

/// A journal with a record is no log, and no new file.
#[tactic(auto, using(crate::proofs::Titles::journal_other))]
pub fn journal_is_other()
    ensures { JournalIsOther }
{}

/// What was cut into pieces is read again, whatever was read before it.
#[tactic(auto, using(crate::proofs::Cuts::again))]
pub fn texts_are_read_again()
    ensures { TextsAreReadAgain }
{}

/// The first records of some texts are the first of these: all that are whole among them, and
/// nothing of any other.
#[tactic(auto, using(crate::proofs::Cuts::first_texts))]
pub fn fronts_are_first_texts()
    ensures { FrontsAreFirstTexts }
{}

/// What is damaged behind a title has no texts: it doesn't read whole, or its records are none.
pub fn damaged_has_no_texts()
    ensures { DamagedHasNoTexts }
{}
