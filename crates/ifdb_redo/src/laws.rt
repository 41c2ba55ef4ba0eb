// What is true of every record. Each function does nothing: its contract is the law.
ghost use Rattle.ifdb_redo.specs.Laws.{ChangedBytesAreRefused, RecordsAreReadAgain};

/// A record that is spelled is read again.
#[tactic(auto, using(crate::proofs::Again::record_again))]
pub fn records_are_read_again()
    ensures { RecordsAreReadAgain }
{}

/// Bytes that are a record are none once one of them is changed.
#[tactic(auto, using(crate::proofs::Changed::refused))]
pub fn changed_bytes_are_refused()
    ensures { ChangedBytesAreRefused }
{}
