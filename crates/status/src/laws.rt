//! Laws that follow from the definitions: the functions have empty bodies, and their contracts are the laws.
ghost use Rattle.status.specs.Left.{EntriesAreWritten};
ghost use Rattle.status.specs.ReadBack.{ReadReadsBack, TouchedReadsBack, UnpackedReadsBack};

/// Every stanza with the fields of a record that was read reads as that record.
pub fn what_was_read_reads_back()
    ensures { ReadReadsBack }
{}

/// Every stanza with the fields that an action leaves of a present record reads as what it leaves.
pub fn what_was_touched_reads_back()
    ensures { TouchedReadsBack }
{}

/// Every stanza with the fields of an unpacked package reads as its record.
pub fn what_was_unpacked_reads_back()
    ensures { UnpackedReadsBack }
{}

/// The entries of what a step leaves are those that its action writes.
pub fn entries_are_written()
    ensures { EntriesAreWritten }
{}
