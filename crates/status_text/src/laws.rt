//! What was written reads back: the bodies are empty, and the contracts are the laws.
ghost use Rattle.status_text.specs.ReadBack.{FieldsReadBack, ReadFieldsAreWritable, StanzasReadBack};
ghost use Rattle.status_text.specs.Touched.{VersionIsWritable, TouchedIsWritable, UnpackedIsWritable, EntriesStayWritable};

/// The fields of a stanza of a text can be written.
pub fn fields_of_a_stanza_are_writable()
    ensures { ReadFieldsAreWritable }
{}

/// The text of fields that can be written is one stanza, of these fields.
pub fn fields_read_back()
    ensures { FieldsReadBack }
{}

/// The text of stanzas that were read, or whose fields can be written, is a control file of these stanzas in order.
pub fn stanzas_read_back()
    ensures { StanzasReadBack }
{}

/// A version can be the value of a field, and so can an empty text.
pub fn versions_are_writable()
    ensures { VersionIsWritable }
{}

/// The stanza that an action touches can be written where its fields could.
pub fn touched_fields_are_writable()
    ensures { TouchedIsWritable }
{}

/// The stanza of a package that is unpacked can be written where the fields of the index and those of the stanza
/// before it could.
pub fn unpacked_fields_are_writable()
    ensures { UnpackedIsWritable }
{}

/// After every action the entries can be written where those before it could, and the stanza of the index.
pub fn entries_stay_writable()
    ensures { EntriesStayWritable }
{}
