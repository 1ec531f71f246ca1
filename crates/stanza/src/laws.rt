//! What is true of every text, for the crates above: the bodies are empty, and the contracts are the laws.
ghost use Rattle.std.specs.Prelude.{◌≡◌, ◌<◌, ◌≤◌, Bool, List, ℕ, Ok, Contains, length, map};
ghost use Rattle.stanza.specs.Stanza.{StanzaText, items_of};
ghost use Rattle.stanza.specs.File.{IsReading, IsAlone};
ghost use Rattle.stanza.specs.Streamed.{EndsRefused, as_read, read_within};
ghost use Rattle.stanza.specs.declared.form.Form.{Form};

/// The items of a text are the stanzas of the control file that it is, or end with the first line that
/// no grouping into fields allows; and there are no more items than bytes.
pub fn items_are_a_reading()
    ensures { (form : Form) (text : List ℕ) → IsReading form text (items_of form text) }
{}

/// The bytes of a stanza of a text are a text of that stanza alone, with the same names and values.
pub fn a_stanza_stands_alone()
    ensures { (form : Form) (text : List ℕ) (stanza : StanzaText)
        → Contains (items_of form text) (Ok stanza) → IsAlone form stanza }
{}

/// What is read of a text that comes piece by piece are its items, where it is no longer than may be read.
pub fn what_is_read_of_a_text_is_its_items()
    ensures { (form : Form) (text : List ℕ) (most : ℕ) → length text ≤ most
        → read_within form 1 most text ≡ map as_read (items_of form text) }
{}

/// The reading of a text that is longer than may be read ends in a refusal.
pub fn a_text_that_is_too_long_is_refused()
    ensures { (form : Form) (text : List ℕ) (most : ℕ) → most < length text
        → EndsRefused (read_within form 1 most text) }
{}
