// The files of a host, at the paths of a command line, as a shelf.
ghost use Rattle.std.specs.Prelude.{◌≡◌, IfErr, IfOk, List, None, Some, ℕ};
ghost use Rattle.std.specs.Option.{option_map};
ghost use Rattle.std.proofs.Common.{◌∙◌, refl};
ghost use Rattle.cli.specs.Files.{Files, held, judged_at, shelved_at, text_at};
ghost use Rattle.inputs.specs.Counting.{Counts, CountsRead};
ghost use Rattle.inputs.specs.Texts.{part_of, texts_of};
ghost use Rattle.inputs.specs.declared.shelf.ReadError.TheVariants as ReadError;

use crate::host::{Host, Turn};
use document_text::text_of;
use inputs::{Progress, Question, ReadError, Refusal, Settings, Shelf, WholeText, ask};
use std::alloc::{AllocError, Global};

/// Where a text is.
#[derive(Clone, Copy)]
pub enum TextAt<'a> {
    /// The file at this path.
    File(&'a str),
    /// This text.
    Given(&'a [u8]),
}

/// Where the texts are that an answer is given by. The path of a request or of a plan is empty where none is read.
#[derive(Clone, Copy)]
pub struct Paths<'a> {
    /// The path of the status file.
    pub status: &'a str,
    /// The path of the sources.
    pub sources: &'a str,
    /// The path of the preferences, if there are any.
    pub preferences: Option<&'a str>,
    /// Where the request is.
    pub request: TextAt<'a>,
    /// The path of the plan, or of the refutation.
    pub judged: &'a str,
}

impl<'a> Paths<'a> {
    // Where the text is that is read whole for this part.
    fn of(&self, part: WholeText) -> TextAt<'a>
        ensures there { (at : Files) (text : List ℕ) → text_at at result ≡ Some text
            → part_of (shelved_at at self.now) part ≡ Some (held part text) }
        ensures missing { (at : Files) → text_at at result ≡ None
            → part_of (shelved_at at self.now) part ≡ None }
    {
        match part {
            WholeText::Status => TextAt::File(self.status),
            WholeText::Sources => TextAt::File(self.sources),
            WholeText::Request => self.request,
            WholeText::Judged => TextAt::File(self.judged),
        }
    }
}

/// What is remembered of the texts that were read, for sentences on a refusal.
#[derive(Drop)]
pub struct RefusalContext {
    /// The text of the request, of a file.
    pub request: Vec<u8>,
    /// The file of the index that was opened last.
    pub index: Vec<u8>,
}

impl RefusalContext {
    /// What is remembered before a text is read: nothing.
    pub fn new(alloc: Global) -> RefusalContext {
        RefusalContext {
            request: Vec::new(alloc),
            index: Vec::new(alloc),
        }
    }
}

// The text again. Memory alone can fail.
fn copy_text(alloc: Global, text: &[u8]) -> Result<Vec<u8>, ReadError>
    ensures copy { IfOk result (λ copy. copy.items ≡ text.now) }
    ensures memory { IfErr result (λ e. e ≡ ReadError.OutOfMemory) }
{
    match text.to_vec(alloc) {
        Ok(copy) => Ok(copy),
        Err(AllocError) => Err(ReadError::OutOfMemory),
    }
}

// The text of this part that the bytes hold: what is judged may stand in a JSON document. Memory alone can fail.
fn held(alloc: Global, part: WholeText, bytes: Vec<u8>) -> Result<Vec<u8>, ReadError>
    ensures text { IfOk result (λ text. text.items ≡ held part bytes.items) }
    ensures memory { IfErr result (λ e. e ≡ ReadError.OutOfMemory) }
{
    match part {
        WholeText::Status | WholeText::Sources | WholeText::Request => Ok(bytes),
        WholeText::Judged => match text_of(alloc, bytes) {
            Ok(text) => Ok(text),
            Err(AllocError) => Err(ReadError::OutOfMemory),
        },
    }
}

// Remembers the text of this part, if it's the request's and that is wanted. Where memory is refused for it, nothing is remembered any more.
fn note_text(alloc: Global, context: &mut Option<RefusalContext>, part: WholeText, text: &[u8]) {
    if let (Some(known), WholeText::Request) = (&mut *context, part) {
        match text.to_vec(alloc) {
            Ok(copy) => known.request = copy,
            Err(AllocError) => *context = None,
        }
    }
}

// Remembers the file of an index, if that is wanted. Where memory is refused for it, nothing is remembered any more.
fn note_index(alloc: Global, context: &mut Option<RefusalContext>, file: &[u8]) {
    if let Some(known) = &mut *context {
        match file.to_vec(alloc) {
            Ok(copy) => known.index = copy,
            Err(AllocError) => *context = None,
        }
    }
}

// The text that is there.
fn read_at<H: Host>(
    alloc: Global,
    host: &mut H,
    place: TextAt<'_>,
    turn: Turn,
) -> Result<Vec<u8>, ReadError>
    ensures text { (at : Files) → H.files host.old ≡ Some at
        → IfOk result (λ text. text_at at place.entry ≡ Some text.items) }
    ensures missing { (at : Files) → H.files host.old ≡ Some at
        → IfErr result (λ e. e ≡ ReadError.Unreadable → text_at at place.entry ≡ None) }
    ensures same { H.files host.new ≡ H.files host.old }
    ensures keeps { H.kept host.new ≡ H.kept host.old }
    ensures count { Counts result (H.faults host.old) (H.faults host.new) }
{
    match place {
        TextAt::File(path) => host.read(alloc, path.as_bytes(), turn),
        TextAt::Given(text) => copy_text(alloc, text),
    }
}

/// Which texts that can be read twice were read, the sources and the indices up to the one of a number, and how one is read again.
#[derive(Clone, Copy)]
pub struct Openings {
    sources: bool,
    index: usize,
    again: Turn,
}

impl Openings {
    /// None. What is read again has to be the same still.
    pub fn none() -> Openings {
        Openings {
            sources: false,
            index: 0,
            again: Turn::Unchanged,
        }
    }

    /// None. Who reads a text again compares what it says.
    pub fn for_comparison() -> Openings {
        Openings {
            sources: false,
            index: 0,
            again: Turn::Again,
        }
    }

    // Whether the text of this part is read for the first time. It is noted.
    fn of_part(&mut self, part: WholeText) -> Turn {
        match part {
            WholeText::Sources => {
                let turn = self.turn_if(self.sources);
                self.sources = true;
                turn
            }
            _ => Turn::First,
        }
    }

    // Whether the index of this number is opened for the first time. It is noted.
    fn of_index(&mut self, number: usize) -> Turn {
        let turn = self.turn_if(number <= self.index);
        self.index = self.index.max(number);
        turn
    }

    fn turn_if(&self, was_read: bool) -> Turn {
        if was_read { self.again } else { Turn::First }
    }
}

/// The files of a host at these paths. The index of a source is the file that it names; what is judged is the text that its file holds, as
/// it stands or in a JSON document.
/// It owns nothing, so that its caller knows what becomes of the host that it lends.
#[derive(Drop)]
pub struct HostShelf<'h, 's, 'a, H> {
    /// The host.
    pub host: &'h mut H,
    /// The paths.
    pub paths: &'a Paths<'a>,
    /// What is remembered of the texts, where sentences are wanted and memory isn't refused for it.
    pub context: &'s mut Option<RefusalContext>,
    /// What was read of them.
    pub openings: Openings,
}

impl<'h, 's, 'a, H: Host> Shelf for HostShelf<'h, 's, 'a, H> {
    type Text = H::Text;

    ghost known_texts = { λ shelf. option_map (λ files. shelved_at files shelf.paths.now) (H.files shelf.host.now) };

    ghost faults = { λ shelf. H.faults shelf.host.now };

    ghost holds = { λ old new. (new.host.ghost_name ≡ old.host.ghost_name)
        × (H.files new.host.now ≡ H.files old.host.now) × (H.kept new.host.now ≡ H.kept old.host.now) };

    fn failures(&self) -> u64 {
        self.host.failures()
    }

    fn read(&mut self, alloc: Global, part: WholeText) -> Result<Vec<u8>, ReadError> {
        let turn = self.openings.of_part(part);
        let text = read_at(alloc, &mut *self.host, self.paths.of(part), turn)?;
        note_text(alloc, &mut *self.context, part, text.as_slice());
        held(alloc, part, text)
    }

    fn read_preferences(&mut self, alloc: Global) -> Result<Option<Vec<u8>>, ReadError> {
        match self.paths.preferences {
            None => Ok(None),
            Some(path) => {
                let text = self.host.read(alloc, path.as_bytes(), Turn::First)?;
                Ok(Some(text))
            }
        }
    }

    fn open(&mut self, alloc: Global, number: usize, file: &[u8]) -> Result<H::Text, ReadError> {
        note_index(alloc, &mut *self.context, file);
        let turn = self.openings.of_index(number);
        self.host.open(alloc, file, turn)
    }

    fn close(&mut self, text: H::Text) {
        self.host.close(text)
    }

    fn show(&mut self, progress: Progress) {
        self.host.show(progress)
    }

    ghost holds_still = { λ _. (refl, refl, refl) };

    ghost holds_on = { λ _ _ _ first later. (later.0 ∙ first.0, later.1 ∙ first.1, later.2 ∙ first.2) };
}

/// Asks the question of the files of a host, which are opened in the order status, sources, indices, preferences, and then as the
/// question reads on: each once and at its turn, and none behind the first refusal, which is answered. A file that can't be read is
/// refused (E5) at its place. Costs what `inputs::ask` costs.
pub fn ask_files<H: Host, Q: Question>(
    alloc: Global,
    shelf: &mut HostShelf<'_, '_, '_, H>,
    settings: &Settings<'_>,
    question: &Q,
    beside: &mut Q::Beside,
) -> Result<Q::Answer, Refusal>
    ensures said { (at : Files) → H.files shelf.old.host.now ≡ Some at
        → Q.says question.now (texts_of settings.now (shelved_at at shelf.old.paths.now))
        (judged_at at shelf.old.paths.now.judged.now)
        beside.old result beside.new }
    ensures kept { Q.keeps question.now settings.now beside.old result beside.new }
    ensures same { H.files shelf.new.host.now ≡ H.files shelf.old.host.now }
    ensures texts { (at : Files) → H.files shelf.old.host.now ≡ Some at
        → option_map (λ files. shelved_at files shelf.new.paths.now) (H.files shelf.new.host.now)
        ≡ Some (shelved_at at shelf.old.paths.now) }
    ensures keeps { H.kept shelf.new.host.now ≡ H.kept shelf.old.host.now }
    ensures count { CountsRead result (H.faults shelf.old.host.now) (H.faults shelf.new.host.now) }
    ensures held { shelf.new.host.ghost_name ≡ shelf.old.host.ghost_name }
{
    ask(alloc, shelf, settings, question, beside)
}
