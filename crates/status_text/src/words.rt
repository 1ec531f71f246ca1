//! The words of the field Status (dpkg(1), "Package states").
ghost use Rattle.std.specs.Prelude.{◌≡◌, ◌∷◌, ◌≤◌, [], length, not, bytes_eq, MatchOption};
ghost use Rattle.std.specs.List.{prefix_len};
ghost use Rattle.stanza.specs.Line as Line;
ghost use Rattle.status_text.specs.Words as Spec;
ghost use Rattle.status_text.specs.Words.{words_of};

use rules::{Flag, State, Want};

/// What a stanza's field Status says of its package.
#[derive(Clone, Copy, PartialEq, Eq)]
pub struct Mark {
    /// What is wanted of the package.
    pub want: Want,
    /// Whether it is to be installed again.
    pub flag: Flag,
    /// How far it is.
    pub state: State,
}

fn is_white(byte: u8) -> bool
    ensures { result ≡ Line.is_white byte }
{
    byte == b' ' || byte == b'\t'
}

fn white_len(text: &[u8]) -> usize
    ensures value { result ≡ prefix_len Line.is_white text.now }
    ensures within { result ≤ length text.now }
{
    text.iter().take_while(|byte| is_white(**byte)).count()
}

fn word_len(text: &[u8]) -> usize
    ensures value { result ≡ prefix_len (λ b. not (Line.is_white b)) text.now }
    ensures within { result ≤ length text.now }
{
    text.iter().take_while(|byte| !is_white(**byte)).count()
}

// The first word, and what follows it.
fn cut_word(text: &[u8]) -> Option<(&[u8], &[u8])>
    ensures { MatchOption result (words_of text.now ≡ [])
        (λ cut. words_of text.now ≡ cut.0.now ∷ words_of cut.1.now) }
{
    let (_, text) = text.split_at(white_len(text));
    if text.is_empty() {
        return None;
    }
    Some(text.split_at(word_len(text)))
}

fn is_word(word: &[u8], name: &[u8]) -> bool
    ensures { result ≡ bytes_eq word.now name.now }
{
    word == name
}

fn want_named(word: &[u8]) -> Option<Want>
    ensures { result ≡ Spec.want_named word.now }
{
    if is_word(word, b"unknown") {
        Some(Want::Unknown)
    } else if is_word(word, b"install") {
        Some(Want::Install)
    } else if is_word(word, b"hold") {
        Some(Want::Hold)
    } else if is_word(word, b"deinstall") {
        Some(Want::Deinstall)
    } else if is_word(word, b"purge") {
        Some(Want::Purge)
    } else {
        None
    }
}

fn flag_named(word: &[u8]) -> Option<Flag>
    ensures { result ≡ Spec.flag_named word.now }
{
    if is_word(word, b"ok") {
        Some(Flag::Ok)
    } else if is_word(word, b"reinstreq") {
        Some(Flag::ReinstallRequired)
    } else {
        None
    }
}

fn state_named(word: &[u8]) -> Option<State>
    ensures { result ≡ Spec.state_named word.now }
{
    if is_word(word, b"not-installed") {
        Some(State::NotInstalled)
    } else if is_word(word, b"config-files") {
        Some(State::ConfigFiles)
    } else if is_word(word, b"half-installed") {
        Some(State::HalfInstalled)
    } else if is_word(word, b"unpacked") {
        Some(State::Unpacked)
    } else if is_word(word, b"half-configured") {
        Some(State::HalfConfigured)
    } else if is_word(word, b"triggers-awaited") {
        Some(State::TriggersAwaited)
    } else if is_word(word, b"triggers-pending") {
        Some(State::TriggersPending)
    } else if is_word(word, b"installed") {
        Some(State::Installed)
    } else {
        None
    }
}

fn status_of(want: &[u8], flag: &[u8], state: &[u8]) -> Option<Mark>
    ensures { result ≡ Spec.status_of want.now flag.now state.now }
{
    Some(Mark {
        want: want_named(want)?,
        flag: flag_named(flag)?,
        state: state_named(state)?,
    })
}

/// What a value of the field Status says: exactly three words, parted by spaces or tabs, each of its own list.
/// None of any other value. No memory; linear in the value.
#[tactic(auto, unfolding(crate::specs::Words::read_words))]
pub fn read_words(value: &[u8]) -> Option<Mark>
    ensures { result ≡ Spec.read_words value.now }
{
    let (want, rest) = cut_word(value)?;
    let (flag, rest) = cut_word(rest)?;
    let (state, rest) = cut_word(rest)?;
    match cut_word(rest) {
        Some(_) => None,
        None => status_of(want, flag, state),
    }
}
