// The lines of a request and their words, cut from the front.

ghost use Rattle.std.specs.Prelude.{◌≡◌, ◌==◌, ◌≤◌, length};
ghost use Rattle.std.specs.List.{position, prefix_len};
ghost use Rattle.universe_request.specs.Cut.{CutsLine};
ghost use Rattle.universe_request.specs.Words as Spec;
ghost use Rattle.universe_request.specs.Words.{after_word, is_word_byte, word_of};

fn first_newline(text: &[u8]) -> Option<usize>
    ensures { result ≡ position (λ b. b == 10) text.now }
{
    text.iter().position(|byte| *byte == b'\n')
}

/// The text up to its first newline, and what is left behind it, if there is one.
pub fn cut_line(text: &[u8]) -> (&[u8], Option<&[u8]>)
    ensures { CutsLine text.now result.0.now result.1 }
{
    match first_newline(text) {
        None => (text, None),
        Some(at) => (text.split_at(at).0, Some(text.split_at(at + 1).1)),
    }
}

fn is_white(byte: u8) -> bool
    ensures { result ≡ Spec.is_white byte }
{
    byte == b' ' || byte == b'\t'
}

fn white_len(text: &[u8]) -> usize
    ensures value { result ≡ prefix_len Spec.is_white text.now }
    ensures within { result ≤ length text.now }
{
    text.iter().take_while(|byte| is_white(**byte)).count()
}

fn word_len(text: &[u8]) -> usize
    ensures value { result ≡ prefix_len is_word_byte text.now }
    ensures within { result ≤ length text.now }
{
    text.iter().take_while(|byte| !is_white(**byte)).count()
}

/// What follows the white space at the front.
pub fn after_white(text: &[u8]) -> &[u8]
    ensures { result.now ≡ Spec.after_white text.now }
{
    text.split_at(white_len(text)).1
}

/// The word at the front, and what follows it and the white space behind it.
pub fn split_word(text: &[u8]) -> (&[u8], &[u8])
    ensures word { result.0.now ≡ word_of text.now }
    ensures rest { result.1.now ≡ after_word text.now }
{
    let (word, rest) = text.split_at(word_len(text));
    (word, after_white(rest))
}

fn is_blank(line: &[u8]) -> bool
    ensures { result ≡ Spec.is_blank line.now }
{
    line.iter().all(|byte| is_white(*byte))
}

fn is_comment(line: &[u8]) -> bool
    ensures { result ≡ Spec.is_comment line.now }
{
    match line {
        [first, ..] => *first == b'#',
        [] => false,
    }
}

/// Whether the line asks for nothing.
pub fn is_skipped(line: &[u8]) -> bool
    ensures { result ≡ Spec.is_skipped line.now }
{
    is_blank(line) || is_comment(line)
}
