//! Questions that are heard and replied to one after the other, over one reading.
ghost use Rattle.std.specs.Prelude.{◌≡◌, refl};
ghost use Rattle.conversation.specs.Conversation.{AreAnswered};
ghost use Rattle.conversation.specs.Stream.{written_on};
ghost use Rattle.conversation.specs.Turn.{IsReplied, IsTurn};
ghost use Rattle.cli.specs.Batch.{question_bytes};
ghost use Rattle.cli.specs.Heard.{IsReplyOver, IsSaidOfQuestions, KeepsWritten};
ghost use Rattle.inputs.specs.ReadAs.{IsListed};
ghost use Rattle.text_lines.specs.Lines.{left_of};

use crate::reply::reply_to;
use cli_engine::idle_text;
use conversation::{Ended, Stream, Talk, Unwritten};
use inputs::{Before, Question, Refusal, Shelf, Source, listed_in};
use std::alloc::{AllocError, Global};
use std::io::Write;
use std::marker::PhantomData;
use text_lines::{HearError, Heard};
use universe_build::Listing;

/// How many bytes a question may have.
pub(crate) const QUESTION_BYTES: usize = 67_108_864;

/// Questions, which are answered one after the other, each as soon as it is heard: what is read before a request is read once. A question
/// that is refused ends nothing.
#[derive(Clone, Copy)]
pub(crate) struct Questions<'o, T, W> {
    /// How many conflicts a search may have, where a question doesn't say it.
    pub(crate) limit: u32,
    /// Whom they come from, and where they are replied to.
    pub(crate) talk: PhantomData<Talk<'o, T, W>>,
}

/// The questions that come from these lines, with this limit.
pub(crate) fn questions_of<'o, T, W>(_talk: &Talk<'o, T, W>, limit: u32) -> Questions<'o, T, W>
    ensures { result.limit ≡ limit }
{
    Questions {
        limit,
        talk: PhantomData,
    }
}

// Replies to the question of this number over what is read.
fn reply_on<'i, 'a, W: Write>(
    alloc: Global,
    before: &Before<'_, '_, '_, '_, '_, '_, 'i, 'a>,
    listing: &Listing<'_, 'i, 'a>,
    limit: u32,
    idle: &[u8],
    number: usize,
    line: &[u8],
    out: &mut Stream<W>,
) -> Result<(), Ended>
    requires { IsListed before.now listing.now }
    ensures { IsReplied (IsReplyOver before.now limit) line.now (written_on W.contents out.old)
        (written_on W.contents out.new) result }
{
    match reply_to(alloc, before, listing, limit, idle, number, line) {
        Ok(reply) => match out.write(reply.as_slice()) {
            Ok(()) => Ok(()),
            Err(Unwritten) => Err(Ended::Unwritten),
        },
        Err(AllocError) => Err(Ended::OutOfMemory),
    }
}

// Hears the question of this number and replies to it: how that ends, or nothing where it goes on.
fn turn<'i, 'a, T: Source, W: Write>(
    alloc: Global,
    before: &Before<'_, '_, '_, '_, '_, '_, 'i, 'a>,
    listing: &Listing<'_, 'i, 'a>,
    limit: u32,
    idle: &[u8],
    number: usize,
    talk: &mut Talk<'_, T, W>,
) -> Option<Ended>
    requires { IsListed before.now listing.now }
    ensures turned { IsTurn question_bytes (IsReplyOver before.now limit)
        (left_of T.left talk.old.lines) (left_of T.left talk.new.lines)
        (written_on W.contents talk.old.out.now) (written_on W.contents talk.new.out.now) result }
    ensures held { talk.new.out.ghost_name ≡ talk.old.out.ghost_name }
{
    match talk.lines.next(alloc, QUESTION_BYTES) {
        Ok(Heard::Line(line)) => {
            match reply_on(
                alloc,
                before,
                listing,
                limit,
                idle,
                number,
                line.as_slice(),
                &mut *talk.out,
            ) {
                Ok(()) => None,
                Err(ended) => Some(ended),
            }
        }
        Ok(Heard::Last(line)) => {
            match reply_on(
                alloc,
                before,
                listing,
                limit,
                idle,
                number,
                line.as_slice(),
                &mut *talk.out,
            ) {
                Ok(()) => Some(Ended::Answered),
                Err(ended) => Some(ended),
            }
        }
        Ok(Heard::Nothing) => Some(Ended::Answered),
        Ok(Heard::TooLong) => Some(Ended::TooLong),
        Err(HearError::Unreadable) => Some(Ended::Unread),
        Err(HearError::OutOfMemory) => Some(Ended::OutOfMemory),
    }
}

// Hears the questions and replies to each over what is read.
fn answer_all<'i, 'a, T: Source, W: Write>(
    alloc: Global,
    before: &Before<'_, '_, '_, '_, '_, '_, 'i, 'a>,
    listing: &Listing<'_, 'i, 'a>,
    limit: u32,
    idle: &[u8],
    talk: &mut Talk<'_, T, W>,
) -> Ended
    requires { IsListed before.now listing.now }
    ensures answered { AreAnswered question_bytes (IsReplyOver before.now limit)
        (left_of T.left talk.old.lines)
        (written_on W.contents talk.old.out.now) (written_on W.contents talk.new.out.now) result }
    ensures held { talk.new.out.ghost_name ≡ talk.old.out.ghost_name }
{
    for number in 1..usize::MAX {
        if let Some(ended) = turn(alloc, before, listing, limit, idle, number, talk) {
            return ended;
        }
    }
    Ended::Unread
}

// The sentences on inputs that change no answer, of which there are none where memory is refused for them.
fn idle_of(alloc: Global, before: &Before<'_, '_, '_, '_, '_, '_, '_, '_>) -> Vec<u8> {
    match idle_text(alloc, before) {
        Ok(text) => text,
        Err(AllocError) => Vec::new(alloc),
    }
}

impl<'o, T: Source + Drop, W: Write> Question for Questions<'o, T, W> {
    type Answer = Ended;

    type Beside = Talk<'o, T, W>;

    // each line that was heard has its reply, as where it is asked alone
    ghost says = { λ it texts _ old result new. IsSaidOfQuestions texts it.limit
        (left_of T.left old.lines) (written_on W.contents old.out.now) (written_on W.contents new.out.now) result };

    ghost keeps = { λ it _ old result new. KeepsWritten (written_on W.contents old.out.now) (written_on W.contents new.out.now) result
        × (new.out.ghost_name ≡ old.out.ghost_name) };

    fn answer<S: Shelf>(
        &self,
        alloc: Global,
        _shelf: &mut S,
        before: &Before<'_, '_, '_, '_, '_, '_, '_, '_>,
        talk: &mut Talk<'o, T, W>,
    ) -> Result<Ended, Refusal> {
        let listing = listed_in(alloc, before, false)?;
        let idle = idle_of(alloc, before);
        Ok(answer_all(alloc, before, &listing, self.limit, idle.as_slice(), talk))
    }

    ghost refuses = { λ _ _ _ _ _ is. is };

    ghost stays = { λ _ _ _ _. (refl, refl) };
}
