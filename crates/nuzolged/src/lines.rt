// Lines of a script, and replies as text.
ghost use Rattle.std.specs.Prelude.{◌≡◌};
ghost use Rattle.ft_line.specs.Requests.{parse_line};
ghost use Rattle.nuzolged.specs.Answers.{IsTold, IsToldWith};
ghost use Rattle.nuzolged.specs.Lines.{IsLineAsked, IsLineTold, IsReplied, HasReplied, IsReplyTold, IsReplySize, IsSizeOfReply};

use crate::answered::{Answered, tell, tell_with};
use crate::handle::Handle;
use crate::nuz_answer::{BAD, CLOSED, MEMORY, NuzAnswer, told_of};
use ft_base::Memory;
use ft_session::{LastAnswer, LineFault, Session};
use std::alloc::Global;

/// The length of a reply that there was no memory for.
const UNTOLD: u64 = u64::MAX;

/// Carries out one line of a script, without its line feed. A request is answered as by its own
/// function; a report, and a line that is not a valid request, by 0 and the length of the reply.
/// The answer also holds how many bytes the reply has, and as many as have room are copied.
#[unsafe(no_mangle)]
pub extern "C" fn nuz_request(
    alloc: Global,
    tree: &mut Handle,
    line: &[u8],
    buffer: &mut [u8],
    answer: &mut Answered,
) -> u32
    ensures asked { IsLineAsked tree.old.session (parse_line line.now) answer.new.told
        tree.new.session }
    ensures reply { IsReplyTold tree.new.session answer.new.told.code answer.new.reply buffer.old
        buffer.new }
    ensures told { IsToldWith answer.new.reply tree.new.session result answer.new }
{
    let told = request(alloc, tree, line);
    let reply = told_reply(alloc, tree, told.code, buffer);
    tell_with(alloc, tree, told, reply, answer)
}

/// Copies the reply to the last request, as a script shows it. The answer holds how many bytes it
/// has, and as many as have room are copied.
#[unsafe(no_mangle)]
pub extern "C" fn nuz_reply(
    alloc: Global,
    tree: &mut Handle,
    buffer: &mut [u8],
    answer: &mut Answered,
) -> u32
    ensures same { tree.new.session ≡ tree.old.session }
    ensures reply { IsReplied tree.old.session answer.new.told buffer.old buffer.new }
    ensures told { IsTold tree.new.session result answer.new }
{
    let told = copy_reply(alloc, tree, buffer);
    tell(alloc, tree, told, answer)
}

/// Carries out one line on a tree.
fn request(alloc: Global, tree: &mut Handle, line: &[u8]) -> NuzAnswer
    ensures { IsLineAsked tree.old.session (parse_line line.now) result tree.new.session }
{
    match tree.take(alloc) {
        None => NuzAnswer::of(CLOSED, 0, 0),
        Some(session) => {
            let mut session = session;
            let told = execute(alloc, &mut session, line);
            tree.put(session);
            told
        }
    }
}

/// Copies the reply to a line that resulted in a code, if it has one. Returns how many bytes it
/// has.
fn told_reply(alloc: Global, tree: &mut Handle, code: u32, buffer: &mut [u8]) -> u64
    ensures same { tree.new.session ≡ tree.old.session }
    ensures reply { IsReplyTold tree.old.session code result buffer.old buffer.new }
{
    if code == CLOSED || code == BAD || code == MEMORY {
        return 0;
    }
    reply_size(alloc, tree, buffer)
}

/// Copies the reply to the last request, and returns how many bytes it has.
fn reply_size(alloc: Global, tree: &mut Handle, buffer: &mut [u8]) -> u64
    ensures same { tree.new.session ≡ tree.old.session }
    ensures reply { IsReplySize tree.old.session result buffer.old buffer.new }
{
    match tree.take(alloc) {
        None => 0,
        Some(session) => {
            let size = size_of_reply(alloc, &session.last, buffer);
            tree.put(session);
            size
        }
    }
}

/// Copies a reply, and returns how many bytes it has.
fn size_of_reply(alloc: Global, last: &LastAnswer, buffer: &mut [u8]) -> u64
    ensures { IsSizeOfReply last.now result buffer.old buffer.new }
{
    match last.copy_reply(alloc, buffer) {
        Ok(size) => size as u64,
        Err(Memory) => UNTOLD,
    }
}

/// Copies the reply to the last request, and returns how many bytes it has.
fn copy_reply(alloc: Global, tree: &mut Handle, buffer: &mut [u8]) -> NuzAnswer
    ensures same { tree.new.session ≡ tree.old.session }
    ensures reply { IsReplied tree.old.session result buffer.old buffer.new }
{
    match tree.take(alloc) {
        None => NuzAnswer::of(CLOSED, 0, 0),
        Some(session) => {
            let told = reply_of(alloc, &session.last, buffer);
            tree.put(session);
            told
        }
    }
}

/// Carries out one line in a session.
fn execute(alloc: Global, session: &mut Session, line: &[u8]) -> NuzAnswer
    ensures { IsLineTold session.old (parse_line line.now) result session.new }
{
    match session.run_line(alloc, line) {
        Ok(()) => told_of(&session.last),
        Err(LineFault::Bad) => NuzAnswer::of(BAD, 0, 0),
        Err(LineFault::Memory) => NuzAnswer::of(MEMORY, 0, 0),
    }
}

/// Copies a reply, and returns how many bytes it has, as an answer.
fn reply_of(alloc: Global, last: &LastAnswer, buffer: &mut [u8]) -> NuzAnswer
    ensures { HasReplied last.now result buffer.old buffer.new }
{
    match last.copy_reply(alloc, buffer) {
        Ok(size) => NuzAnswer::of_size(size),
        Err(Memory) => NuzAnswer::of(MEMORY, 0, 0),
    }
}
