// Parts of the last answer.
ghost use Rattle.std.specs.Prelude.{◌≡◌};
ghost use Rattle.ft_session.specs.Buffers.{filled_by};
ghost use Rattle.nuzolged.specs.Answers.{IsTold};
ghost use Rattle.nuzolged.specs.Parts.{name_bytes, name_told, name_at, name_bytes_at, blocker_told, blocker_at, data_in, data_held, data_told, data_count};

use crate::answered::{Answered, tell};
use crate::handle::Handle;
use crate::listing::copy_listing;
use crate::nuz_answer::{BAD, CLOSED, NuzAnswer};
use ft_calls::Reply;
use ft_core::Answer;
use ft_session::{LastAnswer, copy_into};
use std::alloc::Global;

/// Copies a name of the list that the last call has returned, counted from 0. The answer holds its
/// kind and its length, and as much of it as has room is copied.
#[unsafe(no_mangle)]
pub extern "C" fn nuz_name(
    alloc: Global,
    tree: &mut Handle,
    index: usize,
    buffer: &mut [u8],
    answer: &mut Answered,
) -> u32
    ensures same { tree.new.session ≡ tree.old.session }
    ensures name { answer.new.told ≡ name_told tree.old.session index }
    ensures bytes { buffer.new ≡ filled_by (name_bytes tree.old.session index) buffer.old }
    ensures told { IsTold tree.new.session result answer.new }
{
    let told = copy_name(alloc, tree, index, buffer);
    tell(alloc, tree, told, answer)
}

/// Returns a transaction for which the last call waits, counted from 0.
#[unsafe(no_mangle)]
pub extern "C" fn nuz_blocker(
    alloc: Global,
    tree: &mut Handle,
    index: usize,
    answer: &mut Answered,
) -> u32
    ensures same { tree.new.session ≡ tree.old.session }
    ensures blocker { answer.new.told ≡ blocker_told tree.old.session index }
    ensures told { IsTold tree.new.session result answer.new }
{
    let told = blocker(alloc, tree, index);
    tell(alloc, tree, told, answer)
}

/// Copies the bytes that the last call has read, or the names that it lists. The answer holds how
/// many bytes there are, and as many as have room are copied.
#[unsafe(no_mangle)]
pub extern "C" fn nuz_bytes(
    alloc: Global,
    tree: &mut Handle,
    buffer: &mut [u8],
    answer: &mut Answered,
) -> u32
    ensures same { tree.new.session ≡ tree.old.session }
    ensures count { answer.new.told ≡ data_told tree.old.session }
    ensures bytes { buffer.new ≡ filled_by (data_held tree.old.session) buffer.old }
    ensures told { IsTold tree.new.session result answer.new }
{
    let told = copy_data(alloc, tree, buffer);
    tell(alloc, tree, told, answer)
}

/// Copies the bytes that the last call has read, or the names that it lists, and returns how many
/// bytes there are.
pub(crate) fn copy_data(alloc: Global, tree: &mut Handle, buffer: &mut [u8]) -> NuzAnswer
    ensures same { tree.new.session ≡ tree.old.session }
    ensures told { result ≡ data_told tree.old.session }
    ensures bytes { buffer.new ≡ filled_by (data_held tree.old.session) buffer.old }
{
    match tree.take(alloc) {
        None => NuzAnswer::of(CLOSED, 0, 0),
        Some(session) => {
            let told = data_of(&session.last, buffer);
            tree.put(session);
            told
        }
    }
}

/// Copies a name of the list, and returns its kind and its length.
fn copy_name(alloc: Global, tree: &mut Handle, index: usize, buffer: &mut [u8]) -> NuzAnswer
    ensures same { tree.new.session ≡ tree.old.session }
    ensures told { result ≡ name_told tree.old.session index }
    ensures bytes { buffer.new ≡ filled_by (name_bytes tree.old.session index) buffer.old }
{
    match tree.take(alloc) {
        None => NuzAnswer::of(CLOSED, 0, 0),
        Some(session) => {
            let told = name_at(&session.last, index, buffer);
            tree.put(session);
            told
        }
    }
}

/// Returns a transaction for which the call waits.
fn blocker(alloc: Global, tree: &mut Handle, index: usize) -> NuzAnswer
    ensures same { tree.new.session ≡ tree.old.session }
    ensures told { result ≡ blocker_told tree.old.session index }
{
    match tree.take(alloc) {
        None => NuzAnswer::of(CLOSED, 0, 0),
        Some(session) => {
            let told = blocker_at(&session.last, index);
            tree.put(session);
            told
        }
    }
}

/// Copies a name of the list, and returns its kind and its length.
fn name_at(last: &LastAnswer, index: usize, buffer: &mut [u8]) -> NuzAnswer
    ensures told { result ≡ name_at last.now index }
    ensures bytes { buffer.new ≡ filled_by (name_bytes_at last.now index) buffer.old }
{
    match last.names().get(index) {
        None => NuzAnswer::of(BAD, 0, 0),
        Some((name, kind)) => {
            let size = copy_into(name.as_bytes(), buffer);
            NuzAnswer::of_name(*kind, size)
        }
    }
}

/// Returns a transaction for which the call waits.
fn blocker_at(last: &LastAnswer, index: usize) -> NuzAnswer
    ensures { result ≡ blocker_at last.now index }
{
    match last.blockers().get(index) {
        None => NuzAnswer::of(BAD, 0, 0),
        Some(txn) => NuzAnswer::of(0, 0, txn.0),
    }
}

/// Copies the bytes that were read, or the names that were listed, and returns their count.
fn data_of(last: &LastAnswer, buffer: &mut [u8]) -> NuzAnswer
    ensures told { result ≡ data_count (data_in last.now) }
    ensures bytes { buffer.new ≡ filled_by (data_in last.now) buffer.old }
{
    match last {
        LastAnswer::Answer(
            Answer::Granted {
                stamp: _,
                reply: Reply::Names(names),
            },
        ) => NuzAnswer::of_size(copy_listing(names.as_slice(), buffer)),
        LastAnswer::Answer(
            Answer::Granted {
                stamp: _,
                reply: Reply::Bytes(bytes),
            },
        ) => NuzAnswer::of_size(copy_into(bytes.as_slice(), buffer)),
        _ => NuzAnswer::of(BAD, 0, 0),
    }
}
