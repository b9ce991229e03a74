// From the lines of replies to the last report among them.
ghost use Rattle.std.specs.Prelude.{◌≡◌, IfOk, option_map};
ghost use Rattle.ft_words.specs.Spelling.{parse_u64, words_of};
ghost use Rattle.ft_words.specs.Calls.{look_up};
ghost use Rattle.ft_dot.specs.Reading.{count_of, each, edge_of, kind_words, last_report, rank_of, report_of, told_by, verdict_of};

use crate::report::Report;
use ft_base::Memory;
use ft_core::TxnId;
use ft_waits::{Edge, EdgeKind, Verdict};
use ft_words::{Lines, Words, parse_u64, split_once};
use std::alloc::{AllocError, Global};

/// Returns the last report among the lines of replies.
///
/// A report is a line `edges N`, N lines `edge FROM TO KIND`, and a line `cycle A B ..` or `ranks
/// T:RANK ..`. Lines that begin as a report and do not end as one are none. Fails only for lack of
/// memory.
pub fn last_report(alloc: Global, lines: Lines<'_>) -> Result<Option<Report>, Memory>
    ensures { IfOk result (λ report. report ≡ last_report lines.entry) }
{
    let mut rest = lines;
    let mut last = None;
    while let Some(line) = rest.next() {
        if let Some(count) = count_in(line) {
            if let Some(report) = report_in(alloc, count, rest.copy())? {
                last = Some(report);
            }
        }
    }
    Ok(last)
}

/// Returns the report of this many edges with which lines begin.
fn report_in(alloc: Global, count: u64, lines: Lines<'_>) -> Result<Option<Report>, Memory>
    ensures { IfOk result (λ report. report ≡ report_of count lines.entry) }
{
    let mut rest = lines;
    let mut edges = Vec::new(alloc);
    let mut left = count;
    while left > 0 {
        left -= 1;
        let Some(edge) = rest.next().and_then(edge_in) else {
            return Ok(None);
        };
        edges.push(edge)?;
    }
    let Some(line) = rest.next() else {
        return Ok(None);
    };
    let Some(verdict) = verdict_in(alloc, line)? else {
        return Ok(None);
    };
    Ok(Some(Report {
        edges: edges.into(),
        verdict,
    }))
}

/// Returns the count of edges on a line.
fn count_in(line: &[u8]) -> Option<u64>
    ensures { result ≡ count_of (words_of line.now) }
{
    let mut words = Words::of(line);
    if words.next()? != b"edges".as_slice() {
        return None;
    }
    parse_u64(words.sole()?)
}

/// Returns the edge on a line.
fn edge_in(line: &[u8]) -> Option<Edge>
    ensures { result ≡ edge_of (words_of line.now) }
{
    let mut words = Words::of(line);
    if words.next()? != b"edge".as_slice() {
        return None;
    }
    let from = TxnId(parse_u64(words.next()?)?);
    let to = TxnId(parse_u64(words.next()?)?);
    let kind = kind_of(words.sole()?)?;
    Some(Edge { from, to, kind })
}

/// Returns the kind of an edge by its name.
fn kind_of(word: &[u8]) -> Option<EdgeKind>
    ensures { result ≡ look_up kind_words word.now }
{
    if word == b"lock".as_slice() {
        Some(EdgeKind::Lock)
    } else if word == b"child".as_slice() {
        Some(EdgeKind::Child)
    } else {
        None
    }
}

/// Returns the verdict on a line.
fn verdict_in(alloc: Global, line: &[u8]) -> Result<Option<Verdict>, AllocError>
    ensures { IfOk result (λ verdict. verdict ≡ verdict_of (words_of line.now)) }
{
    let mut words = Words::of(line);
    let Some(word) = words.next() else {
        return Ok(None);
    };
    if word == b"cycle".as_slice() {
        let members = members_in(alloc, words)?;
        Ok(members.map(|members| Verdict::Cycle(members.into())))
    } else if word == b"ranks".as_slice() {
        let ranks = ranks_in(alloc, words)?;
        Ok(ranks.map(|ranks| Verdict::Ranked(ranks.into())))
    } else {
        Ok(None)
    }
}

/// Returns the members of a cycle.
fn members_in(alloc: Global, words: Words<'_>) -> Result<Option<Vec<TxnId>>, AllocError>
    ensures { IfOk result (λ members. option_map (λ list. list.items) members
        ≡ each parse_u64 words.entry) }
{
    let mut rest = words;
    let mut members = Vec::new(alloc);
    while let Some(word) = rest.next() {
        let Some(txn) = parse_u64(word) else {
            return Ok(None);
        };
        members.push(TxnId(txn))?;
    }
    Ok(Some(members))
}

/// Returns transactions with their ranks.
fn ranks_in(alloc: Global, words: Words<'_>) -> Result<Option<Vec<(TxnId, u64)>>, AllocError>
    ensures { IfOk result (λ ranks. option_map (λ list. list.items) ranks
        ≡ each rank_of words.entry) }
{
    let mut rest = words;
    let mut ranks = Vec::new(alloc);
    while let Some(word) = rest.next() {
        let Some(entry) = rank_in(word) else {
            return Ok(None);
        };
        ranks.push(entry)?;
    }
    Ok(Some(ranks))
}

/// Returns a transaction with its rank.
fn rank_in(word: &[u8]) -> Option<(TxnId, u64)>
    ensures { result ≡ rank_of word.now }
{
    let (txn, rank) = split_once(b':', word)?;
    Some((TxnId(parse_u64(txn)?), parse_u64(rank)?))
}
