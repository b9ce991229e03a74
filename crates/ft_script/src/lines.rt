// The lines of a script, as a reader gives them.
ghost use Rattle.std.specs.Prelude.{◌≡◌, ◌⊎◌, ◌↔◌, ◌+◌, ◌*◌, ◌<◌, ◌≤◌, ◌++◌, ◌∷◌, [], false, length, take, true, vec_len, if◌then◌else◌, IfErr, IfOk, IsErrOf, OnErr, OnOk};
ghost use Rattle.std.specs.Io.{ReadsAtMost};
ghost use Rattle.std.specs.Io.KnownBytes.{Consumes, IsAtEnd, Keeps};
ghost use Rattle.ft_words.specs.Spelling.{IsFreeOf};
ghost use Rattle.ft_script.specs.declared.lines.TheConstants.{CHUNK};
ghost use Rattle.ft_script.specs.declared.playing.TheConstants.{MOST_READS};
ghost use Rattle.ft_script.specs.Cutting.{Fits};

use crate::playing::{LONGEST_LINE, MOST_READS, PlayFault};
use ft_base::Memory;
use ft_words::split_once;
use std::alloc::Global;
use std::io::{ErrorKind, Read};

/// How many bytes are read at once.
const CHUNK: usize = 65_536;

/// The lines of a script, which a reader gives in pieces: the last one that was cut, and what comes
/// after it.
#[derive(Drop)]
pub(crate) struct ScriptLines {
    // what was read last
    chunk: Vec<u8>,
    // the place in it of what was read and is in no line yet
    start: usize,
    end: usize,
    // the line that has begun, or was cut last
    line: Vec<u8>,
    // whether it was cut, so that the next one begins anew
    is_cut: bool,
    // how many lines were cut
    count: u64,
    // how many reads are left
    reads_left: u32,
    ghost room: { vec_len chunk ≡ CHUNK },
    ghost in_order: { start ≤ end },
    ghost within: { end ≤ CHUNK },
    ghost free: { IsFreeOf 10 line.items },
    ghost fits: { Fits line.items },
    ghost counted: { count + end + CHUNK * reads_left ≤ CHUNK * MOST_READS + start },
}

impl ScriptLines {
    ghost use Rattle.ft_script.specs.Reading.{CutsNothing, GivesLine, HasRoom, IsLastLine, ReadsOn, StopsCutting, StopsReading, begun, cut_count, cut_line, to_read, unscanned, uncut};

    /// Returns lines of which nothing is read yet.
    pub(crate) fn new(alloc: Global) -> Result<ScriptLines, Memory>
        ensures uncut { IfOk result (λ lines. uncut lines ≡ []) }
        ensures count { IfOk result (λ lines. cut_count lines ≡ 0) }
    {
        Ok(ScriptLines {
            chunk: vec![in alloc; 0; CHUNK]?,
            start: 0,
            end: 0,
            line: Vec::new(alloc),
            is_cut: false,
            count: 0,
            reads_left: MOST_READS,
        })
    }

    /// Returns the line that was cut last, without its line feed.
    pub(crate) fn line(&self) -> &[u8]
        ensures { result.now ≡ cut_line self.now }
    {
        self.line.as_slice()
    }

    /// Returns how many lines were cut.
    pub(crate) fn count(&self) -> u64
        ensures { result ≡ cut_count self.now }
    {
        self.count
    }

    /// Returns the line that was cut last, with nothing after it.
    pub(crate) fn into_line(self) -> Vec<u8>
        ensures { result.items ≡ cut_line self }
    {
        self.line
    }

    /// Reads more, if all that was read is in lines that have ended. Returns whether there is
    /// something to cut; if not, the script has ended.
    pub(crate) fn read_more<R: Read>(&mut self, reader: &mut R) -> Result<bool, PlayFault>
        ensures bytes { OnOk result (ReadsOn (R.remaining reader.old) (R.remaining reader.new)
            (uncut self.old) (uncut self.new)) }
        ensures more { IfOk result
            (λ more. more ≡ true → (0 < unscanned self.new)
            × (to_read self.new ≤ to_read self.old)) }
        ensures end { IfOk result
            (λ more. more ≡ false → IsAtEnd (R.remaining reader.new) × HasRoom self.new) }
        ensures count { cut_count self.new ≡ cut_count self.old }
        ensures fault { IfErr result
            (λ fault. StopsReading fault (R.remaining reader.old) (R.remaining reader.new)
            (uncut self.old)) }
    {
        if self.start < self.end {
            return Ok(true);
        }
        let count = read_some(reader, self.chunk.as_mut_slice(), &mut self.reads_left)?;
        self.start = 0;
        self.end = count;
        Ok(count > 0)
    }

    /// Cuts the next line of what was read, and returns whether there is one that has ended.
    pub(crate) fn cut(&mut self) -> Result<bool, PlayFault>
        ensures line { IfOk result
            (λ found. found ≡ true → GivesLine (uncut self.old) (uncut self.new)
            (cut_line self.new)) }
        ensures count { IfOk result
            (λ found. found ≡ true → cut_count self.new ≡ cut_count self.old + 1) }
        ensures none { IfOk result
            (λ found. found ≡ false → CutsNothing self.old self.new) }
        ensures scanned { IfOk result
            (λ found. found ≡ true → unscanned self.new < unscanned self.old) }
        ensures reads { self.new.reads_left ≡ self.old.reads_left }
        ensures fault { IfErr result (λ fault. StopsCutting fault (uncut self.old)) }
        ensures cause { IfErr result
            (λ fault. (fault ≡ PlayFault.TooLong) ⊎ (fault ≡ PlayFault.Memory)) }
    {
        drop_cut(&mut self.line, self.is_cut);
        self.is_cut = false;
        let rest = &self.chunk[self.start..self.end];
        match split_once(b'\n', rest) {
            Some((piece, behind)) => {
                lengthen(&mut self.line, piece)?;
                self.start = self.end - behind.len();
                self.count += 1;
                self.is_cut = true;
                Ok(true)
            }
            None => {
                lengthen(&mut self.line, rest)?;
                self.start = self.end;
                Ok(false)
            }
        }
    }

    /// Cuts the last line, which has no line feed, if it has a byte. Returns whether it has.
    pub(crate) fn cut_last(&mut self) -> bool
        requires { HasRoom self.old }
        ensures some { result ≡ true → IsLastLine (uncut self.old) (cut_line self.new) }
        ensures count { result ≡ true → cut_count self.new ≡ cut_count self.old + 1 }
        ensures none { result ≡ false → uncut self.old ≡ [] }
    {
        drop_cut(&mut self.line, self.is_cut);
        self.is_cut = true;
        if self.line.is_empty() {
            return false;
        }
        self.count += 1;
        true
    }
}

/// Makes one read that is not interrupted. An interrupted read counts, and is tried again.
fn read_some<R: Read>(
    reader: &mut R,
    buffer: &mut [u8],
    reads_left: &mut u32,
) -> Result<usize, PlayFault>
    ensures bound { ReadsAtMost result buffer.new }
    ensures bytes { IfOk result
        (λ n. Consumes (R.remaining reader.old) (R.remaining reader.new) (take n buffer.new)) }
    ensures end { IfOk result
        (λ n. n ≡ 0 → 0 < length buffer.old → IsAtEnd (R.remaining reader.new)) }
    ensures err { OnErr result (Keeps (R.remaining reader.old) (R.remaining reader.new)) }
    ensures cause { IfErr result (λ fault. (fault ≡ PlayFault.Read) ⊎ (fault ≡ PlayFault.Turns)) }
    ensures counts { OnOk result (reads_left.new < reads_left.old) }
    ensures fewer { reads_left.new ≤ reads_left.old }
    ensures used_up { IsErrOf result PlayFault.Turns → reads_left.new ≡ 0 }
    ensures turns { reads_left.old ≡ 0 → IsErrOf result PlayFault.Turns }
{
    while *reads_left > 0 {
        *reads_left -= 1;
        match reader.read(buffer) {
            Ok(count) => return Ok(count),
            Err(error) => {
                if error.kind() != ErrorKind::Interrupted {
                    return Err(PlayFault::Read);
                }
            }
        }
    }
    Err(PlayFault::Turns)
}

/// Clears a line if it was cut, and keeps a line that has begun.
fn drop_cut(line: &mut Vec<u8>, is_cut: bool)
    ensures { line.new.items ≡ if is_cut then [] else line.old.items }
{
    if is_cut {
        line.clear();
    }
}

/// Puts bytes after those of a line that has begun.
fn lengthen(begun: &mut Vec<u8>, piece: &[u8]) -> Result<(), PlayFault>
    ensures ok { OnOk result (begun.new.items ≡ begun.old.items ++ piece.now) }
    ensures fits { OnOk result (Fits begun.new.items) }
    ensures too_long { IsErrOf result PlayFault.TooLong
        ↔ (LONGEST_LINE < length begun.old.items + length piece.now) }
    ensures cause { IfErr result
        (λ fault. (fault ≡ PlayFault.TooLong) ⊎ (fault ≡ PlayFault.Memory)) }
    ensures kept { OnErr result (begun.new.items ≡ begun.old.items) }
{
    if begun.len().saturating_add(piece.len()) > LONGEST_LINE {
        return Err(PlayFault::TooLong);
    }
    begun.extend_from_slice(piece)?;
    Ok(())
}
