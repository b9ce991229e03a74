// Replies that are gathered, to be written at once.
ghost use Rattle.std.specs.Prelude.{◌≡◌, ◌<◌, ◌≤◌, ◌++◌, [], false, length, true, IfErr, IfOk, OnErr, OnOk};
ghost use Rattle.std.specs.Io.KnownBytes.{Appends, IsAtEnd};
ghost use Rattle.ft_script.specs.declared.gathering.TheConstants.{MOST_GATHERED};
ghost use Rattle.ft_script.specs.Reading.{HasRoom, StopsReading, cut_count, to_read, uncut, unscanned, ReadsOn};
ghost use Rattle.ft_script.specs.Runs.{WritesPart};

use crate::lines::ScriptLines;
use crate::playing::PlayFault;
use crate::writing::write_out;
use ft_base::Memory;
use std::alloc::Global;
use std::io::{Read, Write};

/// How many bytes of replies are written before the next line is carried out.
const MOST_GATHERED: usize = 65_536;

/// A script, and the replies to it that are not written yet.
#[derive(Drop)]
pub(crate) struct Script {
    pub lines: ScriptLines,
    pub replies: Vec<u8>,
}

impl Script {
    /// Returns a reader of lines that has read nothing yet.
    pub(crate) fn new(alloc: Global) -> Result<Script, Memory>
        ensures uncut { IfOk result (λ script. uncut script.lines ≡ []) }
        ensures count { IfOk result (λ script. cut_count script.lines ≡ 0) }
        ensures none { IfOk result (λ script. script.replies.items ≡ []) }
    {
        Ok(Script {
            lines: ScriptLines::new(alloc)?,
            replies: Vec::with_capacity(alloc, MOST_GATHERED)?,
        })
    }

    /// Reads more, if all that was read is in lines that have ended, and once all replies to these
    /// are written. Returns whether there is something to cut; if not, the script has ended.
    pub(crate) fn read_more<R: Read>(&mut self, reader: &mut R) -> Result<bool, PlayFault>
        requires written { self.old.replies.items ≡ [] }
        ensures bytes { OnOk result (ReadsOn (R.remaining reader.old) (R.remaining reader.new)
            (uncut self.old.lines) (uncut self.new.lines)) }
        ensures more { IfOk result
            (λ more. more ≡ true → (0 < unscanned self.new.lines)
            × (to_read self.new.lines ≤ to_read self.old.lines)) }
        ensures end { IfOk result
            (λ more. more ≡ false → IsAtEnd (R.remaining reader.new) × HasRoom self.new.lines) }
        ensures count { cut_count self.new.lines ≡ cut_count self.old.lines }
        ensures replies { self.new.replies.items ≡ [] }
        ensures fault { IfErr result
            (λ fault. StopsReading fault (R.remaining reader.old) (R.remaining reader.new)
            (uncut self.old.lines)) }
    {
        self.lines.read_more(reader)
    }

    /// Returns whether fewer replies are gathered than must be written.
    pub(crate) fn may_gather(&self) -> bool
        ensures yes { result ≡ true → length self.now.replies.items < MOST_GATHERED }
        ensures no { result ≡ false → MOST_GATHERED ≤ length self.now.replies.items }
    {
        self.replies.len() < MOST_GATHERED
    }

    /// Gathers a reply.
    pub(crate) fn gather(&mut self, reply: &[u8]) -> Result<(), Memory>
        ensures ok { OnOk result (self.new.replies.items ≡ self.old.replies.items ++ reply.now) }
        ensures err { OnErr result (self.new.replies.items ≡ self.old.replies.items) }
        ensures lines { self.new.lines ≡ self.old.lines }
    {
        self.replies.extend_from_slice(reply)?;
        Ok(())
    }

    /// Writes the replies that are gathered.
    pub(crate) fn write_replies<W: Write>(&mut self, writer: &mut W) -> Result<(), PlayFault>
        ensures ok { OnOk result
            (Appends (W.contents writer.old) (W.contents writer.new) self.old.replies.items) }
        ensures written { OnOk result (self.new.replies.items ≡ []) }
        ensures lines { self.new.lines ≡ self.old.lines }
        ensures err { OnErr result
            (WritesPart (W.contents writer.old) (W.contents writer.new) self.old.replies.items) }
        ensures cause { IfErr result (λ fault. fault ≡ PlayFault.Write) }
    {
        write_out(writer, self.replies.as_slice())?;
        self.replies.clear();
        // (what a long reply took is given back)
        self.replies.shrink_to(2 * MOST_GATHERED);
        Ok(())
    }
}
