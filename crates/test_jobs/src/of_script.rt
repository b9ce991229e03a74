// No clause states this: readers and writers that fail, halt or take little, and the time that the
// most reads take. Scripts are case files, which the built program plays.
use ft_core::Core;
use ft_script::{LONGEST_LINE, MOST_READS, PlayFault, play};
use ft_transfer::NoFiles;
use std::alloc::Global;
use std::cell::Cell;
use std::io;
use std::io::{ErrorKind, Read, Write};
use std::test::Fail;

// ---- readers and writers

/// Gives a text, and then fails.
#[derive(Drop)]
struct Failing<'a> {
    text: &'a [u8],
}

impl Read for Failing<'_> {
    fn read(&mut self, buffer: &mut [u8]) -> io::Result<usize> {
        if self.text.is_empty() {
            return Err(io::Error::from(ErrorKind::Other));
        }
        self.text.read(buffer)
    }
}

/// Gives a text in pieces of at most three bytes, and is interrupted before each.
#[derive(Drop)]
struct Halting<'a> {
    text: &'a [u8],
    is_next_interrupted: bool,
}

impl Read for Halting<'_> {
    fn read(&mut self, buffer: &mut [u8]) -> io::Result<usize> {
        self.is_next_interrupted = !self.is_next_interrupted;
        if !self.is_next_interrupted {
            return Err(io::Error::from(ErrorKind::Interrupted));
        }
        let room = buffer.len().min(3);
        self.text.read(&mut buffer[..room])
    }
}

/// Is interrupted at every read, and counts them.
#[derive(Drop)]
struct Interrupted {
    reads: u32,
}

impl Read for Interrupted {
    fn read(&mut self, _buffer: &mut [u8]) -> io::Result<usize> {
        self.reads = self.reads.saturating_add(1);
        Err(io::Error::from(ErrorKind::Interrupted))
    }
}

/// Gives a line a read, each only once the reply to the one before has been written.
#[derive(Drop)]
struct Patient<'a> {
    seen: &'a Cell<usize>,
    lines: usize,
}

impl Read for Patient<'_> {
    fn read(&mut self, buffer: &mut [u8]) -> io::Result<usize> {
        if self.seen.get() != self.lines.saturating_mul(6) || buffer.len() != 65_536 {
            return Err(io::Error::from(ErrorKind::Other));
        }
        if self.lines >= 3 {
            return Ok(0);
        }
        self.lines += 1;
        b"begin\n".as_slice().read(buffer)
    }
}

/// Counts the bytes that it is given.
#[derive(Drop)]
struct Counting<'a> {
    seen: &'a Cell<usize>,
}

impl Write for Counting<'_> {
    fn write(&mut self, buffer: &[u8]) -> io::Result<usize> {
        self.seen.set(self.seen.get().saturating_add(buffer.len()));
        Ok(buffer.len())
    }

    fn flush(&mut self) -> io::Result<()> {
        Ok(())
    }
}

/// The behaviour of a writer that has no more room.
#[derive(Clone, Copy)]
enum AtEnd {
    Nothing,
    Fails,
    Interrupts,
}

/// Takes one byte a call, as long as it has room.
#[derive(Drop)]
struct Narrow {
    held: Vec<u8>,
    room: usize,
    at_end: AtEnd,
}

impl Narrow {
    /// Returns a writer that holds nothing yet.
    fn new(alloc: Global, room: usize, at_end: AtEnd) -> Narrow {
        Narrow {
            held: Vec::new(alloc),
            room,
            at_end,
        }
    }
}

impl Write for Narrow {
    fn write(&mut self, buffer: &[u8]) -> io::Result<usize> {
        if self.held.len() >= self.room {
            return match self.at_end {
                AtEnd::Nothing => Ok(0),
                AtEnd::Fails => Err(io::Error::from(ErrorKind::Other)),
                AtEnd::Interrupts => Err(io::Error::from(ErrorKind::Interrupted)),
            };
        }
        let Some(byte) = buffer.first() else {
            return Ok(0);
        };
        self.held.push(*byte)?;
        Ok(1)
    }

    fn flush(&mut self) -> io::Result<()> {
        Ok(())
    }
}

/// How a script ended, and the number that the next transaction got.
type End = (Result<(), PlayFault>, u64);

/// Plays a script on a new core.
fn played<R: Read, W: Write>(alloc: Global, reader: &mut R, writer: &mut W) -> Result<End, Fail> {
    let mut core = Core::new(alloc)?;
    played_on(alloc, reader, writer, &mut core)
}

/// Plays a script on a core, and returns how it ends and the number of a transaction begun after
/// it.
fn played_on<R: Read, W: Write>(
    alloc: Global,
    reader: &mut R,
    writer: &mut W,
    core: &mut Core,
) -> Result<End, Fail> {
    let end = play(alloc, reader, writer, &NoFiles, core);
    Ok((end, core.begin()?.0))
}

/// Returns whether a reader's script ends so, with these replies.
fn gives<R: Read>(alloc: Global, reader: &mut R, end: End, replies: &str) -> Result<bool, Fail> {
    let mut text = Vec::new(alloc);
    let found = played(alloc, reader, &mut text)?;
    Ok(found == end && text.as_slice() == replies.as_bytes())
}

/// Returns whether a script ends so, and this is what a writer holds that takes one byte a call.
fn gives_narrow(
    alloc: Global,
    script: &str,
    writer: &mut Narrow,
    end: End,
    held: &str,
) -> Result<bool, Fail> {
    let found = played(alloc, &mut script.as_bytes(), writer)?;
    Ok(found == end && writer.held.as_slice() == held.as_bytes())
}

/// Returns whether a sweep of the core on which a script was played finds nothing more to drop.
fn is_swept(alloc: Global, script: &str) -> Result<bool, Fail> {
    let mut core = Core::new(alloc)?;
    play(
        alloc,
        &mut script.as_bytes(),
        &mut Vec::new(alloc),
        &NoFiles,
        &mut core,
    )?;
    Ok(core.sweep() == 0)
}

#[test]
fn ends_are_swept(rt: HostRuntime) -> Result<(), Fail> {
    for script in [
        "begin\n1 mkdir /a\nabort 1\n",
        "begin\n1 mkdir /a\n1 rmdir /a\ncommit 1\n",
    ] {
        assert!(rt; is_swept(rt.alloc(), script)?, "at {script:?}");
    }
    Ok(())
}

// ---- readers

#[test]
fn replies_come_before_the_next_read(rt: HostRuntime) -> Result<(), Fail> {
    let seen = Cell::new(0);
    let mut reader = Patient {
        seen: &seen,
        lines: 0,
    };
    let mut writer = Counting { seen: &seen };
    let found = played(rt.alloc(), &mut reader, &mut writer)?;
    assert!(rt; matches!(found, (Ok(()), 4)) && seen.get() == 18);
    Ok(())
}

#[test]
fn read_that_fails(rt: HostRuntime) -> Result<(), Fail> {
    for script in ["begin\n", "begin\nbegin", "begin\n# note\nfrob"] {
        let mut reader = Failing {
            text: script.as_bytes(),
        };
        let end = (Err(PlayFault::Read), 2);
        assert!(rt;
            gives(rt.alloc(), &mut reader, end, "txn 1\n")?,
            "at {script:?}"
        );
    }
    Ok(())
}

#[test]
fn interrupted_reads_change_nothing(rt: HostRuntime) -> Result<(), Fail> {
    let mut reader = Halting {
        text: b"begin\nfrob\n# note\nbegin",
        is_next_interrupted: true,
    };
    let replies = "txn 1\nbad line\ntxn 2\n";
    assert!(rt; gives(rt.alloc(), &mut reader, (Ok(()), 3), replies)?);
    Ok(())
}

#[test]
fn most_reads(rt: HostRuntime) -> Result<(), Fail> {
    let mut reader = Interrupted { reads: 0 };
    assert!(rt; gives(rt.alloc(), &mut reader, (Err(PlayFault::Turns), 1), "")?);
    assert_eq!(rt; reader.reads, 100_000_000);
    assert_eq!(rt; MOST_READS, 100_000_000);
    Ok(())
}

/// A script of `begin`, a comment of so many bytes, what ends it, and another `begin`.
fn with_comment(alloc: Global, length: usize, end: &str) -> Result<Vec<u8>, Fail> {
    let mut script = b"begin\n".to_vec(alloc)?;
    script.resize(length.saturating_add(6), b'#')?;
    script.extend_from_slice(end.as_bytes())?;
    script.extend_from_slice(b"begin\n".as_slice())?;
    Ok(script)
}

/// Returns whether a script that begins with a comment of this length ends in this way, with these
/// replies.
fn gives_with_comment(
    alloc: Global,
    (length, behind): (usize, &str),
    end: End,
    replies: &str,
) -> Result<bool, Fail> {
    let script = with_comment(alloc, length, behind)?;
    gives(alloc, &mut script.as_slice(), end, replies)
}

#[test]
fn line_that_is_too_long(rt: HostRuntime) -> Result<(), Fail> {
    assert_eq!(rt; LONGEST_LINE, 8_388_608);
    for comment in [(8_388_608, "\n"), (8_388_607, "\r\n")] {
        let replies = "txn 1\ntxn 2\n";
        assert!(rt;
            gives_with_comment(rt.alloc(), comment, (Ok(()), 3), replies)?,
            "at {comment:?}"
        );
    }
    for comment in [(8_388_609, "\n"), (8_388_608, "\r\n"), (8_388_609, "")] {
        let end = (Err(PlayFault::TooLong), 2);
        assert!(rt;
            gives_with_comment(rt.alloc(), comment, end, "txn 1\n")?,
            "at {comment:?}"
        );
    }
    Ok(())
}

// ---- writers

#[test]
fn writes_that_fail(rt: HostRuntime) -> Result<(), Fail> {
    for at_end in [AtEnd::Nothing, AtEnd::Fails, AtEnd::Interrupts] {
        let mut writer = Narrow::new(rt.alloc(), 8, at_end);
        let end = (Err(PlayFault::Write), 4);
        let script = "begin\nbegin\nbegin\n";
        assert!(rt; gives_narrow(rt.alloc(), script, &mut writer, end, "txn 1\ntx")?);
    }
    Ok(())
}

#[test]
fn one_byte_a_write_changes_nothing(rt: HostRuntime) -> Result<(), Fail> {
    let mut writer = Narrow::new(rt.alloc(), 100, AtEnd::Fails);
    let script = "begin\nfrob\nbegin\n";
    let replies = "txn 1\nbad line\ntxn 2\n";
    assert!(rt; gives_narrow(rt.alloc(), script, &mut writer, (Ok(()), 3), replies)?);
    Ok(())
}
