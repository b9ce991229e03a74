// The line of a screen that shows the progress of a task.
use std::io::{self, Write};

/// The least time before a line is rewritten, in milliseconds. The first line is written after the
/// same time.
pub const PAUSE: u64 = 100;

/// The most bytes of a line: as many as fit on one line of a terminal.
const LONGEST_LINE: usize = 79;

/// Moves to the first column, and erases the line.
const ERASED: &[u8] = b"\r\x1b[K";

/// Erases the line. Fails if the screen cannot be written.
pub fn erase<S: Write>(screen: &mut S) -> io::Result<()> {
    screen.write_all(ERASED)
}

/// Writes a line in place of the one before, as much of it as fits on one line. Fails if the screen
/// cannot be written.
pub fn rewrite<S: Write>(screen: &mut S, line: &[u8]) -> io::Result<()> {
    erase(screen)?;
    screen.write_all(&line[..line.len().min(LONGEST_LINE)])
}
