// The numbers of directories and files that were copied.
use crate::screen::{PAUSE, erase, rewrite};
use std::alloc::Global;
use std::io::Write;
use std::time::{Clock, Duration, Instant};

/// The numbers of directories and files that were copied so far, on a line of a screen, if there is
/// one.
///
/// The line is first written no earlier than a tenth of a second after the first count, and then at
/// most ten times a second. A line that cannot be made or written is left out.
#[derive(Drop)]
pub(crate) struct Tally<'a, R, W> {
    rt: &'a R,
    alloc: Global,
    screen: Option<W>,
    folders: u64,
    files: u64,
    // when the line was last due; if it never was, when the first was counted
    due: Option<Instant>,
    is_shown: bool,
}

impl<'a, R: Clock, W: Write> Tally<'a, R, W> {
    /// Returns a tally of nothing.
    pub(crate) fn new(rt: &'a R, alloc: Global, screen: Option<W>) -> Tally<'a, R, W> {
        Tally {
            rt,
            alloc,
            screen,
            folders: 0,
            files: 0,
            due: None,
            is_shown: false,
        }
    }

    /// Counts a directory.
    pub(crate) fn folder(&mut self) {
        self.folders = self.folders.saturating_add(1);
        self.show();
    }

    /// Counts a name of a file or of a symbolic link.
    pub(crate) fn file(&mut self) {
        self.files = self.files.saturating_add(1);
        self.show();
    }

    /// Erases the line, if it is shown.
    pub(crate) fn erase(&mut self) {
        if let Some(screen) = &mut self.screen {
            if self.is_shown {
                let _ = erase(screen);
            }
        }
        self.is_shown = false;
    }

    /// Writes the line if it is due.
    fn show(&mut self) {
        if self.screen.is_none() || !self.is_due() {
            return;
        }
        let Ok(line) = format!(in self.alloc;
            "directories: {}; files: {}",
            self.folders, self.files
        ) else {
            return;
        };
        if let Some(screen) = &mut self.screen {
            self.is_shown = true;
            let _ = rewrite(screen, line.as_bytes());
        }
    }

    /// Returns whether the line is due. It is next due after a pause from then on. The first call
    /// only starts the first pause.
    fn is_due(&mut self) -> bool {
        let Ok(now) = Instant::now(self.rt) else {
            return false;
        };
        let is_due = match self.due {
            Some(due) if now.duration_since(due) < Duration::from_millis(PAUSE) => return false,
            Some(_) => true,
            None => false,
        };
        self.due = Some(now);
        is_due
    }
}
