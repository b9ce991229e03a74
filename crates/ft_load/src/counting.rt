// The limits that a script of a tree of directories needs of its core.
ghost use Rattle.std.specs.Prelude.{◌≡◌, ◌≤◌, IfOk, min};
ghost use Rattle.ft_core.specs.Limits.{default_limits};

use crate::script::{has_owners, has_top_mode, has_top_owners};
use crate::spelling::Spelling;
use ft_base::Memory;
use ft_cells::{Attributes, Timestamp};
use ft_copy::{
    CopyFault, CopyLimits, FileId, Found, Leading, Listing, Opened, PIECE, Source, Target, copy,
};
use ft_core::Limits;
use std::alloc::Global;
use std::cell::Cell;

/// Returns the limits that a core needs on which only a script of this source, spelled so, is to be
/// played: the default ones, or if that is not enough, those for as large files and as many calls,
/// but no more than `most`.
///
/// No file is read for it: its size is what the source reports. If the source can't report
/// something, or reports what is not allowed, what was reported before counts. Fails only for lack
/// of memory.
pub fn needs_of<S: Source>(
    alloc: Global,
    most: Limits,
    set_id: bool,
    spelling: Spelling<'_>,
    source: &S,
) -> Result<Limits, Memory>
    ensures size { IfOk result (λ limits. limits.file_size ≤ most.file_size) }
    ensures calls { IfOk result (λ limits. limits.calls ≤ most.calls) }
    ensures least_size { IfOk result
        (λ limits. min default_limits.file_size most.file_size ≤ limits.file_size) }
    ensures least_calls { IfOk result
        (λ limits. min default_limits.calls most.calls ≤ limits.calls) }
    ensures others { IfOk result
        (λ limits. limits ≡ record most { file_size = limits.file_size; calls = limits.calls }) }
{
    let counted = CountedSource {
        source,
        id: Cell::new(FileId {
            device: 0,
            number: 0,
        }),
        size: Cell::new(0),
        largest: Cell::new(0),
        pieces: Cell::new(0),
    };
    let mut calls = CallCount { spelling, count: 0 };
    let allowed = CopyLimits {
        file_size: most.file_size,
        links: most.links,
        set_id,
    };
    if let Err(stopped) = copy(alloc, allowed, &counted, &mut calls) {
        if stopped.trouble == CopyFault::Memory {
            return Err(Memory);
        }
    }
    let least = Limits::default();
    let all_calls = calls.count.saturating_add(counted.pieces.get());
    Ok(Limits {
        file_size: least
            .file_size
            .max(counted.largest.get())
            .min(most.file_size),
        calls: least.calls.max(all_calls).min(most.calls),
        ..most
    })
}

/// A source whose files are looked at, but not read.
#[derive(Drop)]
struct CountedSource<'a, S> {
    source: &'a S,
    // those of the file that was looked at last
    id: Cell<FileId>,
    size: Cell<u64>,
    largest: Cell<u64>,
    // in how many pieces the files are read
    pieces: Cell<u64>,
}

impl<S: Source> Source for CountedSource<'_, S> {
    type File = &'static [u8];

    fn names(&self, path: &[u8], node: u64) -> Result<Listing, CopyFault> {
        self.source.names(path, node)
    }

    fn look(&self, path: &[u8], node: u64) -> Result<Found, CopyFault> {
        let found = self.source.look(path, node)?;
        if let Found::File(file) = found {
            self.id.set(file.facts.id);
            self.size.set(file.facts.size);
            self.largest.set(self.largest.get().max(file.facts.size));
        }
        Ok(found)
    }

    fn open(&self, _path: &[u8], _node: u64) -> Result<Opened<&'static [u8]>, CopyFault> {
        let pieces = self.size.get().div_ceil(PIECE as u64);
        self.pieces.set(self.pieces.get().saturating_add(pieces));
        Ok(Opened {
            id: self.id.get(),
            file: b"".as_slice(),
        })
    }

    fn read_link(&self, path: &[u8], node: u64) -> Result<Leading, CopyFault> {
        self.source.read_link(path, node)
    }

    /// Returns true: what is left out is reported when the script is written.
    fn omits(&self, _path: &[u8]) -> Result<bool, CopyFault> {
        Ok(true)
    }
}

/// How many calls a script makes besides those that write.
#[derive(Drop)]
struct CallCount<'a> {
    spelling: Spelling<'a>,
    count: u64,
}

impl CallCount<'_> {
    /// Adds calls to the count, which stops at the greatest number.
    fn add(&mut self, calls: u64) -> Result<(), CopyFault> {
        self.count = self.count.saturating_add(calls);
        Ok(())
    }
}

impl Target for CallCount<'_> {
    fn start(&mut self) -> Result<(), CopyFault> {
        self.add(u64::from(!self.spelling.top.is_empty()))
    }

    fn folder(&mut self, _path: &[u8], attributes: Attributes) -> Result<(), CopyFault> {
        self.add(1 + u64::from(has_owners(attributes)))
    }

    fn open(&mut self, _path: &[u8], attributes: Attributes) -> Result<(), CopyFault> {
        self.add(1 + u64::from(has_owners(attributes)))
    }

    fn piece(&mut self, _bytes: &[u8]) -> Result<(), CopyFault> {
        Ok(())
    }

    fn close(&mut self, time: Option<Timestamp>) -> Result<(), CopyFault> {
        self.add(1 + u64::from(time.is_some()))
    }

    fn link(&mut self, _first: &[u8], _path: &[u8]) -> Result<(), CopyFault> {
        self.add(1)
    }

    fn symlink(&mut self, _to: &[u8], _path: &[u8]) -> Result<(), CopyFault> {
        self.add(1)
    }

    fn finish(&mut self, attributes: Attributes) -> Result<(), CopyFault> {
        let modes = u64::from(has_top_mode(self.spelling, attributes));
        let owners = u64::from(has_top_owners(self.spelling, attributes));
        self.add(modes + owners)
    }

    fn give_up(&mut self) {}
}
