// One file: how many entries name it, its attributes, and what it holds.
ghost use Rattle.std.specs.Prelude.{◌≡◌, ◌≤◌, [], None, length, IsOk, IfOk, OnOk, OnErr};
ghost use Rattle.ft_body.specs.declared.TheConstants.{LARGEST_SIZE};
ghost use Rattle.ft_body.specs.Bytes.{fitting, after_write, resized};
ghost use Rattle.ft_cells.specs.Cells.{FileCells, coded_file_cells, no_contents, untimed, timed};
ghost use Rattle.ft_inodes.specs.Stored.{with_contents};

use ft_base::Memory;
use ft_body::{Body, BodyUndo};
use ft_cells::{Attributes, Rare, Timestamp};
use std::alloc::{AllocError, Global};
use std::marker::Model;
use std::mem;

/// A stored file.
#[derive(Drop)]
pub struct File {
    links: u64,
    attributes: Rare<Attributes>,
    body: Body,
    time: Rare<Timestamp>,
}

impl Model for File {
    ghost Value = { FileCells };

    ghost coded = { coded_file_cells };

    ghost view = { λ a. record {
      links = a.links;
      attributes = a.attributes;
      contents = record { bytes = a.body; time = a.time };
    } };
}

/// The undo record of one change of the bytes of a file, with the time that the bytes had. A change
/// removes the time.
///
/// Clauses see it as the contents of the file before and after the change.
pub struct FileUndo {
    body: BodyUndo,
    time: Rare<Timestamp>,
}

impl Model for FileUndo {
    ghost use Rattle.ft_cells.specs.Cells.{ContentsChange, untimed};

    ghost Value = { ContentsChange };

    ghost view = { λ a. record {
      before = record { bytes = a.body.before; time = a.time };
      after = untimed a.body.after;
    } };
}

// (written by hand, so that dropping one is a single step for the caller)
impl Drop for FileUndo {
    fn drop(self) {
        let FileUndo { body: _, time: _ } = self;
    }
}

impl FileUndo {
    /// Returns the undo record of the bytes, and the time that they had.
    fn into_parts(self) -> (BodyUndo, Rare<Timestamp>)
        ensures body { result.0 ≡ record { before = self.before.bytes; after = self.after.bytes } }
        ensures time { result.1 ≡ self.before.time }
    {
        let FileUndo { body, time } = self;
        (body, time)
    }
}

impl File {
    /// Returns a file with this number of links and without attributes, bytes or time. Takes no
    /// memory.
    pub fn new(alloc: Global, links: u64) -> File
        ensures { result ≡ record { links = links; attributes = None; contents = no_contents } }
    {
        File {
            links,
            attributes: Rare::none(),
            body: Body::new(alloc),
            time: Rare::none(),
        }
    }

    /// Returns how many entries name the file.
    pub fn links(&self) -> u64
        ensures { result ≡ self.now.links }
    {
        self.links
    }

    /// Returns the attributes that are stored of the file.
    pub fn attributes(&self) -> Option<Attributes>
        ensures { result ≡ self.now.attributes }
    {
        self.attributes.get()
    }

    /// Returns the time of the bytes, if one was set.
    pub fn time(&self) -> Option<Timestamp>
        ensures { result ≡ self.now.contents.time }
    {
        self.time.get()
    }

    /// Returns the bytes of the file.
    pub fn body(&self) -> &Body
        ensures { result.now ≡ self.now.contents.bytes }
    {
        &self.body
    }

    /// Sets how many entries name the file, and returns the previous number.
    pub fn set_links(&mut self, links: u64) -> u64
        ensures was { result ≡ self.old.links }
        ensures set { self.new ≡ record {
          links = links;
          attributes = self.old.attributes;
          contents = self.old.contents;
        } }
    {
        mem::replace(&mut self.links, links)
    }

    /// Sets the stored attributes of the file, and returns the previous ones. Takes no memory.
    pub fn set_attributes(&mut self, to: Rare<Attributes>) -> Rare<Attributes>
        ensures was { result ≡ self.old.attributes }
        ensures set { self.new ≡ record {
          links = self.old.links;
          attributes = to;
          contents = self.old.contents;
        } }
    {
        mem::replace(&mut self.attributes, to)
    }

    /// Sets the time of the bytes, and returns the previous one. Takes no memory.
    pub fn set_time(&mut self, to: Rare<Timestamp>) -> Rare<Timestamp>
        ensures was { result ≡ self.old.contents.time }
        ensures set { self.new ≡ with_contents self.old (timed self.old.contents to) }
    {
        mem::replace(&mut self.time, to)
    }

    /// Writes bytes at an offset, as `Body::write_at` does, and removes the time of the bytes.
    /// Returns how many bytes were written, and the undo record.
    ///
    /// Out of memory is the only error, and it changes nothing. It cannot occur if no byte is
    /// written.
    pub fn write_at(&mut self, offset: u64, bytes: &[u8]) -> Result<(u64, FileUndo), Memory>
        requires { offset ≤ LARGEST_SIZE }
        ensures taken { IfOk result
            (λ done. done.0 ≡ length (fitting LARGEST_SIZE bytes.now offset)) }
        ensures file { OnOk result (self.new
            ≡ with_contents self.old
            (untimed (after_write self.old.contents.bytes offset bytes.now))) }
        ensures undo { IfOk result
            (λ done. done.1 ≡ record { before = self.old.contents; after = self.new.contents }) }
        ensures err { OnErr result (self.new ≡ self.old) }
        ensures nothing { fitting LARGEST_SIZE bytes.now offset ≡ [] → IsOk result }
    {
        let (taken, body) = self.body.write_at(offset, bytes)?;
        let time = mem::replace(&mut self.time, Rare::none());
        Ok((taken, FileUndo { body, time }))
    }

    /// Cuts the file to a size, or adds zeros up to that size, and removes the time of the bytes.
    /// Returns the undo record.
    ///
    /// Out of memory is the only error, and it changes nothing. It cannot occur if the file already
    /// has this size.
    pub fn set_len(&mut self, size: u64) -> Result<FileUndo, Memory>
        requires { size ≤ LARGEST_SIZE }
        ensures file { OnOk result (self.new
            ≡ with_contents self.old (untimed (resized self.old.contents.bytes size))) }
        ensures undo { IfOk result
            (λ undo. undo ≡ record { before = self.old.contents; after = self.new.contents }) }
        ensures err { OnErr result (self.new ≡ self.old) }
        ensures nothing { length self.old.contents.bytes ≡ size → IsOk result }
    {
        let body = self.body.set_len(size)?;
        let time = mem::replace(&mut self.time, Rare::none());
        Ok(FileUndo { body, time })
    }

    /// Undoes a change of the bytes. The file must have the contents that the change left.
    pub fn undo(&mut self, undo: FileUndo)
        requires { self.old.contents ≡ undo.after }
        ensures { self.new ≡ with_contents self.old undo.before }
    {
        let (body, time) = undo.into_parts();
        self.body.undo(body);
        self.time = time;
    }
}

impl Clone for File {
    ghost is_clone = { λ file copy. copy ≡ file };

    fn clone(&self) -> Result<File, AllocError> {
        let attributes = self.attributes.clone()?;
        let time = self.time.clone()?;
        match self.body.copy() {
            Ok(body) => Ok(File {
                links: self.links,
                attributes,
                body,
                time,
            }),
            Err(Memory) => Err(AllocError),
        }
    }
}
