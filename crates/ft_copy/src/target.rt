// The requests to a target.
ghost use Rattle.std.specs.Prelude.{OnOk, IfErr};

use crate::copy_fault::CopyFault;
use ft_cells::{Attributes, Timestamp};

/// A maker of a tree of directories.
///
/// It gets one request after another: first to start, then for directories and files, each
/// directory before its contents, then for symbolic links, and then to finish. If something fails,
/// it is asked to give up, and for nothing more.
pub trait Target {
    ghost use Rattle.ft_copy.specs.declared.copy_fault.CopyFault.{CopyFault};
    ghost use Rattle.ft_copy.specs.Asked.{Asked, Start, Folder, Open, Piece, Close, Link, Symlink, Finish, GiveUp};

    /// The step from one state to the next when the target has done what was requested. By default
    /// this is not stated.
    ghost does: { Self → Asked → Self → Type 0 } = { λ _ _ _. Unit {0} };

    /// The step from one state to the next when the target has failed, and the fault. By default
    /// this is not stated.
    ghost fails: { Self → Asked → CopyFault → Self → Type 0 } = { λ _ _ _ _. Unit {0} };

    /// Begins a tree, which has a root and nothing in it.
    fn start(&mut self) -> Result<(), CopyFault>
        ensures ok { OnOk result (does self.old Start self.new) }
        ensures err { IfErr result (λ trouble. fails self.old Start trouble self.new) };

    /// Makes a directory, which has these attributes when the tree is complete.
    fn folder(&mut self, path: &[u8], attributes: Attributes) -> Result<(), CopyFault>
        ensures ok { OnOk result (does self.old (Folder path.now attributes) self.new) }
        ensures err { IfErr result
            (λ trouble. fails self.old (Folder path.now attributes) trouble self.new) };

    /// Makes a file, which is empty and open for writing. It has these attributes when it is
    /// closed.
    fn open(&mut self, path: &[u8], attributes: Attributes) -> Result<(), CopyFault>
        ensures ok { OnOk result (does self.old (Open path.now attributes) self.new) }
        ensures err { IfErr result
            (λ trouble. fails self.old (Open path.now attributes) trouble self.new) };

    /// Appends bytes to the open file.
    fn piece(&mut self, bytes: &[u8]) -> Result<(), CopyFault>
        ensures ok { OnOk result (does self.old (Piece bytes.now) self.new) }
        ensures err { IfErr result (λ trouble. fails self.old (Piece bytes.now) trouble self.new) };

    /// Closes the open file, whose bytes have this time, if there is one.
    fn close(&mut self, time: Option<Timestamp>) -> Result<(), CopyFault>
        ensures ok { OnOk result (does self.old (Close time) self.new) }
        ensures err { IfErr result (λ trouble. fails self.old (Close time) trouble self.new) };

    /// Gives a further name to a file or a symbolic link that was made.
    fn link(&mut self, first: &[u8], path: &[u8]) -> Result<(), CopyFault>
        ensures ok { OnOk result (does self.old (Link first.now path.now) self.new) }
        ensures err { IfErr result
            (λ trouble. fails self.old (Link first.now path.now) trouble self.new) };

    /// Makes a symbolic link to this target, whatever is there, or nothing.
    fn symlink(&mut self, to: &[u8], path: &[u8]) -> Result<(), CopyFault>
        ensures ok { OnOk result (does self.old (Symlink to.now path.now) self.new) }
        ensures err { IfErr result
            (λ trouble. fails self.old (Symlink to.now path.now) trouble self.new) };

    /// Ends the tree, which is complete. Its root has these attributes.
    fn finish(&mut self, attributes: Attributes) -> Result<(), CopyFault>
        ensures ok { OnOk result (does self.old (Finish attributes) self.new) }
        ensures err { IfErr result
            (λ trouble. fails self.old (Finish attributes) trouble self.new) };

    /// Removes what was begun.
    fn give_up(&mut self)
        ensures { does self.old GiveUp self.new };
}
