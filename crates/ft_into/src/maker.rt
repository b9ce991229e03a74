// The requests to a directory in which a tree is made.
ghost use Rattle.std.specs.Prelude.{OnOk};

use crate::step::{Act, Thing};
use ft_cells::{Attributes, Timestamp};
use ft_copy::CopyFault;

/// A directory in which a tree is made. It gets one request after another, the last of them to
/// finish. If something fails, it is asked to give up, and for nothing more.
pub trait Maker {
    ghost use Rattle.ft_into.specs.Makes.{Making, Folder, Open, Piece, Close, Link, Symlink, Remove, Finish, GiveUp};

    /// The step from one state to the next when the maker has done what was requested. By default
    /// this is not stated.
    ghost does: { Self → Making → Self → Type 0 } = { λ _ _ _. Unit {0} };

    /// Makes a directory, or changes the one that is there. It has these attributes when all is
    /// made.
    fn folder(&mut self, act: Act, path: &[u8], attributes: Attributes) -> Result<(), CopyFault>
        ensures { OnOk result (does self.old (Folder act path.now attributes) self.new) };

    /// Makes a file, which is empty and open for writing. When it is closed, it is at its path with
    /// these attributes. If a file is to be changed, it replaces that.
    fn open(&mut self, act: Act, path: &[u8], attributes: Attributes) -> Result<(), CopyFault>
        ensures { OnOk result (does self.old (Open act path.now attributes) self.new) };

    /// Appends bytes to the open file.
    fn piece(&mut self, bytes: &[u8]) -> Result<(), CopyFault>
        ensures { OnOk result (does self.old (Piece bytes.now) self.new) };

    /// Closes the open file, whose bytes have this time, if there is one.
    fn close(&mut self, time: Option<Timestamp>) -> Result<(), CopyFault>
        ensures { OnOk result (does self.old (Close time) self.new) };

    /// Gives a file or a symbolic link a further name. If a name is to be changed, it replaces
    /// that.
    fn link(&mut self, act: Act, first: &[u8], path: &[u8]) -> Result<(), CopyFault>
        ensures { OnOk result (does self.old (Link act first.now path.now) self.new) };

    /// Makes a symbolic link to this target. If a link is to be changed, it replaces that.
    fn symlink(&mut self, act: Act, to: &[u8], path: &[u8]) -> Result<(), CopyFault>
        ensures { OnOk result (does self.old (Symlink act to.now path.now) self.new) };

    /// Removes a name, or a directory that is empty.
    fn remove(&mut self, thing: Thing, path: &[u8]) -> Result<(), CopyFault>
        ensures { OnOk result (does self.old (Remove thing path.now) self.new) };

    /// Ends the tree, which is complete. The directories get their attributes.
    fn finish(&mut self) -> Result<(), CopyFault>
        ensures { OnOk result (does self.old Finish self.new) };

    /// Removes the file that is open.
    fn give_up(&mut self)
        ensures { does self.old GiveUp self.new };
}
