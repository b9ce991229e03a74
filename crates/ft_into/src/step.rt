// The steps from one tree of directories to another.
ghost use Rattle.std.specs.Prelude.{◌≡◌, Some};
ghost use Rattle.ft_into.specs.Steps.{act_text, step_text, thing_of, thing_text};

use ft_base::Sequence;
use ft_copy::Found;
use ft_words::PercentCoded;
use std::fmt;

/// The act of a step at a path.
#[derive(Clone, Copy, Debug, PartialEq, Eq)]
pub enum Act {
    /// It makes something. Nothing is there, or the steps before have removed it.
    Add,
    /// It changes something of this kind, or replaces it by another of the kind.
    Change,
    /// It removes something. A directory is empty by then.
    Remove,
}

/// The thing that is at a path, or is to be there.
#[derive(Clone, Copy, Debug, PartialEq, Eq)]
pub enum Thing {
    /// A directory.
    Folder,
    /// A file. If it is removed, its other names stay.
    File,
    /// A further name of a file or of a symbolic link.
    Link,
    /// A symbolic link.
    Symlink,
    /// Something that a tree cannot have. It can only be removed.
    Special,
}

/// A step: what is done, and at which path.
#[derive(Debug, PartialEq, Eq, Drop)]
pub struct Step {
    pub act: Act,
    pub thing: Thing,
    pub path: Sequence<u8>,
}

impl Thing {
    /// Returns the kind of what was found.
    pub(crate) fn of(found: Found) -> Thing
        ensures { result ≡ thing_of found }
    {
        match found {
            Found::Folder(_) => Thing::Folder,
            Found::File(_) => Thing::File,
            Found::Symlink(_) => Thing::Symlink,
            Found::Special => Thing::Special,
        }
    }
}

impl fmt::Display for Act {
    ghost output = { λ act. Some (act_text act) };

    fn fmt<W: fmt::Write>(&self, f: &mut fmt::Formatter<W>) -> fmt::Result {
        f.write_str(match self {
            Act::Add => "add",
            Act::Change => "change",
            Act::Remove => "remove",
        })
    }
}

impl fmt::Display for Thing {
    ghost output = { λ thing. Some (thing_text thing) };

    fn fmt<W: fmt::Write>(&self, f: &mut fmt::Formatter<W>) -> fmt::Result {
        f.write_str(match self {
            Thing::Folder => "dir",
            Thing::File => "file",
            Thing::Link => "link",
            Thing::Symlink => "symlink",
            Thing::Special => "special",
        })
    }
}

/// Prints `ACT THING PATH`. The path is coded, and that of the root is a slash.
impl fmt::Display for Step {
    ghost output = { λ step. Some (step_text step) };

    fn fmt<W: fmt::Write>(&self, f: &mut fmt::Formatter<W>) -> fmt::Result {
        let path = if self.path.is_empty() {
            b"/".as_slice()
        } else {
            self.path.as_slice()
        };
        write!(f, "{} {} {}", self.act, self.thing, PercentCoded(path))
    }
}
