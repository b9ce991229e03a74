// The names of calls.
ghost use Rattle.std.specs.Prelude.{◌≡◌};
ghost use Rattle.ft_words.specs.Calls.{look_up};
ghost use Rattle.ft_words.specs.Verbs.{word, verb_of, words_of, on_path, on_paths, with_owners, with_time};

use ft_path::FilePath;
use ft_posix::Call;
use ft_tree::Timestamp;

/// The verb that names a call.
#[derive(Clone, Copy)]
pub(crate) enum Verb {
    /// A call on only one path.
    OnPath(PathVerb),
    Mkdir,
    Open,
    Truncate,
    /// A call on two paths.
    OnPaths(PathsVerb),
    Chmod,
    /// A call that sets the owner and the group of what a path leads to.
    Owning(OwningVerb),
    /// A call that sets the time of the file to which a path leads.
    Timing(TimingVerb),
    /// A call on a descriptor.
    OnDescriptor(DescriptorVerb),
}

#[derive(Clone, Copy)]
pub(crate) enum PathVerb {
    Rmdir,
    List,
    Stat,
    Unlink,
    Readlink,
    Lstat,
}

#[derive(Clone, Copy)]
pub(crate) enum PathsVerb {
    Link,
    Rename,
    Symlink,
}

#[derive(Clone, Copy)]
pub(crate) enum OwningVerb {
    Chown,
    Lchown,
}

#[derive(Clone, Copy)]
pub(crate) enum TimingVerb {
    Utime,
    Lutime,
}

#[derive(Clone, Copy)]
pub(crate) enum DescriptorVerb {
    Close,
    Read,
    Write,
    Pread,
    Pwrite,
    Lseek,
    Ftruncate,
    Fstat,
    Fchmod,
    Fchown,
    Futime,
}

/// Those of all calls.
pub(crate) const VERBS: [Verb; 28] = [
    Verb::Mkdir,
    Verb::OnPath(PathVerb::Rmdir),
    Verb::Open,
    Verb::Truncate,
    Verb::OnPath(PathVerb::Stat),
    Verb::OnPaths(PathsVerb::Link),
    Verb::OnPath(PathVerb::Unlink),
    Verb::OnPaths(PathsVerb::Rename),
    Verb::OnPath(PathVerb::List),
    Verb::OnDescriptor(DescriptorVerb::Close),
    Verb::OnDescriptor(DescriptorVerb::Read),
    Verb::OnDescriptor(DescriptorVerb::Write),
    Verb::OnDescriptor(DescriptorVerb::Pread),
    Verb::OnDescriptor(DescriptorVerb::Pwrite),
    Verb::OnDescriptor(DescriptorVerb::Lseek),
    Verb::OnDescriptor(DescriptorVerb::Ftruncate),
    Verb::OnDescriptor(DescriptorVerb::Fstat),
    Verb::OnDescriptor(DescriptorVerb::Fchmod),
    Verb::OnDescriptor(DescriptorVerb::Fchown),
    Verb::OnDescriptor(DescriptorVerb::Futime),
    Verb::OnPaths(PathsVerb::Symlink),
    Verb::OnPath(PathVerb::Readlink),
    Verb::OnPath(PathVerb::Lstat),
    Verb::Chmod,
    Verb::Owning(OwningVerb::Chown),
    Verb::Owning(OwningVerb::Lchown),
    Verb::Timing(TimingVerb::Utime),
    Verb::Timing(TimingVerb::Lutime),
];

/// Those of calls on a descriptor.
pub(crate) const DESCRIPTOR_VERBS: [Verb; 11] = [
    Verb::OnDescriptor(DescriptorVerb::Close),
    Verb::OnDescriptor(DescriptorVerb::Read),
    Verb::OnDescriptor(DescriptorVerb::Write),
    Verb::OnDescriptor(DescriptorVerb::Pread),
    Verb::OnDescriptor(DescriptorVerb::Pwrite),
    Verb::OnDescriptor(DescriptorVerb::Lseek),
    Verb::OnDescriptor(DescriptorVerb::Ftruncate),
    Verb::OnDescriptor(DescriptorVerb::Fstat),
    Verb::OnDescriptor(DescriptorVerb::Fchmod),
    Verb::OnDescriptor(DescriptorVerb::Fchown),
    Verb::OnDescriptor(DescriptorVerb::Futime),
];

impl Verb {
    /// That of a call.
    pub(crate) fn of(call: &Call) -> Verb
        ensures { result ≡ verb_of call.now }
    {
        match call {
            Call::Mkdir { .. } => Verb::Mkdir,
            Call::Rmdir { .. } => Verb::OnPath(PathVerb::Rmdir),
            Call::List { .. } => Verb::OnPath(PathVerb::List),
            Call::Open { .. } => Verb::Open,
            Call::Close { .. } => Verb::OnDescriptor(DescriptorVerb::Close),
            Call::Read { .. } => Verb::OnDescriptor(DescriptorVerb::Read),
            Call::Write { .. } => Verb::OnDescriptor(DescriptorVerb::Write),
            Call::Pread { .. } => Verb::OnDescriptor(DescriptorVerb::Pread),
            Call::Pwrite { .. } => Verb::OnDescriptor(DescriptorVerb::Pwrite),
            Call::Lseek { .. } => Verb::OnDescriptor(DescriptorVerb::Lseek),
            Call::Truncate { .. } => Verb::Truncate,
            Call::Ftruncate { .. } => Verb::OnDescriptor(DescriptorVerb::Ftruncate),
            Call::Stat { .. } => Verb::OnPath(PathVerb::Stat),
            Call::Fstat { .. } => Verb::OnDescriptor(DescriptorVerb::Fstat),
            Call::Link { .. } => Verb::OnPaths(PathsVerb::Link),
            Call::Unlink { .. } => Verb::OnPath(PathVerb::Unlink),
            Call::Rename { .. } => Verb::OnPaths(PathsVerb::Rename),
            Call::Symlink { .. } => Verb::OnPaths(PathsVerb::Symlink),
            Call::Readlink { .. } => Verb::OnPath(PathVerb::Readlink),
            Call::Lstat { .. } => Verb::OnPath(PathVerb::Lstat),
            Call::Chmod { .. } => Verb::Chmod,
            Call::Fchmod { .. } => Verb::OnDescriptor(DescriptorVerb::Fchmod),
            Call::Chown { .. } => Verb::Owning(OwningVerb::Chown),
            Call::Lchown { .. } => Verb::Owning(OwningVerb::Lchown),
            Call::Fchown { .. } => Verb::OnDescriptor(DescriptorVerb::Fchown),
            Call::Utime { .. } => Verb::Timing(TimingVerb::Utime),
            Call::Lutime { .. } => Verb::Timing(TimingVerb::Lutime),
            Call::Futime { .. } => Verb::OnDescriptor(DescriptorVerb::Futime),
        }
    }

    /// Returns how it is spelled.
    pub(crate) fn word(self) -> &'static str
        ensures { result.now ≡ word self }
    {
        match self {
            Verb::Mkdir => "mkdir",
            Verb::OnPath(PathVerb::Rmdir) => "rmdir",
            Verb::OnPath(PathVerb::List) => "list",
            Verb::Open => "open",
            Verb::OnDescriptor(DescriptorVerb::Close) => "close",
            Verb::OnDescriptor(DescriptorVerb::Read) => "read",
            Verb::OnDescriptor(DescriptorVerb::Write) => "write",
            Verb::OnDescriptor(DescriptorVerb::Pread) => "pread",
            Verb::OnDescriptor(DescriptorVerb::Pwrite) => "pwrite",
            Verb::OnDescriptor(DescriptorVerb::Lseek) => "lseek",
            Verb::Truncate => "truncate",
            Verb::OnDescriptor(DescriptorVerb::Ftruncate) => "ftruncate",
            Verb::OnPath(PathVerb::Stat) => "stat",
            Verb::OnDescriptor(DescriptorVerb::Fstat) => "fstat",
            Verb::OnPaths(PathsVerb::Link) => "link",
            Verb::OnPath(PathVerb::Unlink) => "unlink",
            Verb::OnPaths(PathsVerb::Rename) => "rename",
            Verb::OnPaths(PathsVerb::Symlink) => "symlink",
            Verb::OnPath(PathVerb::Readlink) => "readlink",
            Verb::OnPath(PathVerb::Lstat) => "lstat",
            Verb::Chmod => "chmod",
            Verb::OnDescriptor(DescriptorVerb::Fchmod) => "fchmod",
            Verb::Owning(OwningVerb::Chown) => "chown",
            Verb::Owning(OwningVerb::Lchown) => "lchown",
            Verb::OnDescriptor(DescriptorVerb::Fchown) => "fchown",
            Verb::Timing(TimingVerb::Utime) => "utime",
            Verb::Timing(TimingVerb::Lutime) => "lutime",
            Verb::OnDescriptor(DescriptorVerb::Futime) => "futime",
        }
    }
}

impl PathVerb {
    /// Returns the call on this path.
    pub(crate) fn on(self, path: FilePath) -> Call
        ensures { result ≡ on_path self path }
    {
        match self {
            PathVerb::Rmdir => Call::Rmdir { path },
            PathVerb::List => Call::List { path },
            PathVerb::Stat => Call::Stat { path },
            PathVerb::Unlink => Call::Unlink { path },
            PathVerb::Readlink => Call::Readlink { path },
            PathVerb::Lstat => Call::Lstat { path },
        }
    }
}

impl PathsVerb {
    /// Returns the call on these paths.
    pub(crate) fn on(self, first: FilePath, second: FilePath) -> Call
        ensures { result ≡ on_paths self first second }
    {
        match self {
            PathsVerb::Link => Call::Link {
                old: first,
                new: second,
            },
            PathsVerb::Rename => Call::Rename {
                old: first,
                new: second,
            },
            PathsVerb::Symlink => Call::Symlink {
                target: first,
                path: second,
            },
        }
    }
}

impl OwningVerb {
    /// Returns the call that sets these of what this path leads to.
    pub(crate) fn with(self, owner: Option<u32>, group: Option<u32>, path: FilePath) -> Call
        ensures { result ≡ with_owners self owner group path }
    {
        match self {
            OwningVerb::Chown => Call::Chown { owner, group, path },
            OwningVerb::Lchown => Call::Lchown { owner, group, path },
        }
    }
}

impl TimingVerb {
    /// Returns the call that sets this time of what this path leads to.
    pub(crate) fn with(self, time: Timestamp, path: FilePath) -> Call
        ensures { result ≡ with_time self time path }
    {
        match self {
            TimingVerb::Utime => Call::Utime { time, path },
            TimingVerb::Lutime => Call::Lutime { time, path },
        }
    }
}

/// Returns the one of these that a word spells.
pub(crate) fn spelled(verbs: &[Verb], word: &[u8]) -> Option<Verb>
    ensures { result ≡ look_up (words_of verbs.now) word.now }
{
    for verb in verbs {
        if word == verb.word().as_bytes() {
            return Some(*verb);
        }
    }
    None
}
