// A tree of directories, written as a script.
ghost use Rattle.std.specs.Prelude.{IfErr, OnOk};
ghost use Rattle.ft_load.specs.Loads.{Loads, StopsLoad};

use crate::script::Script;
use crate::spelling::Form;
use ft_copy::{CopyLimits, CopyStop, Source, copy};
use std::alloc::Global;
use std::io::Write;

/// Writes a script of one transaction that makes what a source holds. It is for a core with the
/// limits of the form; if they are above the default ones, the first line of the script gives them.
/// A file that is larger is refused, and so are more calls. A path of more than 4,095 bytes is
/// refused too. The form also says how the script is spelled, and which directory of the tree gets
/// what the source holds.
///
/// Each directory is made before what is in it, the names of a directory in the order of their
/// bytes. A file is opened when it is met first, written in the
/// pieces in which it was read, and closed. When it is met again it gets a further name by a link.
/// Symbolic links come after all else, and are not followed.
///
/// Modes, owners and groups are set if they are not those that a directory or file gets anyway,
/// those of the root at the end, and of files the time. A mode has its bits S_ISUID and S_ISGID
/// only if that is requested.
///
/// The writer is handed back. If something fails, a part of the script was written, and its
/// transaction does not commit, unless only the last line feed is missing.
pub fn load<S: Source, W: Write>(
    alloc: Global,
    form: Form<'_>,
    set_id: bool,
    source: &S,
    writer: W,
) -> (W, Result<(), CopyStop>)
    ensures ok { OnOk result.1
        (Loads form.entry set_id (S.tells source.now) (W.contents writer) (W.contents result.0)) }
    ensures stopped { IfErr result.1 (λ stopped. StopsLoad form.entry set_id (S.tells source.now)
        stopped (W.contents writer) (W.contents result.0)) }
{
    let mut script = Script {
        alloc,
        form,
        writer,
        next: 2,
        fd: 0,
    };
    let allowed = CopyLimits {
        file_size: form.limits.file_size,
        links: form.limits.links,
        set_id,
    };
    let copied = copy(alloc, allowed, source, &mut script);
    (script.writer, copied)
}
