// The symbolic links of a tree, which are made after all else.
ghost use Rattle.std.specs.Prelude.{OnOk, IfErr};
ghost use Rattle.ft_copy.specs.Runs.{CopiesMet, MakesLink, MakesLinks};
ghost use Rattle.ft_copy.specs.Stops.{FailsToCopyMet, StopsLink, StopsLinks};
ghost use Rattle.ft_copy.specs.Walks.{standing};

use crate::copy_fault::{CopyFault, CopyStop};
use crate::found::MetLink;
use crate::limits::CopyLimits;
use crate::source::Source;
use crate::target::Target;
use crate::walk::Walk;

/// Makes the symbolic links that were met, one after another.
pub(crate) fn make_links<S: Source, T: Target>(
    limits: CopyLimits,
    source: &S,
    target: &mut T,
    walk: &mut Walk,
) -> Result<(), CopyStop>
    ensures ok { OnOk result
        (MakesLinks limits (S.tells source.now) T.does (standing walk.old) target.old target.new) }
    ensures err { IfErr result
        (λ stopped. StopsLinks limits (S.tells source.now) T.does T.fails stopped
        (standing walk.old) target.old target.new) }
{
    while let Some(link) = walk.links.pop_front() {
        match make_link(limits, source, target, walk, &link) {
            Ok(()) => {}
            Err(trouble) => {
                return Err(CopyStop {
                    trouble,
                    path: link.place.path,
                });
            }
        }
    }
    Ok(())
}

/// Makes a symbolic link when it is met first, and gives it a further name when it is met again.
fn make_link<S: Source, T: Target>(
    limits: CopyLimits,
    source: &S,
    target: &mut T,
    walk: &mut Walk,
    link: &MetLink,
) -> Result<(), CopyFault>
    ensures ok { OnOk result
        (MakesLink limits (S.tells source.now) T.does link.now (standing walk.old)
        (standing walk.new) target.old target.new) }
    ensures err { IfErr result
        (λ trouble. StopsLink limits (S.tells source.now) T.does T.fails trouble link.now
        (standing walk.old) target.old target.new) }
{
    let path = link.place.path.as_slice();
    if link.facts.links > limits.links {
        return Err(CopyFault::TooManyLinks);
    }
    if link.facts.links <= 1 {
        return copy_link(source, target, link);
    }
    match walk.firsts.get(link.facts.id) {
        Some(first) => target.link(first.as_slice(), path),
        None => {
            let first = Vec::from_slice(walk.alloc, path)?;
            walk.firsts.insert(link.facts.id, first.into())?;
            copy_link(source, target, link)
        }
    }
}

/// Makes a symbolic link with the target that the source reports.
fn copy_link<S: Source, T: Target>(
    source: &S,
    target: &mut T,
    link: &MetLink,
) -> Result<(), CopyFault>
    ensures ok { OnOk result
        (CopiesMet (S.tells source.now) T.does link.now target.old target.new) }
    ensures err { IfErr result
        (λ trouble. FailsToCopyMet (S.tells source.now) T.fails trouble link.now target.old
        target.new) }
{
    let path = link.place.path.as_slice();
    let leading = source.read_link(path, link.place.node)?;
    if !leading.id.is(link.facts.id) {
        return Err(CopyFault::Read);
    }
    target.symlink(leading.to.as_slice(), path)
}
