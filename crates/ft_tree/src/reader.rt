// Walks along paths, for any reader of a tree.
ghost use Rattle.std.specs.Prelude.{◌≡◌, IfOk, OnOk, OnErr};
ghost use Rattle.ft_cells.specs.Entries.{entry_at};
ghost use Rattle.ft_cells.specs.declared.cell.Cell.TheVariants.{Entry as EntryCell, Parent, Bytes};
ghost use Rattle.ft_cells.specs.Cells.{entry_of, parent_of, bytes_of};
ghost use Rattle.ft_cells.specs.Looks.{answer};
ghost use Rattle.ft_tree.specs.Views.{view_of, NotesLooks};
ghost use Rattle.ft_tree.specs.Walk.{up, inner, last, halted, leg_in, leg_along, start_of, slash_after, way_behind, rest_along, rest_from, walk_along, walk};

use crate::tree::ROOT;
use ft_base::Memory;
use ft_cells::{Entry, Form, Node, PathEnd};
use ft_path::{Errno, Name, Names, PartsFault, begins_with_slash, target_parts};
use std::alloc::Global;

/// The most symbolic links that a walk follows: {SYMLOOP_MAX}.
pub const MOST_FOLLOWED: u8 = 40;

/// Why a component leads no further: a fault, or a symbolic link that is to be followed.
#[derive(Clone, Copy)]
pub enum Halt {
    Fault(Errno),
    Onto(u64),
}

/// Components that are to be walked from a directory, and whether a slash follows them.
#[derive(Drop)]
pub struct Way {
    pub start: u64,
    pub names: Names,
    pub slash: bool,
}

/// Borrowed components that are walked from a directory, and whether a slash follows them.
#[derive(Clone, Copy)]
pub struct Route<'a> {
    pub start: u64,
    pub names: &'a [Name],
    pub slash: bool,
}

/// The symbolic links that a walk may follow: at most how many more, and whether one to which the
/// last name leads.
#[derive(Clone, Copy)]
struct Following {
    left: u8,
    last: bool,
}

/// A symbolic link that is to be followed, its directory, and the names after it.
#[derive(Clone, Copy)]
struct Met<'a> {
    link: u64,
    dir: u64,
    names: &'a [Name],
}

/// The end of a leg of a walk: the end of the walk, or a symbolic link that is to be followed.
#[derive(Drop)]
enum Leg<'a> {
    Ends(Result<PathEnd, Errno>),
    Meets(Met<'a>),
}

/// A reader of a tree for walks. It may keep a record of the cells that were read.
pub trait Reader {
    ghost use Rattle.ft_cells.specs.declared.cell.Cell.{Cell};
    ghost use Rattle.ft_cells.specs.Cells.{Cells};

    /// The tree that is read.
    ghost cells: { Self → Cells };

    /// The state of the reader after a cell was read.
    ghost noted: { Self → Cell → Self };

    /// Returns what a name leads to in a directory, if it is an entry. Out of memory is the only
    /// error.
    fn entry(&mut self, dir: u64, name: &Name) -> Result<Option<Node>, Memory>
        ensures node { IfOk result (λ node. node ≡ entry_of (cells self.old) dir name.now) }
        ensures noted { OnOk result (self.new
            ≡ noted self.old (EntryCell (entry_at dir name.now))) }
        ensures wanting { OnErr result (cells self.new ≡ cells self.old) };

    /// Returns the parent of a directory, if it has one. Out of memory is the only error.
    fn parent(&mut self, dir: u64) -> Result<Option<u64>, Memory>
        ensures parent { IfOk result (λ parent. parent ≡ parent_of (cells self.old) dir) }
        ensures noted { OnOk result (self.new ≡ noted self.old (Parent dir)) }
        ensures wanting { OnErr result (cells self.new ≡ cells self.old) };

    /// Returns the target of a symbolic link. Out of memory is the only error.
    fn target(&mut self, link: u64) -> Result<Vec<u8>, Memory>
        ensures target { IfOk result (λ target. target.items ≡ bytes_of (cells self.old) link) }
        ensures noted { OnOk result (self.new ≡ noted self.old (Bytes link)) }
        ensures wanting { OnErr result (cells self.new ≡ cells self.old) };

    /// Reading a cell does not change the tree.
    ghost stays: { (reader : Self) (cell : Cell) → cells (noted reader cell) ≡ cells reader };
}

/// Returns where the components of a path lead from the root: pathname resolution (POSIX.1-2017,
/// Base Definitions, 4.13). Relative and absolute paths are treated alike, a rule of this project.
///
/// `.` stays in a directory, and `..` goes to its parent. The parent of the root is the root. A
/// name that is not the last must lead to a directory. If it is missing the walk fails with ENOENT,
/// and if it is a regular file, with ENOTDIR.
///
/// The last name may be missing. If it is a regular file and a slash follows (`slash`), the walk
/// fails with ENOTDIR. A symbolic link before the last name is followed. A last one is followed
/// only if `follow` is true or a slash follows it. More than 40 links fail with ELOOP. The outer
/// error is out of memory.
pub fn walk<R: Reader>(
    alloc: Global,
    reader: &mut R,
    follow: bool,
    names: &[Name],
    slash: bool,
) -> Result<Result<PathEnd, Errno>, Memory>
    ensures end { IfOk result
        (λ end. end ≡ answer (walk follow names.now slash) (view_of (R.cells reader.old))) }
    ensures noted { OnOk result
        (NotesLooks R.noted (R.cells reader.old) (walk follow names.now slash) reader.old
        reader.new) }
{
    let route = Route {
        start: ROOT,
        names,
        slash,
    };
    walk_from(alloc, reader, follow, route)
}

/// Returns where components lead from a directory, as `walk` does from the root.
pub fn walk_from<R: Reader>(
    alloc: Global,
    reader: &mut R,
    follow: bool,
    route: Route<'_>,
) -> Result<Result<PathEnd, Errno>, Memory>
    ensures end { IfOk result
        (λ end. end ≡ answer (walk_along follow route.entry) (view_of (R.cells reader.old))) }
    ensures noted { OnOk result
        (NotesLooks R.noted (R.cells reader.old) (walk_along follow route.entry) reader.old
        reader.new) }
{
    let links = Following {
        left: MOST_FOLLOWED,
        last: follow,
    };
    walk_on(alloc, reader, links, route)
}

/// Returns where a route leads. The walk may still follow `links.left` symbolic links.
#[cycle(walking)]
fn walk_on<R: Reader>(
    alloc: Global,
    reader: &mut R,
    links: Following,
    route: Route<'_>,
) -> Result<Result<PathEnd, Errno>, Memory>
    ensures end { IfOk result
        (λ end. end ≡ answer (rest_along links route.entry) (view_of (R.cells reader.old))) }
    ensures noted { OnOk result
        (NotesLooks R.noted (R.cells reader.old) (rest_along links route.entry) reader.old
        reader.new) }
{
    match walk_leg(reader, route, links.last)? {
        Leg::Ends(end) => Ok(end),
        Leg::Meets(_) if links.left == 0 => Ok(Err(Errno::ELOOP)),
        Leg::Meets(met) => {
            let links = Following {
                left: links.left - 1,
                last: links.last,
            };
            onward(alloc, reader, links, met, route.slash)
        }
    }
}

/// Returns where a walk leads from a symbolic link that is followed. `slash` is whether a slash
/// follows the last name.
#[cycle(walking)]
fn onward<R: Reader>(
    alloc: Global,
    reader: &mut R,
    links: Following,
    met: Met<'_>,
    slash: bool,
) -> Result<Result<PathEnd, Errno>, Memory>
    ensures end { IfOk result
        (λ end. end ≡ answer (rest_from links met.entry slash) (view_of (R.cells reader.old))) }
    ensures noted { OnOk result
        (NotesLooks R.noted (R.cells reader.old) (rest_from links met.entry slash) reader.old
        reader.new) }
{
    let target = reader.target(met.link)?;
    match way_behind(alloc, met, slash, target.as_slice())? {
        Ok(way) => {
            let route = Route {
                start: way.start,
                names: way.names.as_slice(),
                slash: way.slash,
            };
            walk_on(alloc, reader, links, route)
        }
        Err(errno) => Ok(Err(errno)),
    }
}

/// Returns the way from a symbolic link that was met: its target, and then the names that were
/// left. The inner error is that of the target. The outer error is out of memory.
fn way_behind(
    alloc: Global,
    met: Met<'_>,
    slash: bool,
    target: &[u8],
) -> Result<Result<Way, Errno>, Memory>
    ensures { IfOk result (λ way. way
        ≡ way_behind met.entry.dir met.entry.names.now slash target.now) }
{
    let mut parts = match target_parts(alloc, target) {
        Ok(parts) => parts,
        Err(PartsFault::Errno(errno)) => return Ok(Err(errno)),
        Err(PartsFault::Memory) => return Err(Memory),
    };
    parts.names.push_copies(met.names)?;
    Ok(Ok(Way {
        start: start_of(met.dir, target),
        slash: slash_after(slash, met.names, parts.trailing),
        names: parts.names,
    }))
}

/// Returns where a target starts: at the root, or in the directory of its link.
fn start_of(dir: u64, target: &[u8]) -> u64
    ensures { result ≡ start_of dir target.now }
{
    if begins_with_slash(target) { ROOT } else { dir }
}

/// Returns whether a slash follows the last name after a target replaces its link. `behind` is
/// whether a slash follows the target.
fn slash_after(slash: bool, names: &[Name], behind: bool) -> bool
    ensures { result ≡ slash_after slash names.now behind }
{
    if names.is_empty() {
        slash || behind
    } else {
        slash
    }
}

/// Returns where a route leads, up to a symbolic link that is to be followed.
fn walk_leg<'a, R: Reader>(
    reader: &mut R,
    route: Route<'a>,
    follow: bool,
) -> Result<Leg<'a>, Memory>
    ensures end { IfOk result
        (λ end. leg_in end
        ≡ answer (leg_along route.entry follow) (view_of (R.cells reader.old))) }
    ensures noted { OnOk result
        (NotesLooks R.noted (R.cells reader.old) (leg_along route.entry follow) reader.old
        reader.new) }
{
    let Route {
        start,
        names,
        slash,
    } = route;
    let Some((first, rest)) = names.split_first() else {
        return Ok(Leg::Ends(Ok(PathEnd::Itself(start))));
    };
    let mut dir = start;
    let mut name = first;
    for (passed, next) in rest.iter().enumerate() {
        dir = match inner(reader, dir, name)? {
            Ok(number) => number,
            Err(halt) => return Ok(halted(dir, &rest[passed..], halt)),
        };
        name = next;
    }
    Ok(match last(reader, dir, name, follow, slash)? {
        Ok(spot) => Leg::Ends(Ok(spot)),
        Err(halt) => halted(dir, &[], halt),
    })
}

/// Returns the end of a leg that halts in a directory, with these names left.
fn halted(dir: u64, names: &[Name], halt: Halt) -> Leg<'_>
    ensures { leg_in result ≡ halted dir names.now halt }
{
    match halt {
        Halt::Fault(errno) => Leg::Ends(Err(errno)),
        Halt::Onto(link) => Leg::Meets(Met { link, dir, names }),
    }
}

/// Returns the parent of a directory. The parent of the root is the root.
fn up<R: Reader>(reader: &mut R, dir: u64) -> Result<u64, Memory>
    ensures end { IfOk result (λ end. end ≡ answer (up dir) (view_of (R.cells reader.old))) }
    ensures noted { OnOk result
        (NotesLooks R.noted (R.cells reader.old) (up dir) reader.old reader.new) }
{
    if dir == ROOT {
        return Ok(ROOT);
    }
    Ok(reader.parent(dir)?.unwrap_or(ROOT))
}

/// Returns where a component that is not the last leads from a directory.
fn inner<R: Reader>(reader: &mut R, dir: u64, name: &Name) -> Result<Result<u64, Halt>, Memory>
    ensures end { IfOk result
        (λ end. end ≡ answer (inner dir name.now) (view_of (R.cells reader.old))) }
    ensures noted { OnOk result
        (NotesLooks R.noted (R.cells reader.old) (inner dir name.now) reader.old reader.new) }
{
    if name.is_dot() {
        return Ok(Ok(dir));
    }
    if name.is_dot_dot() {
        return Ok(Ok(up(reader, dir)?));
    }
    Ok(match reader.entry(dir, name)? {
        None => Err(Halt::Fault(Errno::ENOENT)),
        Some(Node::Dir(number)) => Ok(number),
        Some(Node::File(Form::Regular, _)) => Err(Halt::Fault(Errno::ENOTDIR)),
        Some(Node::File(Form::Link, link)) => Err(Halt::Onto(link)),
    })
}

/// Returns where the last component leads from a directory.
fn last<R: Reader>(
    reader: &mut R,
    dir: u64,
    name: &Name,
    follow: bool,
    slash: bool,
) -> Result<Result<PathEnd, Halt>, Memory>
    ensures end { IfOk result
        (λ end. end ≡ answer (last dir name.now follow slash) (view_of (R.cells reader.old))) }
    ensures noted { OnOk result
        (NotesLooks R.noted (R.cells reader.old) (last dir name.now follow slash) reader.old
        reader.new) }
{
    if name.is_dot() {
        return Ok(Ok(PathEnd::Itself(dir)));
    }
    if name.is_dot_dot() {
        return Ok(Ok(PathEnd::Itself(up(reader, dir)?)));
    }
    Ok(match reader.entry(dir, name)? {
        Some(Node::File(Form::Regular, _)) if slash => Err(Halt::Fault(Errno::ENOTDIR)),
        Some(Node::File(Form::Link, link)) if follow || slash => Err(Halt::Onto(link)),
        node => {
            let name = name.try_clone()?;
            let entry = Entry { dir, name };
            Ok(PathEnd::Named { entry, node, slash })
        }
    })
}
