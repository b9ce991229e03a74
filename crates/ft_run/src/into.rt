// A tree that is saved into a directory that exists.
ghost use Rattle.std.specs.Prelude.{◌≡◌, ◌⊎◌, ◌++◌, List, ℕ, true, string_bytes, IfOk, OnOk};
ghost use Rattle.std.specs.Io.KnownBytes.{Appends, Keeps};
ghost use Rattle.ft_into.specs.Compares.{ComparesTree};
ghost use Rattle.ft_run.specs.FaultLines.{TellsLine, save_line};
ghost use Rattle.ft_run.specs.SavesInto.{SavesInto, left_lines, step_lines};

use crate::status::report_save_fault;
use ft_base::{Memory, Sequence};
use ft_copy::{CopyLimits, Source};
use ft_into::{Differences, Maker, Step, Wishes, carry_out, compare};
use ft_save::{SaveFault, read_tree};
use ft_script::write_out;
use ft_words::PercentCoded;
use std::alloc::Global;
use std::io::{Read, Write};

/// How a directory is to be changed.
#[derive(Clone, Copy)]
pub struct Into {
    pub wishes: Wishes,
    /// Whether the steps are only listed.
    pub is_dry: bool,
}

/// Lists the steps from a directory to the tree with which replies end, and carries them out,
/// unless they are only to be listed. Returns the maker and the status to end with: 0, or 1 after a
/// fault, which a line on `errors` reports, with the path at which it came. If that line can't be
/// written, the status is the same.
pub fn into_status<R: Read, S: Source, M: Maker, W: Write, E: Write>(
    alloc: Global,
    limits: CopyLimits,
    into: Into,
    reader: &mut R,
    disk: &S,
    maker: M,
    list: &mut W,
    errors: &mut E,
) -> (M, u8)
    ensures status { (result.1 ≡ 0) ⊎ (result.1 ≡ 1) }
    ensures quiet { result.1 ≡ 0 → Keeps (E.contents errors.old) (E.contents errors.new) }
    ensures ok { result.1 ≡ 0 → SavesInto limits into.wishes into.is_dry (R.remaining reader.old)
        (R.remaining reader.new) (S.tells disk.now) (W.contents list.old) (W.contents list.new)
        M.does maker result.0 }
    ensures dry { into.is_dry ≡ true → result.0 ≡ maker }
    ensures fault { result.1 ≡ 1 → (fault : SaveFault)
        × TellsLine (E.contents errors.old) (E.contents errors.new) (save_line fault) }
{
    let (maker, saved) = save_into(alloc, limits, into, reader, disk, maker, list);
    match saved {
        Ok(()) => (maker, 0),
        Err(fault) => (maker, report_save_fault(alloc, errors, &fault)),
    }
}

/// Lists the steps from a directory to the tree with which replies end, and carries them out,
/// unless they are only to be listed. Returns the maker too.
fn save_into<R: Read, S: Source, M: Maker, W: Write>(
    alloc: Global,
    limits: CopyLimits,
    into: Into,
    reader: &mut R,
    disk: &S,
    maker: M,
    list: &mut W,
) -> (M, Result<(), SaveFault>)
    ensures ok { OnOk result.1 (SavesInto limits into.wishes into.is_dry (R.remaining reader.old)
        (R.remaining reader.new) (S.tells disk.now) (W.contents list.old) (W.contents list.new)
        M.does maker result.0) }
    ensures dry { into.is_dry ≡ true → result.0 ≡ maker }
{
    let saved = match read_tree(alloc, reader) {
        Ok(saved) => saved,
        Err(fault) => return (maker, Err(fault)),
    };
    let tree = saved.source();
    let steps = match list_steps(alloc, limits, into.wishes, &tree, disk, list) {
        Ok(steps) => steps,
        Err(fault) => return (maker, Err(fault)),
    };
    if into.is_dry {
        return (maker, Ok(()));
    }
    match carry_out(alloc, limits, &tree, steps.as_slice(), maker) {
        (maker, Ok(())) => (maker, Ok(())),
        (maker, Err(stopped)) => (maker, Err(SaveFault::CopyStop(stopped))),
    }
}

/// Finds the steps from a directory to a tree, and lists them.
fn list_steps<T: Source, S: Source, W: Write>(
    alloc: Global,
    limits: CopyLimits,
    wishes: Wishes,
    tree: &T,
    disk: &S,
    list: &mut W,
) -> Result<Vec<Step>, SaveFault>
    ensures steps { IfOk result (λ steps. ComparesTree (S.tells disk.now) wishes limits
        (T.tells tree.now) steps.items) }
    ensures listed { IfOk result (λ steps. (left : List (List ℕ))
        × Appends (W.contents list.old) (W.contents list.new)
        (step_lines steps.items ++ left_lines left)) }
{
    let differences = compare(alloc, limits, tree, disk, wishes)?;
    let text = text_of(alloc, &differences)?;
    write_out(list, text.as_bytes())?;
    Ok(differences.steps)
}

/// Returns the steps, each on a line, and after them what a killed run has left.
fn text_of(alloc: Global, differences: &Differences) -> Result<String, Memory>
    ensures { IfOk result (λ text. string_bytes text
        ≡ step_lines differences.now.steps.items ++ left_lines differences.now.left.items) }
{
    let mut text = String::new(alloc);
    add_steps(alloc, differences.steps.as_slice(), &mut text)?;
    add_left(alloc, differences.left.as_slice(), &mut text)?;
    Ok(text)
}

/// Appends the line of each step.
fn add_steps(alloc: Global, steps: &[Step], text: &mut String) -> Result<(), Memory>
    ensures { OnOk result (string_bytes text.new ≡ string_bytes text.old ++ step_lines steps.now) }
{
    for step in steps {
        let line = format!(in alloc; "{step}\n")?;
        text.push_str(line.as_str())?;
    }
    Ok(())
}

/// Appends the line of each path that a killed run has left.
fn add_left(alloc: Global, left: &[Sequence<u8>], text: &mut String) -> Result<(), Memory>
    ensures { OnOk result (string_bytes text.new ≡ string_bytes text.old ++ left_lines left.now) }
{
    for path in left {
        let line = format!(in alloc; "left {}\n", PercentCoded(path.as_slice()))?;
        text.push_str(line.as_str())?;
    }
    Ok(())
}
