// Trees, opened and closed.
ghost use Rattle.std.specs.Prelude.{◌≡◌, Some, IfOk, IfErr, option_map};
ghost use Rattle.ft_core.specs.Limits.{greatest_limits};
ghost use Rattle.nuzolged.specs.Opened.{HasNew, HasTurns, HasTurnsIfAny, IsOpened, fault_of_limits, fair_of, limits_given, rule_of, with_fair};

use crate::handle::Handle;
use crate::limits::{Limits, limits_given};
use crate::nuz_answer::{BAD, BAD_LIMITS, fault_number};
use crate::pointer::TreePointer;
use ft_base::Memory;
use ft_core::{Core, Fault, Limits as CoreLimits, Rule};
use ft_session::Session;
use std::alloc::Global;

/// The option by which calls wait in turn for older asks.
const FAIR: u32 = 2;

/// Returns the version of the library: a million for each major one, a thousand for each minor one.
#[unsafe(no_mangle)]
pub extern "C" fn nuz_version() -> u32
    ensures { result ≡ 1000 }
{
    1000
}

/// Opens a tree: only the root, and no transaction. `options` is 0 for the rule of this project and
/// 1 for Moss's; with 2 more, calls wait in turn for older asks. Its limits are the greatest.
///
/// Returns 0; 1001 if there is not enough memory; 1201 if there are no such options. Unless it
/// returns 0, the pointer is null.
#[unsafe(no_mangle)]
pub extern "C" fn nuz_tree_open(alloc: Global, tree: &mut TreePointer, options: u32) -> u32
    ensures opened { IsOpened (rule_of options) (Some greatest_limits) result tree.new.tree }
    ensures turns { HasTurnsIfAny (fair_of options) tree.new.tree }
{
    open(alloc, tree, options, Some(CoreLimits::greatest()))
}

/// Opens a tree with these limits, as `nuz_tree_open` else does. Also returns 1012, if there are
/// such options and one of the limits is above the greatest.
#[unsafe(no_mangle)]
pub extern "C" fn nuz_tree_open_with(
    alloc: Global,
    tree: &mut TreePointer,
    options: u32,
    limits: &Limits,
) -> u32
    ensures opened { IsOpened (rule_of options) (limits_given limits.now) result tree.new.tree }
    ensures turns { HasTurnsIfAny (fair_of options) tree.new.tree }
{
    open(alloc, tree, options, limits_given(limits))
}

/// Mixes a number into the hashes by which the tree finds names, as `Core::seed` does. A closed
/// handle stays so.
#[unsafe(no_mangle)]
pub extern "C" fn nuz_tree_seed(alloc: Global, tree: &mut Handle, seed: u64)
    ensures { tree.new.session ≡ tree.old.session }
{
    if let Some(session) = tree.take(alloc) {
        let mut session = session;
        session.core.seed(seed);
        tree.put(session);
    }
}

/// Sets whether calls of a tree wait in turn for older asks from here on. A closed handle stays so.
#[unsafe(no_mangle)]
pub extern "C" fn nuz_tree_fair(alloc: Global, tree: &mut Handle, is_fair: bool)
    ensures { tree.new.session ≡ option_map (with_fair is_fair) tree.old.session }
{
    if let Some(session) = tree.take(alloc) {
        let mut session = session;
        session.is_fair = is_fair;
        tree.put(session);
    }
}

/// Ends a tree, if there is one, with all its transactions.
#[unsafe(no_mangle)]
pub extern "C" fn nuz_tree_close(tree: TreePointer) {
    drop(tree);
}

/// Opens a tree by the rule of a number, with these limits, if a tree may have them.
fn open(alloc: Global, tree: &mut TreePointer, options: u32, limits: Option<CoreLimits>) -> u32
    ensures opened { IsOpened (rule_of options) limits result tree.new.tree }
    ensures turns { HasTurnsIfAny (fair_of options) tree.new.tree }
{
    match new_tree(alloc, options, limits) {
        Ok(handle) => {
            tree.put(TreePointer::to(handle));
            0
        }
        Err(code) => {
            tree.put(TreePointer::null(alloc));
            code
        }
    }
}

/// Returns a handle of a new tree, or the code of the reason why there is none.
fn new_tree(alloc: Global, options: u32, limits: Option<CoreLimits>) -> Result<Box<Handle>, u32>
    ensures new { IfOk result (λ handle. IsOpened (rule_of options) limits 0 (Some handle.value)) }
    ensures turns { IfOk result (λ handle. HasTurns (fair_of options) handle.value) }
    ensures refused { IfErr result (λ code. IsOpened (rule_of options) limits code None) }
{
    let Some(rule) = rule_of(options) else {
        return Err(BAD);
    };
    let Some(limits) = limits else {
        return Err(BAD_LIMITS);
    };
    match new_handle(alloc, rule, limits, fair_of(options)) {
        Ok(handle) => Ok(handle),
        Err(fault) => Err(fault_number(fault)),
    }
}

/// Returns the rule of a number.
fn rule_of(number: u32) -> Option<Rule>
    ensures { result ≡ rule_of number }
{
    match number {
        0 | 2 => Some(Rule::Profile),
        1 | 3 => Some(Rule::Moss),
        _ => None,
    }
}

/// Returns whether this number requests that calls wait in turn for older asks.
fn fair_of(number: u32) -> bool
    ensures { result ≡ fair_of number }
{
    number >= FAIR
}

/// Returns a handle of a session with a new core.
fn new_handle(
    alloc: Global,
    rule: Rule,
    limits: CoreLimits,
    is_fair: bool,
) -> Result<Box<Handle>, Fault>
    ensures new { IfOk result (λ handle. HasNew rule limits handle.value) }
    ensures turns { IfOk result (λ handle. HasTurns is_fair handle.value) }
    ensures refused { IfErr result (λ fault. fault ≡ fault_of_limits limits) }
{
    let core = Core::with(alloc, rule, limits)?;
    let session = boxed(alloc, Session::new(alloc, core, is_fair))?;
    let mut handle = Handle::closed(alloc);
    handle.put(session);
    Ok(boxed_handle(alloc, handle)?)
}

/// Returns a session in a box.
fn boxed(alloc: Global, session: Session) -> Result<Box<Session>, Memory>
    ensures { IfOk result (λ boxed. boxed.value ≡ session) }
{
    Ok(Box::new(alloc, session)?)
}

/// Returns a handle in a box.
fn boxed_handle(alloc: Global, handle: Handle) -> Result<Box<Handle>, Memory>
    ensures { IfOk result (λ boxed. boxed.value ≡ handle) }
{
    Ok(Box::new(alloc, handle)?)
}
