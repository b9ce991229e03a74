//! Laws of handles and of what is cut from calls: each is the contract of a function that does
//! nothing.
ghost use Rattle.std.specs.Prelude.{◌≡◌};
ghost use Rattle.nuzolged.specs.Cuts.{CutLaw};

use crate::handle::Handle;
use crate::pointer::TreePointer;

/// A handle may go to another thread. It holds there what it held.
pub fn handle_crosses(handle: Handle) -> Handle
    ensures { result ≡ handle }
{
    crossed(handle)
}

/// A pointer of a handle may too. It leads there to what it led to.
pub fn pointer_crosses(tree: TreePointer) -> TreePointer
    ensures { result ≡ tree }
{
    crossed(tree)
}

/// Returns a value that may go to another thread.
fn crossed<T: Send>(value: T) -> T
    ensures { result ≡ value }
{
    value
}

/// A cut of a call is unseen. The cut call is answered as the call itself, in a state that differs
/// in no more than what was cut before; and so is every later request, and each report.
pub fn cut_is_unseen()
    ensures { CutLaw }
{}
