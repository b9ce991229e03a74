// A call that is being planned.
use ft_looks::Look;
use ft_posix::Edits;
use std::alloc::Global;

/// A call that is being planned: its stamp, a look at the tree, and the edits so far.
#[derive(Drop)]
pub(crate) struct Draft<'a, 'b, 't, 'c> {
    pub(crate) alloc: Global,
    pub(crate) stamp: u64,
    pub(crate) look: &'a mut Look<'t>,
    pub(crate) edits: &'b mut Edits<'c>,
}
