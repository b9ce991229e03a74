// The place to which the front of a path leads a transaction that holds the entries on its way.
ghost use Rattle.std.specs.Prelude.{◌≡◌, true, false, None, Some, IfOk, IfSome};
ghost use Rattle.std.specs.Option.{option_copied, option_to_list};
ghost use Rattle.ft_tree.specs.Views.{view_of};
ghost use Rattle.ft_tree.specs.Fronts.{front_entries};
ghost use Rattle.ft_lock_rules.specs.Rules.{is_strict};
ghost use Rattle.ft_lock_rules.specs.Surveys.{HasNoHolderAbove};
ghost use Rattle.ft_core.specs.Surveys.{IsAloneIfChildless};
ghost use Rattle.ft_core.specs.Memos.{IsHeld, IsTrueOf, StandElsewhere, AreElsewhere, IsLearnt, KeepsUnpassed};

use crate::parts::Parts;
use ft_base::Memory;
use ft_calls::{Access, Call, Edit, Edits, Mode};
use ft_forest::TxnId;
use ft_lock_rules::Rule;
use ft_locks::LockCheck;
use ft_path::{FilePath, JudgedPath};
use ft_tree::{Cell, Cursor, Entry, Front, Node, ROOT, Tree};
use std::alloc::Global;

/// The least number of bytes of a path that a front must spare to be worth learning. (That of a
/// shorter one costs more than it saves.)
const WORTH: usize = 40;

/// The front of a path whose way a transaction holds locked. For this transaction, a path that goes
/// on after the front begins where it leads.
#[derive(Drop)]
pub(crate) struct Memo {
    pub txn: Option<TxnId>,
    pub front: Front,
    /// The front that would have been worth learning last.
    pub last: Vec<u8>,
}

impl Memo {
    /// Returns a memo that knows nothing. Takes no memory.
    pub(crate) fn new(alloc: Global) -> Memo
        ensures { result.txn ≡ None }
    {
        Memo {
            txn: None,
            front: Front::new(alloc),
            last: Vec::new(alloc),
        }
    }

    /// Forgets what is known.
    pub(crate) fn forget(&mut self)
        ensures { self.new.txn ≡ None }
    {
        self.txn = None;
    }

    /// Returns the front that is known for a transaction, if there is one.
    pub(crate) fn front_of(&self, txn: TxnId) -> Option<&Front>
        ensures { IfSome result (λ front. (self.now.txn ≡ Some txn)
            × (front.now ≡ self.now.front)) }
    {
        if self.txn != Some(txn) {
            return None;
        }
        Some(&self.front)
    }

    /// Forgets what is known if a directory on the way gets or loses an entry by these edits.
    pub(crate) fn forget_if_passed(&mut self, edits: &Edits<'_>)
        ensures { KeepsUnpassed self.old self.new edits.now }
    {
        if self.txn.is_some() && self.is_one_passed(edits) {
            self.txn = None;
        }
    }

    /// Returns whether one of these edits is of an entry in a directory on the way.
    fn is_one_passed(&self, edits: &Edits<'_>) -> bool
        ensures { result ≡ false → AreElsewhere (front_entries self.now.front) edits.now }
    {
        let items = edits.as_items();
        if self.is_passed(items.first()) || self.is_passed(items.second()) {
            return true;
        }
        for edit in items.rest() {
            if self.is_passed(Some(edit)) {
                return true;
            }
        }
        false
    }

    /// Returns whether an edit, if there is one, is of an entry in a directory on the way.
    fn is_passed(&self, edit: Option<&Edit<'_>>) -> bool
        ensures { result ≡ false
            → AreElsewhere (front_entries self.now.front)
            (option_to_list (option_copied edit.entry)) }
    {
        let Some(edit) = edit else {
            return false;
        };
        match edit {
            Edit::Entry { entry, .. } => self.passes(entry.dir),
            _ => false,
        }
    }

    /// Returns whether an entry on the way is in a directory.
    fn passes(&self, dir: u64) -> bool
        ensures { result ≡ false → StandElsewhere (front_entries self.now.front) dir }
    {
        let dirs = self.front.dirs.as_slice();
        let before = &dirs[..dirs.len().saturating_sub(1)];
        dir == ROOT || before.contains(&dir)
    }

    /// Learns where the front of a call's path leads, if it spares enough, and was that of the last
    /// such call. If there is not enough memory, nothing is known.
    #[inline(always)]
    pub(crate) fn learn_from(
        &mut self,
        alloc: Global,
        parts: &Parts,
        rule: Rule,
        txn: TxnId,
        call: &Call,
    )
        requires alone { IsAloneIfChildless parts.now.locks parts.now.forest txn }
        requires no_holder { is_strict rule ≡ true
            → HasNoHolderAbove parts.now.locks parts.now.forest }
        requires known { IsTrueOf self.old parts.now.tree parts.now.locks }
        ensures { IsTrueOf self.new parts.now.tree parts.now.locks }
    {
        if let Some(path) = path_of(call) {
            if path.as_bytes().len() >= WORTH {
                self.learn_path(alloc, parts, rule, txn, path);
            }
        }
    }

    /// Learns where the front of a path leads, if it spares enough, and was that of the last such
    /// call. The path is long enough. If there is not enough memory, nothing is known.
    #[inline(never)]
    fn learn_path(&mut self, alloc: Global, parts: &Parts, rule: Rule, txn: TxnId, path: &FilePath)
        requires alone { IsAloneIfChildless parts.now.locks parts.now.forest txn }
        requires no_holder { is_strict rule ≡ true
            → HasNoHolderAbove parts.now.locks parts.now.forest }
        requires known { IsTrueOf self.old parts.now.tree parts.now.locks }
        ensures { IsTrueOf self.new parts.now.tree parts.now.locks }
    {
        let Some(front) = self.worth(txn, path) else {
            return;
        };
        if self.last.as_slice() != front.as_bytes() {
            self.note_last(front.as_bytes());
            return;
        }
        self.txn = None;
        if let Ok(true) = self.is_learnt(alloc, parts, rule, txn, &front) {
            self.txn = Some(txn);
        }
    }

    /// Returns the front of a path, if it spares enough besides what is known.
    fn worth<'p>(&self, txn: TxnId, path: &'p FilePath) -> Option<JudgedPath<'p>>
        ensures { IfSome result (λ front. front.trailing ≡ true) }
    {
        let bytes = path.as_bytes();
        let least = self.spared(txn, bytes).saturating_add(WORTH);
        if bytes.len() < least {
            return None;
        }
        let front = path.judged().ok()?.front()?;
        if front.as_bytes().len() < least {
            return None;
        }
        Some(front)
    }

    /// Returns how many bytes of a path are spared by what is known.
    fn spared(&self, txn: TxnId, path: &[u8]) -> usize {
        match self.front_of(txn) {
            Some(front) if path.starts_with(front.text.as_slice()) => front.text.len(),
            _ => 0,
        }
    }

    /// Notes a front that would have been worth learning.
    fn note_last(&mut self, text: &[u8])
        ensures txn { self.new.txn ≡ self.old.txn }
        ensures front { self.new.front ≡ self.old.front }
    {
        self.last.clear();
        if self.last.extend_from_slice(text).is_err() {
            self.last.clear();
        }
    }

    /// Learns where a front leads, and returns whether the transaction holds the way there.
    fn is_learnt(
        &mut self,
        alloc: Global,
        parts: &Parts,
        rule: Rule,
        txn: TxnId,
        front: &JudgedPath<'_>,
    ) -> Result<bool, Memory>
        requires trailing { front.now.trailing ≡ true }
        requires alone { IsAloneIfChildless parts.now.locks parts.now.forest txn }
        requires no_holder { is_strict rule ≡ true
            → HasNoHolderAbove parts.now.locks parts.now.forest }
        ensures held { IfOk result
            (λ is_held. is_held ≡ true → IsHeld parts.now.tree parts.now.locks txn self.new.front) }
        ensures txn { self.new.txn ≡ self.old.txn }
    {
        let Some(reads) = self.learn(alloc, &parts.tree, front)? else {
            return Ok(false);
        };
        let LockCheck { blockers, held } = parts.check(txn, reads.as_slice(), rule)?;
        drop(blockers);
        Ok(held == reads.len())
    }

    /// Learns where a front leads, and returns the reads of the entries on its way; none if it does
    /// not lead along directories.
    fn learn(
        &mut self,
        alloc: Global,
        tree: &Tree,
        front: &JudgedPath<'_>,
    ) -> Result<Option<Vec<Access>>, Memory>
        requires { front.now.trailing ≡ true }
        ensures learnt { IfOk result
            (λ found. IfSome found (λ reads. IsLearnt (view_of tree.now) self.new.front
            reads.items)) }
        ensures txn { self.new.txn ≡ self.old.txn }
    {
        let parts = front.parts(alloc)?;
        self.front.text.clear();
        self.front.text.extend_from_slice(front.as_bytes())?;
        self.front.dirs.clear();
        let mut reads = Vec::new(alloc);
        let mut cursor = Cursor::new(tree);
        let mut dir = ROOT;
        for name in parts.names.as_slice() {
            if name.is_dot() || name.is_dot_dot() {
                return Ok(None);
            }
            let Some(Node::Dir(next)) = cursor.entry(dir, name) else {
                return Ok(None);
            };
            let name = name.try_clone()?;
            reads.push(Access {
                cell: Cell::Entry(Entry { dir, name }),
                mode: Mode::Read,
            })?;
            self.front.dirs.push(next)?;
            dir = next;
        }
        Ok(Some(reads))
    }
}

/// Returns the path of a call that has one.
fn path_of(call: &Call) -> Option<&FilePath> {
    match call {
        Call::Mkdir { path, .. }
        | Call::Rmdir { path }
        | Call::List { path }
        | Call::Open { path, .. }
        | Call::Truncate { path, .. }
        | Call::Stat { path }
        | Call::Lstat { path }
        | Call::Unlink { path }
        | Call::Symlink { path, .. }
        | Call::Readlink { path }
        | Call::Chmod { path, .. }
        | Call::Chown { path, .. }
        | Call::Lchown { path, .. }
        | Call::Utime { path, .. }
        | Call::Lutime { path, .. } => Some(path),
        _ => None,
    }
}
