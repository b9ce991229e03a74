// Laws of the calls. Each is the contract of a function that does nothing.
ghost use Rattle.ft_laws.specs.Laws.{Lawful};
ghost use Rattle.ft_laws.specs.Runs.{Exchange, Deletion};
ghost use Rattle.ft_posix.specs.Laws.{SoundnessLaw, FreshnessLaw, TidyingLaw, ValuesLaw, PlainSoundnessLaw, FrameLaw, KeptLaw, ExchangeLaw, TellingLaw};
ghost use Rattle.ft_posix.specs.RunLaws.{PlainAccessesLaw, HidingLaw, RunLaw, PlacedLaw, WritesLaw, NamelessLaw};
ghost use Rattle.ft_posix.specs.Edits.{PlacesLaw, EditingLaw};
ghost use Rattle.ft_posix.specs.CellLaws.{SettingLaw, RestoringLaw};
ghost use Rattle.ft_posix.specs.Leaving.{LeavingLaw, UselessLaw, MakingLaw};
ghost use Rattle.ft_posix.specs.Posix.{posix_calls};

/// States that a call whose stamp numbers nothing leaves sound cells sound.
pub fn soundness()
    ensures { SoundnessLaw }
{}

/// States that a call on sound cells leaves each free number free, except its own stamp.
pub fn freshness()
    ensures { FreshnessLaw }
{}

/// States the tidying law. On sound cells, and with a stamp that numbers nothing, a call may be
/// made before or after tidying. Both give the same plain tree and the same reply.
pub fn tidying()
    ensures { TidyingLaw }
{}

/// States that only the values of the cells count, and not their empty places. Cells that have the
/// values and the places of sound cells are sound. They are the same plain tree, and the free
/// numbers stay free.
pub fn values()
    ensures { ValuesLaw }
{}

/// States that sound cells are a sound plain tree. Each edge starts in a directory and leads to a
/// directory or a file. Each directory except the root has exactly one edge, and none is below
/// itself. Each description names a file.
pub fn plain_soundness()
    ensures { PlainSoundnessLaw }
{}

/// States the frame law. If sound cells have the same limits, and show the same in each cell that a
/// call accesses, the call does the same in both. It has the same accesses, reply and writes.
pub fn frame()
    ensures { FrameLaw }
{}

/// States that only the cells that a call writes change.
pub fn others_kept()
    ensures { KeptLaw }
{}

/// States that the calls are lawful, as `ft_laws` requires, so its theorems on runs of calls hold
/// of them.
///
/// Among the laws are two on files. A call touches what is stored of a file only if it made the
/// file, or an entry or a description that it accesses names the file. A call that removes an entry
/// or a description of a file touches the file, or leaves its name in another cell that it writes,
/// as a rename does.
pub fn lawful()
    ensures { Lawful posix_calls }
{}

/// States the exchange law. Two neighbouring calls without conflicting accesses have the same
/// replies in either order, and leave cells of the same values.
pub fn exchange()
    ensures two { ExchangeLaw }
    ensures in_runs { Exchange posix_calls }
{}

/// States the deletion law. A call that conflicts with no later one of a list can be left out.
/// Every other call has the same reply. Only the cells that the call wrote differ: they have their
/// values from before it.
pub fn deletion()
    ensures { Deletion posix_calls }
{}

/// States that on sound cells a call writes different cells, each of which has its place or can
/// make it.
pub fn places()
    ensures { PlacesLaw }
{}

/// States that on sound cells a call whose reply only reports something writes nothing.
pub fn telling()
    ensures { TellingLaw }
{}

/// States that edits of different cells do not affect each other.
pub fn editing()
    ensures { EditingLaw }
{}

/// States that setting a cell changes no other cell and keeps every place.
pub fn setting()
    ensures { SettingLaw }
{}

/// States that the earlier cells can be restored after a cell was set.
pub fn restoring()
    ensures { RestoringLaw }
{}

/// States that a call on the plain tree has the accesses that it has on the sound cells of that
/// tree.
pub fn plain_accesses()
    ensures { PlainAccessesLaw }
{}

/// States that files that nothing names may be hidden. Their cells then hold nothing, and the plain
/// tree is the same.
pub fn hiding()
    ensures { HidingLaw }
{}

/// States that calls that run from sound cells with their replies leave sound cells, and run alike
/// on the plain tree. Each gives its reply there, and the tree after them is that of the cells. The
/// stamps of the calls are distinct and number nothing before.
pub fn runs()
    ensures { RunLaw }
{}

/// States that cells of sound values are sound if the root and the file of each description are
/// stored.
pub fn placed()
    ensures { PlacedLaw }
{}

/// States that each cell that a call writes is among its accesses, for writing.
pub fn writes()
    ensures { WritesLaw }
{}

/// States that on sound cells no entry and no description names a file that is not there.
pub fn nameless()
    ensures { NamelessLaw }
{}

/// States that a cell that is useless after writes was useless before, or the writes set a cell of
/// its place, or it belongs to a file that was open.
pub fn leaving()
    ensures { LeavingLaw }
{}

/// States that a cell that is useless after a call on sound cells was useless before, or the call
/// accesses a cell of its place. A useless cell has an empty place, or belongs to a file or a
/// directory that is not there any more.
pub fn useless()
    ensures { UselessLaw }
{}

/// States that a call that leaves the name of the file that it makes writes a cell of this file.
pub fn making()
    ensures { MakingLaw }
{}
