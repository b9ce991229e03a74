//! Calls in the abstract: which cells of a store they read and write, and what follows from a short
//! list of laws for runs of such calls. The transactions of the crates above rest on it: a call is
//! undone, and a transaction aborted, amid the calls of others.
//!
//! The definitions are in `specs`, and the theorems for any lawful calls are in `proofs`. No
//! function here has a body to run. Its `ensures` is a theorem about a tiny tree of directories and
//! files, for every store, call and run of it.
#![tactic(auto)]

ghost use Rattle.ft_laws.specs.Effects.{calls_of};
ghost use Rattle.ft_laws.specs.Hiding.{HidesMore, NotOwn, RunAlike, StaysHidden, UndoingHidden};
ghost use Rattle.ft_laws.specs.Laws.{Lawful};
ghost use Rattle.ft_laws.specs.Runs.{Deletion, Exchange, MayBeSorted, MayGoFirst, Undoing};
ghost use Rattle.ft_laws.specs.Tidying.{IsTidying, TidyingLaw};
ghost use Rattle.ft_laws.specs.Tiny.{is_dead, tidy, tiny_calls};
ghost use Rattle.ft_laws.specs.Without.{ComesUponNamed, DeleteAny, DeleteForgets, ExchangeAny, ExchangeReaders, FrameByWrites, GoFirstAny, HidesNamed, Inverts, LetsGoTouching, OwnStaysHidden, ReadyTwice, RunAlikeSeen, SortAny, SoundNamed, TidyNamed, UndoAny, UndoSeen, StaysSound, asks_for_before, full_removed, links_forgotten, names_alone, others_made, readers_alone, writers_alone};

/// States that the calls of the tiny tree are lawful, so the laws can be met.
pub fn lawful()
    ensures { Lawful tiny_calls }
{}

/// States that two neighbouring calls without conflict can be made in the other order.
pub fn exchange()
    ensures { Exchange tiny_calls }
{}

/// States that a call that conflicts with no later one can be left out.
pub fn deletion()
    ensures { Deletion tiny_calls }
{}

/// States that the inverse of a call that conflicts with no later one may be applied. Applying it
/// leaves the call out.
pub fn undoing()
    ensures { Undoing tiny_calls }
{}

/// States that a call that conflicts with no earlier one may be made first.
pub fn may_go_first()
    ensures { MayGoFirst tiny_calls }
{}

/// States that calls may be made by rising ranks, if the rank respects conflicts.
pub fn may_be_sorted()
    ensures { MayBeSorted tiny_calls }
{}

/// States that calls that touch nothing hidden run alike in stores that are equal elsewhere.
pub fn run_alike()
    ensures { RunAlike tiny_calls }
{}

/// States that a call does the same if files that nothing names are hidden, and that they stay
/// hidden. The call's own file may not be one of them.
pub fn stays_hidden()
    ensures { StaysHidden tiny_calls }
{}

/// States that the inverse of a call that touched nothing hidden may also be applied without the
/// hidden files. Applying it is a deletion and brings no hidden file back. No later call may
/// conflict with the call.
pub fn undoing_hidden()
    ensures { UndoingHidden tiny_calls }
{}

/// States that a sweep adds to the hidden files.
pub fn hides_more()
    ensures { HidesMore tiny_calls }
{}

/// States that a file that has something stored is not the own file of a later call.
pub fn not_own()
    ensures { NotOwn tiny_calls }
{}

/// States that tidying after each call or once at the end gives the same store and the same
/// replies. That holds for every way to tidy, and the tiny tree has one.
pub fn tidying()
    ensures law { TidyingLaw tiny_calls }
    ensures possible { IsTidying tiny_calls tidy is_dead }
{}

/// States that each theorem on runs is false without its premise. The false statements are:
/// exchange in spite of a conflict, or past a reader; deletion in spite of a later conflict, or
/// with what the call wrote left in place; an inverse applied in spite of a later conflict; a call
/// made first in spite of an earlier conflict; sorting by any rank.
pub fn runs_need_premises()
    ensures exchange { ExchangeAny tiny_calls → ⊥ }
    ensures readers { ExchangeReaders tiny_calls → ⊥ }
    ensures deletion { DeleteAny tiny_calls → ⊥ }
    ensures writes { DeleteForgets tiny_calls → ⊥ }
    ensures inverse { UndoAny tiny_calls → ⊥ }
    ensures first { GoFirstAny tiny_calls → ⊥ }
    ensures rank { SortAny tiny_calls → ⊥ }
{}

/// States that each law of calls is false without one of its parts. The false statements are: the
/// frame law by the written cells only; a sound tree after a directory was removed with its
/// entries; freshness of a stamp that was used; an inverse that forgets a file's links; an inverse
/// that may be put only if the cells are as they were before its call; a call that comes upon files
/// only by name; a rename that touches the file that it moves.
///
/// Calls cannot be exchanged if the names of a directory do not overlap its entries, if what is
/// written counts as read, or if what is read is not accessed.
pub fn laws_need_premises()
    ensures frame { FrameByWrites tiny_calls → ⊥ }
    ensures sound { StaysSound (calls_of full_removed) → ⊥ }
    ensures freshness { ReadyTwice tiny_calls → ⊥ }
    ensures inverse { Inverts links_forgotten → ⊥ }
    ensures asked { Inverts asks_for_before → ⊥ }
    ensures own_file { ComesUponNamed tiny_calls → ⊥ }
    ensures moved_name { LetsGoTouching tiny_calls → ⊥ }
    ensures names { Exchange (calls_of names_alone) → ⊥ }
    ensures writes { Exchange (calls_of readers_alone) → ⊥ }
    ensures reads { Exchange (calls_of writers_alone) → ⊥ }
{}

/// States that each theorem on hidden files is false without its premise. The false statements
/// allow: a call that makes a hidden file, as its own or another; a hidden file that something
/// names, so that replies differ or the tree is not sound; tidying such a file away; calls that
/// touch what is hidden; an undo of such a call.
pub fn hiding_needs_premises()
    ensures own_file { OwnStaysHidden tiny_calls → ⊥ }
    ensures others { StaysHidden others_made → ⊥ }
    ensures named { HidesNamed tiny_calls → ⊥ }
    ensures sound { SoundNamed tiny_calls → ⊥ }
    ensures tidying { TidyNamed tiny_calls → ⊥ }
    ensures seen { RunAlikeSeen tiny_calls → ⊥ }
    ensures undo { UndoSeen tiny_calls → ⊥ }
{}
