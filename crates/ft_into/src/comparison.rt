// The state of a comparison.
ghost use Rattle.std.specs.Prelude.{◌<◌, vec_len};

use crate::kept::Kept;
use crate::names::Names;
use crate::step::Step;
use crate::steps::Steps;
use crate::wishes::Wishes;
use ft_copy::{FoundFile, FoundFolder};
use std::alloc::Global;

/// Compares what is requested with what a source reports of a directory, and finds the steps from
/// the directory to what is requested.
#[derive(Drop)]
pub(crate) struct Comparing<'a, S, F> {
    pub(crate) alloc: Global,
    pub(crate) disk: &'a S,
    pub(crate) wishes: Wishes,
    // what was listed and was not requested yet
    pub(crate) names: Names,
    pub(crate) kept: Kept,
    pub(crate) steps: Steps,
    // the root
    pub(crate) top: Option<FoundFolder>,
    // the file that is open
    pub(crate) file: Option<OpenFile<F>>,
    // whether symbolic links are requested now
    pub(crate) is_linking: bool,
    pub(crate) room: Vec<u8>,
    ghost has_room: { 0 < vec_len room },
}

/// A file that is requested.
#[derive(Drop)]
pub(crate) struct OpenFile<F> {
    // the step that it takes, unless the one that is there is the same
    pub(crate) step: Step,
    // the one that is there, as long as it is the same
    pub(crate) same: Option<SameFile<F>>,
}

/// A file of the directory that has the attributes that are requested, and the bytes so far.
#[derive(Drop)]
pub(crate) struct SameFile<F> {
    pub(crate) found: FoundFile,
    pub(crate) file: F,
}
