// Files of the disk that are given what the `get`s of a plan got.
ghost use Rattle.std.specs.Prelude.{List};
ghost use Rattle.std.specs.List.{zip};
ghost use Rattle.ft_run.specs.Giving.{GivesAll, GivesOne};

use crate::status::report_unwritten;
use ft_base::Sequence;
use ft_plan_files::GetPlace;
use ft_transfer::DiskFiles;
use std::alloc::Global;
use std::io::Write;

/// Gives files of the disk what the `get`s of a plan got, in their order. Returns whether each that
/// got bytes could be written. A line on `errors` reports each that could not.
pub fn give_files<F: DiskFiles, E: Write>(
    alloc: Global,
    gets: &[GetPlace],
    got: &[Option<Sequence<u8>>],
    files: &F,
    errors: &mut E,
) -> bool
    ensures { GivesAll (F.tells files.now) (zip gets.now got.now) result (E.contents errors.old)
        (E.contents errors.new) }
{
    let mut all = true;
    for (get, bytes) in gets.iter().zip(got) {
        let given = give_file(alloc, get, bytes, files, errors);
        all = all && given;
    }
    all
}

/// Gives a file of the disk the bytes that its `get` got, if it got any. Returns whether that was
/// done. If it could not be, a line on `errors` reports it.
fn give_file<F: DiskFiles, E: Write>(
    alloc: Global,
    get: &GetPlace,
    bytes: &Option<Sequence<u8>>,
    files: &F,
    errors: &mut E,
) -> bool
    ensures { GivesOne (F.tells files.now) get.now bytes.now result (E.contents errors.old)
        (E.contents errors.new) }
{
    let Some(bytes) = bytes else {
        return true;
    };
    let file = get.file.as_bytes();
    match files.write_file(file, bytes.as_slice()) {
        Ok(()) => true,
        Err(_) => {
            report_unwritten(alloc, errors, file);
            false
        }
    }
}
