// A transfer and its answer.
ghost use Rattle.std.specs.Prelude.{◌≡◌};
ghost use Rattle.ft_transfer.specs.Answers.{did_well};

use crate::disk::FileFailed;
use ft_core::{Answer, FilePath, TxnId};
use ft_line::is_well;

/// The direction of a transfer.
#[derive(Clone, Copy, Debug, PartialEq, Eq)]
pub enum Direction {
    /// From the disk into the tree.
    Put,
    /// From the tree to the disk.
    Get,
}

/// A transfer of all bytes of one file.
#[derive(Debug, PartialEq, Eq, Drop)]
pub struct Transfer {
    /// The transaction in which it is made.
    pub txn: TxnId,
    /// Its direction.
    pub direction: Direction,
    /// The file of the tree.
    pub path: FilePath,
    /// The file of the disk.
    pub file: FilePath,
}

/// The answer to a transfer.
#[derive(Debug, PartialEq, Eq, Drop)]
pub enum TransferAnswer {
    /// The answer to the request with which it ended.
    Request(Answer),
    /// The file of the disk could not be read or written.
    File,
}

impl From<Answer> for TransferAnswer {
    ghost use Rattle.std.specs.Prelude.{◌≡◌};
    ghost use Rattle.ft_transfer.specs.declared.transfer.TransferAnswer.TheVariants.{Request};

    ghost from_gives = { λ answer transfer. transfer ≡ Request answer };

    /// Returns this answer as that of a transfer.
    fn from(answer: Answer) -> TransferAnswer {
        TransferAnswer::Request(answer)
    }
}

impl From<FileFailed> for TransferAnswer {
    ghost use Rattle.std.specs.Prelude.{◌≡◌};
    ghost use Rattle.ft_transfer.specs.declared.transfer.TransferAnswer.TheVariants.{File};

    ghost from_gives = { λ _ transfer. transfer ≡ File };

    /// Returns `TransferAnswer::File`.
    fn from(_failed: FileFailed) -> TransferAnswer {
        TransferAnswer::File
    }
}

/// Returns whether a transfer was made.
pub fn did_well(answer: &TransferAnswer) -> bool
    ensures { result ≡ did_well answer.now }
{
    match answer {
        TransferAnswer::Request(answer) => is_well(answer),
        TransferAnswer::File => false,
    }
}
