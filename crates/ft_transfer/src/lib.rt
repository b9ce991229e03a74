//! Transfers: a line of a script that carries the bytes of a file of the disk into the tree, or
//! those of a file of the tree to the disk.
#![tactic(auto)]

mod asking;
mod carrying;
mod disk;
mod reading;
mod text;
mod transfer;

pub use carrying::carry_out;
pub use disk::{DiskFiles, FileFailed, NoFiles};
pub use reading::{parse_direction, parse_path_file, parse_transfer};
pub use text::put_transfer_answer;
pub use transfer::{Direction, Transfer, TransferAnswer, did_well};
