// The names of a directory, as C has them.
ghost use Rattle.std.specs.Prelude.{◌≡◌, length};
ghost use Rattle.ft_session.specs.Buffers.{filled};
ghost use Rattle.nuzolged.specs.Listing.{GoesOn, entry_of, kind_number, listing, size_of};

use ft_path::Name;
use ft_session::copy_into;
use ft_tree::Kind;

/// Copies names into a buffer, each with its kind before it and a null byte after it, as far as
/// they have room. Returns how many bytes they have in all.
pub(crate) fn copy_listing(names: &[(Name, Kind)], buffer: &mut [u8]) -> usize
    ensures size { result ≡ size_of (listing names.now) }
    ensures bytes { buffer.new ≡ filled (listing names.now) buffer.old }
{
    let mut at = 0;
    for (name, kind) in names {
        at = copy_entry(name, *kind, buffer, at);
    }
    at
}

/// Returns how many bytes the names have in this form.
pub(crate) fn listing_size(names: &[(Name, Kind)]) -> u64
    ensures { result ≡ size_of (listing names.now) }
{
    let mut size = 0u64;
    for (name, _) in names {
        let length = name.as_bytes().len() as u64 + 2;
        size = size.saturating_add(length);
    }
    size
}

/// Copies a name after what has been copied, and returns how many bytes there are then.
fn copy_entry(name: &Name, kind: Kind, buffer: &mut [u8], at: usize) -> usize
    ensures { GoesOn (entry_of (name.now, kind)) at buffer.old result buffer.new }
{
    let at = copy_behind(&[kind_byte(kind)], buffer, at);
    let at = copy_behind(name.as_bytes(), buffer, at);
    copy_behind(&[0], buffer, at)
}

/// Copies bytes after what has been copied, and returns how many bytes there are then.
fn copy_behind(bytes: &[u8], buffer: &mut [u8], at: usize) -> usize
    ensures { GoesOn bytes.now at buffer.old result buffer.new }
{
    if at < room_of(buffer) {
        let (_, rest) = buffer.split_at_mut(at);
        copy_into(bytes, rest);
    }
    at.saturating_add(bytes.len())
}

/// Returns how many bytes a buffer has room for.
fn room_of(buffer: &[u8]) -> usize
    ensures { result ≡ length buffer.now }
{
    buffer.len()
}

/// Returns the number of a kind, as a byte.
fn kind_byte(kind: Kind) -> u8
    ensures { result ≡ kind_number kind }
{
    match kind {
        Kind::Dir => 1,
        Kind::File => 2,
        Kind::Link => 3,
    }
}
