// The sizes and offsets that a call may be given.
ghost use Rattle.std.specs.Prelude.{◌≡◌, ◌≤◌, IfOk};
ghost use Rattle.ft_posix.specs.Files.{to_size};
ghost use Rattle.ft_posix.specs.Descriptors.{not_negative, moved, offset_within};

use ft_path::Errno;
use ft_posix::LAST_OFFSET;
use ft_tree::TreeLimits;

/// Returns an offset. Fails with EINVAL if it is negative.
pub(crate) fn not_negative(offset: i64) -> Result<u64, Errno>
    ensures { result ≡ not_negative offset }
{
    if offset < 0 {
        return Err(Errno::EINVAL);
    }
    Ok(offset.unsigned_abs())
}

/// Returns a length as the size of a file. Fails with EINVAL if it is negative, and with EFBIG if
/// it is above the size limit.
pub(crate) fn to_size(limits: TreeLimits, length: i64) -> Result<u64, Errno>
    ensures size { result ≡ to_size limits length }
    ensures limit { IfOk result (λ size. size ≤ limits.file_size) }
{
    let size = not_negative(length)?;
    if size > limits.file_size {
        return Err(Errno::EFBIG);
    }
    Ok(size)
}

/// Returns the place that is `offset` after `from`, or before it if `offset` is negative. Fails
/// with EINVAL if the place is below 0, and with EOVERFLOW if it is above `LAST_OFFSET`.
pub(crate) fn seek_place(from: u64, offset: i64) -> Result<u64, Errno>
    ensures { result ≡ offset_within (moved from offset) }
{
    let distance = offset.unsigned_abs();
    let place = if offset < 0 {
        from.checked_sub(distance).ok_or(Errno::EINVAL)?
    } else {
        from.checked_add(distance).ok_or(Errno::EOVERFLOW)?
    };
    if place > LAST_OFFSET {
        return Err(Errno::EOVERFLOW);
    }
    Ok(place)
}
