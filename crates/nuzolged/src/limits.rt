// The limits of a tree, as C gives them.
ghost use Rattle.std.specs.Prelude.{◌≡◌};
ghost use Rattle.nuzolged.specs.Opened.{is_zero, limits_given};

use ft_core::Limits as CoreLimits;

/// The limits of a tree: `nuz_limits` of the header.
#[repr(C)]
#[derive(Clone, Copy, Debug, PartialEq, Eq)]
pub struct Limits {
    /// How many bytes a file may have.
    pub file_size: u64,
    /// How many names a file may have.
    pub links: u64,
    /// How deep a transaction may be; one of the tree has depth 1.
    pub depth: u64,
    /// How many transactions may begin before a checkpoint.
    pub transactions: u64,
    /// How many calls may be granted before a checkpoint.
    pub calls: u64,
    /// 0 each: no tree has other limits.
    pub reserved: [u64; 3],
}

/// Returns these limits as a core takes them. Returns `None` if a reserved number is not 0.
pub(crate) fn limits_given(limits: &Limits) -> Option<CoreLimits>
    ensures { result ≡ limits_given limits.now }
{
    if !is_zero(&limits.reserved) {
        return None;
    }
    Some(CoreLimits {
        file_size: limits.file_size,
        links: limits.links,
        depth: limits.depth,
        transactions: limits.transactions,
        calls: limits.calls,
    })
}

/// Returns whether no limit to come is requested: the reserved numbers are all 0.
fn is_zero(reserved: &[u64; 3]) -> bool
    ensures { result ≡ is_zero reserved.now }
{
    reserved[0] == 0 && reserved[1] == 0 && reserved[2] == 0
}
