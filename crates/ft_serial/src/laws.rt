//! Laws of the serial order: each is the contract of a function that does nothing.
ghost use Rattle.ft_serial.specs.Serials.{CommittedStays, RunsSerially};

use ft_record::Recorded;
use ft_record::laws::reached;

/// The calls of the serial list are exactly the standing ones. Made one after another from the
/// base, they leave the tree of the state, and each gets its original reply. If only the committed
/// ones are made, each of these gets its reply too. No two have one stamp, and all stamps are above
/// the base's last one.
pub fn serial_runs(core: &Recorded)
    ensures { RunsSerially core.now.state }
{
    reached(core);
}

/// Committed calls stay. After any request to a core except a checkpoint, the base, the rule and
/// the limits are the same, and the events and the committed calls from before are the first of
/// those after it.
pub fn committed_stays()
    ensures { CommittedStays }
{}
