//! The line of a signal.

ghost use Rattle.std.specs.Prelude.{◌≡◌};
ghost use Rattle.coord_server.specs.Printed.{signal_line};

use arrayvec::ArrayString;
use coord_types::NodeId;
use itoa::Buffer;

/// The length of the longest line in bytes: its node has three digits and its epoch twenty.
const SIGNAL_LINE_BYTES: usize = 32;

/// Returns `signal N EPOCH` with a line feed. Allocates nothing.
pub fn signal_line(node: NodeId, epoch: u64) -> ArrayString<SIGNAL_LINE_BYTES>
    ensures { result.bytes ≡ signal_line node epoch }
{
    let mut line = ArrayString::new();
    let mut digits = Buffer::new();
    line.push_str("signal ");
    line.push_str(digits.format(node.number()));
    line.push_str(" ");
    line.push_str(digits.format(epoch));
    line.push_str("\n");
    line
}
