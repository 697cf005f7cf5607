//! A disk as its users see it: the bytes that a read gives, and the bytes that a crash may leave.

ghost use Rattle.std.specs.Prelude.{◌+◌, ◌<◌, ◌^◌, length};
ghost use Rattle.coord_disk.specs.Model.Calls.{Crashes, HasBytes, HasCause, Measures, Reads, Syncs, Writes};
ghost use Rattle.coord_disk.specs.Model.DiskModel.{DiskModel, IsModel};

use crate::DiskFault;

/// A sequence of bytes on a device, which may crash between two calls or during one.
///
/// `specs/Model/Calls.antt` states the promise of each call; users rely on nothing else.
pub trait Disk: Drop {
    /// The model: the content of a disk, and the bytes that a crash may leave or might have left.
    ghost model: { DiskModel Self };

    /// Returns the number of bytes.
    fn len(&mut self) -> Result<u64, DiskFault>
        ensures call { Measures model self.old self.new result }
        ensures cause { HasCause (model.failures self.old) (model.failures self.new) result };

    /// Fills the buffer with the bytes from position `at` on.
    fn read(&mut self, at: u64, buf: &mut [u8]) -> Result<(), DiskFault>
        requires { HasBytes model self.old at (length buf.old) }
        ensures call { Reads model at buf.old buf.new self.old self.new result }
        ensures cause { HasCause (model.failures self.old) (model.failures self.new) result };

    /// Writes bytes at position `at`. If that is past the end, zeros fill the gap.
    ///
    /// Until the next sync, a crash may leave any bytes in the range, even if the write failed.
    fn write_at(&mut self, at: u64, bytes: &[u8]) -> Result<(), DiskFault>
        requires { at + length bytes.now < 2 ^ 64 }
        ensures call { Writes model at bytes.now self.old self.new result }
        ensures cause { HasCause (model.failures self.old) (model.failures self.new) result };

    /// Makes all written bytes durable: after a successful sync, a crash leaves the bytes that a
    /// read gives. After a failed sync, a crash can leave only bytes that it could have left
    /// before.
    fn sync(&mut self) -> Result<(), DiskFault>
        ensures call { Syncs model self.old self.new result }
        ensures cause { HasCause (model.failures self.old) (model.failures self.new) result };

    /// The model is consistent: the images since a moment include the images of the present
    /// content.
    ghost laws: { IsModel model };
}

/// A disk that may be taken out of a store. Code that is generic over disks without this bound can
/// reach a store's disk only through the store's own calls, whether or not the code returns.
pub trait Takable {}

/// A disk that can be crashed.
pub trait CrashDisk: Disk + Takable {
    /// Whether a crash may turn one disk into another.
    ghost crashes: { Self → Self → Type 0 };

    /// Turns the disk into one of its images, completely synced.
    fn crash(self) -> Self
        ensures crashes { crashes self result }
        ensures leaves { Crashes Self.model self result };
}
