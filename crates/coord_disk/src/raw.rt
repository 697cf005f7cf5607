//! The trait of a raw file of the operating system, and the model that it may keep.

ghost use Rattle.std.specs.Prelude.{◌≡◌, ◌+◌, ◌<◌, ◌^◌, true, false, Bool, [], length, is_ok};
ghost use Rattle.coord_disk.specs.Model.Calls.{HasBytes, Measures, Reads, Syncs, Writes};
ghost use Rattle.coord_disk.specs.Model.DiskModel.{DiskModel, IsModel};
ghost use Rattle.coord_disk.specs.Model.RawCalls.{Enters, RawCall, StaysEntered, SyncsBytes};
ghost use Rattle.coord_disk.specs.Model.RawCalls.RawCall.{Len, Read, Write, SyncData, SyncAll, SyncFolder};

use std::io;

/// A file, and its entry in a folder. If the file does not keep the model, only the clauses about
/// which call was made hold.
///
/// A sync counts only once the file's entry in its folder is synced. Before that, a crash may leave
/// no file, which is read as an empty file.
pub trait RawFile: Drop {
    /// The model of the file as a disk. The model need not count failures.
    ghost model: { DiskModel Self };

    /// Whether the file's entry in its folder is synced.
    ghost is_entered: { Self → Bool };

    /// Whether a call that succeeds (true) or fails (false) may turn the first file into the
    /// second.
    ghost made: { Self → RawCall → Bool → Self → Type 0 };

    /// Returns the number of bytes.
    fn len(&mut self) -> io::Result<u64>
        ensures call { Measures model self.old self.new result }
        ensures entered { StaysEntered model is_entered self.old self.new }
        ensures made { made self.old Len (is_ok result) self.new };

    /// Fills the buffer with the bytes from position `at` on.
    fn read(&mut self, at: u64, buf: &mut [u8]) -> io::Result<()>
        requires { HasBytes model self.old at (length buf.old) }
        ensures call { Reads model at buf.old buf.new self.old self.new result }
        ensures entered { StaysEntered model is_entered self.old self.new }
        ensures made { made self.old (Read at (length buf.old)) (is_ok result) self.new };

    /// Writes bytes at position `at`. If that is past the end, zeros fill the gap.
    ///
    /// Until the next sync, a crash may leave any bytes in the range, even if the write failed.
    fn write_at(&mut self, at: u64, bytes: &[u8]) -> io::Result<()>
        requires { at + length bytes.now < 2 ^ 64 }
        ensures call { Writes model at bytes.now self.old self.new result }
        ensures entered { StaysEntered model is_entered self.old self.new }
        ensures made { made self.old (Write at bytes.now) (is_ok result) self.new };

    /// Syncs the bytes. After a successful sync, a crash leaves the bytes that a read gives,
    /// provided that the length and the file's entry in its folder are synced.
    fn sync_data(&mut self) -> io::Result<()>
        ensures call { SyncsBytes model ((is_entered self.old ≡ true) ×
            (length (model.present self.old).synced ≡ length (model.present self.old).read))
            self.old self.new result }
        ensures entered { StaysEntered model is_entered self.old self.new }
        ensures made { made self.old SyncData (is_ok result) self.new };

    /// Syncs the bytes and the length. After a successful sync, a crash leaves the bytes that a
    /// read gives, provided that the file's entry in its folder is synced.
    fn sync_all(&mut self) -> io::Result<()>
        ensures call { SyncsBytes model (is_entered self.old ≡ true) self.old self.new result }
        ensures entered { StaysEntered model is_entered self.old self.new }
        ensures made { made self.old SyncAll (is_ok result) self.new };

    /// Syncs the file's entry in its folder.
    fn sync_folder(&mut self) -> io::Result<()>
        ensures call { Enters model is_entered self.old self.new result }
        ensures made { made self.old SyncFolder (is_ok result) self.new };

    /// The model is consistent: the images since a moment include the images of the present
    /// content.
    ghost laws: { IsModel model };

    /// As long as the file's entry in its folder is not synced, none of the file's bytes is synced.
    ghost may_be_absent: { (file : Self) → model.keeps_model file ≡ true →
        is_entered file ≡ false → (model.present file).synced ≡ [] };
}
