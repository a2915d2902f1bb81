//! An array of C that bytes are written to.
ghost use Rattle.std.specs.Prelude.{◌≡◌, ◌≤◌, ◌<◌, drop, length, take, true, false};

// Copies the bytes to the front of the room, where there is enough of it, and writes their number
// to `len`.
pub(crate) fn copy_to(room: &mut [u8], len: &mut usize, bytes: &[u8]) -> bool
    ensures len { len.new ≡ length bytes.now }
    ensures fits { result ≡ true → take len.new room.new ≡ bytes.now }
    ensures within { result ≡ true → len.new ≤ length room.new }
    ensures behind { result ≡ true → drop len.new room.new ≡ drop len.new room.old }
    ensures small { result ≡ false → length room.old < len.new }
    ensures unwritten { result ≡ false → room.new ≡ room.old }
{
    *len = bytes.len();
    if room.len() < bytes.len() {
        return false;
    }
    room[..bytes.len()].copy_from_slice(bytes);
    true
}
