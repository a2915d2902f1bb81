//! Which bytes are a text.
ghost use Rattle.std.specs.Prelude.{◌↔◌, IsTrue};
ghost use Rattle.patricia_tree.specs.Keys.{IsFloor, IsValid};
ghost use Rattle.patricia_tree.specs.TextKind.{IsTextItem};

use patricia_tree::Bytes;

/// Returns whether the bytes are UTF-8.
#[unsafe(no_mangle)]
pub extern "C" fn patricia_is_text(bytes: &[u8]) -> bool
    ensures { IsTrue result ↔ IsValid IsTextItem bytes.now }
{
    String::is_valid_bytes(bytes)
}

/// Returns how many bytes at the front are whole characters.
#[unsafe(no_mangle)]
pub extern "C" fn patricia_text_floor(bytes: &[u8]) -> usize
    ensures { IsFloor IsTextItem bytes.now result }
{
    String::floor_boundary(bytes)
}
