//! How keys are read from a line and printed.

ghost use Rattle.std.specs.Prelude.{◌≡◌, ◌++◌, IfOk, OnOk};
ghost use Rattle.std.specs.Option.{option_map};
ghost use Rattle.hex.specs.Hex.{encode_lower};
ghost use Rattle.patricia_run.specs.KeyFormats.{KeyFormat, as_bytes, as_text, as_units};

use patricia_tree::{BorrowedBytes, Units};
use std::alloc::AllocError;
use std::str;

/// A key that a field of a line spells.
pub trait KeyText<'a>: BorrowedBytes {
    // how such keys are read and printed
    ghost key_format: { KeyFormat };

    /// The key that a field spells, or `None` where it spells none.
    ///
    /// A kind whose keys are not the bytes of the field decodes them into the buffer, which one
    /// reader has for all its lines. The error is out of memory.
    fn read(field: &'a [u8], buffer: &'a mut Vec<u8>) -> Result<Option<Self>, AllocError>
        ensures { IfOk result (λ key. option_map Self.key key ≡ key_format.read field.now) };

    /// Writes a key, given by its bytes, at the end of a text.
    fn print(key: &[u8], out: &mut Vec<u8>) -> Result<(), AllocError>
        ensures { OnOk result (out.new.items ≡ out.old.items ++ key_format.print key.now) };
}

impl<'a> KeyText<'a> for &'a [u8] {
    ghost key_format = { as_bytes };

    fn read(field: &'a [u8], _buffer: &'a mut Vec<u8>) -> Result<Option<&'a [u8]>, AllocError> {
        Ok(Some(field))
    }

    fn print(key: &[u8], out: &mut Vec<u8>) -> Result<(), AllocError>
        ensures { OnOk result (out.new.items ≡ out.old.items ++ key.now) }
    {
        out.extend_from_slice(key)
    }
}

impl<'a> KeyText<'a> for &'a str {
    ghost key_format = { as_text };

    fn read(field: &'a [u8], _buffer: &'a mut Vec<u8>) -> Result<Option<&'a str>, AllocError> {
        Ok(str::from_utf8(field).ok())
    }

    fn print(key: &[u8], out: &mut Vec<u8>) -> Result<(), AllocError>
        ensures { OnOk result (out.new.items ≡ out.old.items ++ key.now) }
    {
        out.extend_from_slice(key)
    }
}

impl<'a> KeyText<'a> for Units<'a> {
    ghost key_format = { as_units };

    fn read(field: &'a [u8], buffer: &'a mut Vec<u8>) -> Result<Option<Units<'a>>, AllocError> {
        if field.len() % 4 != 0 {
            return Ok(None);
        }
        buffer.resize(field.len() / 2, 0)?;
        if hex::decode_to_slice(field, buffer.as_mut_slice()).is_err() {
            return Ok(None);
        }
        Ok(Units::new(buffer.as_slice()))
    }

    fn print(key: &[u8], out: &mut Vec<u8>) -> Result<(), AllocError>
        ensures { OnOk result (out.new.items ≡ out.old.items ++ encode_lower key.now) }
    {
        for byte in key {
            let mut digits = [0; 2];
            let _ = hex::encode_to_slice([*byte], &mut digits);
            out.extend_from_slice(&digits)?;
        }
        Ok(())
    }
}
