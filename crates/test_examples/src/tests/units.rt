//! The examples of keys of 16-bit units, as the documentation has them.

use crate::tests::asserts::{done, holds, same};
use patricia_tree::{BorrowedBytes, UnitKey, Units};

#[test]
fn from_units(rt: HostRuntime) {
    // example: units from_units as_units
    let key = done(&rt, UnitKey::from_units(rt.alloc(), &[0x61, 0x3042]));
    holds!(rt; key.as_units().as_bytes() == [0, 0x61, 0x30, 0x42].as_slice());
    // end
}

#[test]
fn new(rt: HostRuntime) {
    // example: units new len unit
    if let Some(units) = Units::new(b"\0a\0b") {
        same!(rt; units.len(), 2);
        let last = units.len().saturating_sub(1);
        if last < units.len() {
            same!(rt; units.unit(last), 0x62);
        }
    }
    holds!(rt; Units::new(b"\0a\0").is_none());
    // end
}
