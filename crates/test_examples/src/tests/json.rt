//! The examples of the JSON of tree bytes and values, as the documentation has them.

use crate::tests::asserts::holds;
use patricia_json::{JsonError, pair_from_json, pair_to_json};
use std::test::Fail;

#[test]
fn pair_to_json_example(rt: HostRuntime) -> Result<(), Fail> {
    // example: json pair_to_json
    let (bytes, values) = pair_from_json(rt.alloc(), "[ [3, 0, 0, 0], [null] ]")?;
    let text = pair_to_json(rt.alloc(), &bytes, values)?;
    holds!(rt; text.as_str() == "[[3,0,0,0],[null]]");
    // end
    Ok(())
}

#[test]
fn pair_from_json_example(rt: HostRuntime) -> Result<(), Fail> {
    // example: json pair_from_json
    let (bytes, values) = pair_from_json(rt.alloc(), "[[12, 0, 0, 0, 3, 1, 0, 1, 97], [1]]")?;
    holds!(rt; bytes.len() == 9 && values.len() == 1);
    let float = pair_from_json(rt.alloc(), "[[3, 0, 0, 0], [1.0]]");
    holds!(rt; matches!(float, Err(JsonError::Json)));
    // end
    Ok(())
}
