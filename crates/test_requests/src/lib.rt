//! Tests of what no line of data can ask: calls that take no memory, streams that fail, values that
//! count their drops, and how many nodes there are.
#![tactic(auto)]

#[cfg(test)]
mod tests;
