//! The examples of the documentation's calls, as tests.
#![tactic(auto)]

#[cfg(test)]
mod tests;
