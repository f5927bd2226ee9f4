//! Tests of worlds, hosts and the console, called as a host calls them. They stand apart from `sfi_tests`
//! so that both are proved side by side.
#![tactic(auto)]

#[cfg(test)]
mod tests;
