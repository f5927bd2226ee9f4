//! Two examples of a host: two sandboxes exchange a value through a store of values by key, and a
//! sandbox is called as a function, with a text in memory.
//!
//! A host is a type that implements [`Gates`](sfi_host::Gates): its meaning is a function, as `store`
//! of `specs/Store.antt`, and `call` is proved to answer what that function says. `tests.rt` builds
//! sandboxes, checks their image, and runs them with it.
#![tactic(auto)]

mod function;
mod letters;
mod serving;
mod store;

pub use function::{CallError, Function};
pub use letters::Letters;
pub use store::Store;

#[cfg(test)]
mod tests;
