//! Sandboxes of a checked image in one memory, and the host whose gates they call.
//!
//! A sandbox asks its host at a gate: for a service, with the numbers in a0 and a1. A host is a
//! [`Gates`]. It sees of its caller what a [`Guest`] shows, and its meaning is a function from its
//! state and what is asked to a reply (`specs/Hosts.antt`).
//!
//! A [`World`] runs the sandboxes of an accepted image in one memory, by turns. `specs/Joint.antt`
//! says what they come to, each in a memory of its own; a law says that each comes to what it comes
//! to alone with the replies that it got.
#![tactic(auto)]

mod calls;
mod console;
mod copying;
mod gates;
mod guest;
mod handover;
pub mod laws;
mod loading;
mod meeting;
mod message;
mod modules;
mod region;
mod resetting;
mod sandbox;
mod session;
mod setting;
mod status;
mod turn;
mod until;
mod waiting;
mod world;

pub use console::Console;
pub use gates::{GateAnswer, Gates};
pub use guest::{Guest, Request};
pub use handover::{FAILED, MOST_HANDED};
pub use modules::Module;
pub use region::Region;
pub use session::{GET, PUT};
pub use setting::registers_of;
pub use status::Status;
pub use turn::{RunAnswer, Turn};
pub use waiting::Later;
pub use world::{AddError, RemoveError, World};
