//! Source texts, and the worlds and modules of their images.
use rv_mem::Segments;
use sfi_build::{build, build_at};
use sfi_check::check;
use sfi_formats::Place;
use sfi_host::{Module, World};
use std::alloc::{AllocError, Global};
use std::process::Abort;

/// Traps at once: its code, of 256 bytes, is `ebreak` at each bundle's start. Its data have 256 bytes, too.
pub(super) const TRAPS: &str = ".sandbox 256\nebreak\n";

/// Puts two letters and exits with the code of the last.
pub(super) const HI: &str =
    ".sandbox 256\n.gate put 1\n.gate quit 0\nla a0, msg\nli a1, 2\ncall put\nla a0, msg\nlbu a0, 1(a0)\ncall quit\n.data\nmsg: .byte 72, 105\n";

/// Yields again and again.
pub(super) const YIELDS: &str = ".sandbox 256\n.gate y 3\nagain: call y\nj again\n";

/// Reads into its two data bytes and exits with how many bytes it got.
pub(super) const READS: &str =
    ".sandbox 256\n.gate get 2\n.gate quit 0\nla a0, buf\nli a1, 2\ncall get\ncall quit\n.data\nbuf: .zero 2\n";

/// The world of the text's image, over segments. The code of a sandbox lies at 01000000, its data at 01800000.
pub(super) fn world_of(
    rt: &impl Abort,
    alloc: Global,
    text: &str,
) -> Result<World<Segments>, AllocError> {
    let image = build(alloc, text).expect(rt, "built");
    let accepted = check(alloc, image.as_slice()).expect(rt, "accepted");
    World::load(alloc, &accepted, Segments::new(alloc))
}

/// The module of the text's image, with its sandbox at `place`.
pub(super) fn module_at(
    rt: &impl Abort,
    alloc: Global,
    text: &str,
    place: Place,
) -> Result<Module, AllocError> {
    let image = build_at(alloc, text, &[place]).expect(rt, "built");
    let accepted = check(alloc, image.as_slice()).expect(rt, "accepted");
    Module::from_accepted(alloc, &accepted)
}
