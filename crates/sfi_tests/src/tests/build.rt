//! Building without a command: faults, and what is linked.
use super::rows::image_of;
use sfi_build::{BuildFault, build};
use sfi_link::{LinkFault, link};
use sfi_rewrite::{RewriteFault, rewrite};
use sfi_text::{TextCause, TextFault, parse_source};
use std::test::Fail;

// One fault of each kind, of a text after `.sandbox 256`, and the line that a command prints of it.
const FAULTS: &[(&str, BuildFault, &str)] = &[
    (
        "li a0 5",
        BuildFault::Text(TextFault {
            line: 2,
            cause: TextCause::Operands,
        }),
        "source fault 4 Operands line 2",
    ),
    (
        "mv t6, a0",
        BuildFault::Rewrite(RewriteFault::ReservedRegister { line: 2 }),
        "rewrite fault 1 ReservedRegister line 2",
    ),
    (
        "j away",
        BuildFault::Link(LinkFault::UnknownName { line: 2 }),
        "link fault 1 UnknownName line 2",
    ),
];

/// Each text has its fault, whose text is what a command prints.
#[test]
fn faults(rt: HostRuntime) -> Result<(), Fail> {
    for (line, fault, wanted) in FAULTS {
        let text = format!(in rt.alloc(); ".sandbox 256\n{line}")?;
        assert_eq!(rt;
            build(rt.alloc(), text.as_str()).err(),
            Some(*fault),
            "{line}"
        );
        let said = format!(in rt.alloc(); "{fault}")?;
        assert_eq!(rt; said.as_str(), *wanted);
    }
    Ok(())
}

/// The steps of `build` one by one, of a source with one `ebreak`: they make the smallest image,
/// but with `c.ebreak`, which fills up a code region, after its first instruction.
#[test]
fn a_placed_source_is_linked(rt: HostRuntime) -> Result<(), Fail> {
    let alloc = rt.alloc();
    let image = image_of(alloc, "end 40 126 0290")?;
    let source = parse_source(alloc, ".sandbox 256\nebreak\n")?;
    let placed = rewrite(alloc, &source)?;
    let bytes = link(alloc, &placed)?;
    assert!(rt; bytes.as_slice() == image.as_slice());
    Ok(())
}
