//! `clean_bundles` looks at eight bundles at once, a block, and sets a bit for each that it sees to
//! be clean, to break no rule. By its contract it may set none, which would only make the checker
//! slow: so these tests say which it has to see.
use sfi_formats::Format;
use sfi_scan::{BundlePlace, clean_bundles};
use std::alloc::Global;
use std::process::Abort;
use std::test::Fail;

/// The first address of the code region, and of each block that is tried.
const CODE_BASE: u32 = 0x0100_0000;

/// `addi x5, x5, 1` four times.
const ADDI: &str = "93821200938212009382120093821200";

/// Clean bundles, as digits and a name, that have to be seen in each place of a block.
const SEEN: &str = "
93821200938212009382120093821200 addi
85028502850285028502850285028502 c.addi
85029382120093821200938212008502 words from odd halfwords
93823200938232009382320093823200 second halves as first
b372b301b3e2a20183a3020093821200 load after its pair
93821200b372b301b3e2a20123a07200 store after its pair
6f000001938212009382120093821200 jump to the next bundle
130101ff3371b1013361a10193821200 x2 put back
";

/// Bundles that break a rule, as digits and a name.
const UNSEEN: &str = "
23a07200938212009382120093821200 store without a pair
b372b301b3e2a20103ad020093821200 load of x26
6f004000938212009382120093821200 jump to no bundle start
938212009382120000008502850285ff no instruction
";

/// Words from an odd halfword on, so that the last crosses the bundle's end.
const CROSSING: &str = "85029382120093821200938212009382";

/// What is seen of a block whose bundle `at`, from 0 to 7, is `other`, and each other one `usual`,
/// both as digits: bit k is set where bundle k is seen to be clean.
fn seen(alloc: Global, format: Format, usual: &str, other: &str, at: u8) -> Result<u8, Fail> {
    let mut bytes = Vec::new(alloc);
    for bundle in 0..8u8 {
        let digits = if bundle == at { other } else { usual };
        let bundle = hex::decode(alloc, digits.as_bytes())?;
        bytes.extend_from_slice(&bundle)?;
    }
    let Some(block) = bytes.first_chunk::<128>() else {
        return Err(Fail::new("eight bundles"));
    };
    let place = BundlePlace {
        sandbox: 0,
        address: CODE_BASE,
        format,
        code_base: CODE_BASE,
        code_size: 256,
        listed: false,
    };
    Ok(clean_bundles(&place, block))
}

/// Tries that each bundle of `SEEN` is seen in each place of a block.
fn try_clean(rt: &impl Abort, alloc: Global, format: Format) -> Result<(), Fail> {
    for row in SEEN.lines().skip(1) {
        let (digits, _) = row.split_once(' ').unwrap_or((row, ""));
        let mask = seen(alloc, format, digits, digits, 0)?;
        assert!(rt; mask == 0xff, "{row}");
    }
    Ok(())
}

/// Clean bundles are seen in both formats whose code is in bundles.
#[test]
fn eight_clean_bundles_are_seen(rt: HostRuntime) -> Result<(), Fail> {
    try_clean(&rt, rt.alloc(), Format::Sfi1)?;
    try_clean(&rt, rt.alloc(), Format::Sfi2)
}

/// Tries that the row's bundle, in each place of a block, isn't seen, and that the other seven are.
fn try_unclean(rt: &impl Abort, alloc: Global, format: Format, row: &str) -> Result<(), Fail> {
    let (digits, _) = row.split_once(' ').unwrap_or((row, ""));
    for at in 0..8u8 {
        let mask = seen(alloc, format, ADDI, digits, at)?;
        assert!(rt; mask == !(1 << at), "{row}");
    }
    Ok(())
}

/// A bundle that breaks a rule isn't seen, and hides no other one.
#[test]
fn each_but_one_is_seen(rt: HostRuntime) -> Result<(), Fail> {
    for row in UNSEEN.lines().skip(1) {
        try_unclean(&rt, rt.alloc(), Format::Sfi1, row)?;
        try_unclean(&rt, rt.alloc(), Format::Sfi2, row)?;
    }
    Ok(())
}

/// Where an instruction of 32 bits crosses a bundle's end nothing is seen of the block, whose
/// bundles are then scanned one by one.
#[test]
fn none_is_seen_beside_a_crossing(rt: HostRuntime) -> Result<(), Fail> {
    for at in 0..8u8 {
        let mask = seen(rt.alloc(), Format::Sfi1, ADDI, CROSSING, at)?;
        assert!(rt; mask == 0);
    }
    Ok(())
}
