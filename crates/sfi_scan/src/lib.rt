//! The scan: the places of an image where the rules of `sfi_rules` are broken.
//!
//! [`scan_stretch`] scans a stretch: whole bundles of one code region, one behind another, of which
//! only the first may be a listed gate's. With [`IN_BLOCKS`] it looks at a block, eight bundles, at
//! once (`block.rt`), then at each bundle that this leaves (`clean.rt`), and reads what neither
//! sees to be clean instruction by instruction (`scan.rt`, `rules.rt`). Code in words, of the third
//! and fourth format, is scanned alike by `words.rt` and the modules in `words/`: first eight
//! bundles at once, then word by word, with what is owed before each ([`scan_words`], [`Owed`]).
//!
//! The first looks only save time. One that says clean is proved to be right; about code of which
//! it doesn't say so it says nothing, and the exact reading decides.
#![tactic(auto)]

mod ahead;
mod before;
mod block;
mod clean;
mod code;
mod findings;
mod list;
mod part;
mod rules;
mod scan;
mod sink;
mod tables;
mod words;

pub use block::clean_bundles;
pub use code::{BUNDLE_BY_BUNDLE, IN_BLOCKS, scan_code, scan_stretch};
pub use findings::BundleFindings;
pub use list::FindingList;
pub use part::{scan_part, scan_part_as};
pub use scan::scan_bundle;
pub use sfi_formats::Format;
pub use sfi_rules::{BundlePlace, Finding, Owed, Rule};
pub use sink::FindingSink;
pub use words::scan_words;
