//! The version of this library.
ghost use Rattle.std.specs.Prelude.{◌≡◌};

/// The version as a number: 65536 for each major version, 256 for each minor and 1 for each patch.
const VERSION_NUMBER: u32 = 0x000100;

/// The version of this library, as a number: `SFI_RUN_VERSION_NUMBER` of the header that it came with.
/// tools/version.py has the list of all places of the version.
#[unsafe(no_mangle)]
pub extern "C" fn sfi_run_version() -> u32
    ensures { result ≡ VERSION_NUMBER }
{
    VERSION_NUMBER
}
