//! The library's version.
ghost use Rattle.std.specs.Prelude.{◌≡◌};

/// The version as a number: 65536 for each major version, 256 for each minor and 1 for each patch.
/// `tools/version.py` changes it here and in the header.
pub const VERSION_NUMBER: u32 = 0x000100;

/// The version of the library: `SFI_VERSION_NUMBER` of the header that belongs to it. A program
/// whose header has another was compiled for another library.
#[unsafe(no_mangle)]
pub extern "C" fn sfi_c_version() -> u32
    ensures { result ≡ VERSION_NUMBER }
{
    VERSION_NUMBER
}
