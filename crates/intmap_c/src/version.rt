//! The version of the library.
ghost use Rattle.std.specs.Prelude.{◌≡◌};

/// The version of the code, which is 1.1.0: 10000 times the first number, 100 times the second, and
/// the third. It is that of intmap.h if both are of one release.
#[unsafe(no_mangle)]
pub extern "C" fn intmap_version() -> u32
    ensures { result ≡ 10100 }
{
    10100
}
