// Which version of the calls this is.
ghost use Rattle.std.specs.Prelude.{◌≡◌};

const VERSION: u32 = 2;

/// The version of these calls, as `kalzurenk.h` has it in `KZ_VERSION`: where both are the same, the
/// layouts, the numbers and the calls of the header are those of the library.
#[unsafe(no_mangle)]
pub extern "C" fn kz_version() -> u32
    ensures { result ≡ 2 }
{
    VERSION
}
