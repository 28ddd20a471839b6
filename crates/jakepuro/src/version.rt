// The version of the interface.
ghost use Rattle.std.specs.Prelude.{◌≡◌};
ghost use Rattle.jakepuro.specs.Interface.{interface_version};

// Raised when an exported signature or record moves, with include/jakepuro.h and bindings/rust.
const VERSION: u32 = 1;

// The version of this archive's interface.
#[unsafe(no_mangle)]
pub extern "C" fn jakepuro_version() -> u32
    ensures { result ≡ interface_version }
{
    VERSION
}
