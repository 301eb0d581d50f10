// The version of the calls.
ghost use Rattle.std.specs.Prelude.{◌≡◌};
ghost use Rattle.lafzimdo.specs.Version.{version};

// The version that include/lafzimdo.h has as LAFZIMDO_VERSION: who loads the library while it runs sees whether it was
// compiled for another.
#[unsafe(no_mangle)]
pub extern "C" fn lafzimdo_version() -> u64
    ensures { result ≡ version }
{
    lafzimdo::version::lafzimdo_version()
}
