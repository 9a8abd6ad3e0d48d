// The version of the library.
ghost use Rattle.std.specs.Prelude.{◌≡◌};
ghost use Rattle.c_api.specs.Version.{version};

// The version as one number: 0.8.0 is 800.
#[unsafe(no_mangle)]
pub extern "C" fn palustrode_version() -> i64
    ensures { result ≡ version }
{
    800
}
