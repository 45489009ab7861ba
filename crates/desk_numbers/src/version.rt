// The number of the header and its doors.
ghost use Rattle.std.specs.Prelude.{◌≡◌};
ghost use Rattle.desk_numbers.specs.Version.{version};

// What a program compares with the header's MANDRIKELO_VERSION, to see that it was compiled for these doors.
#[unsafe(no_mangle)]
pub extern "C" fn mandrikelo_version() -> u32
    ensures { result ≡ version }
{
    1
}
