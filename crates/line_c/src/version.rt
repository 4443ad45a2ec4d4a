// The version of the library; docs/VERSION.md says what it promises.
ghost use Rattle.line_c.specs.Version.{VersionCall};

pub const MAJOR: u32 = 5;

pub const MINOR: u32 = 1;

pub const PATCH: u32 = 1;

#[unsafe(no_mangle)]
pub extern "C" fn order_line_version() -> u32
    ensures { VersionCall result }
{
    MAJOR * 65536 + MINOR * 256 + PATCH
}
