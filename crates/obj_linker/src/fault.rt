//! Why objects make no image.

ghost use Rattle.std.specs.Prelude.{◌≡◌};
ghost use Rattle.obj_linker.specs.declared.fault.LinkFault.TheVariants.{OutOfMemory};

use mx_base::OutOfMemory;
use obj_file::Text;

/// Why objects make no image.
#[derive(Drop)]
pub enum LinkFault {
    /// A name that is defined twice.
    Twice(Text),
    /// A name that is imported and not defined.
    Missing(Text),
    /// A name that is imported with another signature than it has.
    Clash(Text),
    /// No instrumented object defines `int main(void)`.
    NoMain,
    /// The number of C functions, which is over 65,536.
    ManyFunctions(u64),
    /// The size in bytes of the instrumented code with its stubs, which is over 251,658,240.
    CodeLarge(u64),
    /// The size in bytes of the legacy code, which is over 16,777,216.
    LegacyLarge(u64),
    /// The size in bytes of the data, which is over 16,777,216.
    GlobalsLarge(u64),
    /// The number of segments over 262,144, of files over 65,536, or of places over 1,048,576.
    ImageLarge(u64),
    /// A fix-up, by the number of its object and its own, whose value does not fit its field.
    FarFix { object: u32, fix: u32 },
    /// Memory of the host is not to be had.
    OutOfMemory,
}

impl From<OutOfMemory> for LinkFault {
    ghost from_gives = { λ _ e. e ≡ OutOfMemory };

    fn from(_error: OutOfMemory) -> LinkFault {
        LinkFault::OutOfMemory
    }
}
