//! What is taken from the input.
ghost use Rattle.std.specs.Prelude.{◌≡◌};
ghost use Rattle.mx_base.specs.Outside.{Counts};
ghost use Rattle.guest_services.specs.Streams.{Gets};

use mx_base::{Failed, Source};

/// The next byte of the input, or none at its end.
pub fn get<I: Source>(input: &mut I) -> Result<Option<u8>, Failed>
    ensures answer { Gets (I.left input.old) (I.left input.new) result }
    ensures faults { Counts result (I.faults input.old) (I.faults input.new) }
{
    let mut buf = [0];
    let n = input.take(&mut buf)?;
    if n == 0 { Ok(None) } else { Ok(Some(buf[0])) }
}
