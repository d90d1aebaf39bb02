//! Fields put at the end of bytes.

ghost use Rattle.std.specs.Prelude.{◌≡◌, ◌++◌, ◌^◌, ◌<◌, length, OnOk};
ghost use Rattle.std.specs.Int.{w8, w32, w64};
ghost use Rattle.obj_file.specs.declared.parts.Version.TheVariants.{Second};
ghost use Rattle.obj_file.specs.InTurn.{le, sized};
ghost use Rattle.obj_file.specs.Versions.{access_text};

use std::alloc::AllocError;

#[tactic(auto, unfolding(crate::specs::InTurn::le))]
pub fn put_u8(out: &mut Vec<u8>, n: u8) -> Result<(), AllocError>
    ensures { OnOk result (out.new.items ≡ out.old.items ++ le w8 n) }
{
    out.extend_from_slice(&[n])?;
    Ok(())
}

#[tactic(auto, unfolding(crate::specs::InTurn::le))]
pub fn put_u32(out: &mut Vec<u8>, n: u32) -> Result<(), AllocError>
    ensures { OnOk result (out.new.items ≡ out.old.items ++ le w32 n) }
{
    out.extend_from_slice(&n.to_le_bytes())?;
    Ok(())
}

#[tactic(auto, unfolding(crate::specs::InTurn::le))]
pub fn put_u64(out: &mut Vec<u8>, n: u64) -> Result<(), AllocError>
    ensures { OnOk result (out.new.items ≡ out.old.items ++ le w64 n) }
{
    out.extend_from_slice(&n.to_le_bytes())?;
    Ok(())
}

/// A length of 8 bits and the bytes.
#[tactic(auto, unfolding(crate::specs::InTurn::sized))]
pub fn put_short(out: &mut Vec<u8>, bytes: &[u8]) -> Result<(), AllocError>
    requires { length bytes.now < 256 }
    ensures { OnOk result (out.new.items ≡ out.old.items ++ sized w8 bytes.now) }
{
    put_u8(out, bytes.len() as u8)?;
    out.extend_from_slice(bytes)?;
    Ok(())
}

/// A length of 32 bits and the bytes.
#[tactic(auto, unfolding(crate::specs::InTurn::sized))]
pub fn put_long(out: &mut Vec<u8>, bytes: &[u8]) -> Result<(), AllocError>
    requires { length bytes.now < 2 ^ 32 }
    ensures { OnOk result (out.new.items ≡ out.old.items ++ sized w32 bytes.now) }
{
    put_u32(out, bytes.len() as u32)?;
    out.extend_from_slice(bytes)?;
    Ok(())
}

/// The kind and the size of an access.
#[tactic(auto, unfolding(crate::specs::Versions::access_text))]
pub fn put_access(out: &mut Vec<u8>, kind: u8, size: u32) -> Result<(), AllocError>
    ensures { OnOk result (out.new.items ≡ out.old.items ++ access_text Second kind size) }
{
    put_u8(out, kind)?;
    put_u32(out, size)
}
