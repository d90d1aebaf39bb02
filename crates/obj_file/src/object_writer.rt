//! An object in bytes.

ghost use Rattle.std.specs.Prelude.{◌≡◌, ◌++◌, ◌^◌, ◌<◌, length, OnOk, IfOk};
ghost use Rattle.std.specs.List.{All};
ghost use Rattle.std.specs.Int.{w64, cast_unsigned};
ghost use Rattle.obj_file.specs.declared.parts.Version.TheVariants.{Second};
ghost use Rattle.obj_file.specs.InTurn.{le, counted};
ghost use Rattle.obj_file.specs.Object.{IsObject, object_spelling, symbol_text, fix_text, spot_text};

use crate::object::{Fix, Object, Spot3, Symbol};
use crate::put::{put_access, put_long, put_short, put_u8, put_u32};
use mx_base::OutOfMemory;
use std::alloc::{AllocError, Global};

/// `MXO2`.
const MAGIC: u32 = 0x324F_584D;

#[tactic(auto, unfolding(crate::specs::Object::symbol_text))]
fn put_symbol(out: &mut Vec<u8>, symbol: &Symbol) -> Result<(), AllocError>
    requires name { length symbol.now.name < 256 }
    requires sig { length symbol.now.sig < 256 }
    ensures { OnOk result (out.new.items ≡ out.old.items ++ symbol_text symbol.now) }
{
    put_u8(out, symbol.part)?;
    put_u32(out, symbol.offset)?;
    put_short(out, symbol.name.as_str().as_bytes())?;
    put_short(out, symbol.sig.as_str().as_bytes())
}

#[tactic(auto, unfolding(crate::specs::InTurn::le))]
fn put_addend(out: &mut Vec<u8>, n: i64) -> Result<(), AllocError>
    ensures { OnOk result (out.new.items ≡ out.old.items ++ le w64 (cast_unsigned w64 n)) }
{
    out.extend_from_slice(&n.to_le_bytes())?;
    Ok(())
}

#[tactic(auto, unfolding(crate::specs::Object::fix_text))]
fn put_fix(out: &mut Vec<u8>, fix: &Fix) -> Result<(), AllocError>
    ensures { OnOk result (out.new.items ≡ out.old.items ++ fix_text fix.now) }
{
    put_u8(out, fix.part)?;
    put_u32(out, fix.offset)?;
    put_u8(out, fix.form)?;
    put_u32(out, fix.symbol)?;
    put_addend(out, fix.addend)
}

#[tactic(auto, unfolding(crate::specs::Object::spot_text))]
fn put_spot(out: &mut Vec<u8>, spot: &Spot3) -> Result<(), AllocError>
    ensures { OnOk result (out.new.items ≡ out.old.items ++ spot_text Second spot.now) }
{
    put_u32(out, spot.offset)?;
    put_u32(out, spot.line)?;
    put_u32(out, spot.col)?;
    put_access(out, spot.kind, spot.size)
}

#[tactic(auto, unfolding(crate::specs::InTurn::counted))]
fn put_symbols(out: &mut Vec<u8>, symbols: &[Symbol]) -> Result<(), AllocError>
    requires few { length symbols.now < 2 ^ 32 }
    requires names { All (λ s. length s.name < 256) symbols.now }
    requires sigs { All (λ s. length s.sig < 256) symbols.now }
    ensures { OnOk result (out.new.items ≡ out.old.items ++ counted symbol_text symbols.now) }
{
    put_u32(out, symbols.len() as u32)?;
    for symbol in symbols {
        put_symbol(out, symbol)?;
    }
    Ok(())
}

#[tactic(auto, unfolding(crate::specs::InTurn::counted))]
fn put_fixes(out: &mut Vec<u8>, fixes: &[Fix]) -> Result<(), AllocError>
    requires { length fixes.now < 2 ^ 32 }
    ensures { OnOk result (out.new.items ≡ out.old.items ++ counted fix_text fixes.now) }
{
    put_u32(out, fixes.len() as u32)?;
    for fix in fixes {
        put_fix(out, fix)?;
    }
    Ok(())
}

#[tactic(auto, unfolding(crate::specs::InTurn::counted))]
fn put_spots(out: &mut Vec<u8>, spots: &[Spot3]) -> Result<(), AllocError>
    requires { length spots.now < 2 ^ 32 }
    ensures { OnOk result (out.new.items ≡ out.old.items ++ counted (spot_text Second) spots.now) }
{
    put_u32(out, spots.len() as u32)?;
    for spot in spots {
        put_spot(out, spot)?;
    }
    Ok(())
}

/// The one spelling of an object.
#[tactic(auto, unfolding(crate::specs::Object::object_text))]
pub fn write_object(alloc: Global, o: &Object) -> Result<Vec<u8>, OutOfMemory>
    requires { IsObject o.now }
    ensures { IfOk result (λ bytes. bytes.items ≡ object_spelling o.now) }
{
    let mut out = Vec::new(alloc);
    put_u32(&mut out, MAGIC)?;
    put_u8(&mut out, if o.legacy { 0 } else { 1 })?;
    put_short(&mut out, o.file.as_str().as_bytes())?;
    put_long(&mut out, o.code.as_slice())?;
    put_long(&mut out, o.stored.as_slice())?;
    put_symbols(&mut out, o.symbols.as_slice())?;
    put_fixes(&mut out, o.fixes.as_slice())?;
    put_spots(&mut out, o.places.as_slice())?;
    Ok(out)
}
