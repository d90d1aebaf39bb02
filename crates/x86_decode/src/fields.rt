//! The fields of REX, and what a REX byte must agree with.

ghost use Rattle.std.specs.Prelude.{◌≡◌};
ghost use Rattle.x86_forms.specs.Spelling.{is_low};
ghost use Rattle.x86_decode.specs.Steps.{rex_w, rex_r, rex_x, rex_b, low_agrees};

pub fn w_of(rex: u8) -> bool
    ensures { result ≡ rex_w rex }
{
    rex / 8 % 2 == 1
}

pub fn r_of(rex: u8) -> u8
    ensures { result ≡ rex_r rex }
{
    rex / 4 % 2
}

pub fn x_of(rex: u8) -> u8
    ensures { result ≡ rex_x rex }
{
    rex / 2 % 2
}

pub fn b_of(rex: u8) -> u8
    ensures { result ≡ rex_b rex }
{
    rex % 2
}

/// A register of 8 bits that needs a REX byte: spl, bpl, sil or dil.
#[tactic(auto, unfolding(x86_forms::specs::Spelling::is_low))]
pub fn is_low_code(r: u8) -> bool
    ensures { result ≡ is_low r }
{
    4 <= r && r < 8
}

/// Without REX there is no such register, and REX without a bit stands only for one.
pub fn agrees(rex: u8, low: bool) -> bool
    ensures { result ≡ low_agrees rex low }
{
    match rex {
        0 => !low,
        0x40 => low,
        _ => true,
    }
}
