//! Texts cut at a byte, part after part.

ghost use Rattle.std.specs.Prelude.{◌≡◌, ◌≤◌, ◌∷◌, nat_eq, length};
ghost use Rattle.std.specs.List.{slice_split, position_or_len};
ghost use Rattle.std.specs.Option.{option_copied};
ghost use Rattle.asm_text.specs.Cuts as spec;

/// The first part of a text, and what is behind the byte that ends it, if that byte stands in the text.
#[derive(Clone, Copy)]
pub struct Cut<'a> {
    pub part: &'a [u8],
    pub more: Option<&'a [u8]>,
}

fn bytes_before(text: &[u8], at: u8) -> usize
    ensures value { result ≡ position_or_len (spec.is at) text.now }
    ensures within { result ≤ length text.now }
{
    text.iter().take_while(|b| **b != at).count()
}

/// Cuts a text at the first such byte.
#[tactic(auto, using(crate::proofs::CutLemmas::cut_first))]
pub fn cut_at(text: &[u8], at: u8) -> Cut<'_>
    ensures parts { slice_split (spec.is at) text.now ≡ result.part.now ∷ spec.parts_left at (option_copied result.more) }
    ensures within { length result.part.now ≤ length text.now }
    ensures shorter { spec.room_of (option_copied result.more) ≤ length text.now }
{
    let (part, rest) = text.split_at(bytes_before(text, at));
    match rest {
        [] => Cut { part, more: None },
        [_, more @ ..] => Cut {
            part,
            more: Some(more),
        },
    }
}
