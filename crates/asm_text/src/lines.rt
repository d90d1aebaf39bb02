//! What a line is: empty, a label, a directive or an instruction.

ghost use Rattle.std.specs.Prelude.{◌≡◌, ◌≤◌, Some, None, length, option_map};
ghost use Rattle.std.specs.List.{prefix_len};
ghost use Rattle.asm_text.specs.Lines as spec;
ghost use Rattle.asm_text.specs.Seen.{seen_line, seen_named};

use crate::cuts::cut_at;
use crate::instructions::built;
use crate::lexical::{
    addend_at, after_mark, ended, first_word, is_local, is_name, number_alone, skip,
};
use crate::operands::{Named, bare, operand_of};
use crate::parts::{Choice, Kind, Operand};
use asm_names::{Mnemonic, mnemonic_of};
use mx_base::{IntKind, wrap};
use obj_file::{is_data_sig, is_function_sig};
use x86_encode::lay_out;
use x86_forms::{Base, Layout, Operands, Rm, valid};

/// What a line is; the name that it defines, uses or signs, which is empty where there is none; the number added to the name; and
/// the numbers of `.byte` or the signature of `.sig`, as text.
#[derive(Clone, Copy)]
pub struct Line<'a> {
    pub kind: Kind,
    pub name: &'a [u8],
    pub addend: i64,
    pub text: &'a [u8],
}

fn of_kind(kind: Kind) -> Line<'static>
    ensures { seen_line result ≡ spec.line kind }
{
    Line {
        kind,
        name: &[],
        addend: 0,
        text: &[],
    }
}

/// How many bytes of the instruction stand behind the field that takes a name's address.
pub fn behind_field(l: &Layout) -> u8
    ensures { result ≡ spec.behind_field l.now }
{
    match l.operands {
        Operands::InModrm { rm: Rm::Mem(_), .. } => l.imm_len,
        _ => 0,
    }
}

/// How many of them are taken off the addend: those behind a displacement from `rip`, whose value is reckoned from the end of the
/// field.
fn taken_off(l: &Layout) -> u8
    ensures { result ≡ spec.taken_off l.now }
{
    match l.operands {
        Operands::InModrm { rm: Rm::Mem(m), .. } => match m.base {
            Base::Rip => l.imm_len,
            Base::None | Base::Reg(_) => 0,
        },
        _ => 0,
    }
}

fn before_comma(text: &[u8]) -> usize
    ensures value { result ≡ prefix_len spec.is_no_comma text.now }
    ensures within { result ≤ length text.now }
{
    text.iter().take_while(|b| **b != b',').count()
}

/// The first operand, if there is one.
#[tactic(auto, unfolding(crate::specs::Lines::first_of))]
fn first_operand(text: &[u8]) -> Option<Named<'_>>
    ensures { option_map seen_named result ≡ spec.first_of text.now }
{
    if ended(text) {
        return Some(bare(Operand::Nothing));
    }
    let (first, _) = text.split_at(before_comma(text));
    operand_of(first)
}

/// The second operand, if a comma stands.
#[tactic(auto, unfolding(crate::specs::Lines::second_of))]
fn second_operand(text: &[u8]) -> Option<Named<'_>>
    ensures { option_map seen_named result ≡ spec.second_of text.now }
{
    let (_, other) = text.split_at(before_comma(text));
    match after_mark(other, b',') {
        Some(behind) => operand_of(behind),
        None => Some(bare(Operand::Nothing)),
    }
}

/// The number added to the name in a field, less some bytes.
fn fix_addend(n: Option<i128>, taken: u8) -> Option<i64>
    ensures { result ≡ spec.fix_addend n taken }
{
    let z = i64::try_from(n?).ok()?;
    z.checked_sub(i64::from(taken))
}

fn naming<'a>(a: Named<'a>, b: Named<'a>) -> Named<'a>
    ensures { seen_named result ≡ spec.naming (seen_named a.entry) (seen_named b.entry) }
{
    if a.name.is_empty() { b } else { a }
}

/// A valid instruction whose numbers fit.
#[tactic(auto, unfolding(crate::specs::Lines::code_line))]
fn code_line<'a>(c: Choice, x: Named<'a>) -> Line<'a>
    ensures { seen_line result ≡ spec.code_line c (seen_named x.entry) }
{
    if !valid(&c.instr) {
        return of_kind(Kind::Shape);
    }
    if !c.fits {
        return of_kind(Kind::Range);
    }
    match fix_addend(x.addend, taken_off(&lay_out(&c.instr))) {
        Some(addend) => Line {
            kind: Kind::Code(c.instr),
            name: x.name,
            addend,
            text: &[],
        },
        None => of_kind(Kind::Range),
    }
}

#[tactic(auto, unfolding(crate::specs::Lines::with_operands))]
fn with_operands<'a>(prefixed: bool, m: Mnemonic, a: Named<'a>, b: Named<'a>) -> Line<'a>
    ensures { seen_line result ≡ spec.with_operands prefixed m (seen_named a.entry) (seen_named b.entry) }
{
    match built(prefixed, m, a.operand, b.operand) {
        Some(c) => code_line(c, naming(a, b)),
        None => of_kind(Kind::Shape),
    }
}

/// Behind the mnemonic.
#[tactic(auto, unfolding(crate::specs::Lines::operands_line))]
fn operands_line(prefixed: bool, m: Mnemonic, text: &[u8]) -> Line<'_>
    ensures { seen_line result ≡ spec.operands_line prefixed m text.now }
{
    match first_operand(text) {
        Some(a) => match second_operand(text) {
            Some(b) => with_operands(prefixed, m, a, b),
            None => of_kind(Kind::Shape),
        },
        None => of_kind(Kind::Shape),
    }
}

#[tactic(auto, unfolding(crate::specs::Lines::instruction))]
fn instruction(prefixed: bool, text: &[u8]) -> Line<'_>
    ensures { seen_line result ≡ spec.instruction prefixed text.now }
{
    let first = first_word(text);
    match mnemonic_of(first.word) {
        Some(m) => operands_line(prefixed, m, first.rest),
        None => of_kind(Kind::Shape),
    }
}

/// Whether the number fits a byte, signed or unsigned.
fn is_byte_number(n: Option<i128>) -> bool
    ensures { result ≡ spec.is_byte_number n }
{
    match n {
        Some(z) => -128 <= z && z < 256,
        None => false,
    }
}

/// Behind `.byte`: numbers between commas.
#[tactic(auto, unfolding(crate::specs::Lines::byte_line))]
fn byte_line(text: &[u8]) -> Line<'_>
    ensures { seen_line result ≡ spec.byte_line text.now }
{
    let mut left = Some(text);
    let mut count = 0u64;
    let mut fits = true;
    while let Some(rest) = left {
        let cut = cut_at(rest, b',');
        match number_alone(cut.part) {
            Some(n) => fits = fits && is_byte_number(n),
            None => return of_kind(Kind::Shape),
        }
        count += 1;
        left = cut.more;
    }
    if !fits {
        return of_kind(Kind::Range);
    }
    Line {
        kind: Kind::Bytes(count),
        name: &[],
        addend: 0,
        text,
    }
}

fn address_line<'a>(name: &'a [u8], n: Option<i128>) -> Line<'a>
    ensures { seen_line result ≡ spec.address_line name.now n }
{
    match n {
        Some(z) => match i64::try_from(z) {
            Ok(addend) => Line {
                kind: Kind::Address,
                name,
                addend,
                text: &[],
            },
            Err(_) => of_kind(Kind::Range),
        },
        None => of_kind(Kind::Range),
    }
}

/// The number as 64 bits in two's complement.
#[tactic(auto, unfolding(mx_base::specs::Numbers::wrapped, mx_base::specs::Numbers::number_of))]
fn quad_number(n: Option<i128>) -> Line<'static>
    ensures { seen_line result ≡ spec.quad_number n }
{
    match n {
        Some(z) => of_kind(Kind::Quad(wrap(IntKind::U64, z) as u64)),
        None => of_kind(Kind::Range),
    }
}

/// `.quad` of a name with a number added.
#[tactic(auto, unfolding(crate::specs::Lines::quad_name))]
fn quad_name<'a>(name: &'a [u8], text: &'a [u8]) -> Line<'a>
    ensures { seen_line result ≡ spec.quad_name name.now text.now }
{
    match addend_at(text) {
        Some(x) => {
            if ended(x.rest) {
                address_line(name, x.number)
            } else {
                of_kind(Kind::Shape)
            }
        }
        None => of_kind(Kind::Shape),
    }
}

/// Behind `.quad`: a number, or a name.
#[tactic(auto, unfolding(crate::specs::Lines::quad_line))]
fn quad_line(text: &[u8]) -> Line<'_>
    ensures { seen_line result ≡ spec.quad_line text.now }
{
    let first = first_word(text);
    if is_name(first.word) {
        return quad_name(first.word, first.rest);
    }
    match number_alone(text) {
        Some(n) => quad_number(n),
        None => of_kind(Kind::Shape),
    }
}

fn zero_number(n: Option<i128>) -> Line<'static>
    ensures { seen_line result ≡ spec.zero_number n }
{
    match n {
        Some(z) => match u64::try_from(z) {
            Ok(count) if count <= 16_777_216 => of_kind(Kind::Zero(count)),
            _ => of_kind(Kind::Range),
        },
        None => of_kind(Kind::Range),
    }
}

/// Behind `.zero`.
#[tactic(auto, unfolding(crate::specs::Lines::zero_line))]
fn zero_line(text: &[u8]) -> Line<'static>
    ensures { seen_line result ≡ spec.zero_line text.now }
{
    match number_alone(text) {
        Some(n) => zero_number(n),
        None => of_kind(Kind::Shape),
    }
}

fn is_alignment(n: u64) -> bool
    ensures { result ≡ spec.is_alignment n }
{
    n == 1 || n == 2 || n == 4 || n == 8 || n == 16
}

fn align_number(n: Option<i128>) -> Line<'static>
    ensures { seen_line result ≡ spec.align_number n }
{
    match n {
        Some(z) => match u64::try_from(z) {
            Ok(count) if is_alignment(count) => of_kind(Kind::Align(count)),
            _ => of_kind(Kind::Range),
        },
        None => of_kind(Kind::Range),
    }
}

/// Behind `.align`.
#[tactic(auto, unfolding(crate::specs::Lines::align_line))]
fn align_line(text: &[u8]) -> Line<'static>
    ensures { seen_line result ≡ spec.align_line text.now }
{
    match number_alone(text) {
        Some(n) => align_number(n),
        None => of_kind(Kind::Shape),
    }
}

fn is_no_blank(b: u8) -> bool
    ensures { result ≡ spec.is_blank_no b }
{
    !(b == b' ' || b == b'\t' || b == b'\r')
}

fn before_blank(text: &[u8]) -> usize
    ensures value { result ≡ prefix_len spec.is_blank_no text.now }
    ensures within { result ≤ length text.now }
{
    text.iter().take_while(|b| is_no_blank(**b)).count()
}

fn is_signature(sig: &[u8]) -> bool
    ensures { result ≡ spec.is_signature sig.now }
{
    sig.len() <= 63 && (is_function_sig(sig) || is_data_sig(sig))
}

fn begins_with_blank(text: &[u8]) -> bool
    ensures { result ≡ spec.begins_with_blank text.now }
{
    match text {
        [b, ..] => !is_no_blank(*b),
        [] => false,
    }
}

/// A name, a blank and a signature, and nothing more.
#[tactic(auto, unfolding(crate::specs::Lines::signs, crate::specs::Lines::sig_text, crate::specs::Lines::after_sig))]
fn signs<'a>(name: &'a [u8], rest: &'a [u8]) -> Line<'a>
    ensures { seen_line result ≡ spec.signs name.now rest.now }
{
    let behind = skip(rest);
    let (sig, after) = behind.split_at(before_blank(behind));
    if is_name(name) && begins_with_blank(rest) && is_signature(sig) && ended(after) {
        Line {
            kind: Kind::Sig,
            name,
            addend: 0,
            text: sig,
        }
    } else {
        of_kind(Kind::Shape)
    }
}

/// Behind `.sig`.
fn sig_line(text: &[u8]) -> Line<'_>
    ensures { seen_line result ≡ spec.sig_line text.now }
{
    let first = first_word(text);
    signs(first.word, first.rest)
}

/// A word that ends its line.
fn word_alone(kind: Kind, text: &[u8]) -> Line<'static>
    ensures { seen_line result ≡ spec.word_alone kind text.now }
{
    if ended(text) {
        of_kind(kind)
    } else {
        of_kind(Kind::Shape)
    }
}

/// The directives that stand in data alone.
#[tactic(auto, unfolding(crate::specs::Lines::data_directive))]
fn data_directive<'a>(word: &'a [u8], text: &'a [u8]) -> Line<'a>
    ensures { seen_line result ≡ spec.data_directive word.now text.now }
{
    if word == b".quad".as_slice() {
        quad_line(text)
    } else if word == b".zero".as_slice() {
        zero_line(text)
    } else if word == b".align".as_slice() {
        align_line(text)
    } else {
        of_kind(Kind::Shape)
    }
}

#[tactic(auto, unfolding(crate::specs::Lines::directive))]
fn directive<'a>(in_data: bool, word: &'a [u8], text: &'a [u8]) -> Line<'a>
    ensures { seen_line result ≡ spec.directive in_data word.now text.now }
{
    if word == b".text".as_slice() {
        word_alone(Kind::Text, text)
    } else if word == b".data".as_slice() {
        word_alone(Kind::Data, text)
    } else if word == b".byte".as_slice() {
        byte_line(text)
    } else if word == b".sig".as_slice() {
        sig_line(text)
    } else if in_data {
        data_directive(word, text)
    } else {
        of_kind(Kind::Shape)
    }
}

fn label_line<'a>(name: &'a [u8], text: &'a [u8]) -> Line<'a>
    ensures { seen_line result ≡ spec.label_line name.now text.now }
{
    if (is_name(name) || is_local(name)) && ended(text) {
        Line {
            kind: Kind::Label,
            name,
            addend: 0,
            text: &[],
        }
    } else {
        of_kind(Kind::Shape)
    }
}

/// An instruction, which stands in code alone.
#[tactic(auto, unfolding(crate::specs::Lines::code_only))]
fn code_only(in_data: bool, text: &[u8]) -> Line<'_>
    ensures { seen_line result ≡ spec.code_only in_data text.now }
{
    if in_data {
        return of_kind(Kind::Shape);
    }
    let first = first_word(text);
    if first.word == b"bnd".as_slice() {
        instruction(true, first.rest)
    } else {
        instruction(false, text)
    }
}

/// A line that is no label.
#[tactic(auto, unfolding(crate::specs::Lines::statement))]
fn statement(in_data: bool, text: &[u8]) -> Line<'_>
    ensures { seen_line result ≡ spec.statement in_data text.now }
{
    let first = first_word(text);
    match first.word {
        [b'.', ..] => directive(in_data, first.word, first.rest),
        _ => code_only(in_data, text),
    }
}

/// A line without its comment.
#[tactic(auto, unfolding(crate::specs::Lines::parsed))]
fn parsed(in_data: bool, text: &[u8]) -> Line<'_>
    ensures { seen_line result ≡ spec.parsed in_data text.now }
{
    if ended(text) {
        return of_kind(Kind::Empty);
    }
    let first = first_word(text);
    match after_mark(first.rest, b':') {
        Some(behind) => label_line(first.word, behind),
        None => statement(in_data, text),
    }
}

fn before_comment(text: &[u8]) -> usize
    ensures value { result ≡ prefix_len spec.is_no_comment text.now }
    ensures within { result ≤ length text.now }
{
    text.iter().take_while(|b| **b != b';').count()
}

/// What a line is, by its bytes and by whether it stands in data.
#[tactic(auto, unfolding(crate::specs::Lines::line_of))]
pub fn line_of(in_data: bool, bytes: &[u8]) -> Line<'_>
    ensures { seen_line result ≡ spec.line_of in_data bytes.now }
{
    let (text, _) = bytes.split_at(before_comment(bytes));
    parsed(in_data, text)
}
