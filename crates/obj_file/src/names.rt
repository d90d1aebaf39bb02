//! C names, and signatures of functions and data.

ghost use Rattle.std.specs.Prelude.{◌≡◌, count_by};
ghost use Rattle.std.specs.List.{list_all};
ghost use Rattle.std.specs.Char.{is_ascii_digit};
ghost use Rattle.obj_file.specs.Names as spec;

fn begins_name(b: u8) -> bool
    ensures { result ≡ spec.begins_name b }
{
    b.is_ascii_alphabetic() || b == b'_'
}

fn is_word_byte(b: u8) -> bool
    ensures { result ≡ spec.is_word_byte b }
{
    b.is_ascii_alphanumeric() || b == b'_'
}

fn are_word_bytes(bytes: &[u8]) -> bool
    ensures { result ≡ list_all spec.is_word_byte bytes.now }
{
    for b in bytes {
        if !is_word_byte(*b) {
            return false;
        }
    }
    true
}

/// Whether the bytes are a name of C.
#[tactic(auto, unfolding(crate::specs::Names::is_c_name))]
pub fn is_c_name(name: &[u8]) -> bool
    ensures { result ≡ spec.is_c_name name.now }
{
    if name.is_empty() {
        return false;
    }
    begins_name(name[0]) && are_word_bytes(name)
}

fn is_pointer_letter(b: u8) -> bool
    ensures { result ≡ spec.is_pointer_letter b }
{
    b == b'p'
}

fn is_parameter(b: u8) -> bool
    ensures { result ≡ spec.is_parameter b }
{
    b == b'c'
        || b == b'C'
        || b == b'h'
        || b == b'H'
        || b == b'i'
        || b == b'I'
        || b == b'l'
        || b == b'L'
        || is_pointer_letter(b)
}

fn is_result(b: u8) -> bool
    ensures { result ≡ spec.is_result b }
{
    is_parameter(b) || b == b'v'
}

fn are_parameter_letters(params: &[u8]) -> bool
    ensures { result ≡ list_all spec.is_parameter params.now }
{
    for b in params {
        if !is_parameter(*b) {
            return false;
        }
    }
    true
}

fn pointers(params: &[u8]) -> usize
    ensures { result ≡ count_by spec.is_pointer_letter params.now }
{
    let mut count = 0;
    for b in params {
        if is_pointer_letter(*b) {
            count += 1;
        }
    }
    count
}

#[tactic(auto, unfolding(crate::specs::Names::are_parameters))]
fn are_parameters(params: &[u8]) -> bool
    ensures { result ≡ spec.are_parameters params.now }
{
    params.len() <= 6 && are_parameter_letters(params) && pointers(params) <= 4
}

/// Whether the bytes are the signature of a function.
#[tactic(auto, unfolding(crate::specs::Names::is_function_sig))]
pub fn is_function_sig(sig: &[u8]) -> bool
    ensures { result ≡ spec.is_function_sig sig.now }
{
    if sig.len() < 4 {
        return false;
    }
    let last = sig.len() - 1;
    sig[0] == b'f'
        && is_result(sig[1])
        && sig[2] == b'('
        && sig[last] == b')'
        && are_parameters(&sig[3..last])
}

fn are_digits(bytes: &[u8]) -> bool
    ensures { result ≡ list_all is_ascii_digit bytes.now }
{
    for b in bytes {
        if !b.is_ascii_digit() {
            return false;
        }
    }
    true
}

/// Whether the bytes are the signature of data.
#[tactic(auto, unfolding(crate::specs::Names::is_data_sig))]
pub fn is_data_sig(sig: &[u8]) -> bool
    ensures { result ≡ spec.is_data_sig sig.now }
{
    if sig.len() < 2 {
        return false;
    }
    sig[0] == b'd' && are_digits(&sig[1..]) && (sig.len() == 2 || sig[1] != b'0')
}
