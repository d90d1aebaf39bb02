//! Words that name files.
ghost use Rattle.std.specs.Prelude.{◌≡◌, map, string_bytes};
ghost use Rattle.mpx_words.specs.Words.{is_file_word, is_source_word, is_assembly_word, is_object_word, are_objects as all_are_objects};

pub fn is_source(word: &str) -> bool
    ensures { result ≡ is_source_word word.now }
{
    is_file(word) && word.as_bytes().ends_with(b".c")
}

pub fn is_assembly(word: &str) -> bool
    ensures { result ≡ is_assembly_word word.now }
{
    is_file(word) && word.as_bytes().ends_with(b".s")
}

pub fn is_file(word: &str) -> bool
    ensures { result ≡ is_file_word word.now }
{
    1 <= word.len() && word.len() <= 255 && !word.as_bytes().starts_with(b"-")
}

pub fn is_object(word: &str) -> bool
    ensures { result ≡ is_object_word word.now }
{
    is_file(word) && word.as_bytes().ends_with(b".mxo")
}

pub fn are_objects(words: &[String]) -> bool
    ensures { result ≡ all_are_objects (map string_bytes words.now) }
{
    let mut rest = words;
    while let Some((word, after)) = rest.split_first() {
        if !is_object(word.as_str()) {
            return false;
        }
        rest = after;
    }
    true
}
