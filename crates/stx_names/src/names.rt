// Names, class names, patterns and whole numbers as a scenario writes them.
ghost use Rattle.std.specs.Prelude.{◌≡◌, ◌==◌, length};
ghost use Rattle.std.specs.List.{list_all, slice_split};
ghost use Rattle.std.specs.Char.{is_ascii_digit};
ghost use Rattle.stx_scenario.specs.Names.{is_name as name_test, is_name_start as start_test, is_name_part as part_test, is_class_name as class_name_test, may_name_class as class_test, is_pattern as pattern_test, is_pattern_part as pattern_part_test};
ghost use Rattle.stx_names.specs.Integers.{are_plain_digits as digits_test, is_plain_number as number_test, number_in as number_of};

use stx_scenario::is_built_in;

/// The most bytes of a class name, and of a pattern.
const MOST_BYTES: usize = 64;

/// The most names in a class name.
const MOST_NAMES: usize = 8;

/// Whether a text is a name: a letter or `_`, followed by up to 31 letters, digits or `_`.
pub fn is_name(text: &str) -> bool
    ensures { result ≡ name_test text.now }
{
    match text.as_bytes() {
        [] => false,
        [first, rest @ ..] => is_name_start(*first) && are_name_parts(rest) && rest.len() <= 31,
    }
}

/// Whether a class may be declared by this name: one to eight names joined by dots, of at most 64 bytes in all.
pub fn is_class_name(text: &str) -> bool
    ensures { result ≡ class_name_test text.now }
{
    are_names(text) && count_of_parts(text) <= MOST_NAMES && text.len() <= MOST_BYTES
}

/// Whether a text may stand where a class is named: a class name, or the name of a built-in class.
pub fn may_name_class(text: &str) -> bool
    ensures { result ≡ class_test text.now }
{
    is_class_name(text) || is_built_in(text)
}

/// Whether a text may stand after `~` in a rule: 1 to 64 letters, digits, `_` or dots.
pub fn is_pattern(text: &str) -> bool
    ensures { result ≡ pattern_test text.now }
{
    let bytes = text.as_bytes();
    are_pattern_parts(bytes) && 1 <= bytes.len() && bytes.len() <= MOST_BYTES
}

/// Whether each part between dots is a name.
fn are_names(text: &str) -> bool
    ensures { result ≡ list_all name_test (slice_split (λ c. c == 46) text.now) }
{
    text.split('.').all(|part| is_name(part))
}

fn count_of_parts(text: &str) -> usize
    ensures { result ≡ length (slice_split (λ c. c == 46) text.now) }
{
    text.split('.').count()
}

fn are_name_parts(bytes: &[u8]) -> bool
    ensures { result ≡ list_all part_test bytes.now }
{
    bytes.iter().all(|byte| is_name_part(*byte))
}

fn are_pattern_parts(bytes: &[u8]) -> bool
    ensures { result ≡ list_all pattern_part_test bytes.now }
{
    bytes.iter().all(|byte| is_pattern_part(*byte))
}

fn is_name_start(byte: u8) -> bool
    ensures { result ≡ start_test byte }
{
    matches!(byte, b'a'..=b'z' | b'A'..=b'Z' | b'_')
}

fn is_name_part(byte: u8) -> bool
    ensures { result ≡ part_test byte }
{
    is_name_start(byte) || byte.is_ascii_digit()
}

fn is_pattern_part(byte: u8) -> bool
    ensures { result ≡ pattern_part_test byte }
{
    is_name_part(byte) || byte == b'.'
}

fn are_digits(bytes: &[u8]) -> bool
    ensures { result ≡ list_all is_ascii_digit bytes.now }
{
    bytes.iter().all(|byte| byte.is_ascii_digit())
}

/// The number that a text writes: `0`, or an optional `-` and digits that don't begin with 0, within an `i64`.
#[tactic(auto, unfolding(crate::specs::Integers::number_in))]
pub fn number_in(text: &str) -> Option<i64>
    ensures { result ≡ number_of text.now }
{
    if !is_plain_number(text.as_bytes()) {
        return None;
    }
    text.parse::<i64>().ok()
}

fn is_plain_number(bytes: &[u8]) -> bool
    ensures { result ≡ number_test bytes.now }
{
    match bytes {
        b"0" => true,
        [b'-', digits @ ..] => are_plain_digits(digits),
        digits => are_plain_digits(digits),
    }
}

fn are_plain_digits(bytes: &[u8]) -> bool
    ensures { result ≡ digits_test bytes.now }
{
    match bytes {
        [] | [b'0', ..] => false,
        digits => are_digits(digits),
    }
}
