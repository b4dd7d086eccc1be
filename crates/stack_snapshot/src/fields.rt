// Members of a JSON value that are words, bytes or numbers.
ghost use Rattle.std.specs.Prelude.{◌≡◌, ◌+◌, ◌*◌, ◌<◌, ◌^◌, IfSome, option_map};
ghost use Rattle.serde_json.specs.Find.{get};
ghost use Rattle.serde_json.specs.View.{view, items_view, members_view};
ghost use Rattle.serde_json.specs.Written.{has_float as holds_float, items_have_float};
ghost use Rattle.serde_json.specs.Written.{members_have_float};
ghost use Rattle.hex.specs.Hex.{hex_digit_value};
ghost use Rattle.stack_snapshot.specs.Words.{short_number, word_of};
ghost use Rattle.stack_snapshot.specs.Fields.{as_word, word_at, word_or_zero_at};
ghost use Rattle.stack_snapshot.specs.Fields.{number_at};

use serde_json::{Map, Value};

/// The value of a hexadecimal digit.
fn digit_of(digit: u8) -> Option<u8>
    ensures value { result ≡ hex_digit_value digit }
    ensures small { IfSome result (λ value. value < 16) }
{
    match digit {
        b'A'..=b'F' => Some(digit - 55),
        b'a'..=b'f' => Some(digit - 87),
        b'0'..=b'9' => Some(digit - 48),
        _ => None,
    }
}

/// The number with one more digit.
fn with_digit(number: u64, digit: u8) -> Option<u64>
    requires { number < 2 ^ 60 }
    ensures value { result ≡ option_map (λ d. 16 * number + d) (hex_digit_value digit) }
    ensures bound { IfSome result (λ value. value < 16 * (number + 1)) }
{
    let digit = digit_of(digit)?;
    Some(16 * number + u64::from(digit))
}

/// The number that one to sixteen hexadecimal digits spell.
fn number_of(digits: &[u8]) -> Option<u64>
    ensures { result ≡ short_number digits.now }
{
    if digits.is_empty() || digits.len() > 16 {
        return None;
    }
    let mut number = 0;
    for digit in digits {
        number = with_digit(number, *digit)?;
    }
    Some(number)
}

/// The number that `0x` and one to sixteen hexadecimal digits spell.
pub fn word_in(text: &str) -> Option<u64>
    ensures { result ≡ word_of text.now }
{
    match text.as_bytes() {
        [b'0', b'x', digits @ ..] => number_of(digits),
        _ => None,
    }
}

/// The word that a value is.
pub fn as_word(value: &Value) -> Option<u64>
    ensures { result ≡ as_word (view value.now) }
{
    word_in(value.as_str()?)
}

/// The word at a key.
pub fn word_at(value: &Value, key: &str) -> Option<u64>
    ensures { result ≡ word_at key.now (view value.now) }
{
    as_word(value.get(key)?)
}

/// The word at a key, 0 where the key is missing.
pub fn word_or_zero_at(value: &Value, key: &str) -> Option<u64>
    ensures { result ≡ word_or_zero_at key.now (view value.now) }
{
    match value.get(key) {
        Some(found) => as_word(found),
        None => Some(0),
    }
}

/// The whole number at a key.
pub fn number_at(value: &Value, key: &str) -> Option<u64>
    ensures { result ≡ number_at key.now (view value.now) }
{
    value.get(key)?.as_u64()
}

/// Whether a number at any place in the value is no 64-bit integer.
#[cycle(floats)]
pub fn has_float(value: &Value) -> bool
    ensures { result ≡ holds_float (view value.now) }
{
    match value {
        Value::Number(number) => number.is_f64(),
        Value::Array(items) => any_has_float(items),
        Value::Object(members) => any_member_has_float(members),
        Value::Null | Value::Bool(_) | Value::String(_) => false,
    }
}

#[cycle(floats)]
fn any_has_float(items: &Vec<Value>) -> bool
    ensures { result ≡ items_have_float (items_view items.now.items) }
{
    for item in items {
        if has_float(item) {
            return true;
        }
    }
    false
}

#[cycle(floats)]
fn any_member_has_float(members: &Map<String, Value>) -> bool
    ensures { result ≡ members_have_float (members_view members.now.entries) }
{
    for (_key, member) in members.iter() {
        if has_float(member) {
            return true;
        }
    }
    false
}
