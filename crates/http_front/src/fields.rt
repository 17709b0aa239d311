//! The fields of a head.
ghost use Rattle.std.specs.Prelude.{◌≡◌, ◌+◌, ◌*◌, ◌^◌, ◌≤◌, ◌<◌, true, length, drop, map, All, IfSome, Some, None, nat_le, ◌&&◌, if◌then◌else◌};
ghost use Rattle.std.specs.Char.{is_ascii_digit, digit_value};
ghost use Rattle.std.specs.Str.Parse.{digits_value};
ghost use Rattle.std.specs.List.{position, list_any, list_all};
ghost use Rattle.httparse.specs.Spans.{IsHeaderWithin, header_bytes};
ghost use Rattle.http_front.specs.Heads.{same_word, values, is_separator, has_option, length_within};
ghost use Rattle.http_front.specs.Reading.{AreValues};

use httparse::spans::HeaderSpan;

/// The digits of a length at the most.
const MOST_DIGITS: usize = 10;

/// The values of the fields of a name.
#[derive(Clone, Copy)]
pub(crate) enum Values<'b> {
    Absent,
    One(&'b [u8]),
    Several,
}

/// The values of the fields of a name, without regard to its case.
pub(crate) fn values_of<'b>(bytes: &'b [u8], fields: &[HeaderSpan], name: &[u8]) -> Values<'b>
    requires { All (IsHeaderWithin (length bytes.now)) fields.now }
    ensures { AreValues (values name.now (map (header_bytes bytes.now) fields.now)) result }
{
    let mut found = Values::Absent;
    'fields: for field in fields {
        if same_word(field.name.of(bytes), name) {
            if let Values::One(_) = found {
                return Values::Several;
            }
            found = Values::One(field.value.of(bytes));
        }
    }
    found
}

/// Whether one of the fields of a name has this among its options.
pub(crate) fn tells(bytes: &[u8], fields: &[HeaderSpan], name: &[u8], option: &[u8]) -> bool
    requires { All (IsHeaderWithin (length bytes.now)) fields.now }
    ensures { result ≡ list_any (has_option option.now) (values name.now (map (header_bytes bytes.now) fields.now)) }
{
    'fields: for field in fields {
        if same_word(field.name.of(bytes), name) && has_option(field.value.of(bytes), option) {
            return true;
        }
    }
    false
}

/// Whether one of the options of a list is this, without regard to case.
#[tactic(auto, using(crate::proofs::Naming::part_at, crate::proofs::Naming::part_alone), unfolding(crate::specs::Heads::has_option))]
fn has_option(value: &[u8], option: &[u8]) -> bool
    ensures { result ≡ has_option option.now value.now }
{
    let mut rest = value;
    'parts: while let Some(at) = separator(rest) {
        if same_word(&rest[..at], option) {
            return true;
        }
        rest = behind(rest, at);
    }
    same_word(rest, option)
}

/// The place of the first separator of a list.
fn separator(list: &[u8]) -> Option<usize>
    ensures place { result ≡ position is_separator list.now }
    ensures within { IfSome result (λ at. at < length list.now) }
{
    list.iter()
        .position(|byte| *byte == b',' || *byte == b' ' || *byte == b'\t')
}

/// What stands behind the byte at this place.
fn behind(list: &[u8], at: usize) -> &[u8]
    requires { at < length list.now }
    ensures { result.now ≡ drop (at + 1) list.now }
{
    &list[at + 1..]
}

/// Whether two words are the same, without regard to the case of ASCII letters.
fn same_word(a: &[u8], b: &[u8]) -> bool
    ensures { result ≡ same_word a.now b.now }
{
    a.eq_ignore_ascii_case(b)
}

/// The length that these digits spell, where it is within the limit.
#[tactic(auto, unfolding(crate::specs::Heads::length_within))]
pub(crate) fn length_within(digits: &[u8], limit: usize) -> Option<usize>
    ensures { result ≡ length_within limit digits.now }
{
    if digits.is_empty() || digits.len() > MOST_DIGITS {
        return None;
    }
    number_within(digits, limit)
}

/// The number that these digits spell, where it is within the limit.
fn number_within(digits: &[u8], limit: usize) -> Option<usize>
    ensures { result ≡ (if list_all is_ascii_digit digits.now && nat_le (digits_value 10 digits.now) limit then Some (digits_value 10 digits.now) else None) }
{
    let mut number: u128 = 0;
    'digits: for digit in digits {
        if !digit.is_ascii_digit() {
            return None;
        }
        number = with_digit(number, *digit);
        if number > limit as u128 {
            return None;
        }
    }
    Some(number as usize)
}

/// A number with one digit more.
fn with_digit(number: u128, digit: u8) -> u128
    requires small { number < 2 ^ 64 }
    requires digit { is_ascii_digit digit ≡ true }
    ensures { result ≡ number * 10 + digit_value digit }
{
    number * 10 + u128::from(digit - b'0')
}
