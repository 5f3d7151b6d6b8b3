//! Characters at the start and at the end of bytes, as far as they have at most three bytes.
ghost use Rattle.std.specs.Prelude.{◌≡◌, ◌-◌, ◌<◌, ◌≤◌, ◌++◌, ◌∷◌, [], drop, length, take, IfSome};
ghost use Rattle.std.specs.Char.{IsScalar, encode_utf8, len_utf8};

/// The character of these two bytes.
#[inline(always)]
fn char_of_two(first: u8, second: u8) -> Option<char>
    ensures scalar { IfSome result (λ c. IsScalar c) }
    ensures low { IfSome result (λ c. 128 ≤ c) }
    ensures high { IfSome result (λ c. c < 2048) }
    ensures bytes { IfSome result (λ c. encode_utf8 c ≡ first ∷ second ∷ []) }
{
    if first < 0xC2 || first > 0xDF || second < 0x80 || second > 0xBF {
        return None;
    }
    let code = (first as u32 - 0xC0) * 64 + (second as u32 - 0x80);
    let Some(c) = char::from_u32(code) else {
        return None;
    };
    Some(c)
}

/// The character of these three bytes.
#[inline(always)]
fn char_of_three(first: u8, second: u8, third: u8) -> Option<char>
    ensures scalar { IfSome result (λ c. IsScalar c) }
    ensures low { IfSome result (λ c. 2048 ≤ c) }
    ensures high { IfSome result (λ c. c < 65536) }
    ensures bytes { IfSome result (λ c. encode_utf8 c ≡ first ∷ second ∷ third ∷ []) }
{
    if first < 0xE0
        || first > 0xEF
        || second < 0x80
        || second > 0xBF
        || third < 0x80
        || third > 0xBF
    {
        return None;
    }
    let code = ((first as u32 - 0xE0) * 64 + (second as u32 - 0x80)) * 64 + (third as u32 - 0x80);
    if code < 2048 {
        return None;
    }
    let Some(c) = char::from_u32(code) else {
        return None;
    };
    Some(c)
}

/// The character beyond ASCII at the start of these bytes, if it has two or three of them.
#[inline(always)]
pub(crate) fn first_char(bytes: &[u8]) -> Option<char>
    ensures scalar { IfSome result (λ c. IsScalar c) }
    ensures beyond { IfSome result (λ c. 128 ≤ c) }
    ensures few { IfSome result (λ c. len_utf8 c ≤ 3) }
    ensures within { IfSome result (λ c. len_utf8 c ≤ length bytes.now) }
    ensures bytes { IfSome result (λ c. bytes.now ≡ encode_utf8 c ++ drop (len_utf8 c) bytes.now) }
{
    if bytes.len() < 2 {
        return None;
    }
    if bytes[0] < 0xE0 {
        let two = char_of_two(bytes[0], bytes[1])?;
        return Some(two);
    }
    if bytes.len() < 3 {
        return None;
    }
    let three = char_of_three(bytes[0], bytes[1], bytes[2])?;
    Some(three)
}

/// The character at the start of these bytes.
#[inline(always)]
pub(crate) fn char_at_start(bytes: &[u8]) -> Option<char>
    ensures within { IfSome result (λ c. len_utf8 c ≤ length bytes.now) }
    ensures bytes { IfSome result (λ c. bytes.now ≡ encode_utf8 c ++ drop (len_utf8 c) bytes.now) }
{
    if bytes.is_empty() {
        return None;
    }
    if bytes[0].is_ascii() {
        return Some(bytes[0] as char);
    }
    first_char(bytes)
}

/// The character beyond ASCII at the end of these bytes.
#[inline(always)]
fn last_char(bytes: &[u8]) -> Option<char>
    ensures scalar { IfSome result (λ c. IsScalar c) }
    ensures within { IfSome result (λ c. len_utf8 c ≤ length bytes.now) }
    ensures bytes { IfSome result (λ c. bytes.now ≡ take (length bytes.now - len_utf8 c) bytes.now ++ encode_utf8 c) }
{
    let len = bytes.len();
    if len < 2 {
        return None;
    }
    if let Some(two) = char_of_two(bytes[len - 2], bytes[len - 1]) {
        return Some(two);
    }
    if len < 3 {
        return None;
    }
    let three = char_of_three(bytes[len - 3], bytes[len - 2], bytes[len - 1])?;
    Some(three)
}

/// The character at the end of these bytes.
#[inline(always)]
pub(crate) fn char_at_end(bytes: &[u8]) -> Option<char>
    ensures scalar { IfSome result (λ c. IsScalar c) }
    ensures within { IfSome result (λ c. len_utf8 c ≤ length bytes.now) }
    ensures bytes { IfSome result (λ c. bytes.now ≡ take (length bytes.now - len_utf8 c) bytes.now ++ encode_utf8 c) }
{
    if bytes.is_empty() {
        return None;
    }
    let last = bytes[bytes.len() - 1];
    if last.is_ascii() {
        return Some(last as char);
    }
    last_char(bytes)
}
