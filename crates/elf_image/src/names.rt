//! The extensions that the text of an architecture names. Upper case counts as lower.

ghost use Rattle.std.specs.Prelude.{◌≡◌, ◌<◌, ◌≤◌, ◌==◌, [], ◌∷◌, length, reverse, IfSome, bytes_eq};
ghost use Rattle.std.specs.Char.{to_ascii_lowercase};
ghost use Rattle.std.specs.List.{slice_split, flat_map};
ghost use Rattle.std.specs.Option.{option_map, option_and_then};
ghost use Rattle.elf_image.specs.Architecture as spec;
ghost use Rattle.elf_image.specs.Inner.Architecture.{lower, left, left_reversed};

use crate::extensions::Extensions;

/// Whether a text is a word, which is in lower case.
fn is_word(text: &[u8], word: &[u8]) -> bool
    ensures { result ≡ bytes_eq word.now (lower text.now) }
{
    text.len() == word.len() && begins(text, word)
}

/// Whether a text begins with a word, which is in lower case.
fn begins(text: &[u8], word: &[u8]) -> bool
    ensures { result ≡ spec.begins word.now (lower text.now) }
{
    if text.len() < word.len() {
        return false;
    }
    for (i, c) in word.iter().enumerate() {
        if text[i].to_ascii_lowercase() != *c {
            return false;
        }
    }
    true
}

/// What follows the digits at the front; `None` if there are none.
fn after_digits(text: &[u8]) -> Option<&[u8]>
    ensures text { left result ≡ spec.after_digits (lower text.now) }
    ensures shorter { IfSome result (λ t. length t.now < length text.now) }
{
    let (first, others) = text.split_first()?;
    if !first.is_ascii_digit() {
        return None;
    }
    Some(skip_digits(others))
}

/// What follows the digits at the front.
fn skip_digits(text: &[u8]) -> &[u8]
    ensures text { lower result.now ≡ spec.skip_digits (lower text.now) }
    ensures no_longer { length result.now ≤ length text.now }
{
    for (i, c) in text.iter().enumerate() {
        if !c.is_ascii_digit() {
            return &text[i..];
        }
    }
    &text[text.len()..]
}

/// What follows a `p`.
fn after_p(text: &[u8]) -> Option<&[u8]>
    ensures text { left result ≡ spec.after_p (lower text.now) }
    ensures shorter { IfSome result (λ t. length t.now < length text.now) }
{
    let (first, others) = text.split_first()?;
    if first.to_ascii_lowercase() == b'p' {
        Some(others)
    } else {
        None
    }
}

/// What follows a `p` and digits at the front.
fn after_minor(text: &[u8]) -> Option<&[u8]>
    ensures text { left result ≡ option_and_then spec.after_digits (spec.after_p (lower text.now)) }
    ensures shorter { IfSome result (λ t. length t.now < length text.now) }
{
    after_digits(after_p(text)?)
}

/// What follows the longest version at the front: digits, or digits, `p`, digits.
fn after_version(text: &[u8]) -> &[u8]
    ensures text { lower result.now ≡ spec.after_version (lower text.now) }
    ensures no_longer { length result.now ≤ length text.now }
{
    match after_digits(text) {
        None => text,
        Some(rest) => match after_minor(rest) {
            None => rest,
            Some(rest) => rest,
        },
    }
}

/// What stands before the digits at the end.
fn trim_digits(text: &[u8]) -> &[u8]
    ensures { reverse (lower result.now) ≡ spec.skip_digits (reverse (lower text.now)) }
{
    let mut front = text;
    while let Some((last, before)) = front.split_last() {
        if !last.is_ascii_digit() {
            return front;
        }
        front = before;
    }
    front
}

/// What stands before the digits at the end; `None` if there are none.
fn before_digits(text: &[u8]) -> Option<&[u8]>
    ensures { left_reversed result ≡ spec.after_digits (reverse (lower text.now)) }
{
    let (last, front) = text.split_last()?;
    if last.is_ascii_digit() {
        Some(trim_digits(front))
    } else {
        None
    }
}

/// What stands before a `p` at the end.
fn before_p(text: &[u8]) -> Option<&[u8]>
    ensures { left_reversed result ≡ spec.after_p (reverse (lower text.now)) }
{
    let (last, front) = text.split_last()?;
    if last.to_ascii_lowercase() == b'p' {
        Some(front)
    } else {
        None
    }
}

/// What stands before a `p` and digits at the end, read from the end.
fn before_minor(text: &[u8]) -> Option<&[u8]>
    ensures { left_reversed result
        ≡ option_and_then spec.after_digits (spec.after_p (reverse (lower text.now))) }
{
    before_digits(before_p(text)?)
}

/// A name less the longest version at its end.
fn without_version(name: &[u8]) -> &[u8]
    ensures { lower result.now ≡ spec.without_version (lower name.now) }
{
    match before_digits(name) {
        None => name,
        Some(front) => match before_minor(front) {
            None => front,
            Some(front) => front,
        },
    }
}

/// The extensions that one name is of.
fn named_by(name: &[u8]) -> Extensions
    ensures { result ≡ spec.all_named (lower name.now ∷ []) }
{
    let b = is_word(name, b"b");
    let zk = is_word(name, b"zk");
    let zkn = is_word(name, b"zkn");
    let zks = is_word(name, b"zks");
    let zce = is_word(name, b"zce");
    let zhinx = is_word(name, b"zhinx");
    let zhinxmin = is_word(name, b"zhinxmin");
    Extensions {
        zba: is_word(name, b"zba") | b,
        zbb: is_word(name, b"zbb") | b,
        zbs: is_word(name, b"zbs") | b,
        zbc: is_word(name, b"zbc"),
        zbkb: is_word(name, b"zbkb") | (zkn | (zk | zks)),
        zbkc: is_word(name, b"zbkc") | (zkn | (zk | zks)),
        zbkx: is_word(name, b"zbkx") | (zkn | (zk | zks)),
        zknd: is_word(name, b"zknd") | (zkn | zk),
        zkne: is_word(name, b"zkne") | (zkn | zk),
        zknh: is_word(name, b"zknh") | (zkn | zk),
        zksed: is_word(name, b"zksed") | zks,
        zksh: is_word(name, b"zksh") | zks,
        zicond: is_word(name, b"zicond"),
        zcb: is_word(name, b"zcb") | zce,
        zcmp: is_word(name, b"zcmp") | zce,
        zcmt: is_word(name, b"zcmt") | zce,
        zimop: is_word(name, b"zimop"),
        zcmop: is_word(name, b"zcmop"),
        zacas: is_word(name, b"zacas"),
        zabha: is_word(name, b"zabha"),
        zawrs: is_word(name, b"zawrs"),
        zicbom: is_word(name, b"zicbom"),
        zicboz: is_word(name, b"zicboz"),
        zicfiss: is_word(name, b"zicfiss"),
        zicfilp: is_word(name, b"zicfilp"),
        zfinx: is_word(name, b"zfinx") | (is_word(name, b"zdinx") | (zhinx | zhinxmin)),
        zhinx,
        zhinxmin,
        zfh: is_word(name, b"zfh"),
        zfhmin: is_word(name, b"zfhmin"),
        zfa: is_word(name, b"zfa"),
        zfbfmin: is_word(name, b"zfbfmin"),
        zvfh: is_word(name, b"zvfh"),
        vector: is_word(name, b"v") | begins(name, b"zve"),
        xthead: begins(name, b"xthead"),
    }
}

/// Whether a name of several letters begins with a character.
fn is_start(c: u8) -> bool
    ensures { result ≡ spec.is_start (to_ascii_lowercase c) }
{
    matches!(c, b'z' | b'Z' | b's' | b'S' | b'x' | b'X')
}

/// The extensions that the names in a part of a text are of; `None` if it has anything else in it.
fn named_from(part: &[u8]) -> Option<Extensions>
    ensures { result ≡ option_map spec.all_named
        (spec.names_from (length part.now) (lower part.now)) }
{
    let mut found = Extensions::none();
    let mut rest = part;
    while let Some((first, after)) = rest.split_first() {
        if is_start(*first) {
            return Some(found.join(named_by(without_version(rest))));
        }
        if !first.is_ascii_alphabetic() {
            return None;
        }
        found = found.join(named_by(&rest[..1]));
        rest = after_version(after);
    }
    Some(found)
}

/// The extensions that a part of a text is of.
fn named_by_part(part: &[u8]) -> Extensions
    ensures { result ≡ spec.all_named (spec.names_of_part (lower part.now)) }
{
    named_from(part).unwrap_or(Extensions::none())
}

/// The extensions that the parts of a text are of.
fn named_by_parts(text: &[u8]) -> Extensions
    ensures { result ≡ spec.all_named
        (flat_map spec.names_of_part (slice_split (λ c. c == 0x5F) (lower text.now))) }
{
    let mut found = Extensions::none();
    for part in text.split(|c| *c == b'_') {
        found = found.join(named_by_part(part));
    }
    found
}

/// Whether a text begins with a base, `i`, `e` or `g`.
fn has_base(text: &[u8]) -> bool
    ensures { result ≡ spec.has_base (lower text.now) }
{
    matches!(text.first(), Some(b'i' | b'I' | b'e' | b'E' | b'g' | b'G'))
}

/// The extensions that a text names.
/// Time: O(n) in its bytes. Memory: none.
pub(crate) fn named_in(text: &[u8]) -> Extensions
    ensures { result ≡ spec.extensions_named (spec.names text.now) }
{
    if begins(text, b"rv64") && has_base(&text[4..]) {
        named_by_parts(&text[4..]).settled()
    } else {
        Extensions::none()
    }
}
