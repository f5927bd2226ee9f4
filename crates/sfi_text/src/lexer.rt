//! The tokens of source: each is the longest that stands there. Lengths are in bytes.
ghost use Rattle.std.specs.Prelude.{◌≡◌, ◌≤◌, length, IsTrue};
ghost use Rattle.std.specs.List.{prefix_len};
ghost use Rattle.std.specs.Char.{is_ascii_digit, is_ascii_hexdigit};
ghost use Rattle.sfi_text.specs.Tokens.{is_space, is_mark};
ghost use Rattle.sfi_source.specs.Names.{begins_name, continues_name};
ghost use Rattle.sfi_text.specs.private.Reading.{magnitude_len, token_len, begins_hex, body_of};
ghost use Rattle.sfi_text.specs.private.Reading.{IsNext};

/// What stands at the front of a text.
#[derive(Clone, Copy)]
pub enum NextToken<'a> {
    /// A token, and what follows it.
    Token(&'a str, &'a str),
    /// No more than spaces.
    End,
    /// No token can be formed.
    Stuck,
}

/// Whether the byte is a space: a blank, a tab or a carriage return. Spaces stand between tokens.
fn is_space(byte: u8) -> bool
    ensures { result ≡ is_space byte }
{
    byte == b' ' || byte == b'\t' || byte == b'\r'
}

/// Whether the byte begins a name: a letter, `_` or `.`.
pub(crate) fn begins_name(byte: u8) -> bool
    ensures { result ≡ begins_name byte }
{
    byte.is_ascii_alphabetic() || byte == b'_' || byte == b'.'
}

/// Whether the byte continues a name: a letter, a decimal digit, `_` or `.`.
fn continues_name(byte: u8) -> bool
    ensures { result ≡ continues_name byte }
{
    begins_name(byte) || byte.is_ascii_digit()
}

/// Whether the byte is a token of its own: `,`, `:`, `(` or `)`.
fn is_mark(byte: u8) -> bool
    ensures { result ≡ is_mark byte }
{
    byte == b',' || byte == b':' || byte == b'(' || byte == b')'
}

/// How many spaces stand at the front.
fn gap_len(text: &[u8]) -> usize
    ensures { result ≡ prefix_len is_space text.now }
{
    text.iter().take_while(|b| is_space(**b)).count()
}

/// How many bytes at the front continue a name, up to the first that doesn't.
fn name_len(text: &[u8]) -> usize
    ensures value { result ≡ prefix_len continues_name text.now }
    ensures within { result ≤ length text.now }
{
    text.iter().take_while(|b| continues_name(**b)).count()
}

/// How many decimal digits stand at the front.
fn digits_len(text: &[u8]) -> usize
    ensures value { result ≡ prefix_len is_ascii_digit text.now }
    ensures within { result ≤ length text.now }
{
    text.iter().take_while(|b| b.is_ascii_digit()).count()
}

/// How many hexadecimal digits stand at the front.
fn hex_digits_len(text: &[u8]) -> usize
    ensures value { result ≡ prefix_len is_ascii_hexdigit text.now }
    ensures within { result ≤ length text.now }
{
    text.iter().take_while(|b| b.is_ascii_hexdigit()).count()
}

/// Whether `0x` and a hexadecimal digit stand at the front.
fn begins_hex(text: &[u8]) -> bool
    ensures value { result ≡ begins_hex text.now }
    ensures room { IsTrue result → 2 ≤ length text.now }
{
    match text {
        [b'0', b'x', digit, ..] => digit.is_ascii_hexdigit(),
        _ => false,
    }
}

/// The length of the longest number without a sign that stands at the front, 0 where none does.
#[tactic(auto, unfolding(crate::specs::private::Reading::magnitude_len))]
fn magnitude_len(text: &[u8]) -> usize
    ensures value { result ≡ magnitude_len text.now }
    ensures within { result ≤ length text.now }
{
    if begins_hex(text) {
        2 + hex_digits_len(&text[2..])
    } else {
        digits_len(text)
    }
}

/// The length of the longest token that stands at the front, 0 where none does.
#[tactic(auto, unfolding(crate::specs::private::Reading::token_len))]
fn token_len(text: &[u8]) -> usize
    ensures value { result ≡ token_len text.now }
    ensures within { result ≤ length text.now }
{
    match text {
        [] => 0,
        [first, rest @ ..] => {
            if begins_name(*first) {
                1 + name_len(rest)
            } else if is_mark(*first) {
                1
            } else if *first == b'-' {
                match magnitude_len(rest) {
                    0 => 0,
                    n => n + 1,
                }
            } else {
                magnitude_len(text)
            }
        }
    }
}

/// The text after its leading spaces.
#[tactic(auto, using(crate::proofs::Taking::gap_boundary), unfolding(crate::specs::private::Reading::body_of))]
pub(crate) fn body(text: &str) -> &str
    ensures { result.now ≡ body_of text.now }
{
    &text[gap_len(text.as_bytes())..]
}

/// The first token of a text.
pub(crate) fn next_token(text: &str) -> NextToken<'_>
    ensures { IsNext text.now result }
{
    let body = body(text);
    let len = token_len(body.as_bytes());
    if body.is_empty() {
        NextToken::End
    } else if len == 0 {
        NextToken::Stuck
    } else {
        let (token, rest) = body.split_at(len);
        NextToken::Token(token, rest)
    }
}
