//! Words and white space in field values.

ghost use Rattle.std.specs.Prelude.{◌≡◌, reverse};
ghost use Rattle.httparse.specs.Grammar.{skip_ows, trim_ows};
ghost use Rattle.mx_head.specs.Fields.{same_word};

use httparse::is_space_or_tab;

/// Whether the words are the same in any letter case.
pub(crate) fn same_word(word: &[u8], other: &[u8]) -> bool
    ensures { result ≡ same_word word.now other.now }
{
    word.eq_ignore_ascii_case(other)
}

fn trim_start(mut value: &[u8]) -> &[u8]
    ensures { result.now ≡ skip_ows value.now }
{
    while let [first, rest @ ..] = value
        && is_space_or_tab(*first)
    {
        value = rest;
    }
    value
}

fn trim_end(mut value: &[u8]) -> &[u8]
    ensures { result.now ≡ reverse (skip_ows (reverse value.now)) }
{
    while let [rest @ .., last] = value
        && is_space_or_tab(*last)
    {
        value = rest;
    }
    value
}

/// The value without the spaces and tabs at both ends.
pub(crate) fn trim_ows(value: &[u8]) -> &[u8]
    ensures { result.now ≡ trim_ows value.now }
{
    trim_end(trim_start(value))
}
