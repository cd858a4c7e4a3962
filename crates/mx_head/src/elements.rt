//! The elements between the commas of a field value (RFC 9110, section 5.6.1).

ghost use Rattle.std.specs.Prelude.{◌≡◌, ◌∷◌, Some, slice_get};
ghost use Rattle.std.specs.Iterator.{YieldsFirstRef, item_count};
ghost use Rattle.mx_head.specs.Fields.{elements_of};
ghost use Rattle.mx_head.specs.Steps.{elements_behind, elements_ahead};

use crate::text::trim_ows;

/// The first element of a value, and the value after the comma that ends it. A value without a comma is one
/// element, which may be empty.
fn take_element(value: &[u8]) -> (&[u8], Option<&[u8]>)
    ensures { elements_of value.now ≡ result.0.now ∷ elements_behind result.1 }
{
    match value.iter().position(|b| *b == b',') {
        None => (trim_ows(value), None),
        Some(comma) => (trim_ows(&value[..comma]), Some(&value[comma + 1..])),
    }
}

/// The first element of a value.
pub(crate) fn first_element(value: &[u8]) -> &[u8]
    ensures { slice_get (elements_of value.now) 0 ≡ Some result.now }
{
    take_element(value).0
}

/// Gives the elements of a value, from left to right.
#[derive(Drop)]
pub(crate) struct CommaList<'v> {
    /// The rest of the value. `None` once the last element was given.
    ahead: Option<&'v [u8]>,
}

/// The elements of a value.
pub(crate) fn comma_list<'v>(value: &'v [u8]) -> CommaList<'v>
    ensures { elements_ahead result ≡ elements_of value.now }
{
    CommaList { ahead: Some(value) }
}

impl<'v> Iterator for CommaList<'v> {
    ghost remaining = { item_count elements_ahead };

    type Item = &'v [u8];

    ghost next_gives = { YieldsFirstRef elements_ahead };

    fn next(&mut self) -> Option<&'v [u8]> {
        let value = self.ahead?;
        let (element, behind) = take_element(value);
        self.ahead = behind;
        Some(element)
    }
}
