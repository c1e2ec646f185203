//! Which records are the same. The numbers of names are those of each session's own set; sessions by one set over one document
//! number them alike.

use assess_records::{AttrRecord, ElementRecord};
use report_text::Records;
use xs_codes::Found;

fn are_same_codes(one: &[Found], other: &[Found]) -> bool {
    let mut same = one.len() == other.len();
    for (a, b) in one.iter().zip(other) {
        same = same && *a == *b;
    }
    same
}

fn is_same_element(one: &ElementRecord, other: &ElementRecord) -> bool {
    one.name == other.name
        && one.of == other.of
        && one.validity == other.validity
        && one.attempted == other.attempted
        && one.source == other.source
        && are_same_codes(one.codes.as_slice(), other.codes.as_slice())
}

fn is_same_attribute(one: &AttrRecord, other: &AttrRecord) -> bool {
    one.name == other.name
        && one.of == other.of
        && one.validity == other.validity
        && one.attempted == other.attempted
        && one.source == other.source
        && are_same_codes(one.codes.as_slice(), other.codes.as_slice())
}

/// Whether the records of an element and of its attributes are the same.
pub fn are_same_records(one: &Records<'_>, other: &Records<'_>) -> bool {
    let mut same = is_same_element(one.element, other.element)
        && one.attrs.len() == other.attrs.len();
    for (a, b) in one.attrs.iter().zip(other.attrs) {
        same = same && is_same_attribute(a.get(), b.get());
    }
    same
}
