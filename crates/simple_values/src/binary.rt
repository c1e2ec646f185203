//! The literals of `hexBinary` and `base64Binary`.
ghost use Rattle.std.specs.Prelude.{◌≡◌, ◌≢◌, ℕ, List, IfOk, MatchOption};
ghost use Rattle.std.specs.Vec.{vec_items};
ghost use Rattle.simple_values.specs.Binary as spec;

use crate::Octets;
use base64::DecodeAllocError;
use base64::engine::general_purpose::STANDARD;
use hex::FromHexError;
use std::alloc::{AllocError, Global};

/// The octets that pairs of hexadecimal digits write, in either case (Datatypes 3.2.15); `None` where the text is anything
/// else.
#[tactic(auto, using(crate::proofs::HexPairs::decoded_some))]
pub fn read_hex(alloc: Global, text: &str) -> Result<Option<Octets>, AllocError>
    ensures { IfOk result (λ found. found ≡ spec.hex_octets text.now) }
{
    match hex::decode(alloc, text) {
        Ok(octets) => Ok(Some(Octets::from_vec(octets)?)),
        Err(FromHexError::OutOfMemory) => Err(AllocError),
        Err(FromHexError::InvalidHexCharacter { .. }) => Ok(None),
        Err(FromHexError::OddLength) => Ok(None),
        Err(FromHexError::InvalidStringLength) => Ok(None),
    }
}

/// The octets that the text is the Base64 encoding of, with padding and with zero bits left over, where its spaces do not
/// count (Datatypes 3.2.16, RFC 4648 section 4); `None` where it is of none.
pub fn read_base64(alloc: Global, text: &str) -> Result<Option<Octets>, AllocError>
    ensures value { IfOk result (λ found. found ≡ spec.base64_octets text.now) }
    ensures encoded { IfOk result (λ found. MatchOption found
        ((octets : List ℕ) → ¬ (spec.IsBase64 text.now octets))
        (spec.IsBase64 text.now)) }
{
    let compact = without_spaces(alloc, text)?;
    match STANDARD.decode(alloc, compact.as_slice()) {
        Ok(octets) => Ok(Some(Octets::from_vec(octets)?)),
        Err(DecodeAllocError::OutOfMemory) => Err(AllocError),
        Err(DecodeAllocError::DecodeError(_)) => Ok(None),
    }
}

// The bytes of the text but for its spaces.
fn without_spaces(alloc: Global, text: &str) -> Result<Vec<u8>, AllocError>
    ensures { IfOk result (λ v. v.items ≡ spec.without_spaces text.now) }
{
    text.bytes().filter(|b| *b != b' ').collect(alloc)
}
