ghost use Rattle.std.specs.Prelude.{◌<◌, ℕ, Bool, List, None, length};
ghost use Rattle.xs_components.specs.Tables.{Tables};
ghost use Rattle.xs_codes.specs.Least.{IsLeast};
ghost use Rattle.derive_faults.specs.AttrFaults.{HasUses, IsAttrFault};

/// Where no complex type and no attribute group has a fault, each complex type has attribute uses and no two of one name.
pub fn faultless_types_have_uses()
    ensures uses { (t : Tables) (ids : List Bool) → IsLeast (IsAttrFault t ids) None → (n : ℕ) → n < length t.complexes.parts → HasUses t n }
{}
