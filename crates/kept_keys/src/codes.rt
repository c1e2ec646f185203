//! The codes of the elements whose identity constraints can have others than before, by what is counted.

ghost use Rattle.std.specs.Prelude.{◌≡◌, ℕ, All, map, IfOk, OnOk};
ghost use Rattle.tree_rows.specs.Forest.{Document};
ghost use Rattle.what_is_found.specs.Identity.{seen};
ghost use Rattle.doc_nodes.specs.Nodes.{Lacks, Nodes};
ghost use Rattle.kept_above.specs.from_kept_records.Slots.{IsMade, kept_at};
ghost use Rattle.kept_above.specs.from_kept_records.Found.{IsOver, found_in};
ghost use Rattle.kept_keys.specs.Keys.{AreTargets, IsWhole, WereTargets, codes_at};

use assess_records::Codes;
use compiled_schema::Compiled;
use doc_tree::DocTree;
use forest_keys::{Counting, element_codes};
use kept_above::kept_state::KeptState;
use kept_targets::{TargetKeys, Turn, retarget, sight_of};
use key_records::KeyTree;
use path_walk::KeySet;
use scope_targets::{
    counted_targets_are_the_outcomes, counts_stay_as_links_change, parents_give_links,
};
use std::alloc::AllocError;

/// Codes of the identity constraints of elements, with the numbers of these.
#[derive(Drop)]
pub(crate) struct NumberedCodes {
    pub numbers: Vec<u32>,
    pub codes: Vec<Codes>,
}

// The codes of the identity constraints of an element.
fn codes_by(
    set: &Compiled,
    kept: &KeptState,
    keys: &TargetKeys,
    node: u32,
) -> Result<Codes, AllocError>
    requires made { IsMade kept.now.records.slots node }
    requires targets { (ns : Nodes) × AreTargets set.now ns kept.now.records.slots keys.now }
    ensures { IfOk result (λ codes. (ns : Nodes) (d : Document) → IsWhole set.now ns kept.now → AreTargets set.now ns kept.now.records.slots keys.now → IsOver set.now ns kept.now.records.slots d
        → codes ≡ codes_at set.now (seen (found_in ns kept.now.records.slots d.forest)) node) }
{
    counted_targets_are_the_outcomes();
    counts_stay_as_links_change();
    parents_give_links();
    let counted = &keys.counted;
    let by = Counting {
        set: KeySet {
            alloc: kept.alloc,
            names: &set.names,
            parts: &set.parts,
            contents: &set.contents,
            identities: set.identities.as_slice(),
        },
        tree: KeyTree {
            parents: counted.parents.as_slice(),
            references: &counted.references,
        },
    };
    element_codes(&by, &counted.records, node, &sight_of(kept.at(node)))
}

// Of each of these elements.
fn codes_each(
    set: &Compiled,
    kept: &KeptState,
    keys: &TargetKeys,
    numbers: &[u32],
) -> Result<Vec<Codes>, AllocError>
    requires made { All (IsMade kept.now.records.slots) numbers.now }
    requires targets { (ns : Nodes) × AreTargets set.now ns kept.now.records.slots keys.now }
    ensures { IfOk result (λ codes. (ns : Nodes) (d : Document) → IsWhole set.now ns kept.now → AreTargets set.now ns kept.now.records.slots keys.now → IsOver set.now ns kept.now.records.slots d
        → codes.items ≡ map (codes_at set.now (seen (found_in ns kept.now.records.slots d.forest))) numbers.now) }
{
    let mut codes = Vec::new(kept.alloc);
    for node in numbers {
        codes.push(codes_by(set, kept, keys, *node)?)?;
    }
    Ok(codes)
}

/// Finds anew which targets elements are, as far as it can be otherwise than before, and answers the codes of the elements whose identity
/// constraints can have others.
///
/// # Errors
///
/// `AllocError` is want of memory, or so much would be counted more than 4,294,967,295 times, or a constraint has a number of
/// 2,147,483,648 or more.
pub(crate) fn codes_of(
    doc: &DocTree,
    set: &Compiled,
    kept: &KeptState,
    keys: &mut TargetKeys,
    turn: &Turn,
) -> Result<NumberedCodes, AllocError>
    requires whole { IsWhole set.now doc.now kept.now }
    requires before { WereTargets set.now doc.now kept.now keys.old turn.now }
    ensures made { IfOk result (λ all. All (IsMade kept.now.records.slots) all.numbers.items) }
    ensures codes { IfOk result (λ all. (d : Document) → IsOver set.now doc.now kept.now.records.slots d
        → all.codes.items ≡ map (codes_at set.now (seen (found_in doc.now kept.now.records.slots d.forest))) all.numbers.items) }
    ensures rest { IfOk result (λ all. (d : Document) → IsOver set.now doc.now kept.now.records.slots d → (n : ℕ) → IsMade kept.now.records.slots n → Lacks n all.numbers.items
        → (kept_at kept.now.records.slots n).identity ≡ codes_at set.now (seen (found_in doc.now kept.now.records.slots d.forest)) n) }
    ensures targets { OnOk result (AreTargets set.now doc.now kept.now.records.slots keys.new) }
{
    let numbers = retarget(set, doc, kept, keys, turn)?;
    let codes = codes_each(set, kept, keys, numbers.as_slice())?;
    Ok(NumberedCodes { numbers, codes })
}
