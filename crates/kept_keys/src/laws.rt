//! What stays of what is counted and said.

ghost use Rattle.xs_names.specs.Names.{Grown, NameTable};
ghost use Rattle.tree_rows.specs.Forest.{Document};
ghost use Rattle.compiled_schema.specs.declared.compiled.Compiled.{Compiled as CompiledData};
ghost use Rattle.doc_nodes.specs.Nodes.{Nodes};
ghost use Rattle.kept_above.specs.from_kept_records.Found.{IsOver, SaysFound};
ghost use Rattle.kept_above.specs.from_kept_state.KeptState.{KeptState as KeptData};
ghost use Rattle.kept_keys.specs.Keys.{AreTargets, IsWhole};
ghost use Rattle.kept_keys.specs.from_kept_targets.TargetKeys.{TargetKeys as TargetKeysData};

use scope_targets::targetings_stay_as_names_are_added;

/// The codes that are kept stay those that are to be said, and what is counted of targets stays right, as names are added to the set's
/// table, as an edit adds them before it is made: no element of the document has a name that is new.
pub fn keys_stay_right_as_names_are_added()
    ensures says { (c : CompiledData) (names : NameTable) (ns : Nodes) (k : KeptData) (d : Document) → Grown c.names names → IsWhole c ns k → IsOver c ns k.records.slots d
        → SaysFound c ns k.records.slots k.root_ids d → SaysFound (record c { names = names }) ns k.records.slots k.root_ids d }
    ensures targets { (c : CompiledData) (names : NameTable) (ns : Nodes) (k : KeptData) (keys : TargetKeysData) → Grown c.names names → IsWhole c ns k
        → AreTargets c ns k.records.slots keys → AreTargets (record c { names = names }) ns k.records.slots keys }
{
    targetings_stay_as_names_are_added();
}
