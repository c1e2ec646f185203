//! What stays of what is kept.

ghost use Rattle.xs_names.specs.Names.{NameTable, Grown, IsSound};
ghost use Rattle.compiled_schema.specs.declared.compiled.Compiled.{Compiled as CompiledData};
ghost use Rattle.doc_nodes.specs.Nodes.{Nodes};
ghost use Rattle.kept_children.specs.from_kept_state.KeptState.{KeptState as KeptData};
ghost use Rattle.kept_children.specs.Edited.{IsRightFor};

/// What is kept beside a document stays right as names are added to the set's table, as an edit adds them before it is made: no name of
/// the document, no type and no member of a substitution group has a name that is new.
pub fn records_stay_right_as_names_are_added()
    ensures { (c : CompiledData) (new : NameTable) (ns : Nodes) (k : KeptData) → Grown c.names new → IsSound new → IsRightFor c ns k → IsRightFor (record c { names = new }) ns k }
{}
