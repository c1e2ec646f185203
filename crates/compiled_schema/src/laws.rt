//! A set stays usable when names are added.

ghost use Rattle.xs_names.specs.Names.{NameTable, Grown};
ghost use Rattle.compiled_schema.specs.declared.compiled.Compiled.{Compiled as CompiledData};
ghost use Rattle.compiled_schema.specs.Usable.{AreModels, IsUsable};

/// Where documents may be assessed by a set, they may with each table that has grown from its table of names.
pub fn usable_with_more_names()
    ensures models { (c : CompiledData) (first new : NameTable) → AreModels c first → Grown c.names new → AreModels (record c { names = new }) first }
    ensures usable { (c : CompiledData) (new : NameTable) → IsUsable c → Grown c.names new → IsUsable (record c { names = new }) }
{}
