//! What counts of targets come to, and when they stay right.

ghost use Rattle.std.specs.Prelude.{◌≡◌, ◌<◌, ℕ, Bool, true, false, List, Option, Some};
ghost use Rattle.xs_names.specs.Names.{NameTable};
ghost use Rattle.xs_components.specs.Tables.{Tables};
ghost use Rattle.xpath_subset.specs.declared.paths.IdentityPaths.{IdentityPaths};
ghost use Rattle.identity_constraints.specs.Counting.{Links, IsLinked};
ghost use Rattle.identity_tables.specs.KeyTables as tables;
ghost use Rattle.key_records.specs.Tables.{AreParents, AreSettled, KeyTuple, is_in_table, own};
ghost use Rattle.identity_constraints.specs.Seen.{KeyElement, KeyForest};
ghost use Rattle.identity_constraints.specs.Targets.{outcomes};
ghost use Rattle.key_records.specs.Counted.{Counted, Feature};
ghost use Rattle.key_records.specs.Records.{AreRecords};
ghost use Rattle.key_records.specs.declared.records.KeyRecords.{KeyRecords};
ghost use Rattle.key_records.specs.declared.references.References.{References};
ghost use Rattle.scope_targets.specs.Targetings.{HasWithin};
ghost use Rattle.scope_targets.specs.Counted.{AreTargetsOf, TargetSlots, count_in, counted_all};
ghost use Rattle.scope_targets.specs.Linked.{links_by};
ghost use Rattle.scope_targets.specs.Kept.{AreKept, DifferUnseen, Reparents, parent_of};
ghost use Rattle.scope_targets.specs.declared.keys.CountedKeys.{CountedKeys as KeysData};

/// Where the elements of a forest are kept as the targets that they are, and no others, what is counted of a constraint of an element is
/// what its targets come to (Structures 3.11.4).
pub fn counted_targets_are_the_outcomes()
    ensures { (names : NameTable) (t : Tables) (identities : List IdentityPaths) (slots : TargetSlots) (f : KeyForest) → AreTargetsOf names t identities slots f
        → (own : KeyElement) (below : KeyForest) → HasWithin own below f → (k : ℕ) (x : Feature) → counted_all slots own.number k x ≡ count_in (outcomes names t identities k own below) x }
{}

/// Records stay right as elements get other parents, come or go, where these show no key-sequence. An element shows none where none is
/// counted at it and at all elements below it.
pub fn counts_stay_as_links_change()
    ensures stay { (t u : Links) (refs : References) (c : Counted) (r : KeyRecords) → IsLinked t → IsLinked u → DifferUnseen t u r.referred → AreRecords t refs c r → AreRecords u refs c r }
    ensures unseen { (t : Links) (parents : List (Option ℕ)) (all : tables.Tables) (among : ℕ → Bool) → IsLinked t → AreParents t parents → AreSettled t all
        → ((n : ℕ) → among n ≡ true → (y : KeyTuple) → own all n y ≡ 0) → ((n c : ℕ) → among n ≡ true → t.parent c ≡ Some n → among c ≡ true)
        → (n : ℕ) → among n ≡ true → (y : KeyTuple) → is_in_table all n y ≡ false }
{}

/// By a list of parents, each element has those as child elements whose parent it is.
pub fn parents_give_links()
    ensures { (parents : List (Option ℕ)) → IsLinked (links_by parents) }
{}

/// What is kept stays right as an element gets another parent of a lower number, comes or goes, where nothing is counted at it and at all
/// elements below it.
pub fn counts_stay_as_an_element_moves()
    ensures { (old new : KeysData) (n : ℕ) (parent : Option ℕ) → Reparents old new n parent → ((p : ℕ) → parent ≡ Some p → p < n) → (among : ℕ → Bool) → among n ≡ true
        → ((m c : ℕ) → among m ≡ true → parent_of old c ≡ Some m → among c ≡ true) → ((m k : ℕ) (x : Feature) → among m ≡ true → counted_all old.targets m k x ≡ 0)
        → AreKept (links_by old.parents.items) old → AreKept (links_by new.parents.items) new }
{}
