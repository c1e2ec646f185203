ghost use Rattle.std.specs.Prelude.{◌≡◌, ◌+◌, ◌≤◌, [], ◌∷◌, ◌++◌, ℕ, List, None, length, reverse, OnOk, IfOk};
ghost use Rattle.xs_names.specs.Names.{NameTable, Grown};
ghost use Rattle.schema_shape.specs.declared.forms.Shape.{Shape};
ghost use Rattle.representations.specs.Documents.{shape_table, shapes_table};
ghost use Rattle.representations.specs.Forms.{form_table};
ghost use Rattle.representations.specs.Naming.{with_space_of, naming_of, IsSpaceNumber};
ghost use Rattle.representations.specs.declared.parts.Representation.{Representation};
ghost use Rattle.representations.specs.Named as named;
ghost use Rattle.representations.specs.ElementForms as forms;
ghost use Rattle.representations.specs.Lasting.{IsLasting};
ghost use Rattle.representations.specs.Wildcards.{KnowsTarget};
ghost use Rattle.representations.specs.Methods.{defaults_of};
ghost use Rattle.set_representations.specs.Members.{all_members};
ghost use Rattle.set_representations.specs.Documents as spec;
ghost use Rattle.set_representations.specs.inside.Building.{found, IsRead};

use crate::item_places::ItemPlaces;
use crate::members::member_places;
use crate::scope_list::open_scope;
use representations::{Reading, Representation, Represented, number_space, occurs_in};
use schema_set::SetDocument;
use schema_shape::{Form, Shape};
use std::alloc::{AllocError, Global};
use xs_components::{NsIdList, Place};
use xs_lists::Listed;
use xs_names::{Names, Scope};

/// A document while its elements are read.
#[derive(Drop)]
pub(crate) struct Reader {
    pub number: u32,
    pub reading: Reading,
    /// The places of the members of the elements that are to come, the next one's last.
    pub members: Listed<Listed<u32>>,
    /// The scopes that its elements have opened.
    pub opened: ItemPlaces,
    /// The namespaces that its imports name.
    pub imports: NsIdList,
}

impl Reader {
    /// A document before its first element, where so many representations stand before its own.
    pub(crate) fn of(
        alloc: Global,
        names: &mut Names,
        document: &SetDocument<'_>,
        first: u32,
    ) -> Result<Reader, AllocError>
        ensures table { OnOk result (names.new ≡ with_space_of names.old document.now.target) }
        ensures number { IfOk result (λ reader. reader.number ≡ document.now.number) }
        ensures naming { IfOk result (λ reader. reader.reading.naming ≡ naming_of document.now.target (spec.shapes_of document.now)) }
        ensures defaults { IfOk result (λ reader. reader.reading.defaults ≡ defaults_of (spec.shapes_of document.now)) }
        ensures target { IfOk result (λ reader. KnowsTarget names.new reader.reading) }
        ensures space { IfOk result (λ reader. IsSpaceNumber names.new document.now.target reader.reading.target) }
        ensures members { IfOk result (λ reader. reader.members ≡ reverse (all_members first (spec.shapes_of document.now))) }
        ensures fits { IfOk result (λ _. first + length (spec.shapes_of document.now) ≤ u32.MAX) }
        ensures opened { IfOk result (λ reader. (item : ℕ) → found reader.opened item ≡ None) }
        ensures imports { IfOk result (λ reader. reader.imports ≡ []) }
        ensures grown { Grown names.old names.new }
    {
        let shapes = document.shaped.shapes.as_slice();
        let reading = Reading::of(names, &document.target, shapes)?;
        let members = member_places(alloc, first, shapes)?;
        Ok(Reader {
            number: document.number,
            reading,
            members,
            opened: ItemPlaces::new(alloc),
            imports: Listed::new(alloc),
        })
    }

    // What an element represents. The namespace of an import is noted.
    fn form(
        &mut self,
        alloc: Global,
        names: &mut Names,
        form: &Form,
    ) -> Result<Represented, AllocError>
        requires { KnowsTarget names.old self.old.reading }
        ensures table { OnOk result (names.new ≡ form_table self.old.reading.naming form.now names.old) }
        ensures form { IfOk result (IsLasting names.new (λ t. forms.represented t self.old.reading.naming self.old.reading.defaults form.now)) }
        ensures named { IfOk result (λ made. named.AreIn names.new (named.names_of made)) }
        ensures imports { OnOk result (IsLasting names.new (λ t. self.old.imports ++ spec.import_of t form.now) self.new.imports) }
        ensures same { self.new ≡ record self.old { imports = self.new.imports } }
        ensures grown { Grown names.old names.new }
    {
        match form {
            Form::Import { namespace, .. } => {
                self.imports.push(number_space(names, namespace)?)?;
                Ok(Represented::Nothing)
            }
            _ => Ok(self.reading.represented(alloc, names, form)?),
        }
    }

    // The places of the members of the next element.
    fn next_members(&mut self, alloc: Global) -> Listed<u32>
        ensures members { (places : List ℕ) (later : List (List ℕ)) → self.old.members ≡ later ++ places ∷ [] → (result ≡ places) × (self.new.members ≡ later) }
        ensures same { self.new ≡ record self.old { members = self.new.members } }
    {
        match self.members.pop() {
            None => Listed::new(alloc),
            Some(places) => places,
        }
    }

    /// Reads the next element of the document.
    pub(crate) fn add(
        &mut self,
        alloc: Global,
        names: &mut Names,
        shape: &Shape,
        reps: &mut Listed<Representation>,
        scopes: &mut Listed<Scope>,
    ) -> Result<(), AllocError>
        requires { KnowsTarget names.old self.old.reading }
        ensures table { OnOk result (names.new ≡ shape_table self.old.reading.naming shape.now names.old) }
        ensures read { (base : List (List (List ℕ × ℕ))) (whole : NameTable → List Representation) (imported : NameTable → List ℕ) (before left : List Shape)
            → IsRead names.old base whole imported before (shape.now ∷ left) self.old reps.old scopes.old
            → OnOk result (IsRead names.new base whole imported (shape.now ∷ before) left self.new reps.new scopes.new) }
        ensures reading { self.new.reading ≡ self.old.reading }
        ensures grown { Grown names.old names.new }
    {
        let scope = open_scope(alloc, names, shape, &mut self.opened, scopes)?;
        let form = self.form(alloc, names, &shape.form)?;
        let occurs = occurs_in(&shape.form);
        let members = self.next_members(alloc);
        reps.push(Representation {
            at: Place {
                document: self.number,
                item: shape.item,
            },
            scope,
            min: occurs.min,
            max: occurs.max,
            members,
            form,
        })?;
        Ok(())
    }

    /// Reads elements of the document.
    pub(crate) fn add_all(
        &mut self,
        alloc: Global,
        names: &mut Names,
        shapes: &[Shape],
        reps: &mut Listed<Representation>,
        scopes: &mut Listed<Scope>,
    ) -> Result<(), AllocError>
        requires { KnowsTarget names.old self.old.reading }
        ensures table { OnOk result (names.new ≡ shapes_table self.old.reading.naming shapes.now names.old) }
        ensures read { (base : List (List (List ℕ × ℕ))) (whole : NameTable → List Representation) (imported : NameTable → List ℕ)
            → IsRead names.old base whole imported [] shapes.now self.old reps.old scopes.old
            → OnOk result (IsRead names.new base whole imported (reverse shapes.now) [] self.new reps.new scopes.new) }
        ensures reading { self.new.reading ≡ self.old.reading }
        ensures grown { Grown names.old names.new }
    {
        for shape in shapes {
            self.add(alloc, names, shape, reps, scopes)?;
        }
        Ok(())
    }
}
