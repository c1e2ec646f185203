//! The document, and what is read of it.

ghost use Rattle.std.specs.Prelude.{◌≡◌, ◌≢◌, ◌<◌, ◌^◌, ℕ, All, length, map, filter, take, slice_get, true, Some, None, IfSome, IfOk, OnOk, OnErr};
ghost use Rattle.std.specs.Option.{option_map, option_and_then, option_copied};
ghost use Rattle.doc_tree.specs.Changes.{put_count};

use crate::above::{bind_above, element_past, elements_before, scope_upwards};
use crate::contents::{attribute_in, count_bindings, kind_in, name_in, text_in};
use crate::joining::{only_child, texts_of};
use crate::{Change, make_change, put_back_of, read_tree};
use doc_changes::{
    add_text, insert_part, nodes_of, remove_node, rename_node, set_attribute, set_text,
    unset_attribute,
};
use doc_nodes::{Content, NodeLinks};
use plain_tree::Tree;
use std::alloc::{AllocError, Global};
use std::marker::Model;
use tree_rows::NodeKind;
use xs_names::{NameId, Names, Scope, Text};

/// A document that is edited in place. Contracts see the node of each number that was given out; these stand for one
/// tree under a table of names.
pub struct DocTree {
    links: NodeLinks,
    /// How many nodes there are.
    count: u32,
    alloc: Global,
}

impl Model for DocTree {
    ghost use Rattle.std.specs.Prelude.{◌≡◌};
    ghost use Rattle.doc_nodes.specs.Nodes.{Nodes};
    ghost use Rattle.doc_tree.specs.Counted.{live_count};

    ghost Value = { Nodes };

    ghost view = { λ d. d.links };

    ghost invariant = { λ d. d.count ≡ live_count d.links };
}

/// How many nodes a change puts back.
fn count_put_back(change: &Change) -> usize
    ensures { result ≡ put_count change.now }
{
    match change {
        Change::PutBack { part, .. } => part.len(),
        Change::Take { .. } | Change::Name { .. } | Change::Attr { .. } | Change::Chars { .. } => 0,
    }
}

impl DocTree {
    ghost use Rattle.doc_nodes.specs.Nodes.{Node, IsSound, depth_by, is_element_at, element_children};
    ghost use Rattle.doc_nodes.specs.Nodes as nodes;
    ghost use Rattle.plain_tree.specs.Nodes.{name_at, chars_at};
    ghost use Rattle.plain_tree.specs.Nodes as plain;
    ghost use Rattle.plain_tree.specs.Putting.{bindings_of as plain_bindings};
    ghost use Rattle.tag_names.specs.Scopes.{binding_in, first_scope};
    ghost use Rattle.tree_edits.specs.Edits.{scope_in, found};
    ghost use Rattle.tree_rows.specs.Forest.{Forest, none, text as text_node, Document, count};
    ghost use Rattle.doc_changes.specs.Fits.{Fits};
    ghost use Rattle.doc_changes.specs.Planted.{Plants};
    ghost use Rattle.xs_names.specs.Names.{Grown};
    ghost use Rattle.xs_names.specs.Names.{IsSound as AreNames};
    ghost use Rattle.plain_tree.specs.Found.{HasNames};
    ghost use Rattle.tree_rows.specs.Kinds.{kind_of};
    ghost use Rattle.xs_names.specs.Names.{NameTable};
    ghost use Rattle.doc_changes.specs.Held as held;
    ghost use Rattle.doc_changes.specs.Held.{parent_at, kind_at, attributes_at, bindings_at, has_number, set_number, unset_number, HasRoom};
    ghost use Rattle.tree_edits.specs.Edits.{renamed, attribute_set, attribute_unset};
    ghost use Rattle.doc_changes.specs.Parts.{IsOver, Prunes};
    ghost use Rattle.tree_edits.specs.Tests.{made, with_nodes, depth_of};
    ghost use Rattle.tree_edits.specs.declared.edit.Edit.TheVariants as edits;
    ghost use Rattle.tree_rows.specs.declared.row.NodeKind.TheVariants as kinds;
    ghost use Rattle.doc_nodes.specs.declared.content.Content.TheVariants as contents;
    ghost use Rattle.doc_nodes.specs.declared.content.Element.{Element};
    ghost use Rattle.doc_nodes.specs.Nodes.{IsNode, IsChildAt, Holds};
    ghost use Rattle.doc_tree.specs.Readers.{parent_of, children_of};
    ghost use Rattle.doc_changes.specs.Stands.{StandsFor, expanded_of};
    ghost use Rattle.doc_changes.specs.Readers.{own_chars, scope_at as bound_at};
    ghost use Rattle.doc_tree.specs.Counted.{live_count};
    ghost use Rattle.doc_tree.specs.Following.{next_of};
    ghost use Rattle.tree_edits.specs.Inverses as law;
    ghost use Rattle.doc_tree.specs.Changes.{Means};
    ghost use Rattle.doc_tree.specs.Changes as numbered;

    /// A document of the nodes of a plain tree, which keep their numbers. Names that `names` lacks are added to it;
    /// where it has them all, it stays as it is.
    ///
    /// # Errors
    ///
    /// `AllocError` is want of memory.
    pub fn from_plain(alloc: Global, names: &mut Names, tree: &Tree) -> Result<DocTree, AllocError>
        ensures stands { IfOk result (λ doc. StandsFor names.new doc tree.now) }
        ensures grown { Grown names.old names.new }
        ensures known { AreNames names.old → HasNames names.old tree.now.forest → names.new ≡ names.old }
    {
        let links = nodes_of(alloc, names, tree)?;
        let count = tree.rows().len() as u32;
        Ok(DocTree {
            links,
            count,
            alloc,
        })
    }

    /// What a node is; `None` exactly where the number is of no node.
    pub fn live(&self, node: u32) -> Option<NodeKind>
        ensures kind { result ≡ kind_at self.now node }
        ensures tree { (t : NameTable) (d : Document) → StandsFor t self.now d → result ≡ kind_of node d.forest }
        ensures sound { IsSound self.now }
    {
        match self.links.content(node) {
            None => None,
            Some(content) => Some(kind_in(content)),
        }
    }

    /// The parent of a node; `None` exactly for the root, and where the number is of no node.
    pub fn parent(&self, node: u32) -> Option<u32>
        ensures parent { result ≡ parent_at self.now node }
        ensures tree { (t : NameTable) (d : Document) → StandsFor t self.now d → result ≡ parent_of node d.forest }
        ensures sound { IsSound self.now }
    {
        self.links.parent(node)
    }

    /// How many children a node has, elements and texts; 0 where the number is of no node.
    pub fn child_count(&self, node: u32) -> u32
        ensures count { result ≡ length (nodes.children_by (nodes.node self.now node)) }
        ensures tree { (t : NameTable) (d : Document) → StandsFor t self.now d → result ≡ length (children_of node d.forest) }
        ensures sound { IsSound self.now }
    {
        self.links.child_count(node)
    }

    /// The child that has this place among the elements and texts of a node, counted from 0; `None` exactly where the number
    /// is of no node, or the node has no such place. It takes steps logarithmic in the number of children.
    pub fn child_at(&self, node: u32, place: u32) -> Option<u32>
        ensures child { result ≡ slice_get (nodes.children_by (nodes.node self.now node)) place }
        ensures parent { IfSome result (λ child. parent_at self.now child ≡ Some node) }
        ensures tree { (t : NameTable) (d : Document) → StandsFor t self.now d → result ≡ plain.child_at node place d.forest }
        ensures sound { IsSound self.now }
    {
        self.links.child_at(node, place)
    }

    /// What a node holds beside its children; `None` exactly where the number is of no node.
    pub fn content(&self, node: u32) -> Option<&Content>
        ensures content { option_copied result ≡ option_map (λ (it : Node). it.content) (nodes.node self.now node) }
        ensures sound { IsSound self.now }
    {
        self.links.content(node)
    }

    /// How deep a node stands, the root having depth 1; 0 where the number is of no node.
    pub fn depth(&self, node: u32) -> u32
        ensures depth { result ≡ depth_by (nodes.node self.now node) }
        ensures tree { (t : NameTable) (d : Document) → StandsFor t self.now d → result ≡ depth_of (found node 1 d.forest) }
        ensures sound { IsSound self.now }
    {
        self.links.depth(node)
    }

    /// The children of a node, elements and texts, in order; none where the number is of no node. It takes work in proportion to
    /// their number.
    ///
    /// # Errors
    ///
    /// `AllocError` is want of memory.
    pub fn children(&self, node: u32) -> Result<Vec<u32>, AllocError>
        ensures children { IfOk result (λ children. children.items ≡ nodes.children_by (nodes.node self.now node)) }
        ensures sound { IsSound self.now }
    {
        self.links.children(self.alloc, node)
    }

    /// The child element that has this place among the child elements of a node, counted from 0; `None` exactly where the number
    /// is of no node, or the node has no such place. It takes steps logarithmic in the number of children.
    pub fn element_at(&self, node: u32, place: u32) -> Option<u32>
        ensures element { result ≡ slice_get (element_children self.now node) place }
        ensures sound { IsSound self.now }
    {
        self.links.element_at(node, place)
    }

    /// How many of the children of a node before a place are elements. It takes steps logarithmic in the number of children.
    pub fn elements_upto(&self, node: u32, place: u32) -> u32
        ensures count { result ≡ length (filter (is_element_at self.now) (take place (nodes.children_by (nodes.node self.now node)))) }
        ensures sound { IsSound self.now }
    {
        self.links.elements_upto(node, place)
    }

    /// How many elements come before a node among the children of its parent: of an element, its place among the child elements,
    /// counted from 0. `None` exactly for the root, and where the number is of no node. It takes steps logarithmic in the number
    /// of children.
    pub fn element_place(&self, node: u32) -> Option<u32>
        ensures before { (p place : ℕ) → IsChildAt self.now p place node → result ≡ Some (length (filter (is_element_at self.now) (take place (nodes.children_by (nodes.node self.now p))))) }
        ensures element { (p : ℕ) → parent_at self.now node ≡ Some p → is_element_at self.now node ≡ true → option_and_then (slice_get (element_children self.now p)) result ≡ Some node }
        ensures none { parent_at self.now node ≡ None → result ≡ None }
        ensures sound { IsSound self.now }
    {
        elements_before(&self.links, node)
    }

    /// The element that comes next in document order, the node being an element or a text; `None` exactly where no element
    /// comes after it, or the number is of no node. At each level it takes steps logarithmic in the number of children.
    pub fn next_element(&self, node: u32) -> Option<u32>
        ensures tree { (t : NameTable) (d : Document) → StandsFor t self.now d → result ≡ next_of node d.forest }
        ensures sound { IsSound self.now }
    {
        let below = self.links.element_from(node, 0);
        if below.is_some() {
            return below;
        }
        element_past(&self.links, node)
    }

    /// How many nodes there are, elements and texts.
    pub fn node_count(&self) -> u32
        ensures count { result ≡ live_count self.now }
        ensures tree { (t : NameTable) (d : Document) → StandsFor t self.now d → result ≡ count d.forest }
    {
        self.count
    }

    /// The number that the next new node gets.
    pub fn next_free(&self) -> u32
        ensures next { result ≡ length self.now }
        ensures tree { (t : NameTable) (d : Document) → StandsFor t self.now d → result ≡ d.next_free }
        ensures sound { IsSound self.now }
    {
        self.links.next_free()
    }

    /// The name of an element; `None` exactly where the number is of no element.
    pub fn name(&self, node: u32) -> Option<NameId>
        ensures name { result ≡ option_and_then (λ (it : Node). held.name_in it.content) (nodes.node self.now node) }
        ensures tree { (t : NameTable) (d : Document) → StandsFor t self.now d → option_map (expanded_of t) result ≡ name_at node d.forest }
        ensures sound { IsSound self.now }
    {
        match self.links.content(node) {
            None => None,
            Some(content) => name_in(content),
        }
    }

    /// The name and the value of the attribute that has this place among those of an element, counted from 0; `None` exactly
    /// where the number is of no element, or the element has no such place.
    pub fn attr_at(&self, node: u32, place: u32) -> Option<(NameId, &Text)>
        ensures attribute { option_map (λ a. record { name = a.0; value = a.1.now }) result ≡ slice_get (attributes_at self.now node) place }
        ensures tree { (t : NameTable) (d : Document) → StandsFor t self.now d → option_map (λ a. record { name = expanded_of t a.0; value = a.1.now }) result ≡ plain.attribute_at node place d.forest }
        ensures sound { IsSound self.now }
    {
        match self.links.content(node) {
            None => None,
            Some(content) => match attribute_in(content, place) {
                None => None,
                Some(attribute) => Some((attribute.name, &attribute.value)),
            },
        }
    }

    /// How many prefixes the start tag of an element binds; 0 where the number is of no element.
    pub fn binding_count(&self, node: u32) -> u32
        ensures count { length (bindings_at self.now node) < 2 ^ 32 → result ≡ length (bindings_at self.now node) }
        ensures tree { (t : NameTable) (d : Document) → StandsFor t self.now d → result ≡ length (plain_bindings node d.forest) }
        ensures sound { IsSound self.now }
    {
        match self.links.content(node) {
            None => 0,
            Some(content) => count_bindings(content),
        }
    }

    /// The characters of a text; `None` exactly where the number is of no text.
    pub fn chars(&self, node: u32) -> Option<&Text>
        ensures chars { option_copied result ≡ option_and_then (λ (it : Node). held.chars_in it.content) (nodes.node self.now node) }
        ensures tree { (t : NameTable) (d : Document) → StandsFor t self.now d → option_copied result ≡ chars_at node d.forest }
        ensures sound { IsSound self.now }
    {
        match self.links.content(node) {
            None => None,
            Some(content) => text_in(content),
        }
    }

    /// The prefixes in scope inside an element (Namespaces in XML 1.0, 6.1), the innermost the latest, and of those that it binds
    /// itself the first.
    ///
    /// # Errors
    ///
    /// `AllocError` is want of memory.
    pub fn scope_of(&self, names: &Names, node: u32) -> Result<Scope, AllocError>
        requires { kind_at self.now node ≡ Some kinds.Element }
        ensures tree { IfOk result (λ scope. (d : Document) → StandsFor names.now self.now d → map (binding_in names.now) scope ≡ scope_in node first_scope d.forest) }
        ensures within { IfOk result (λ scope. (d : Document) → StandsFor names.now self.now d → All (λ b. b.1 < length names.now.spaces) scope) }
    {
        let mut scope = Scope::new(self.alloc)?;
        bind_above(&self.links, node, &mut scope)?;
        Ok(scope)
    }

    /// The characters of the texts among the children of a node, one after another; none where the number is of no element. Those of
    /// a text that is the only child are shared. It takes work in proportion to the children.
    ///
    /// # Errors
    ///
    /// `AllocError` is want of memory.
    pub fn text_of(&self, node: u32) -> Result<Text, AllocError>
        ensures chars { IfOk result (λ text. text ≡ own_chars self.now node) }
    {
        if let Some(child) = only_child(&self.links, node) {
            return texts_of(self.alloc, &self.links, &[child]);
        }
        let children = self.links.children(self.alloc, node)?;
        texts_of(self.alloc, &self.links, children.as_slice())
    }

    /// The prefixes in scope inside an element (Namespaces in XML 1.0, 6.1), the innermost the latest, and of those that it binds
    /// itself the last.
    ///
    /// # Errors
    ///
    /// `AllocError` is want of memory.
    pub fn scope_at(&self, node: u32) -> Result<Scope, AllocError>
        ensures number { IfOk result (λ scope. scope ≡ bound_at self.now node) }
    {
        scope_upwards(self.alloc, &self.links, node)
    }

    /// The plain tree of the document. Each node keeps its number.
    ///
    /// # Errors
    ///
    /// `AllocError` is want of memory.
    pub fn to_plain(&self, names: &Names) -> Result<Tree, AllocError>
        requires { (d : Document) × StandsFor names.now self.now d }
        ensures tree { IfOk result (λ tree. (d : Document) → StandsFor names.now self.now d → tree ≡ d) }
    {
        read_tree(self.alloc, &self.links, names)
    }

    /// Puts the nodes of a plain tree below an element, before the child of this place, and answers the number of its root.
    /// They get the numbers from the next free one on, in document order. Names that `names` lacks are added to it;
    /// where it has them all, it stays as it is.
    ///
    /// # Errors
    ///
    /// `AllocError` is want of memory. The document is then as it was.
    pub fn insert(
        &mut self,
        names: &mut Names,
        parent: u32,
        index: u32,
        part: &Tree,
    ) -> Result<u32, AllocError>
        requires fits { (d : Document) × StandsFor names.old self.old d × Fits d parent index part.now.forest }
        ensures tree { OnOk result ((d : Document) → StandsFor names.old self.old d → StandsFor names.new self.new (with_nodes d parent index part.now.forest)) }
        ensures number { IfOk result (λ n. n ≡ length self.old) }
        ensures change { OnOk result (Plants names.new self.old self.new parent index part.now.forest) }
        ensures err { OnErr result (self.new ≡ self.old) }
        ensures grown { Grown names.old names.new }
        ensures known { HasNames names.old part.now.forest → names.new ≡ names.old }
        ensures names { AreNames names.new }
        ensures sound { IsSound self.new }
    {
        let number = insert_part(self.alloc, &mut self.links, names, parent, index, part)?;
        self.count += part.rows().len() as u32;
        Ok(number)
    }

    /// Puts a text, which may be empty, below an element, before the child of this place, and answers its number, the next
    /// free one. It stays apart from the texts beside it.
    ///
    /// # Errors
    ///
    /// `AllocError` is want of memory. All is then as it was.
    pub fn add_text(&mut self, parent: u32, index: u32, text: Text) -> Result<u32, AllocError>
        requires fits { (t : NameTable) × (d : Document) × StandsFor t self.old d × Fits d parent index (text_node 0 text none) }
        ensures tree { OnOk result ((t : NameTable) (d : Document) → StandsFor t self.old d → StandsFor t self.new (made d (edits.AddText parent index text))) }
        ensures number { IfOk result (λ n. n ≡ length self.old) }
        ensures change { OnOk result ((t : NameTable) → Plants t self.old self.new parent index (text_node 0 text none)) }
        ensures err { OnErr result (self.new ≡ self.old) }
        ensures sound { IsSound self.new }
    {
        let number = add_text(&mut self.links, parent, index, text)?;
        self.count += 1;
        Ok(number)
    }

    /// Takes away a node that is not the root, with all that is below it. It takes no memory.
    pub fn remove(&mut self, node: u32)
        requires stands { (t : NameTable) × (d : Document) × StandsFor t self.old d }
        requires node { parent_at self.old node ≢ None }
        ensures tree { (t : NameTable) (d : Document) → StandsFor t self.old d → StandsFor t self.new (made d (edits.Remove node)) }
        ensures change { (t : NameTable) (below : Forest) → IsOver t self.old node below → (p place : ℕ) → IsChildAt self.old p place node → Prunes self.old self.new p place node below }
        ensures sound { IsSound self.new }
    {
        let gone = remove_node(&mut self.links, node);
        self.count -= gone;
    }

    /// Gives an element another name. It takes no memory.
    pub fn rename(&mut self, node: u32, name: NameId)
        requires { kind_at self.old node ≡ Some kinds.Element }
        ensures tree { (t : NameTable) (d : Document) → StandsFor t self.old d → name < length t.names → StandsFor t self.new (renamed node (expanded_of t name) d) }
        ensures change { (it : Node) (e : Element) → IsNode self.old node it → it.content ≡ contents.Element e → Holds self.old self.new node (contents.Element (record e { name = name })) }
        ensures sound { IsSound self.new }
    {
        rename_node(self.alloc, &mut self.links, node, name);
    }

    /// Gives an attribute of an element this value. It keeps its place; where there is none of the name, it is put behind the
    /// others.
    ///
    /// # Errors
    ///
    /// `AllocError` is want of memory. All is then as it was.
    pub fn set_attr(&mut self, node: u32, name: NameId, value: Text) -> Result<(), AllocError>
        requires element { kind_at self.old node ≡ Some kinds.Element }
        requires room { HasRoom self.old node name }
        ensures tree { OnOk result ((t : NameTable) (d : Document) → StandsFor t self.old d → name < length t.names → StandsFor t self.new (attribute_set node (expanded_of t name) value d)) }
        ensures change { OnOk result ((it : Node) (e : Element) → IsNode self.old node it → it.content ≡ contents.Element e → Holds self.old self.new node (contents.Element (record e { attributes = set_number name value e.attributes }))) }
        ensures err { OnErr result (self.new ≡ self.old) }
        ensures sound { IsSound self.new }
    {
        set_attribute(self.alloc, &mut self.links, node, name, value)
    }

    /// Takes an attribute of an element away. It takes no memory.
    pub fn unset_attr(&mut self, node: u32, name: NameId)
        requires { has_number name (attributes_at self.old node) ≡ true }
        ensures tree { (t : NameTable) (d : Document) → StandsFor t self.old d → StandsFor t self.new (attribute_unset node (expanded_of t name) d) }
        ensures change { (it : Node) (e : Element) → IsNode self.old node it → it.content ≡ contents.Element e → Holds self.old self.new node (contents.Element (record e { attributes = unset_number name e.attributes })) }
        ensures sound { IsSound self.new }
    {
        unset_attribute(self.alloc, &mut self.links, node, name);
    }

    /// Gives a text other characters. It takes no memory.
    pub fn set_text(&mut self, node: u32, text: Text)
        requires { kind_at self.old node ≡ Some kinds.Chars }
        ensures tree { (t : NameTable) (d : Document) → StandsFor t self.old d → StandsFor t self.new (made d (edits.SetText node text)) }
        ensures change { Holds self.old self.new node (contents.Chars text) }
        ensures sound { IsSound self.new }
    {
        set_text(&mut self.links, node, text);
    }

    /// The change that puts a node back with all that is below it, once it was taken out. It takes work in proportion to the nodes.
    ///
    /// # Errors
    ///
    /// `AllocError` is want of memory.
    pub fn put_back_of(&self, node: u32) -> Result<Change, AllocError>
        requires { (t : NameTable) × (d : Document) × StandsFor t self.now d × law.Fits d (law.take_out node) }
        ensures { IfOk result (λ back. (t : NameTable) (d : Document) → StandsFor t self.now d → law.Fits d (law.take_out node) → Means t back (law.inverse_of d (law.take_out node))) }
    {
        put_back_of(self.alloc, &self.links, node)
    }

    /// Makes a change, and answers the change that undoes it. A node that is put back has its number again, and the next free number
    /// stays as it is.
    ///
    /// # Errors
    ///
    /// `AllocError` is want of memory. All is then as it was.
    pub fn change(&mut self, change: Change) -> Result<Change, AllocError>
        requires can { (t : NameTable) × (d : Document) × (c : law.Change) × StandsFor t self.old d × Means t change c × law.Fits d c }
        ensures tree { OnOk result ((t : NameTable) (d : Document) (c : law.Change) → StandsFor t self.old d → Means t change c → law.Fits d c → StandsFor t self.new (law.changed d c)) }
        ensures inverse { IfOk result (λ back. (t : NameTable) (d : Document) (c : law.Change) → StandsFor t self.old d → Means t change c → law.Fits d c → Means t back (law.inverse_of d c)) }
        ensures nodes { OnOk result ((t : NameTable) (d : Document) (c : law.Change) → StandsFor t self.old d → Means t change c → law.Fits d c → numbered.IsMade t self.old self.new change c) }
        ensures err { OnErr result (self.new ≡ self.old) }
        ensures sound { IsSound self.new }
    {
        let put = count_put_back(&change);
        let back = make_change(self.alloc, &mut self.links, change)?;
        let taken = count_put_back(&back);
        self.count = (self.count as usize + put - taken) as u32;
        Ok(back)
    }
}

impl Drop for DocTree {
    fn drop(self) {
        let DocTree {
            links,
            count: _,
            alloc: _,
        } = self;
        drop(links);
    }
}
