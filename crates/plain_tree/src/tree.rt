ghost use Rattle.std.specs.Prelude.{◌≡◌, ◌<◌, ◌+◌, [], length, true, false, Ok, Some, IfOk, OnOk, OnErr, IfErr};
ghost use Rattle.std.specs.Option.{option_copied};

use crate::nodes::{attribute_in, binding_in, chars_by, find_row, kind_by, name_by, number_in};
use crate::putting::{put_attribute, put_binding, put_last, root_row};
use std::alloc::{AllocError, Global};
use std::marker::Model;
use tree_edits::{Edit, EditError, edit_rows};
use tree_rows::{Attribute, Binding, Content, Expanded, NodeKind, Row, TreeIndex};
use xs_names::Text;

/// A tree of elements and texts. Contracts see a document whose forest is one root, within the limits, with the next
/// free number.
pub struct Tree {
    rows: Vec<Row>,
    next_free: u32,
}

impl Model for Tree {
    ghost use Rattle.tree_rows.specs.Forest.{Document};
    ghost use Rattle.tree_rows.specs.Code.{document_code};

    ghost Value = { Document };

    ghost coded = { document_code };

    ghost use Rattle.plain_tree.specs.Held.{document_of, IsSound};

    ghost view = { document_of };

    ghost invariant = { IsSound };
}

impl Tree {
    ghost use Rattle.tree_rows.specs.Rows.{rows_of, siblings};
    ghost use Rattle.tree_building.specs.Shape.{AreSound};
    ghost use Rattle.tree_edits.specs.Edits.{can_be_made};
    ghost use Rattle.tree_edits.specs.Tests.{edited};
    ghost use Rattle.tree_edits.specs.Refusals.{IsWhy};
    ghost use Rattle.plain_tree.specs.Behind.{IsNode, found_by};
    ghost use Rattle.plain_tree.specs.Nodes.{node_at, name_at, chars_at, attribute_at, binding_at, child_at};
    ghost use Rattle.plain_tree.specs.Putting.{changed, with_last, with_attribute, with_binding, depth_of, attributes_of, bindings_of, has_name, has_prefix};
    ghost use Rattle.tree_edits.specs.Edits.{has};
    ghost use Rattle.tree_rows.specs.Forest.{none, text as text_node, element, count};
    ghost use Rattle.tree_rows.specs.Kinds.{kind_of};
    ghost use Rattle.tree_rows.specs.Whole.{IsNamespace, IsTree};
    ghost use Rattle.tree_edits.specs.Keeping.{GivesNew};
    ghost use Rattle.tree_rows.specs.declared.limits.TheConstants.{MAX_ATTRIBUTES, MAX_DEPTH, MAX_NODES};
    ghost use Rattle.tree_rows.specs.declared.row.NodeKind.TheVariants.{Element};

    /// The tree of rows in document order.
    pub fn from_rows(rows: Vec<Row>, next_free: u32) -> Self
        requires sound { AreSound rows.items }
        requires tree { IsTree (record { forest = siblings rows.items 1; next_free = next_free }) }
        ensures { result ≡ record { forest = siblings rows.items 1; next_free = next_free } }
    {
        Tree { rows, next_free }
    }

    /// The nodes in document order, each with its depth.
    pub fn rows(&self) -> &[Row]
        ensures { result.now ≡ rows_of 1 self.now.forest }
    {
        self.rows.as_slice()
    }

    /// Makes an edit. New nodes get the numbers from the next free one on, in document order.
    ///
    /// # Errors
    ///
    /// The refusal of the first of the edit's tests that stands, in the order of the numbers, or `EditError::Memory`, which is want of
    /// memory. The tree is then as before, and no number was used.
    pub fn apply_edit(&mut self, alloc: Global, edit: &Edit) -> Result<(), EditError>
        requires { can_be_made edit.now ≡ true }
        ensures ok { OnOk result (edited self.old edit.now ≡ Ok self.new) }
        ensures err { IfErr result (IsWhy (edited self.old edit.now)) }
        ensures kept { OnErr result (self.new ≡ self.old) }
        ensures tree { IsTree self.new }
        ensures numbers { OnOk result (GivesNew self.old self.new) }
    {
        self.next_free = edit_rows(alloc, &mut self.rows, self.next_free, edit)?;
        Ok(())
    }

    /// The tree of a root alone, which has the number 1. The next free number is above it.
    ///
    /// # Errors
    ///
    /// `AllocError` is want of memory.
    pub fn root_alone(alloc: Global, name: Expanded, next_free: u32) -> Result<Self, AllocError>
        requires above_1 { 1 < next_free }
        requires namespace { IsNamespace name.namespace }
        ensures root { IfOk result (λ tree. tree ≡ record { forest = element 1 name [] [] none none; next_free = next_free }) }
        ensures tree { IfOk result IsTree }
    {
        let mut rows = Vec::new(alloc);
        rows.push(root_row(alloc, name))?;
        Ok(Tree::from_rows(rows, next_free))
    }

    /// Puts an element of this number last among the children of an element. The number is above 0, of no node and
    /// below the next free one, and the tree stays within 131,072 nodes and a depth of 128.
    ///
    /// # Errors
    ///
    /// `AllocError` is want of memory: the tree is then as it was.
    pub fn put_element(
        &mut self,
        alloc: Global,
        parent: u32,
        node: u32,
        name: Expanded,
    ) -> Result<(), AllocError>
        requires parent { kind_of parent self.old.forest ≡ Some Element }
        requires above_0 { 0 < node }
        requires fresh { has node self.old.forest ≡ false }
        requires below_next { node < self.old.next_free }
        requires few { count self.old.forest < MAX_NODES }
        requires shallow { depth_of parent self.old.forest < MAX_DEPTH }
        requires namespace { IsNamespace name.namespace }
        ensures ok { OnOk result (self.new ≡ changed parent (with_last (element node name [] [] none none)) self.old) }
        ensures err { OnErr result (self.new ≡ self.old) }
        ensures tree { IsTree self.new }
    {
        put_last(alloc, &mut self.rows, parent, node, Content::Element(name))
    }

    /// Puts a text of this number last among the children of an element. It stays apart from a text before it. The
    /// number is above 0, of no node and below the next free one, and the tree stays within 131,072 nodes.
    ///
    /// # Errors
    ///
    /// `AllocError` is want of memory: the tree is then as it was.
    pub fn put_chars(
        &mut self,
        alloc: Global,
        parent: u32,
        node: u32,
        text: Text,
    ) -> Result<(), AllocError>
        requires parent { kind_of parent self.old.forest ≡ Some Element }
        requires above_0 { 0 < node }
        requires fresh { has node self.old.forest ≡ false }
        requires below_next { node < self.old.next_free }
        requires few { count self.old.forest < MAX_NODES }
        ensures ok { OnOk result (self.new ≡ changed parent (with_last (text_node node text none)) self.old) }
        ensures err { OnErr result (self.new ≡ self.old) }
        ensures tree { IsTree self.new }
    {
        put_last(alloc, &mut self.rows, parent, node, Content::Chars(text))
    }

    /// Puts an attribute behind those of an element, which has none of its name and fewer than 256 attributes and
    /// bindings. A namespace of the name is not empty.
    ///
    /// # Errors
    ///
    /// `AllocError` is want of memory: the tree is then as it was.
    pub fn put_attr(&mut self, node: u32, attr: Attribute) -> Result<(), AllocError>
        requires element { kind_of node self.old.forest ≡ Some Element }
        requires lacks { has_name attr.name (attributes_of node self.old.forest) ≡ false }
        requires namespace { IsNamespace attr.name.namespace }
        requires few { length (attributes_of node self.old.forest) + length (bindings_of node self.old.forest) < MAX_ATTRIBUTES }
        ensures ok { OnOk result (self.new ≡ changed node (with_attribute attr) self.old) }
        ensures err { OnErr result (self.new ≡ self.old) }
        ensures tree { IsTree self.new }
    {
        put_attribute(&mut self.rows, node, attr)
    }

    /// Puts a binding behind those of an element's start tag, which has none of its prefix and fewer than 256
    /// attributes and bindings. Names that the tree has already stay as they are.
    ///
    /// # Errors
    ///
    /// `AllocError` is want of memory: the tree is then as it was.
    pub fn put_binding(&mut self, node: u32, binding: Binding) -> Result<(), AllocError>
        requires element { kind_of node self.old.forest ≡ Some Element }
        requires lacks { has_prefix binding.prefix (bindings_of node self.old.forest) ≡ false }
        requires few { length (attributes_of node self.old.forest) + length (bindings_of node self.old.forest) < MAX_ATTRIBUTES }
        ensures ok { OnOk result (self.new ≡ changed node (with_binding binding) self.old) }
        ensures err { OnErr result (self.new ≡ self.old) }
        ensures tree { IsTree self.new }
    {
        put_binding(&mut self.rows, node, binding)
    }

    /// An index of the nodes, by which each step to a node's children or to its next siblings takes constant time. It is
    /// made in linear time.
    ///
    /// # Errors
    ///
    /// `AllocError` is want of memory.
    pub fn index(&self, alloc: Global) -> Result<TreeIndex<'_>, AllocError>
        ensures index { IfOk result (λ index. index ≡ self.now.forest) }
        ensures tree { IsTree self.now }
    {
        TreeIndex::new(alloc, self.rows.as_slice())
    }

    /// The number that the next new node gets.
    pub fn next_free(&self) -> u32
        ensures next { result ≡ self.now.next_free }
        ensures tree { IsTree self.now }
    {
        self.next_free
    }

    /// The row of a node, and the rows behind it.
    fn find(&self, node: u32) -> Option<(&Row, &[Row])>
        ensures { IsNode (found_by result) (node_at node self.now.forest) }
    {
        find_row(&self.rows, node)
    }

    /// Whether the node is an element or a text; `None` where there is no such node.
    pub fn kind(&self, node: u32) -> Option<NodeKind>
        ensures { result ≡ kind_of node self.now.forest }
    {
        match self.find(node) {
            None => None,
            Some((row, _)) => Some(kind_by(&row.content)),
        }
    }

    /// The name of an element; `None` where there is no such element.
    pub fn name(&self, node: u32) -> Option<&Expanded>
        ensures { option_copied result ≡ name_at node self.now.forest }
    {
        match self.find(node) {
            None => None,
            Some((row, _)) => name_by(&row.content),
        }
    }

    /// The characters of a text; `None` where there is no such text.
    pub fn chars(&self, node: u32) -> Option<&Text>
        ensures { option_copied result ≡ chars_at node self.now.forest }
    {
        match self.find(node) {
            None => None,
            Some((row, _)) => chars_by(&row.content),
        }
    }

    /// The attribute that has this place among those of an element, counted from 0; `None` where there is none.
    pub fn attr_at(&self, node: u32, place: u32) -> Option<&Attribute>
        ensures { option_copied result ≡ attribute_at node place self.now.forest }
    {
        match self.find(node) {
            None => None,
            Some((row, _)) => attribute_in(row.attributes.as_slice(), place),
        }
    }

    /// The binding that has this place among those of an element's start tag, counted from 0; `None` where there is
    /// none.
    pub fn binding_at(&self, node: u32, place: u32) -> Option<&Binding>
        ensures { option_copied result ≡ binding_at node place self.now.forest }
    {
        match self.find(node) {
            None => None,
            Some((row, _)) => binding_in(row.bindings.as_slice(), place),
        }
    }

    /// The number of the child that has this place among the elements and texts of an element, counted from 0; `None`
    /// where there is none.
    pub fn child_at(&self, node: u32, place: u32) -> Option<u32>
        ensures { result ≡ child_at node place self.now.forest }
    {
        match self.find(node) {
            None => None,
            Some((row, behind)) => number_in(behind, u64::from(row.depth) + 1, place),
        }
    }
}

impl Drop for Tree {
    fn drop(self) {
        let Tree { rows, next_free: _ } = self;
        drop(rows);
    }
}
