ghost use Rattle.std.specs.Prelude.{◌≡◌, ◌+◌, [], ◌<◌, ◌^◌, true, false, Ok, IfOk, OnOk};
ghost use Rattle.tree_building.specs.Building as steps;
ghost use Rattle.tree_building.specs.Steps.{Steps, Judged, Ends, Finished, holds_chars, row_of};
ghost use Rattle.tree_building.specs.Nest.{scope_in};
ghost use Rattle.tag_names.specs.Tags.{named};
ghost use Rattle.item_listing.specs.declared.item.Item.TheVariants as items;

use crate::build::Built;
use crate::fault::Stop;
use crate::rules::{is_past, is_past_below};
use crate::{Joined, Nest, Pending, Rows, Rules, TreeFault, TreeReason};
use item_listing::Item;
use std::alloc::{AllocError, Global};
use tag_names::{AttributeLine, AttributeLines, Named, Prefixes, Tag};
use tree_rows::{Attributes, Bindings, Content, Row};
use xs_names::{Text, is_white_space};

/// What was built of the items that came so far.
#[derive(Drop)]
pub struct Building {
    pub(crate) rules: Rules,
    pub(crate) rows: Rows,
    pub(crate) nest: Nest,
    pub(crate) pending: Pending,
    /// Whether the root came.
    pub(crate) rooted: bool,
    /// The number that the next node gets.
    pub(crate) next: u32,
    /// How many items were taken.
    pub(crate) taken: u32,
}

/// The number after this one. Numbers go up to 4,294,967,295.
fn after(number: u32) -> Result<u32, AllocError>
    ensures { IfOk result (λ next. next ≡ number + 1) }
{
    match number.checked_add(1) {
        Some(next) => Ok(next),
        None => Err(AllocError),
    }
}

/// The depth below so many elements.
fn depth_below(elements: usize) -> Result<u32, AllocError>
    ensures { IfOk result (λ depth. depth ≡ elements + 1) }
{
    if elements >= u32::MAX as usize {
        return Err(AllocError);
    }
    Ok(elements as u32 + 1)
}

/// What the start tag of this item says of its element. It is refused for its names, if they are to be judged.
fn named_by(
    rules: Rules,
    nest: &mut Nest,
    alloc: Global,
    tag: &Tag,
    item: u32,
) -> Result<Named, Stop>
    ensures judged { Judged result item (steps.fault_of rules (scope_in nest.old) tag.now) }
    ensures says { IfOk result (λ says. says ≡ named (scope_in nest.old) tag.now) }
    ensures same { nest.new ≡ nest.old }
{
    if rules.names {
        return match nest.resolve(alloc, tag)? {
            Ok(named) => Ok(named),
            Err(reason) => Err(Stop::Refused(TreeFault {
                item,
                reason: TreeReason::Name(reason),
            })),
        };
    }
    Ok(nest.judge(alloc, tag)?.named)
}

impl Building {
    /// Nothing is built yet.
    pub(crate) fn new(alloc: Global, rules: Rules, scope: Prefixes) -> Self
        ensures { result ≡ steps.nothing rules scope }
    {
        Building {
            rules,
            rows: Rows::new(alloc),
            nest: Nest::new(alloc, scope),
            pending: Pending::Nothing,
            rooted: false,
            next: 1,
            taken: 0,
        }
    }

    /// Refuses the next item.
    fn refusal(&self, reason: TreeReason) -> TreeFault
        ensures { result ≡ record { item = self.now.taken; reason = reason } }
    {
        TreeFault {
            item: self.taken,
            reason,
        }
    }

    /// The node of a text.
    fn text_row(&self, alloc: Global, chars: &Joined) -> Result<Row, AllocError>
        ensures { IfOk result (λ row. row ≡ steps.text_row self.now chars.now) }
    {
        Ok(Row {
            number: self.next,
            depth: depth_below(self.nest.depth())?,
            content: Content::Chars(chars.to_text(alloc)?),
            bindings: Bindings::new(alloc),
            attributes: Attributes::new(alloc),
        })
    }

    /// Puts the node of a text behind the others.
    fn put_text(&mut self, row: Row) -> Result<(), Stop>
        ensures step { Steps self.old self.new result (Ok (steps.with_row self.old row)) }
        ensures taken { OnOk result (self.new.taken ≡ self.old.taken) }
    {
        let next = after(self.next)?;
        self.rows.push(row)?;
        self.next = next;
        self.pending = Pending::Nothing;
        Ok(())
    }

    /// Puts the node of an element of which its tag says this behind the others, and opens it under this name.
    fn put_element(&mut self, name: Text, named: Named) -> Result<(), Stop>
        ensures step { Steps self.old self.new result (Ok (steps.with_element self.old name (row_of self.old named))) }
        ensures taken { OnOk result (self.new.taken ≡ self.old.taken) }
    {
        let next = after(self.next)?;
        let depth = depth_below(self.nest.depth())?;
        self.nest.open(name, named.bindings.as_slice())?;
        let row = Row {
            number: self.next,
            depth,
            content: Content::Element(named.name),
            bindings: named.bindings,
            attributes: named.attributes,
        };
        if self.rows.push(row).is_err() {
            self.nest.close();
            return Err(Stop::Memory);
        }
        self.next = next;
        self.pending = Pending::Nothing;
        Ok(())
    }

    /// Judges the start tag whose attribute lines have all come, if there is one, and opens its element.
    fn close_tag(&mut self, alloc: Global) -> Result<(), Stop>
        ensures step { Steps self.old self.new result (steps.tag_closed self.old) }
        ensures taken { OnOk result (self.new.taken ≡ self.old.taken) }
    {
        match &self.pending {
            Pending::Nothing => Ok(()),
            Pending::Chars(_) => Ok(()),
            Pending::Start(tag, item) => {
                let named = named_by(self.rules, &mut self.nest, alloc, tag, *item)?;
                let name = tag.name.try_clone()?;
                self.put_element(name, named)
            }
        }
    }

    /// Makes a node of what came last.
    fn settle(&mut self, alloc: Global) -> Result<(), Stop>
        ensures step { Steps self.old self.new result (steps.settled self.old) }
        ensures taken { OnOk result (self.new.taken ≡ self.old.taken) }
    {
        match &self.pending {
            Pending::Nothing => Ok(()),
            Pending::Start(..) => self.close_tag(alloc),
            Pending::Chars(chars) => {
                let row = self.text_row(alloc, chars)?;
                self.put_text(row)
            }
        }
    }

    /// Begins an element, where what came before is settled.
    fn begin(&mut self, tag: Tag) -> Result<(), TreeFault>
        requires few { self.old.taken + 1 < 2 ^ 32 }
        requires plain { tag.attributes ≡ [] }
        ensures { Ends self.old self.new result (steps.started tag.name self.old) }
    {
        let depth = self.nest.depth();
        if depth == 0 && self.rooted {
            return Err(self.refusal(TreeReason::TwoRoots));
        }
        if is_past_below(self.rules.levels, depth) {
            return Err(self.refusal(TreeReason::TooDeep));
        }
        if is_past(self.rules.nodes, self.next) {
            return Err(self.refusal(TreeReason::TooManyNodes));
        }
        self.pending = Pending::Start(tag, self.taken);
        self.rooted = true;
        self.taken += 1;
        Ok(())
    }

    /// Begins a text of these characters, where no text is begun.
    fn begin_text(&mut self, text: Joined, chars: &str) -> Result<(), TreeFault>
        requires few { self.old.taken + 1 < 2 ^ 32 }
        requires same { text ≡ chars.now }
        ensures { Ends self.old self.new result (steps.text_begun chars.now self.old) }
    {
        if self.nest.depth() == 0 {
            if !is_white_space(chars) {
                return Err(self.refusal(TreeReason::TextOutside));
            }
        } else if !chars.is_empty() {
            if is_past(self.rules.nodes, self.next) {
                return Err(self.refusal(TreeReason::TooManyNodes));
            }
            self.pending = Pending::Chars(text);
        }
        self.taken += 1;
        Ok(())
    }

    /// Ends an element, where what came before is settled.
    fn end(&mut self, name: &str) -> Result<(), TreeFault>
        requires { self.old.taken + 1 < 2 ^ 32 }
        ensures { Ends self.old self.new result (steps.ended name.now self.old) }
    {
        if !self.nest.closes(name) {
            return Err(self.refusal(TreeReason::EndMismatch));
        }
        self.nest.close();
        self.taken += 1;
        Ok(())
    }

    /// The start of an element.
    fn start(&mut self, alloc: Global, name: &Text) -> Result<(), Stop>
        ensures { Steps self.old self.new result (steps.took self.old (items.Start name.now)) }
    {
        after(self.taken)?;
        let tag = Tag {
            name: name.try_clone()?,
            attributes: AttributeLines::new(alloc),
        };
        self.settle(alloc)?;
        match self.begin(tag) {
            Ok(()) => Ok(()),
            Err(fault) => Err(Stop::Refused(fault)),
        }
    }

    /// An attribute line.
    fn line(&mut self, alloc: Global, name: &Text, value: &Text) -> Result<(), Stop>
        ensures { Steps self.old self.new result (steps.took self.old (items.Attr name.now value.now)) }
    {
        let taken = after(self.taken)?;
        let refusal = self.refusal(TreeReason::NotHere);
        match &mut self.pending {
            Pending::Nothing => Err(Stop::Refused(refusal)),
            Pending::Chars(_) => Err(Stop::Refused(refusal)),
            Pending::Start(tag, _) => {
                let name = name.try_clone()?;
                let value = value.try_clone()?;
                tag.attributes.push(AttributeLine { name, value })?;
                self.taken = taken;
                Ok(())
            }
        }
    }

    /// Characters, where no text is begun.
    fn first_chars(&mut self, alloc: Global, text: &Text) -> Result<(), Stop>
        requires few { self.old.taken + 1 < 2 ^ 32 }
        requires first { holds_chars self.old.pending ≡ false }
        ensures { Steps self.old self.new result (steps.text_by text.now self.old self.old.pending) }
    {
        let joined = Joined::new(text)?;
        self.close_tag(alloc)?;
        match self.begin_text(joined, text.as_str()) {
            Ok(()) => Ok(()),
            Err(fault) => Err(Stop::Refused(fault)),
        }
    }

    /// Characters behind those of a text.
    fn more_chars(&mut self, alloc: Global, text: &Text) -> Result<(), Stop>
        requires few { self.old.taken + 1 < 2 ^ 32 }
        requires more { holds_chars self.old.pending ≡ true }
        ensures { Steps self.old self.new result (steps.text_by text.now self.old self.old.pending) }
    {
        match &mut self.pending {
            Pending::Chars(joined) => {
                joined.push_str(alloc, text.as_str())?;
                self.taken += 1;
                Ok(())
            }
            _ => unreachable!(),
        }
    }

    /// Whether a text is begun.
    fn holds_chars(&self) -> bool
        ensures { result ≡ holds_chars self.now.pending }
    {
        match &self.pending {
            Pending::Nothing => false,
            Pending::Start(..) => false,
            Pending::Chars(_) => true,
        }
    }

    /// Characters.
    fn chars(&mut self, alloc: Global, text: &Text) -> Result<(), Stop>
        ensures { Steps self.old self.new result (steps.took self.old (items.Chars text.now)) }
    {
        after(self.taken)?;
        if self.holds_chars() {
            self.more_chars(alloc, text)
        } else {
            self.first_chars(alloc, text)
        }
    }

    /// The end of an element.
    fn close(&mut self, alloc: Global, name: &Text) -> Result<(), Stop>
        ensures { Steps self.old self.new result (steps.took self.old (items.Close name.now)) }
    {
        after(self.taken)?;
        self.settle(alloc)?;
        match self.end(name.as_str()) {
            Ok(()) => Ok(()),
            Err(fault) => Err(Stop::Refused(fault)),
        }
    }

    /// A processing instruction.
    fn instruction(&mut self, alloc: Global) -> Result<(), Stop>
        ensures { Steps self.old self.new result (steps.took self.old items.Instruction) }
    {
        let count = after(self.taken)?;
        self.close_tag(alloc)?;
        self.taken = count;
        Ok(())
    }

    /// Takes the next item.
    pub(crate) fn item(&mut self, alloc: Global, item: &Item) -> Result<(), Stop>
        ensures { Steps self.old self.new result (steps.took self.old item.now) }
    {
        match item {
            Item::Start(name) => self.start(alloc, name),
            Item::Attr(name, value) => self.line(alloc, name, value),
            Item::Chars(text) => self.chars(alloc, text),
            Item::Close(name) => self.close(alloc, name),
            Item::Instruction => self.instruction(alloc),
            _ => Err(Stop::Refused(self.refusal(TreeReason::NotHere))),
        }
    }

    /// The whole tree, where what came last is settled.
    fn whole(self) -> Result<Built, TreeFault>
        ensures { result ≡ steps.finished self }
    {
        if self.nest.depth() != 0 {
            return Err(self.refusal(TreeReason::Unclosed));
        }
        if !self.rooted {
            return Err(self.refusal(TreeReason::NoRoot));
        }
        let Building { rows, next, .. } = self;
        Ok(Built { rows, next })
    }

    /// The whole tree.
    pub(crate) fn finish(mut self, alloc: Global) -> Result<Built, Stop>
        ensures { Finished result (steps.ended_all self) }
    {
        self.settle(alloc)?;
        match self.whole() {
            Ok(built) => Ok(built),
            Err(fault) => Err(Stop::Refused(fault)),
        }
    }
}
