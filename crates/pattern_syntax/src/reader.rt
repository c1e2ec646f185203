//! A reader of patterns, one character after another.

ghost use Rattle.std.specs.Prelude.{◌≡◌, IfOk, OnOk, IsTrue, length};
ghost use Rattle.std.specs.List.{list_all};
ghost use Rattle.pattern_syntax.specs.Built.{closed};
ghost use Rattle.std.specs.Char.{is_ascii_digit};
ghost use Rattle.pattern_syntax.specs.Classed.{with_range};
ghost use Rattle.pattern_syntax.specs.Grammar.{property_item as property_item_of};
ghost use Rattle.pattern_syntax.specs.Machine as machine;
ghost use Rattle.pattern_syntax.specs.Stages.{Stepped, within_of};
ghost use Rattle.pattern_syntax.specs.Views.{classed_of};
ghost use Rattle.pattern_syntax.specs.Outcome.{answer_at, outcome_of};

use crate::building::{Building, Term};
use crate::class_syntax::ClassInHand;
use crate::digits::{bound, is_at_most};
use crate::fault::{Notes, PatternFault};
use crate::mode::{Mode, Place};
use crate::names::{
    is_normal, is_plain, is_single, is_word, set_named, several_item, single_value,
};
use crate::{CharClass, CharSet, ClassItem};
use std::alloc::{AllocError, Global};
use std::mem;

/// What has come of the characters that were read.
#[derive(Drop)]
pub(crate) struct Reader {
    alloc: Global,
    mode: Mode,
    building: Building,
    class: ClassInHand,
    /// The digits of the quantifier in hand.
    least: Vec<char>,
    most: Vec<char>,
    /// The class name in hand.
    name: Vec<u8>,
    notes: Notes,
    ghost least_digits: { IsTrue (list_all is_ascii_digit least.items) },
    ghost most_digits: { IsTrue (list_all is_ascii_digit most.items) },
}

impl Reader {
    ghost use Rattle.pattern_syntax.specs.ReaderViews.{state_of};

    pub fn new(alloc: Global) -> Result<Reader, AllocError>
        ensures { IfOk result (λ reader. state_of reader ≡ machine.start) }
    {
        Ok(Reader {
            alloc,
            mode: Mode::Piece(false),
            building: Building::new(alloc)?,
            class: ClassInHand::new(alloc),
            least: Vec::new(alloc),
            most: Vec::new(alloc),
            name: Vec::new(alloc),
            notes: Notes {
                bad_name: None,
                too_large: false,
            },
        })
    }

    /// Reads one more character, where some pattern goes on so.
    pub fn step(&mut self, c: char) -> Result<bool, AllocError>
        ensures { IfOk result (λ alive. Stepped alive (machine.step (state_of self.old) c) (state_of self.new)) }
    {
        match self.mode {
            Mode::Piece(repeatable) => self.step_piece(repeatable, c),
            Mode::Least => self.step_least(c),
            Mode::Most => self.step_most(c),
            Mode::Escape(place) => self.step_escape(place, c),
            Mode::Property(place, complement) => self.step_property(place, complement, c),
            Mode::Name(place, complement) => self.step_name(place, complement, c),
            Mode::ClassStart => self.step_class(c),
            Mode::ClassFirst => self.step_first(c),
            Mode::Part(first) => self.step_part(first, c),
            Mode::Hyphen(first) => self.step_hyphen(first, c),
            Mode::Less => self.step_less(c),
            Mode::RangeEscape(first) => self.step_range_escape(first, c),
            Mode::Closing(more) => self.step_end(more, c),
        }
    }

    /// Whether the text may end here.
    pub fn is_end(&self) -> bool
        ensures { result ≡ machine.is_end (state_of self.now) }
    {
        matches!(self.mode, Mode::Piece(_)) && !self.building.is_inside()
    }

    /// The answer for a text that ends here.
    pub fn finish(self) -> Result<Result<Term, PatternFault>, AllocError>
        ensures { IfOk result (λ outcome. outcome_of outcome ≡ answer_at (state_of self)) }
    {
        if let Some(fault) = self.notes.bad_name {
            return Ok(Err(fault));
        }
        if self.notes.too_large {
            return Ok(Err(PatternFault::TooLarge));
        }
        let term = self.building.finish()?;
        Ok(Ok(term))
    }

    /// An item has come: an atom, or a part of a class.
    fn push_item(&mut self, place: Place, item: ClassItem) -> Result<(), AllocError>
        ensures { OnOk result (state_of self.new ≡ machine.give (state_of self.old) (within_of place (classed_of self.old.class)) item) }
    {
        match place {
            Place::Branch => {
                self.building.push_class(CharClass::Item(item))?;
                self.mode = Mode::Piece(true);
                Ok(())
            }
            Place::Class => {
                self.class.push_item(item)?;
                self.mode = Mode::Part(None);
                Ok(())
            }
        }
    }

    /// A character has come, which may begin a range in a class.
    fn push_char(&mut self, place: Place, c: char) -> Result<(), AllocError>
        ensures { OnOk result (state_of self.new ≡ machine.give_one (state_of self.old) (within_of place (classed_of self.old.class)) c) }
    {
        match place {
            Place::Branch => {
                self.building
                    .push_class(CharClass::Item(ClassItem::One(c)))?;
                self.mode = Mode::Piece(true);
                Ok(())
            }
            Place::Class => {
                self.class.push_item(ClassItem::One(c))?;
                self.mode = Mode::Part(Some(c));
                Ok(())
            }
        }
    }

    #[tactic(auto, unfolding(crate::specs::Machine::step_piece))]
    fn step_piece(&mut self, repeatable: bool, c: char) -> Result<bool, AllocError>
        ensures { IfOk result (λ alive. Stepped alive (machine.step_piece (state_of self.old) repeatable c) (state_of self.new)) }
    {
        if is_normal(c) {
            self.push_char(Place::Branch, c)?;
            return Ok(true);
        }
        match c {
            '.' => {
                self.push_item(Place::Branch, ClassItem::In(CharSet::NotLineEnd))?;
                Ok(true)
            }
            '\\' => {
                self.mode = Mode::Escape(Place::Branch);
                Ok(true)
            }
            '[' => {
                self.class = ClassInHand::new(self.alloc);
                self.mode = Mode::ClassStart;
                Ok(true)
            }
            '(' => {
                self.building.open()?;
                self.mode = Mode::Piece(false);
                Ok(true)
            }
            ')' => self.close(),
            '|' => {
                self.building.bar()?;
                self.mode = Mode::Piece(false);
                Ok(true)
            }
            _ if repeatable => self.step_quantifier(c),
            _ => Ok(false),
        }
    }

    /// The end of a group.
    fn close(&mut self) -> Result<bool, AllocError>
        ensures { IfOk result (λ alive. Stepped alive (machine.step_closed (state_of self.old) (closed (state_of self.old).built)) (state_of self.new)) }
    {
        if self.building.close()? {
            self.mode = Mode::Piece(true);
            Ok(true)
        } else {
            Ok(false)
        }
    }

    #[tactic(auto, unfolding(crate::specs::Machine::step_quantifier))]
    fn step_quantifier(&mut self, c: char) -> Result<bool, AllocError>
        ensures { IfOk result (λ alive. Stepped alive (machine.step_quantifier (state_of self.old) c) (state_of self.new)) }
    {
        match c {
            '?' => {
                self.repeat(0, Some(1))?;
                Ok(true)
            }
            '*' => {
                self.repeat(0, None)?;
                Ok(true)
            }
            '+' => {
                self.repeat(1, None)?;
                Ok(true)
            }
            '{' => {
                self.least.clear();
                self.mode = Mode::Least;
                Ok(true)
            }
            _ => Ok(false),
        }
    }

    /// A quantifier has come.
    fn repeat(&mut self, least: u32, most: Option<u32>) -> Result<(), AllocError>
        ensures { OnOk result (state_of self.new ≡ machine.after_bounds (state_of self.old) least most self.old.notes) }
    {
        self.building.repeat_last(least, most)?;
        self.mode = Mode::Piece(false);
        Ok(())
    }

    #[tactic(auto, unfolding(crate::specs::Machine::step_least))]
    fn step_least(&mut self, c: char) -> Result<bool, AllocError>
        requires { self.old.mode ≡ Mode.Least }
        ensures { IfOk result (λ alive. Stepped alive (machine.step_least (state_of self.old) self.old.least.items c) (state_of self.new)) }
    {
        if c.is_ascii_digit() {
            self.least.push(c)?;
            return Ok(true);
        }
        if self.least.is_empty() {
            return Ok(false);
        }
        match c {
            ',' => {
                self.most.clear();
                self.mode = Mode::Most;
                Ok(true)
            }
            '}' => {
                let number = bound(&self.least);
                self.notes = self.notes.with_number(number);
                self.repeat(number, Some(number))?;
                Ok(true)
            }
            _ => Ok(false),
        }
    }

    #[tactic(auto, unfolding(crate::specs::Machine::step_most))]
    fn step_most(&mut self, c: char) -> Result<bool, AllocError>
        requires { self.old.mode ≡ Mode.Most }
        ensures { IfOk result (λ alive. Stepped alive (machine.step_most (state_of self.old) self.old.least.items self.old.most.items c) (state_of self.new)) }
    {
        if c.is_ascii_digit() {
            self.most.push(c)?;
            return Ok(true);
        }
        if c != '}' {
            return Ok(false);
        }
        let least = bound(&self.least);
        if self.most.is_empty() {
            self.notes = self.notes.with_number(least);
            self.repeat(least, None)?;
            return Ok(true);
        }
        if !is_at_most(&self.least, &self.most) {
            return Ok(false);
        }
        let most = bound(&self.most);
        self.notes = self.notes.with_number(least).with_number(most);
        self.repeat(least, Some(most))?;
        Ok(true)
    }

    #[tactic(auto, unfolding(crate::specs::Machine::step_escape))]
    fn step_escape(&mut self, place: Place, c: char) -> Result<bool, AllocError>
        ensures { IfOk result (λ alive. Stepped alive (machine.step_escape (state_of self.old) (within_of place (classed_of self.old.class)) c) (state_of self.new)) }
    {
        if is_single(c) {
            self.push_char(place, single_value(c))?;
            return Ok(true);
        }
        if let Some(item) = several_item(c) {
            self.push_item(place, item)?;
            return Ok(true);
        }
        match c {
            'p' => {
                self.mode = Mode::Property(place, false);
                Ok(true)
            }
            'P' => {
                self.mode = Mode::Property(place, true);
                Ok(true)
            }
            _ => Ok(false),
        }
    }

    #[tactic(auto, unfolding(crate::specs::Machine::step_property))]
    fn step_property(&mut self, place: Place, complement: bool, c: char) -> Result<bool, AllocError>
        ensures { IfOk result (λ alive. Stepped alive (machine.step_property (state_of self.old) (within_of place (classed_of self.old.class)) complement c) (state_of self.new)) }
    {
        if c != '{' {
            return Ok(false);
        }
        self.name.clear();
        self.mode = Mode::Name(place, complement);
        Ok(true)
    }

    #[tactic(auto, unfolding(crate::specs::Machine::step_name))]
    fn step_name(&mut self, place: Place, complement: bool, c: char) -> Result<bool, AllocError>
        requires { self.old.mode ≡ Mode.Name place complement }
        ensures { IfOk result (λ alive. Stepped alive (machine.step_name (state_of self.old) (within_of place (classed_of self.old.class)) complement self.old.name.items c) (state_of self.new)) }
    {
        if is_word(c) {
            self.name.push(c as u8)?;
            return Ok(true);
        }
        if c != '}' || self.name.is_empty() {
            return Ok(false);
        }
        let item = property_item(complement, &self.name);
        self.notes = self.notes.with_name(&self.name);
        self.push_item(place, item)?;
        Ok(true)
    }

    #[tactic(auto, unfolding(crate::specs::Machine::step_first))]
    fn step_first(&mut self, c: char) -> Result<bool, AllocError>
        ensures { IfOk result (λ alive. Stepped alive (machine.step_first (state_of self.old) (classed_of self.old.class) c) (state_of self.new)) }
    {
        if is_plain(c) {
            self.push_char(Place::Class, c)?;
            return Ok(true);
        }
        match c {
            '\\' => {
                self.mode = Mode::Escape(Place::Class);
                Ok(true)
            }
            '-' => {
                self.push_item(Place::Class, ClassItem::One('-'))?;
                Ok(true)
            }
            _ => Ok(false),
        }
    }

    #[tactic(auto, unfolding(crate::specs::Machine::step_class))]
    fn step_class(&mut self, c: char) -> Result<bool, AllocError>
        ensures { IfOk result (λ alive. Stepped alive (machine.step_class (state_of self.old) (classed_of self.old.class) c) (state_of self.new)) }
    {
        if c == '^' {
            self.class.negate();
            self.mode = Mode::ClassFirst;
            return Ok(true);
        }
        self.step_first(c)
    }

    #[tactic(auto, unfolding(crate::specs::Machine::step_part))]
    fn step_part(&mut self, first: Option<char>, c: char) -> Result<bool, AllocError>
        ensures { IfOk result (λ alive. Stepped alive (machine.step_part (state_of self.old) (classed_of self.old.class) first c) (state_of self.new)) }
    {
        if is_plain(c) {
            self.push_char(Place::Class, c)?;
            return Ok(true);
        }
        match c {
            '\\' => {
                self.mode = Mode::Escape(Place::Class);
                Ok(true)
            }
            '-' => {
                self.mode = Mode::Hyphen(first);
                Ok(true)
            }
            ']' => {
                let depth = self.class_depth();
                self.end_class(depth)?;
                Ok(true)
            }
            _ => Ok(false),
        }
    }

    /// How many groups of the class are done.
    fn class_depth(&self) -> usize
        ensures { result ≡ length (classed_of self.now.class).groups }
    {
        self.class.depth()
    }

    /// So many ends of the class must still come.
    fn end_class(&mut self, more: usize) -> Result<(), AllocError>
        ensures { OnOk result (state_of self.new ≡ machine.closing (state_of self.old) (classed_of self.old.class) more) }
    {
        if more == 0 {
            let class = mem::replace(&mut self.class, ClassInHand::new(self.alloc));
            self.building.push_class(class.finish()?)?;
            self.mode = Mode::Piece(true);
            Ok(())
        } else {
            self.mode = Mode::Closing(more);
            Ok(())
        }
    }

    #[tactic(auto, unfolding(crate::specs::Machine::step_hyphen))]
    fn step_hyphen(&mut self, first: Option<char>, c: char) -> Result<bool, AllocError>
        ensures { IfOk result (λ alive. Stepped alive (machine.step_hyphen (state_of self.old) (classed_of self.old.class) first c) (state_of self.new)) }
    {
        match c {
            ']' => {
                self.class.push_item(ClassItem::One('-'))?;
                let depth = self.class_depth();
                self.end_class(depth)?;
                Ok(true)
            }
            '[' => {
                self.class.subtract()?;
                self.mode = Mode::ClassStart;
                Ok(true)
            }
            '-' => {
                self.class.push_item(ClassItem::One('-'))?;
                self.mode = Mode::Less;
                Ok(true)
            }
            _ => self.step_range(first, c),
        }
    }

    /// The last end of a range, or its backslash. No escape stands for a character past `}`.
    #[tactic(auto, unfolding(crate::specs::Machine::step_range))]
    fn step_range(&mut self, first: Option<char>, c: char) -> Result<bool, AllocError>
        ensures { IfOk result (λ alive. Stepped alive (machine.step_range (state_of self.old) (classed_of self.old.class) first c) (state_of self.new)) }
    {
        let Some(first) = first else {
            return Ok(false);
        };
        if c == '\\' {
            if first > '}' {
                return Ok(false);
            }
            self.mode = Mode::RangeEscape(first);
            return Ok(true);
        }
        if first > c {
            return Ok(false);
        }
        self.end_range(first, c)?;
        Ok(true)
    }

    /// A range has come.
    fn end_range(&mut self, first: char, last: char) -> Result<(), AllocError>
        ensures { OnOk result (state_of self.new ≡ machine.in_stage (state_of self.old) (machine.at_part (with_range (classed_of self.old.class) first last) None)) }
    {
        self.class.end_range(first, last)?;
        self.mode = Mode::Part(None);
        Ok(())
    }

    #[tactic(auto, unfolding(crate::specs::Machine::step_less))]
    fn step_less(&mut self, c: char) -> Result<bool, AllocError>
        ensures { IfOk result (λ alive. Stepped alive (machine.step_less (state_of self.old) (classed_of self.old.class) c) (state_of self.new)) }
    {
        if c != '[' {
            return Ok(false);
        }
        self.class.subtract()?;
        self.mode = Mode::ClassStart;
        Ok(true)
    }

    #[tactic(auto, unfolding(crate::specs::Machine::step_range_escape))]
    fn step_range_escape(&mut self, first: char, c: char) -> Result<bool, AllocError>
        ensures { IfOk result (λ alive. Stepped alive (machine.step_range_escape (state_of self.old) (classed_of self.old.class) first c) (state_of self.new)) }
    {
        if !is_single(c) {
            return Ok(false);
        }
        let last = single_value(c);
        if first > last {
            return Ok(false);
        }
        self.end_range(first, last)?;
        Ok(true)
    }

    #[tactic(auto, unfolding(crate::specs::Machine::step_end))]
    fn step_end(&mut self, more: usize, c: char) -> Result<bool, AllocError>
        ensures { IfOk result (λ alive. Stepped alive (machine.step_end (state_of self.old) (classed_of self.old.class) more c) (state_of self.new)) }
    {
        if c != ']' {
            return Ok(false);
        }
        self.end_class(more.saturating_sub(1))?;
        Ok(true)
    }
}

/// The item of a class name.
fn property_item(complement: bool, name: &[u8]) -> ClassItem
    ensures { result ≡ property_item_of complement name.now }
{
    let set = set_named(name).unwrap_or(CharSet::NotLineEnd);
    if complement {
        ClassItem::NotIn(set)
    } else {
        ClassItem::In(set)
    }
}
