ghost use Rattle.std.specs.Prelude.{◌≡◌, Ok, IfOk, OnOk, OnErr};
ghost use Rattle.tree_building.specs.Building as steps;

use crate::fault::Stop;
use crate::{Building, Built, Rules, TreeFault};
use item_listing::Item;
use std::alloc::{AllocError, Global};
use std::marker::Model;
use tag_names::Prefixes;

/// Makes a tree of items, one by one. Contracts see what was built, or the fault of the item that was refused first.
#[derive(Drop)]
pub struct Builder {
    alloc: Global,
    building: Building,
    fault: Option<TreeFault>,
}

impl Model for Builder {
    ghost use Rattle.std.specs.Prelude.{Result};
    ghost use Rattle.tree_building.specs.declared.building.Building.{Building};
    ghost use Rattle.tree_building.specs.declared.fault.TreeFault.{TreeFault};

    ghost Value = { Result Building TreeFault };

    ghost use Rattle.tree_building.specs.Builder.{state_of};

    ghost view = { λ b. state_of b.building b.fault };
}

impl Builder {
    ghost use Rattle.tree_building.specs.Builder.{answer_of, end_of};

    /// A builder that has taken nothing, in this scope.
    pub fn new(alloc: Global, rules: Rules, scope: Prefixes) -> Self
        ensures { result ≡ Ok (steps.nothing rules scope) }
    {
        Builder {
            alloc,
            building: Building::new(alloc, rules, scope),
            fault: None,
        }
    }

    /// Takes the next item. Once an item was refused, each call answers its fault.
    ///
    /// # Errors
    ///
    /// `AllocError` is want of memory: the builder is then as it was. A `TreeFault` is the items'.
    pub fn item(&mut self, item: &Item) -> Result<Result<(), TreeFault>, AllocError>
        ensures after { OnOk result (self.new ≡ steps.after self.old item.now) }
        ensures answer { IfOk result (λ answer. answer ≡ answer_of self.new) }
        ensures err { OnErr result (self.new ≡ self.old) }
    {
        if let Some(fault) = self.fault {
            return Ok(Err(fault));
        }
        match self.building.item(self.alloc, item) {
            Ok(()) => Ok(Ok(())),
            Err(Stop::Memory) => Err(AllocError),
            Err(Stop::Refused(fault)) => {
                self.fault = Some(fault);
                Ok(Err(fault))
            }
        }
    }

    /// The whole tree at the end of the items.
    ///
    /// # Errors
    ///
    /// `AllocError` is want of memory; a `TreeFault` is the items'.
    pub fn finish(self) -> Result<Result<Built, TreeFault>, AllocError>
        ensures { IfOk result (λ end. end ≡ end_of self) }
    {
        let Builder {
            alloc,
            building,
            fault,
        } = self;
        if let Some(fault) = fault {
            return Ok(Err(fault));
        }
        match building.finish(alloc) {
            Ok(built) => Ok(Ok(built)),
            Err(Stop::Memory) => Err(AllocError),
            Err(Stop::Refused(fault)) => Ok(Err(fault)),
        }
    }
}
