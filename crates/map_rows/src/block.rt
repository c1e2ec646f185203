//! Blocks of cells in memory of their own. All code with raw pointers stands here.

ghost use Rattle.std.specs.Prelude.{◌≡◌, ℕ, ◌*◌, ◌^◌, ◌<◌, List, Option, Some, None, length, replicate, slice_index, slice_index_or, slice_set, IfSome, IfOk};
ghost use base.Fml.{ftrue};
ghost use denote.RawPtr.{Ptr};
ghost use Rattle.map_rows.specs.Memory.{IsFilled, cells_own, cells_lent, units_of};
ghost use Rattle.map_rows.specs.Piece.{Piece};

use std::alloc::{AllocError, Allocator, Global};
use std::marker::{Model, PhantomData};

/// Where a block's cells begin. It owns nothing.
#[derive(Clone, Copy)]
pub struct Base {
    at: *mut u16,
}

/// The owner of cells side by side, each empty or holding a number. It takes no bytes.
pub struct Cells {
    ghost at: { Ptr },
    ghost slots: { List (Option ℕ) },
}

impl Model for Cells {
    ghost also_owns = { λ c. cells_own c.at c.slots };

    ghost also_shares = { λ c _ κ. cells_lent c.at c.slots κ };
}

/// The right to give `len` cells at `at` back to `alloc`. It takes no bytes.
pub struct Deed<A: Allocator> {
    marker: PhantomData<A>,
    ghost alloc: { A },
    ghost at: { Ptr },
    ghost len: { ℕ },
}

impl<A: Allocator> Model for Deed<A> {
    ghost also_owns = { λ d. A.dealloc_token d.alloc (units_of d.len) d.at };

    ghost also_shares = { λ _ _ _. ftrue };
}

/// Memory for so many cells, all empty, and the right to give it back.
fn allocate<A: Allocator>(alloc: &A, len: usize) -> Option<(Base, Cells, Deed<A>)>
    requires { len * 2 < 2 ^ 63 }
    ensures { IfSome result (λ r. (r.1.at ≡ r.0.at) × (r.1.slots ≡ replicate len None) × (r.2.alloc ≡ alloc.now) × (r.2.at ≡ r.0.at) × (r.2.len ≡ len)) }
{
    match alloc.allocate(len * 2, 2) {
        Ok(bytes) => {
            let at = bytes as *mut u16;
            let marker = PhantomData;
            Some((Base { at }, Cells {}, Deed { marker }))
        }
        Err(_) => None,
    }
}

/// Gives the memory back.
fn deallocate<A: Allocator>(alloc: &A, base: Base, len: usize, cells: Cells, deed: Deed<A>)
    requires { (cells.at ≡ base.at) × (length cells.slots ≡ len) × (deed.alloc ≡ alloc.now) × (deed.at ≡ base.at) × (deed.len ≡ len) }
{
    let Cells {} = cells;
    let Deed { marker: _ } = deed;
    unsafe { alloc.deallocate(base.at as *mut u8, len * 2, 2) }
}

impl Cells {
    /// Writes a number into a cell.
    fn set(&mut self, base: Base, index: usize, number: u16)
        requires { (base.at ≡ self.old.at) × (index < length self.old.slots) }
        ensures { (self.new.at ≡ self.old.at) × (self.new.slots ≡ slice_set self.old.slots index (Some number)) }
    {
        unsafe { base.at.add(index).write(number) }
    }

    /// The number of a cell.
    fn get(&self, base: Base, index: usize) -> u16
        requires { (base.at ≡ self.now.at) × IsFilled self.now.slots index }
        ensures { slice_index_or self.now.slots index None ≡ Some result }
    {
        unsafe { *base.at.add(index) }
    }
}

/// Cells with numbers in them, which stay where they are until the block is dropped.
pub struct Block {
    alloc: Global,
    base: Base,
    len: usize,
    cells: Cells,
    deed: Deed<Global>,
}

impl Model for Block {
    ghost use Rattle.map_rows.specs.Piece.{Piece, numbers_of};
    ghost use Rattle.map_rows.specs.Whole.{IsWhole};

    ghost Value = { Piece };

    ghost view = { λ b. record { at = b.base.at; numbers = numbers_of b.cells.slots } };

    ghost invariant = { λ b. IsWhole b.alloc b.base b.len b.cells b.deed };
}

impl Block {
    /// A block of so many zeros.
    pub fn zeros(alloc: Global, len: usize) -> Result<Block, AllocError>
        requires { len * 2 < 2 ^ 63 }
        ensures { IfOk result (λ b. b.numbers ≡ replicate len 0) }
    {
        let Some((base, mut cells, deed)) = allocate(&alloc, len) else {
            return Err(AllocError);
        };
        fill(&mut cells, base, len);
        Ok(Block {
            alloc,
            base,
            len,
            cells,
            deed,
        })
    }

    /// Where the cells begin. `get` and `set` are handed it, so that a loop reads it once.
    pub fn base(&self) -> Base
        ensures { result.at ≡ self.now.at }
    {
        self.base
    }

    /// The number of a cell.
    pub fn get(&self, base: Base, index: usize) -> u16
        requires base { base.at ≡ self.now.at }
        requires index { index < length self.now.numbers }
        ensures { result ≡ slice_index self.now.numbers index }
    {
        self.cells.get(base, index)
    }

    /// Writes a number into a cell.
    pub fn set(&mut self, base: Base, index: usize, number: u16)
        requires base { base.at ≡ self.old.at }
        requires index { index < length self.old.numbers }
        ensures { self.new ≡ record self.old { numbers = slice_set self.old.numbers index number } }
    {
        self.cells.set(base, index, number);
    }
}

impl Drop for Block {
    fn drop(self) {
        let Self {
            alloc,
            base,
            len,
            cells,
            deed,
        } = self;
        deallocate(&alloc, base, len, cells, deed);
    }
}

/// Writes 0 into each cell.
fn fill(cells: &mut Cells, base: Base, len: usize)
    requires base { base.at ≡ cells.old.at }
    requires len { length cells.old.slots ≡ len }
    ensures at { cells.new.at ≡ cells.old.at }
    ensures zeros { cells.new.slots ≡ replicate len (Some 0) }
{
    for index in 0..len {
        cells.set(base, index, 0);
    }
}
