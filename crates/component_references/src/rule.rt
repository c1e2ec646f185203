ghost use Rattle.std.specs.Prelude.{◌≡◌, ℕ, ◌<◌, List, Some, length, slice_get, slice_index};
ghost use Rattle.component_references.specs.Order.{IsOrder, IsFilledBelow};

/// How the value of a part comes from the values of parts of lower rank. `count` is the number of parts, `ranks` are their
/// ranks, `value_of` is the value that a definition gives to each, and `is_valid` is what the rule needs of the parts.
pub trait Rule<V> {
    ghost is_valid: { Self → Type 0 };

    ghost count: { Self → ℕ };

    ghost ranks: { Self → List ℕ };

    ghost value_of: { Self → ℕ → V };

    /// The value of a part, where the table has those of all parts of lower rank.
    fn value(&self, x: u32, table: &[V]) -> V
        requires valid { is_valid self.now }
        requires there { x < count self.now }
        requires len { length table.now ≡ count self.now }
        requires filled { IsFilledBelow (count self.now) (ranks self.now) (value_of self.now) (slice_index (ranks self.now) x) table.now }
        ensures value { result ≡ value_of self.now x };
}

/// Fills a table in the order of ranks, each part once, with no recursion.
pub fn fill<V: Drop, R: Rule<V>>(rule: &R, order: &[u32], table: &mut [V])
    requires valid { R.is_valid rule.now }
    requires order { IsOrder (R.count rule.now) (R.ranks rule.now) order.now }
    requires len { length table.old ≡ R.count rule.now }
    ensures filled { (n : ℕ) → n < R.count rule.now → slice_get table.new n ≡ Some (R.value_of rule.now n) }
{
    for x in order {
        let value = rule.value(*x, table);
        table[*x as usize] = value;
    }
}
