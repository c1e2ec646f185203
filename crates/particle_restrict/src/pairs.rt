ghost use Rattle.std.specs.Prelude.{◌<◌, ◌↔◌, ℕ, IsTrue};

/// Which members of one group restrict which members of another, by their places. `is_valid` is what an answer needs, `count`
/// and `base_count` are the numbers of members, and `restricts` is what is asked.
pub trait Pairs {
    ghost is_valid: { Self → Type 0 };

    ghost count: { Self → ℕ };

    ghost base_count: { Self → ℕ };

    ghost restricts: { Self → ℕ → ℕ → Type 0 };

    /// Whether a member of the one restricts a member of the other.
    fn pair(&self, member: usize, base: usize) -> bool
        requires valid { is_valid self.now }
        requires member { member < count self.now }
        requires base { base < base_count self.now }
        ensures restricts { IsTrue result ↔ restricts self.now member base };
}
