//! What the states of an `all` say of its words.

ghost use Rattle.std.specs.Prelude.{◌≡◌, ◌≤◌, ◌<◌, ◌⊎◌, ℕ, Bool, true, false, List, All, length};
ghost use Rattle.particle_models.specs.Particles.{Particle};
ghost use Rattle.content_models.specs.Shape.{IsAllOf, IsOnce, AreLetters, HasNames};
ghost use Rattle.content_models.specs.States.{IsMachineOf, Recognizes};
ghost use Rattle.content_models.specs.declared.member.AllMember.{AllMember as AllMemberData};
ghost use Rattle.content_models.specs.declared.machine.AllMachine.{AllMachine as AllMachineData};

/// Laws of the definitions (Structures 3.8.4): where each member that has to come accepts some name, and no name is accepted by
/// two members, the states along the numbers of the members that accept names recognize the words of an `all`; and where some
/// member that has to come accepts none, so do the states along strangers alone.
pub fn words_of_all()
    ensures language { (accepts : ℕ → ℕ × List ℕ → Bool) (members : List AllMemberData) (optional : Bool) (model : Particle) (inhabited : List Bool) (m : AllMachineData) (letter : ℕ × List ℕ → ℕ) →
        IsAllOf members optional model → All IsOnce members → length members ≤ 64 → IsMachineOf inhabited members optional m →
        m.has_words ≡ true → HasNames accepts members → AreLetters accepts members letter → ((name : ℕ × List ℕ) → (letter name < length members) ⊎ (64 ≤ letter name)) → Recognizes accepts model letter m }
    ensures without_words { (accepts : ℕ → ℕ × List ℕ → Bool) (members : List AllMemberData) (optional : Bool) (model : Particle) (inhabited : List Bool) (m : AllMachineData) (letter : ℕ × List ℕ → ℕ) →
        IsAllOf members optional model → All IsOnce members → length members ≤ 64 → IsMachineOf inhabited members optional m →
        m.has_words ≡ false → (HasNames accepts members → ⊥) → ((name : ℕ × List ℕ) → 64 ≤ letter name) → Recognizes accepts model letter m }
{}
