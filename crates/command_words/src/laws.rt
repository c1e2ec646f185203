ghost use Rattle.std.specs.Prelude.{◌≡◌, ◌++◌, ℕ, List, Some, None};
ghost use Rattle.std.specs.List.{All};
ghost use Rattle.command_words.specs.Requests.{IsOption, IsPositional, line};

/// Without the option the rest of the words is positional, in order: words without the option are so, and words with the option at
/// any place among them are so but for it; it stands once at most.
pub fn the_rest_is_positional()
    ensures none { (words : List (List ℕ)) → All IsPositional words → line words ≡ Some (record { positional = words; value = None }) }
    ensures once { (front option back : List (List ℕ)) (value : List ℕ) → All IsPositional front → IsOption option value → All IsPositional back
        → line (front ++ (option ++ back)) ≡ Some (record { positional = front ++ back; value = Some value }) }
    ensures twice { (front one middle other back : List (List ℕ)) (x y : List ℕ) → All IsPositional front → IsOption one x → All IsPositional middle
        → IsOption other y → All IsPositional back → line (front ++ (one ++ (middle ++ (other ++ back)))) ≡ None }
{}
