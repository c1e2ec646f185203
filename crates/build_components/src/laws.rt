ghost use Rattle.std.specs.Prelude.{◌≡◌, All, None};
ghost use Rattle.xs_components.specs.Tables.{Tables};
ghost use Rattle.component_references.specs.References.{IsClosed};
ghost use Rattle.representations.specs.declared.source.Source.{Source};
ghost use Rattle.build_components.specs.Built.{built};
ghost use Rattle.build_components.specs.There.{AreThere};

/// Whatever is represented, and whether or not it resolves: what the tables that are built of it refer to is there, a model group
/// holds particles that were added before it, and no content of a type is set.
pub fn tables_are_closed()
    ensures closed { (source : Source) (t : Tables) → t ≡ built source → IsClosed t }
    ensures none { (source : Source) (t : Tables) → t ≡ built source → All (λ content. content ≡ None) t.contents }
    ensures there { (source : Source) (t : Tables) → t ≡ built source → AreThere t }
{}
