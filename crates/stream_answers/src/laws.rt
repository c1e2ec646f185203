ghost use Rattle.std.specs.Prelude.{◌≡◌};
ghost use Rattle.item_listing.specs.Listed.{Listed};
ghost use Rattle.stream_answers.specs.Output.{sections_told};
ghost use Rattle.stream_answers.specs.inside.Turns.{told, unbegun};
ghost use Rattle.stream_answers.specs.declared.wanted.Wanted.{Wanted};

use stream_sections::readers_give_sections;

/// What is told of items, place by place, is what is told of what they give, section by section.
pub fn places_answer_sections()
    ensures sectioned { (w : Wanted) (its : Listed) → told w 0 unbegun its ≡ sections_told w its }
{
    readers_give_sections();
}
