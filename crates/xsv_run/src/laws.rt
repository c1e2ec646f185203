ghost use Rattle.std.specs.Prelude.{◌≡◌, List, ℕ, Bool, true, Option};
ghost use Rattle.item_listing.specs.Listed.{listed};
ghost use Rattle.item_listing.specs.State.{unread};
ghost use Rattle.item_listing.specs.declared.item.Item.{Item};
ghost use Rattle.tree_rows.specs.Forest.{Document};
ghost use Rattle.stream_sections.specs.Spelled.{whole, Order, SpellsCheck, SpellsStream};
ghost use Rattle.stream_answers.specs.declared.wanted.Wanted.{Wanted};
ghost use Rattle.told.specs.Told.{Said};
ghost use Rattle.stream_answers.specs.from_open_document.State.{OpenState};
ghost use Rattle.stream_sections.specs.declared.asked.Asked.TheVariants.{Check};
ghost use Rattle.stream_sections.specs.declared.schemas.SchemaSection.{SchemaSection};
ghost use Rattle.command_words.specs.declared.request.Request.{Request};
ghost use Rattle.xsv_run.specs.Output.{Output, IsAnswer, IsOutput};
ghost use Rattle.xsv_run.specs.Complete.{AreReplies, IsPresent, IsByOutcome, IsCheckOutput, IsStreamOutput};
ghost use Rattle.xsv_run.specs.Authors.{Read, IsAlike, AreAnswers, ArePlain};

use kept_next::answers_are_one;
use stream_sections::streams_are_read;
use told::outcomes_are_one;
use what_is_found::what_is_found_is_the_only_one;

/// For what is asked and the bytes of a source there is one output.
pub fn outputs_are_one()
    ensures only { (asked : Option Request) (bytes : List ℕ) (closed : Bool) (x y : Output) → IsOutput asked bytes closed x → IsOutput asked bytes closed y → x ≡ y }
{
    what_is_found_is_the_only_one();
    outcomes_are_one();
    answers_are_one();
}

/// Where no line of a stream is refused, its output goes by what its schema documents come to: a broken constraint is named; else `check` is answered Valid, and `assess` and
/// `session` by the report or the replies and the record of the root of the last tree.
pub fn streams_are_answered()
    ensures check { (most : ℕ) (bytes : List ℕ) (its : List Item) (all : List SchemaSection) (out : Output) → listed unread bytes true ≡ whole its → SpellsCheck all its
        → IsAnswer (record { asked = Check; most = most }) bytes true out → IsByOutcome all IsCheckOutput out }
    ensures checked { (most : ℕ) (bytes : List ℕ) (its : List Item) (all : List SchemaSection) (out : Output) → listed unread bytes true ≡ whole its → SpellsCheck all its
        → IsByOutcome all IsCheckOutput out → IsAnswer (record { asked = Check; most = most }) bytes true out }
    ensures stream { (w : Wanted) (bytes : List ℕ) (its : List Item) (all : List SchemaSection) (d : Document) (orders : List Order) (out : Output)
        → listed unread bytes true ≡ whole its → SpellsStream w.asked all d orders its
        → IsAnswer w bytes true out → IsByOutcome all (IsStreamOutput w all d orders) out }
    ensures streamed { (w : Wanted) (bytes : List ℕ) (its : List Item) (all : List SchemaSection) (d : Document) (orders : List Order) (out : Output)
        → listed unread bytes true ≡ whole its → SpellsStream w.asked all d orders its
        → IsByOutcome all (IsStreamOutput w all d orders) out → IsAnswer w bytes true out }
{
    streams_are_read();
}

/// Behind the replies to any commands, a document that was the present one of its history is so again: edits, undos and redos have led
/// to it.
pub fn documents_are_present()
    ensures { (s : OpenState) (orders : List Order) (all : Said) (last : OpenState) → AreReplies s orders all last → IsPresent s → IsPresent last }
{}

/// What several authors are answered is what is answered without them: of lines and their answers, those without the turns that are not taken,
/// and each without its author, are answered the same, and lead to the same document, but for who took turns.
pub fn accepted_turns_stand_for_themselves()
    ensures { (s q : OpenState) (reads : List Read) (said : List Said) (last : OpenState) → IsAlike s q → AreAnswers s reads said last
        → (plain : List Read) × (answers : List Said) × (behind : OpenState) × ArePlain s reads said plain answers × AreAnswers q plain answers behind × IsAlike last behind }
{}
