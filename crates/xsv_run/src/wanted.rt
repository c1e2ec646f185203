ghost use Rattle.std.specs.Prelude.{◌≡◌};
ghost use Rattle.xsv_run.specs.Output as output;

use command_words::Task;
use stream_answers::Wanted;
use stream_sections::Asked;

/// What a stream is read for.
fn asked_of(task: Task) -> Asked
    ensures { result ≡ output.asked_of task }
{
    match task {
        Task::Check => Asked::Check,
        Task::Assess => Asked::Assess,
        Task::Session => Asked::Session,
    }
}

/// What is wanted of a stream that is read for this.
pub fn wanted_of(task: Task, most: u32) -> Wanted
    ensures { result ≡ output.wanted_of task most }
{
    Wanted {
        asked: asked_of(task),
        most,
    }
}
