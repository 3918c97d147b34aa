ghost use Rattle.std.specs.Prelude.{◌≡◌, replicate};
ghost use Rattle.commands.specs.Commands.{order_of};
ghost use Rattle.commands.specs.Lines.{lines};
ghost use Rattle.dictionary.specs.Runs.{buffer_size, request_of};
ghost use Rattle.session.specs.Outcomes.{HasOutcome, line_outcome, lines_outcome};
ghost use Rattle.session.specs.Texts.{request_for, buffer_for};

use crate::output::Output;
use commands::command::Command;
use commands::lines::Lines;
use commands::reading::read_line;
use dictionary::calls::DictionaryCalls;
use dictionary::runs::perform;
use rules::answers::Call;

// The buffer of a spell holds the longest tag.
const LONGEST_TAG: usize = 200;

// The call that a command asks for. It is no `From`, since both types are of other crates.
fn call_of(command: Command<'_>) -> Call<'_, u32>
    ensures request { request_of result (replicate 200 0) ≡ request_for (order_of command.entry) }
    ensures buffer { buffer_size result ≡ buffer_for (order_of command.entry) }
{
    match command {
        Command::Enter { amount, tag } => Call::Enter { tag, value: amount },
        Command::Change { amount, tag } => Call::Change { tag, value: amount },
        Command::Find { tag } => Call::Find { tag },
        Command::Strike { tag } => Call::Strike { tag },
        Command::Spell { ticket } => Call::Spell {
            ticket,
            buffer: LONGEST_TAG,
        },
        Command::Double => Call::Double,
    }
}

// A line of a list on a dictionary, and the line that is printed for it.
fn put_line<D: DictionaryCalls<Value = u32>>(d: &mut D, line: &[u8], output: &mut Output<'_>)
    ensures { HasOutcome D.DictionaryCalls.shows D.DictionaryCalls.extent D.DictionaryCalls.unfit (line_outcome line.now) d.old output.old d.new output.new }
{
    let Some(command) = read_line(line) else {
        return output.put(b"unread\n");
    };
    let call = call_of(command);
    let mut buffer = [0; LONGEST_TAG];
    let answer = perform(d, &call, &mut buffer);
    output.put_answer(answer, &buffer);
    output.put(b"\n");
}

// The lines of a text on a dictionary, in order, and the lines that are printed for them.
pub(crate) fn put_lines<D: DictionaryCalls<Value = u32>>(
    d: &mut D,
    text: &[u8],
    output: &mut Output<'_>,
)
    ensures { HasOutcome D.DictionaryCalls.shows D.DictionaryCalls.extent D.DictionaryCalls.unfit (lines_outcome (lines text.now)) d.old output.old d.new output.new }
{
    for line in Lines::new(text) {
        put_line(d, line, output);
    }
}
