ghost use Rattle.std.specs.Prelude.{◌≡◌};
ghost use Rattle.std.specs.Option.{option_map};
ghost use Rattle.commands.specs.Commands.{priced_tag, priced_of, order_of, order_in, read_line};

use crate::command::Command;
use crate::lines::place_of;
use crate::numbers::read_number;

// An amount and a tag, over the line's own bytes.
fn priced_tag(text: &[u8]) -> Option<(u32, &[u8])>
    ensures { option_map priced_of result ≡ priced_tag text.now }
{
    let (digits, rest) = text.split_at(place_of(b' ', text));
    let amount = read_number(digits)?;
    let tag = rest.strip_prefix(b" ")?;
    Some((amount, tag))
}

// What a line of any length asks for.
fn command_in(line: &[u8]) -> Option<Command<'_>>
    ensures { option_map order_of result ≡ order_in line.now }
{
    match line {
        [b'E', b' ', matter @ ..] => {
            priced_tag(matter).map(|(amount, tag)| Command::Enter { amount, tag })
        }
        [b'C', b' ', matter @ ..] => {
            priced_tag(matter).map(|(amount, tag)| Command::Change { amount, tag })
        }
        [b'F', b' ', tag @ ..] => Some(Command::Find { tag }),
        [b'S', b' ', tag @ ..] => Some(Command::Strike { tag }),
        [b'P', b' ', digits @ ..] => read_number(digits).map(|ticket| Command::Spell { ticket }),
        [b'D'] => Some(Command::Double),
        _ => None,
    }
}

// What a line, without its end, asks for; none where it is no command, or over 255 bytes.
pub fn read_line(line: &[u8]) -> Option<Command<'_>>
    ensures { option_map order_of result ≡ read_line line.now }
{
    if line.len() > 255 {
        return None;
    }
    command_in(line)
}
