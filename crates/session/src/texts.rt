ghost use Rattle.std.specs.Prelude.{Ok};
ghost use Rattle.rules.specs.declared.answers.Answer.TheVariants.{Spelled};
ghost use Rattle.session.specs.Texts.{found_text, answer_text, totals_text};

use crate::output::Output;
use rules::answers::{Answer, Found};
use tags::refusal::Refusal;

impl Output<'_> {
    ghost use Rattle.session.specs.Output.{Wrote};

    // What a find answers.
    fn put_found(&mut self, found: Found<u32>)
        ensures { Wrote self.old (found_text found) self.new }
    {
        match found.held {
            Some(held) => {
                self.put_with(b"found ", held.ticket);
                self.put_with(b" ", held.value);
                self.put_with(b" ", found.moves);
            }
            None => self.put_with(b"absent ", found.moves),
        }
    }

    // The first bytes of a buffer, behind a word.
    fn put_spelled(&mut self, length: usize, buffer: &[u8])
        ensures { Wrote self.old (answer_text (Ok (Spelled length)) buffer.now) self.new }
    {
        self.put(b"spelled ");
        self.put(&buffer[..length.min(buffer.len())]);
    }

    // An answer, or why there is none. A spell's buffer begins with the tag.
    pub(crate) fn put_answer(&mut self, answer: Result<Answer<u32>, Refusal>, buffer: &[u8])
        ensures { Wrote self.old (answer_text answer buffer.now) self.new }
    {
        match answer {
            Ok(Answer::Entered(ticket)) => self.put_with(b"entered ", ticket),
            Ok(Answer::Changed(ticket)) => self.put_with(b"changed ", ticket),
            Ok(Answer::Struck(ticket)) => self.put_with(b"struck ", ticket),
            Ok(Answer::Looked(found)) => self.put_found(found),
            Ok(Answer::Spelled(length)) => self.put_spelled(length, buffer),
            Ok(Answer::Doubled(room)) => self.put_with(b"doubled ", room),
            Err(why) => self.put_with(b"refused ", u32::from(u8::from(why))),
        }
    }

    // The last line: how many nodes and label bytes there are.
    pub(crate) fn put_totals(&mut self, nodes: u32, label_bytes: u32)
        ensures { Wrote self.old (totals_text nodes label_bytes) self.new }
    {
        self.put_with(b"nodes ", nodes);
        self.put_with(b" bytes ", label_bytes);
        self.put(b"\n");
    }
}
