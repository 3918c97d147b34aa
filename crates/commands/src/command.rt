// What one line of a bench list asks for, over the line's own bytes. A call of the rules is another type: it says the size
// of a spell's buffer, which no line says, and this crate knows nothing of the rules.
#[derive(Clone, Copy, Debug, PartialEq, Eq)]
pub enum Command<'a> {
    Enter { amount: u32, tag: &'a [u8] },
    Change { amount: u32, tag: &'a [u8] },
    Find { tag: &'a [u8] },
    Strike { tag: &'a [u8] },
    Spell { ticket: u32 },
    Double,
}
