ghost use Rattle.std.specs.Prelude.{◌≡◌, ◌/◌, ◌%◌};
ghost use Rattle.rules.specs.Steps.{size, symbol_count, step_symbol, branch_symbol};

// The step length of a tree: how many places of a label one step goes past. Each method is a match, so that another length
// is another arm.
#[derive(Clone, Copy, PartialEq, Eq, Debug)]
pub enum Step {
    By32,
}

impl Step {
    pub fn length(self) -> usize
        ensures { result ≡ size self }
    {
        match self {
            Step::By32 => 32,
        }
    }

    // Every symbol is below this.
    pub fn symbol_count(self) -> u16
        ensures { result ≡ symbol_count self }
    {
        match self {
            Step::By32 => 8192,
        }
    }

    // The symbol of a step child.
    pub fn step_symbol(self) -> u16
        ensures { result ≡ step_symbol self }
    {
        match self {
            Step::By32 => 8160,
        }
    }

    // How many steps a place of a label is away.
    pub fn steps_to(self, place: usize) -> usize
        ensures { result ≡ place / size self }
    {
        match self {
            Step::By32 => place / 32,
        }
    }

    // The symbol of the child by a byte at a place of a label.
    pub fn branch_symbol(self, byte: u8, place: usize) -> u16
        ensures { result ≡ branch_symbol self byte place }
    {
        match self {
            Step::By32 => 32 * u16::from(byte) + (place % 32) as u16,
        }
    }

    // The byte that a symbol tells, and the place past the steps.
    pub fn byte_of(self, symbol: u16) -> u16
        ensures { result ≡ symbol / size self }
    {
        match self {
            Step::By32 => symbol / 32,
        }
    }

    pub fn place_of(self, symbol: u16) -> usize
        ensures { result ≡ symbol % size self }
    {
        match self {
            Step::By32 => usize::from(symbol % 32),
        }
    }
}
