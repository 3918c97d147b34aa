ghost use Rattle.std.specs.Prelude.{◌≡◌, true};
ghost use Rattle.std.specs.Result.{result_map_both};
ghost use Rattle.shelves.specs.Tallies.{balanced, balance_answer, tally_answer};

use crate::counts::Counts;
use tags::refusal::Refusal;

// A tally: plain numbers of which inserted is accepted + rejected.
#[derive(Clone, Copy, PartialEq, Eq, Debug)]
pub struct Tally {
    counts: Counts,
    ghost balance: { balanced counts ≡ true },
}

// Whether plain numbers are a tally's.
pub fn check_tally(counts: Counts) -> Result<(), Refusal>
    ensures { result ≡ balance_answer counts }
{
    let sum = u64::from(counts.accepted) + u64::from(counts.rejected);
    if sum != u64::from(counts.inserted) {
        return Err(Refusal::UnbalancedTally);
    }
    Ok(())
}

// The tally of plain numbers that `check_tally` takes.
impl TryFrom<Counts> for Tally {
    type Error = Refusal;

    ghost try_from_gives = { λ counts made. result_map_both (λ tally. tally.counts) (λ why. why) made ≡ tally_answer counts };

    fn try_from(counts: Counts) -> Result<Tally, Refusal> {
        check_tally(counts)?;
        Ok(Tally { counts })
    }
}

// The plain numbers of a tally, which are balanced.
impl From<Tally> for Counts {
    ghost from_gives = { λ tally counts. (counts ≡ tally.counts) × (balanced counts ≡ true) };

    fn from(tally: Tally) -> Counts {
        tally.counts
    }
}
