ghost use Rattle.std.specs.Prelude.{◌≡◌, ◌*◌, ◌^◌, ◌<◌, ◌==◌};
ghost use Rattle.parts.specs.Sizes.{power_for, PowerOf, size_answer};

use tags::refusal::Refusal;

// Whether n is part × 2^k.
fn fits(n: usize, part: usize, k: u32) -> bool
    requires { k < 16 }
    ensures { result ≡ (n == part * 2 ^ k) }
{
    n % (1 << k) == 0 && n >> k == part
}

// The k from 4 to 15 for which n is part × 2^k, or none.
pub fn power_for(n: usize, part: usize) -> Option<u32>
    ensures power { result ≡ power_for n part }
    ensures relation { PowerOf n part result }
{
    (4..16).find(|&k| fits(n, part, k))
}

// Whether a node map can be made in memory of size n, of which each slot takes a part.
pub fn check_size(n: usize, part: usize) -> Result<(), Refusal>
    ensures { result ≡ size_answer (power_for n part) }
{
    power_for(n, part).map(|_| ()).ok_or(Refusal::MapMemory)
}
