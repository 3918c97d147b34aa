ghost use Rattle.std.specs.Prelude.{◌≡◌, ℕ, ◌*◌, ◌/◌, ◌^◌, ◌<◌, ◌≤◌, length, slice_index};
ghost use Rattle.rules.specs.declared.step.Step.TheVariants.{By32};
ghost use Rattle.rules.specs.Steps.{symbol_count};
ghost use Rattle.compact_map.specs.Memory.{laid_byte};
ghost use Rattle.compact_map.specs.Table.{key_in};

use crate::table::Set;

// A node map in 14 × M lent bytes: two sets of M slots, six bytes each, and each node's slot in two bytes. Where the
// bytes are of a number that it does not take, it has the one room 1 and no byte ever changes.
#[derive(Drop)]
pub struct CompactMap<'a> {
    pub(crate) bytes: &'a mut [u8],
    // The slots in use: 2, which no node takes, where the bytes are refused.
    pub(crate) set: Set,
    // A set has 2^top slots.
    pub(crate) top: u32,
    // The nodes besides node 0.
    pub(crate) later: usize,
    ghost wide: { set.large ≡ 2 ^ top },
    ghost rooms: { set.log ≤ top },
    ghost most: { top ≤ 15 },
    ghost least: { (2 < set.large → 4 ≤ set.log) },
    ghost whole: { (2 < set.large → length bytes.now ≡ 14 * set.large) },
    ghost refused: { ((k : ℕ) → (set.large ≤ 2) × (4 ≤ k) × (k ≤ 15) × (length bytes.now ≡ 14 * 2 ^ k) → ⊥) },
    ghost fits: { later < 9 * set.slots / 10 },
    ghost apart: { ((u v : ℕ) → (0 < u) × (0 < v) × (u ≤ later) × (v ≤ later) × (key_in By32 bytes.now set.log set.large u ≡ key_in By32 bytes.now set.log set.large v) → u ≡ v) },
    ghost parents: { ((v : ℕ) → (0 < v) × (v ≤ later) → key_in By32 bytes.now set.log set.large v / symbol_count By32 < v) },
    ghost filled: { ((k : ℕ) → 2 < set.large → slice_index bytes.now k ≡ laid_byte By32 set.log set.large (key_in By32 bytes.now set.log set.large) later (slice_index bytes.now k) k) },
}
