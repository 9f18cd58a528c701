//! What a run shows of values here, and which pairs stay.
ghost use Rattle.std.specs.Prelude.{◌≡◌, ◌%◌, ◌==◌};

use intmap_run::Judge;

/// Sees a value as itself, and keeps odd values.
#[derive(Clone, Copy)]
pub struct OddJudge;

impl Judge<u64, u64> for OddJudge {
    type Seen = u64;

    ghost sees = { λ _ v s. s ≡ v };

    ghost keeps = { λ _ k v. (v % 2) == 1 };

    fn look(&self, value: &u64) -> u64 {
        *value
    }

    fn keep(&self, _key: u64, value: &u64) -> bool {
        *value % 2 == 1
    }
}
