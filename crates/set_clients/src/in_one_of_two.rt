// Two sets made, combined and listed: what their contracts say is enough to know every member.
ghost use Rattle.std.specs.Prelude.{◌≡◌, map, [], ◌∷◌, IfOk, IfErr};
ghost use Rattle.std.specs.Option.{option_map};
ghost use Rattle.sets.specs.declared.make.Unmade.TheVariants.{NoMemory};

use index::spec::{FeatureGraphSpec, FeatureIx, IndexType};
use sets::ix_set::IxSet;
use sets::make::Unmade;
use std::alloc::Global;

// How many of 65 nodes are in one of {64, 0, 2} and {2, 3} but not in both, and which: there is no fourth.
pub fn in_one_of_two(heap: Global) -> Result<(u32, [Option<FeatureIx>; 4]), Unmade>
    ensures count { IfOk result (λ found. found.0 ≡ 3) }
    ensures which { IfOk result (λ found. map (option_map (λ ix. ix.0)) found.1 ≡ Some 0 ∷ Some 3 ∷ Some 64 ∷ None ∷ []) }
    ensures unmade { IfErr result (λ e. e ≡ NoMemory) }
{
    let given = [
        FeatureIx::new(64),
        FeatureIx::new(0),
        FeatureIx::new(2),
        FeatureIx::new(64),
    ];
    let others = [FeatureIx::new(2), FeatureIx::new(3)];
    let mut left = IxSet::from_ixs(heap, FeatureGraphSpec, 65, &given)?;
    let right = IxSet::from_ixs(heap, FeatureGraphSpec, 65, &others)?;
    left.symmetric_difference_with(&right);
    let mut ones = left.ones();
    let found = [ones.next(), ones.next(), ones.next(), ones.next()];
    Ok((left.len(), found))
}
