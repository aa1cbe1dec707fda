// The desks that a step's row stands for.
ghost use Rattle.std.specs.Prelude.{◌≡◌, ◌≤◌};
ghost use Rattle.plan.specs.Step.{part_from, source_from};
ghost use Rattle.conflict.specs.Mask.{mask_of};
ghost use Rattle.conflict.specs.Touch.{row_touched};
ghost use Rattle.conflict.specs.Written.{row_given};

use plan::{Partitioning, Source};

// Whether some operation gives this row to the source.
pub(crate) fn row_given(source: Source, row: u32) -> bool
    ensures { result ≡ row_given (source_from source) row }
{
    match source {
        Source::Parameter(_) => true,
        Source::Fixed(fixed) => row == fixed,
    }
}

// The desks with an operation that gives this row to the source.
#[tactic(auto, using(crate::proofs::RowMasks::row_masks))]
pub(crate) fn row_mask(source: Source, row: u32, partitioning: Partitioning, desks: u32) -> u8
    requires { (1 ≤ desks) × (desks ≤ 8) }
    ensures { result ≡ mask_of desks (row_touched desks (part_from partitioning) (source_from source) row) }
{
    if !row_given(source, row) {
        return 0;
    }
    match partitioning {
        Partitioning::Unpartitioned | Partitioning::Open => 1,
        Partitioning::Parameter(i) if source == Source::Parameter(i) => 1 << (row % desks),
        Partitioning::Parameter(_) => u8::MAX >> (8 - desks),
    }
}
