// The words that an operation puts in for the sources of its steps.
// `#[inline(always)]`: these are small and run in inner loops.
ghost use Rattle.std.specs.Prelude.{◌≡◌, get_or};
ghost use Rattle.plan.specs.Step.{source_from};
ghost use Rattle.operation.specs.Operation.{value_of};

use plan::Source;

// Parameter i, 0 past the fourth.
#[inline(always)]
pub(crate) fn parameter(params: &[u32; 4], i: u32) -> u32
    ensures { result ≡ get_or params.now i 0 }
{
    params.get(i as usize).copied().unwrap_or(0)
}

// The value of a row or an operand: that parameter, or the fixed number.
#[inline(always)]
pub fn source_value(source: Source, params: &[u32; 4]) -> u32
    ensures { result ≡ value_of params.now (source_from source) }
{
    match source {
        Source::Parameter(i) => parameter(params, i),
        Source::Fixed(number) => number,
    }
}
