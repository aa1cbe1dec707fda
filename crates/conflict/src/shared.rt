// Whether two or more desks may touch a cell, by its mask.
ghost use Rattle.std.specs.Prelude.{◌≡◌};
ghost use Rattle.conflict.specs.Shared.{is_shared};

// The number of desks is the count of ones in the mask.
pub fn is_shared(mask: u8) -> bool
    ensures { result ≡ is_shared mask }
{
    2 <= mask.count_ones()
}
