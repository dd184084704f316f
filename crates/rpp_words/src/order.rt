// Orders of blocks.
ghost use Rattle.std.specs.Prelude.{◌≤◌, ◌^◌};
ghost use Rattle.rpp_words.specs.Order.{IsOrderFor};

/// The order of the blocks that have space for so many words: the least `k` from 1 on with `2 ^ k`
/// at least `words`.
pub fn order_for(words: u64) -> u32
    requires { words ≤ 2 ^ 32 }
    ensures { IsOrderFor words result }
{
    for order in 1..32 {
        if words <= 1 << order {
            return order;
        }
    }
    32
}
