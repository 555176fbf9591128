// The sizes of trees, by the numbers of tokens.

ghost use Rattle.std.specs.Prelude.{◌≡◌, ◌-◌, slice_index_or};
ghost use Rattle.cs_check.specs.Checking.Derivations.{size_told};

// The number of a token, which is 1 where there is none.
fn number_at(numbers: &[u32], token: u16) -> u32
    ensures { result ≡ slice_index_or numbers.now (token - 1) 1 }
{
    let place = usize::from(token.saturating_sub(1));
    match numbers.get(place) {
        Some(number) => *number,
        None => 1,
    }
}

/// The size of a tree with so many nodes and these leaves, by the tokens' numbers; the greatest number stands for all above.
pub(crate) fn size_of(nodes: usize, tokens: &[u16], numbers: &[u32]) -> u64
    ensures { result ≡ size_told nodes tokens.now numbers.now }
{
    let mut size = nodes as u64;
    for token in tokens {
        size = size.saturating_add(u64::from(number_at(numbers, *token)));
    }
    size
}
