// Amounts that lie in several vaults.
ghost use Rattle.std.specs.Prelude.{◌≡◌, ◌+◌, ◌^◌, ◌≤◌, sum};
ghost use Rattle.vault.specs.Parts.{joined, kept, parts};

pub const VAULTS: usize = 5;

pub fn total_of(held: &[u64]) -> u64
    requires { sum held.now ≤ 10 ^ 18 }
    ensures { result ≡ sum held.now }
{
    held.iter().sum()
}

// What each vault keeps and what it gives when so much is taken, vault 0 first.
pub fn split(held: [u64; VAULTS], amount: u64) -> ([u64; VAULTS], [u64; VAULTS])
    ensures keeps { result.0 ≡ kept amount held }
    ensures gives { result.1 ≡ parts amount held }
{
    // By index into the two, since the check does not follow what a `zip` of `iter_mut` writes.
    let mut keeps = [0; VAULTS];
    let mut gives = [0; VAULTS];
    let mut left = amount;
    for (vault, stock) in held.iter().enumerate() {
        let part = left.min(*stock);
        keeps[vault] = *stock - part;
        gives[vault] = part;
        left -= part;
    }
    (keeps, gives)
}

// What each vault holds with the part that comes into it.
pub fn join(held: [u64; VAULTS], gives: [u64; VAULTS]) -> [u64; VAULTS]
    requires { sum held + sum gives ≤ 10 ^ 18 }
    ensures { result ≡ joined held gives }
{
    // Tried by `zip` with `iter_mut`: what it writes is left open; by `array::from_fn`: that each index is a vault's.
    let mut holds = held;
    for (vault, part) in gives.iter().enumerate() {
        holds[vault] += *part;
    }
    holds
}
