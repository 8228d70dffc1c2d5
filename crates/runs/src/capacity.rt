// The capacities of groups, and for each number of entries which of them is the least that suffices.
ghost use Rattle.std.specs.Prelude.{◌≡◌, ◌<◌, ◌≤◌};
ghost use Rattle.runs.specs.Sizes.{size, Least};

// The capacities that all kinds of entry have; the seventh is that of the kind's longest run.
const SPACING: [u32; 6] = [1, 2, 4, 8, 16, 24];

// By the number of entries, the place of the size in the list above.
const COUNT_TO_TIER: [u8; 25] = [
    0, 0, 1, 2, 2, 3, 3, 3, 3, 4, 4, 4, 4, 4, 4, 4, 4, 5, 5, 5, 5, 5, 5, 5, 5,
];

// The size of a run of n entries of a kind whose longest run has `longest`; 0 where no run is so long, as in the definition: who asks compares sizes, and nothing else.
pub fn run_size(longest: u32, n: u32) -> u32
    ensures value { result ≡ size longest n }
    ensures none { 24 ≤ longest → longest < n → result ≡ 0 }
    ensures least { 31 ≤ longest → longest ≤ 32 → 1 ≤ n → n ≤ longest → Least longest n result }
{
    if n <= 24 {
        SPACING[COUNT_TO_TIER[n as usize] as usize]
    } else if n <= longest {
        longest
    } else {
        0
    }
}
