// Bits of a 32-bit bitmap and their ranks.
//
// A bit number and a slot number are two types. The only way from the one to the other is the rank,
// `compute_slot`: the run of a node has one entry for each set bit, lowest bit first.
#![tactic(auto)]

ghost use Rattle.std.specs.Prelude.{◌≡◌, ℕ, ◌<◌, true, false};
ghost use Rattle.bitmap.specs.Ranks.{bit, is_set, rank, with_bit, without_bit, Gains};

// The number of a bit in a bitmap.
#[derive(Clone, Copy, Debug, PartialEq, Eq, PartialOrd, Ord)]
pub struct Bit {
    pub number: u32,
}

// The number of an entry in a run.
#[derive(Clone, Copy, Debug, PartialEq, Eq, PartialOrd, Ord)]
pub struct Slot {
    pub number: u32,
}

// No bit from 32 on is set.
pub fn is_set(bitmap: u32, bit: Bit) -> bool
    ensures { result ≡ is_set bitmap bit.number }
{
    digit(bitmap, bit.number) == 1
}

// How many bits are set.
pub fn count(bitmap: u32) -> u32
    ensures { result ≡ rank bitmap 32 }
{
    ones_below(bitmap, 32)
}

// The rank of a bit, the number of set bits below it. Where the bit is set, it is the slot of the bit's entry:
// a slot of the run, and below the slot of every later set bit.
pub fn compute_slot(bitmap: u32, bit: Bit) -> Slot
    ensures rank { result.number ≡ rank bitmap bit.number }
    ensures within { is_set bitmap bit.number ≡ true → result.number < rank bitmap 32 }
    ensures rises { (b : ℕ) → is_set bitmap bit.number ≡ true → bit.number < b → result.number < rank bitmap b }
{
    Slot {
        number: ones_below(bitmap, bit.number),
    }
}

// The bitmap with a bit set; there is no bit from 32 on to set.
pub fn with_bit(bitmap: u32, bit: Bit) -> u32
    ensures value { result ≡ with_bit bitmap bit.number }
    ensures gains { bit.number < 32 → is_set bitmap bit.number ≡ false → Gains bitmap bit.number result }
{
    if bit.number < 32 {
        turned_on(bitmap, bit.number)
    } else {
        bitmap
    }
}

// The bitmap with a bit cleared.
pub fn without_bit(bitmap: u32, bit: Bit) -> u32
    ensures value { result ≡ without_bit bitmap bit.number }
    ensures loses { is_set bitmap bit.number ≡ true → Gains result bit.number bitmap }
{
    if is_set(bitmap, bit) {
        turned_off(bitmap, bit.number)
    } else {
        bitmap
    }
}

// Bit n as 0 or 1.
fn digit(bitmap: u32, n: u32) -> u32
    ensures { result ≡ bit bitmap n }
{
    if n >= 32 {
        return 0;
    }
    (bitmap >> n) & 1
}

// The mask keeps the bits below n.
fn ones_below(bitmap: u32, n: u32) -> u32
    ensures rank { result ≡ rank bitmap n }
    ensures within { is_set bitmap n ≡ true → result < rank bitmap 32 }
    ensures rises { (b : ℕ) → is_set bitmap n ≡ true → n < b → result < rank bitmap b }
{
    if n >= 32 {
        return bitmap.count_ones();
    }
    (bitmap & ((1 << n) - 1)).count_ones()
}

fn turned_on(bitmap: u32, n: u32) -> u32
    requires { n < 32 }
    ensures value { result ≡ with_bit bitmap n }
    ensures gains { is_set bitmap n ≡ false → Gains bitmap n result }
{
    bitmap | (1 << n)
}

fn turned_off(bitmap: u32, n: u32) -> u32
    requires { is_set bitmap n ≡ true }
    ensures value { result ≡ without_bit bitmap n }
    ensures loses { Gains result n bitmap }
{
    bitmap ^ (1 << n)
}
