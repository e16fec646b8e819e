// Arithmetic on words: the signed reading and back, shifts, comparison, and sums and differences that wrap at 2^32. Most are a method of
// the library's, said here in the model's words so that no caller proves it again.
ghost use Rattle.std.specs.Prelude.{◌≡◌, ◌/◌, ◌^◌, pos, ◌+ℤ◌, int_lt};
ghost use Rattle.std.proofs.Math.IntN.{sub_ℕ};
ghost use Rattle.model.specs.Words.{wrap, signed, signed_from, arithmetic_shift, bitwise_and};

// The signed reading of a word.
#[tactic(auto, unfolding(model::specs::Words::signed))]
pub fn to_signed(x: u32) -> i32
    ensures { result ≡ signed x }
{
    x.cast_signed()
}

// The word whose signed reading is x.
#[tactic(auto, unfolding(model::specs::Words::wrap))]
pub fn to_unsigned(x: i32) -> u32
    ensures { result ≡ wrap x }
{
    x.cast_unsigned()
}

// A number whose sign bit is worth `half`, by its signed reading, as a word: its sign is carried up. By hand, for both
// widths at once: the library has the signs of u8 and u16 apart.
#[tactic(auto, unfolding(model::specs::Words::wrap, model::specs::Words::signed_from))]
pub fn carry_sign(x: u16, half: u16) -> u32
    ensures { result ≡ wrap (signed_from half x) }
{
    if x < half {
        u32::from(x)
    } else {
        difference(u32::from(x), u32::from(half) + u32::from(half))
    }
}

// The signed reading divided by 2^amount, rounded down.
#[tactic(auto, using(crate::proofs::Signed::shift_is_arithmetic))]
pub fn arithmetic_shift(x: u32, amount: u8) -> u32
    ensures { result ≡ arithmetic_shift x amount }
{
    to_unsigned(to_signed(x).unbounded_shr(u32::from(amount)))
}

// The word divided by 2^amount.
#[tactic(auto, using(crate::proofs::Bitwise::shifted_out))]
pub fn logical_shift(x: u32, amount: u8) -> u32
    ensures { result ≡ x / 2 ^ amount }
{
    x.unbounded_shr(u32::from(amount))
}

// x < y by their signed readings.
pub fn signed_below(x: u32, y: u32) -> bool
    ensures { result ≡ int_lt (signed x) (signed y) }
{
    to_signed(x) < to_signed(y)
}

// x plus a signed displacement.
#[tactic(auto, unfolding(model::specs::Words::wrap))]
pub fn displaced(x: u32, by: i32) -> u32
    ensures { result ≡ wrap (pos x +ℤ by) }
{
    x.wrapping_add_signed(by)
}

#[tactic(auto, unfolding(model::specs::Words::wrap))]
pub fn sum(x: u32, y: u32) -> u32
    ensures { result ≡ wrap (pos x +ℤ pos y) }
{
    x.wrapping_add(y)
}

#[tactic(auto, unfolding(model::specs::Words::wrap))]
pub fn difference(x: u32, y: u32) -> u32
    ensures { result ≡ wrap (sub_ℕ x y) }
{
    x.wrapping_sub(y)
}

#[tactic(auto, using(crate::proofs::Bitwise::and_is_bitwise))]
pub fn bitwise_and(x: u32, y: u32) -> u32
    ensures { result ≡ bitwise_and 32 x y }
{
    x & y
}
