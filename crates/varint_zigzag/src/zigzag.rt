//! Signed numbers folded onto unsigned ones: 0, -1, 1, -2 .. become 0, 1, 2, 3 ..
//!
//! A number is folded to its double, and a negative one to that double's complement: the compiler makes of it an exclusive
//! or with the sign, without a jump.
ghost use Rattle.std.specs.Prelude.{◌≡◌};
ghost use Rattle.varint_zigzag.specs.Zigzag.{folded, unfolded};

/// The unsigned number that stands for `v` (zigzag of the Compact protocol specification).
#[inline(always)]
pub fn zigzag32(v: i32) -> u32
    ensures { result ≡ folded v }
{
    let twice = v.cast_unsigned().wrapping_mul(2);
    if v < 0 { !twice } else { twice }
}

/// The signed number that `v` stands for (zigzag of the Compact protocol specification).
#[inline(always)]
pub fn unzigzag32(v: u32) -> i32
    ensures { result ≡ unfolded v }
{
    let half = (v / 2) as i32;
    if v % 2 == 0 { half } else { -half - 1 }
}

/// The unsigned number that stands for `v` (zigzag of the Compact protocol specification).
#[inline(always)]
pub fn zigzag64(v: i64) -> u64
    ensures { result ≡ folded v }
{
    let twice = v.cast_unsigned().wrapping_mul(2);
    if v < 0 { !twice } else { twice }
}

/// The signed number that `v` stands for (zigzag of the Compact protocol specification).
#[inline(always)]
pub fn unzigzag64(v: u64) -> i64
    ensures { result ≡ unfolded v }
{
    let half = (v / 2) as i64;
    if v % 2 == 0 { half } else { -half - 1 }
}
