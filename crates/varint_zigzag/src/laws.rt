//! Laws of the two forms, over all numbers and all bytes.
ghost use Rattle.std.specs.Prelude.{◌≡◌, ◌≤◌, ◌<◌, ◌^◌, ◌+◌, ◌++◌, ℕ, ℤ, List, length};
ghost use Rattle.varint_zigzag.specs.Varint.{IsVarint, shortest};
ghost use Rattle.varint_zigzag.specs.Zigzag.{folded, unfolded};

/// No form of a number begins another one, and each has one number.
pub fn one_front()
    ensures { (a b x y : List ℕ) (m n : ℕ) → IsVarint a m → IsVarint b n → a ++ x ≡ b ++ y → (a ≡ b) × (m ≡ n) }
{}

/// The shortest bytes are a form of their number, and no form of it has fewer.
pub fn shortest_is_least()
    ensures form { (n : ℕ) → n < 2 ^ 64 → IsVarint (shortest n) n }
    ensures most { (groups n : ℕ) → n < 2 ^ 64 → n < 128 ^ (groups + 1) → length (shortest n) ≤ groups + 1 }
    ensures least { (n : ℕ) (bytes : List ℕ) → n < 2 ^ 64 → IsVarint bytes n → length (shortest n) ≤ length bytes }
{}

/// Folding and unfolding undo each other.
pub fn folded_and_back()
    ensures back { (v : ℤ) → unfolded (folded v) ≡ v }
    ensures forth { (n : ℕ) → folded (unfolded n) ≡ n }
{}
