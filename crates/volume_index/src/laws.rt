// Laws of what a volume holds.
ghost use Rattle.std.specs.Prelude.{◌≡◌, ◌≤◌, ◌^◌, ◌+◌, All, None, true, ◌∷◌, List, ℕ, false, length, slice_get, Some};
ghost use Rattle.std.specs.FinMap as fin_map;
ghost use Rattle.site_forms.specs.Volumes.{Shape, chunk_or, keeps_limits, used, with_chunk, without_chunk};
ghost use Rattle.volume_index.specs.FirstLimits.{first_limit};
ghost use Rattle.volume_index.specs.HoldingValues.{KeepsShape, held_bytes, orphans};

/// The laws of what a volume holds, where a chunk joins or leaves.
pub fn holding_laws()
    // without its first orphan a volume has the other ones
    ensures orphan { (shape : Shape) (name : List ℕ) → slice_get (orphans shape) 0 ≡ Some name → orphans shape ≡ name ∷ orphans (without_chunk shape name) }
    // each chunk is used or an orphan
    ensures counts { (shape : Shape) → KeepsShape shape → fin_map.len shape.chunks ≡ fin_map.len (used shape.files) + length (orphans shape) }
    // where a file breaks no limit, it keeps them beside chunks of any lawful lengths
    ensures limits { (shape other : Shape) (name : List ℕ) (list : List (List ℕ)) → All (λ n. n ≤ 2 ^ 20) (fin_map.values other.chunks) → fin_map.contains_key shape.files name ≡ false → first_limit shape list ≡ None
        → keeps_limits (λ chunk. chunk_or 0 other chunk) (fin_map.insert shape.files name list) ≡ true }
    // the bytes with a chunk more, and with one less
    ensures more { (shape : Shape) (name : List ℕ) (len : ℕ) → fin_map.contains_key shape.chunks name ≡ false → held_bytes (with_chunk shape name len) ≡ len + held_bytes shape }
    ensures less { (shape : Shape) (name : List ℕ) (len : ℕ) → fin_map.get shape.chunks name ≡ Some len → held_bytes shape ≡ len + held_bytes (without_chunk shape name) }
{}
