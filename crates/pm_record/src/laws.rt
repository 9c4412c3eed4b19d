//! What holds of every file. The functions do nothing: each stands for the law in its contract.

ghost use Rattle.std.specs.Prelude.{◌≡◌, ◌<◌, ℕ, List, All};
ghost use Rattle.pm_record.specs.{StandsFor.{Content, StandsFor}, Damage.IsFirstWrong};

/// A file stands for one content at most, with its closed gate at one place.
pub fn a_file_stands_for_one_content()
    ensures { (bytes : List ℕ) (one other : Content) (end till : ℕ) → StandsFor bytes one end
        → StandsFor bytes other till → (one ≡ other) × (end ≡ till) }
{}

/// A file has one first wrong byte at most, and stands for nothing where it has one.
pub fn a_file_has_one_first_wrong_byte()
    ensures one { (bytes : List ℕ) → All (λ b. b < 256) bytes → (at place : ℕ)
        → IsFirstWrong bytes at → IsFirstWrong bytes place → at ≡ place }
    ensures nothing { (bytes : List ℕ) → All (λ b. b < 256) bytes
        → (at : ℕ) (content : Content) (end : ℕ) → IsFirstWrong bytes at
        → StandsFor bytes content end → ⊥ }
{}
