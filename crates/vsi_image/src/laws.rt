//! Consequences of the definitions. Each function is only a law: it has no result and does nothing.

ghost use Rattle.std.specs.Prelude.{◌≡◌, ◌↔◌, ℕ, List, None, Ok, slice_get};
ghost use Rattle.vsi_image.specs.{Fields.{Fields, IsAllowed, Spells}, Limits.{first_limit}, Reading.{EndsThere, image_of}};

/// Limits of images.
pub fn limit_law()
    // An image is within its limits exactly if no limit is reported.
    ensures allowed { (f : Fields) → (first_limit f ≡ None) ↔ IsAllowed f }
{}

/// Bytes of images.
pub fn spelling_laws()
    // Bytes that spell an image are read as that image.
    ensures read { (bytes : List ℕ) (f : Fields) → Spells bytes f → image_of bytes ≡ Ok f }
    // Any byte after a spelling is refused.
    ensures ends { (bytes : List ℕ) (f : Fields) → Spells bytes f → EndsThere bytes }
    // No bytes spell two different images.
    ensures apart { (bytes : List ℕ) (f g : Fields) → Spells bytes f → Spells bytes g → f ≡ g }
    // In each version, which is in byte 3, an image has one spelling.
    ensures one { (f : Fields) (a b : List ℕ) → Spells a f → Spells b f → slice_get a 3
        ≡ slice_get b 3 → a ≡ b }
{}
