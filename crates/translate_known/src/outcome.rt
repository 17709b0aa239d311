//! What is told of a frame by the quick way.
ghost use Rattle.std.specs.Prelude.{◌≡◌, ℕ, List, true, false, None, IfSome};
ghost use Rattle.protocol_traits.specs.Heads.{header_of};
ghost use Rattle.translate_verdicts.specs.declared.verdict.HeadInfo.{HeadInfo};
ghost use Rattle.translate_verdicts.specs.Judged.{IsPassed, Judged};
ghost use Rattle.translate_verdicts.specs.Routes.{IsKnownRoute, info_of};

use protocol_traits::Head;
use translate_verdicts::{HeadInfo, Route, told_of};
use type_tables::Schema;

/// What is told of a frame that the quick way took, or didn't. What isn't told of its header is not looked up.
pub trait Outcome: Copy {
    /// This tells that nothing was taken.
    ghost fails: { Self → Type 0 };

    /// Where this tells that a message passed, this is the verdict, and the output grew by these bytes.
    ghost passes: { Self → List ℕ → List ℕ → Judged → Type 0 };

    /// Whether this tells that nothing was taken.
    fn is_left(self) -> bool
        ensures left { result ≡ true → fails self }
        ensures taken { result ≡ false → fails self → ⊥ };

    /// That nothing was taken.
    fn left() -> Self
        ensures { (old new : List ℕ) (j : Judged) → passes result old new j };

    /// That a message passed of whose header this is known.
    fn passed(info: HeadInfo) -> Self
        ensures taken { fails result → ⊥ }
        ensures passes { (old new : List ℕ) (j : Judged) → IsPassed info old new j → passes result old new j };

    /// That the message with this header passed.
    fn passed_by(schema: &Schema, route: Route, head: &Head<'_>) -> Self
        requires { IsKnownRoute schema.now route }
        ensures taken { fails result → ⊥ }
        ensures passes { (old new : List ℕ) (j : Judged) → IsPassed (info_of schema.now route (header_of head.now)) old new j → passes result old new j };
}

/// All that the header says.
impl Outcome for Option<HeadInfo> {
    ghost fails = { λ info. info ≡ None };

    ghost passes = { λ info old new j. IfSome info (λ i. IsPassed i old new j) };

    #[inline(always)]
    fn is_left(self) -> bool {
        self.is_none()
    }

    #[inline(always)]
    fn left() -> Self {
        None
    }

    #[inline(always)]
    fn passed(info: HeadInfo) -> Self {
        Some(info)
    }

    #[inline(always)]
    fn passed_by(schema: &Schema, route: Route, head: &Head<'_>) -> Self {
        Some(told_of(schema, route, head).info)
    }
}

/// Whether a message passed.
impl Outcome for bool {
    ghost fails = { λ passed. passed ≡ false };

    ghost passes = { λ passed old new j. passed ≡ true → (i : HeadInfo) × IsPassed i old new j };

    #[inline(always)]
    fn is_left(self) -> bool {
        !self
    }

    #[inline(always)]
    fn left() -> Self {
        false
    }

    #[inline(always)]
    fn passed(_info: HeadInfo) -> Self {
        true
    }

    #[inline(always)]
    fn passed_by(_schema: &Schema, _route: Route, _head: &Head<'_>) -> Self {
        true
    }
}
