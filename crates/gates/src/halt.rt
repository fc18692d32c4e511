//! What may end a run.
ghost use Rattle.std.specs.Prelude.{IfSome};
ghost use Rattle.either.specs.Either.{MatchEither};

use either::{Either, Left, Right};

/// May end a run before its end, with no value. It is asked where [`Gate::is_halted`](stealing_pool::Gate::is_halted) is. Once there is a reason there
/// stays one.
pub trait Halt {
    /// What shows that the run may end.
    type Reason: Drop;

    // the reason is one of this value's
    ghost justified: { Self → Self.Reason → Type 0 };

    /// A reason to end now, if there is one.
    fn reason(&self) -> Option<Self::Reason>
        ensures { IfSome result (justified self.now) };
}

/// Either of the two may end it.
impl<A: Halt, B: Halt> Halt for (A, B) {
    type Reason = Either<A::Reason, B::Reason>;

    ghost justified = { λ p reason. MatchEither reason (A.justified p.0) (B.justified p.1) };

    fn reason(&self) -> Option<Either<A::Reason, B::Reason>> {
        match self.0.reason() {
            Some(reason) => Some(Left(reason)),
            None => match self.1.reason() {
                Some(reason) => Some(Right(reason)),
                None => None,
            },
        }
    }
}
