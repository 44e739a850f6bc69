//! Values that have a nothing and a joining.
ghost use Rattle.std.specs.Prelude.{◌≡◌};
ghost use Rattle.tree.specs.Kinds.{Kind};

pub trait Joining: Copy {
    // the nothing, the joining and the test for nothing, with their laws
    ghost kind: { Kind Self };

    fn nothing() -> Self
        ensures { result ≡ kind.nothing };

    fn join(self, other: Self) -> Self
        ensures { result ≡ kind.join self other };

    fn is_nothing(self) -> bool
        ensures { result ≡ kind.bare self };
}
