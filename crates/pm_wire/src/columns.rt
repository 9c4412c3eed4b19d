//! The columns of a result.

ghost use Rattle.std.specs.Prelude.{◌≡◌};
ghost use Rattle.pm_wire.specs.Backend.{Fields, body};

use crate::back::Shape;

impl Shape {
    /// How the columns are described, as a RowDescription's body: their number, and each with no table, its type
    /// and that type's size, no modifier, as text.
    #[tactic(auto, unfolding(crate::specs::Pieces::int16, crate::specs::Pieces::int32))]
    pub fn description(self) -> &'static [u8]
        ensures { result.now ≡ body (Fields self) }
    {
        match self {
            Shape::Pair => {
                b"\0\x02k\0\0\0\0\0\0\0\0\0\0\x14\0\x08\xff\xff\xff\xff\0\0v\0\0\0\0\0\0\0\0\0\0\x19\xff\xff\xff\xff\xff\xff\0\0"
            }
            Shape::Count => b"\0\x01count\0\0\0\0\0\0\0\0\0\0\x14\0\x08\xff\xff\xff\xff\0\0",
            Shape::Sleep => b"\0\x01pg_sleep\0\0\0\0\0\0\0\0\0\0\x19\xff\xff\xff\xff\xff\xff\0\0",
        }
    }
}
