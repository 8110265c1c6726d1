// Why a build is refused, by paper 01's numbers.
ghost use Rattle.std.specs.Prelude.{◌≡◌};
ghost use Rattle.build.specs.Entry.{code_of, place_of, rows_of, visits_of};
ghost use Rattle.build.specs.declared.answer.BuildError.TheVariants.{Walk};

use walk::answer::{Numbered, WalkError};

// Why words give no tree in the buffers that are lent. `code_of`, `place_of`, `rows_of` and `visits_of` in specs/Entry.antt have paper 01's numbers.
#[derive(Clone, Copy, PartialEq, Eq)]
pub enum BuildError {
    // The walk gives none.
    Walk(WalkError),
    // 40: it gives more rows than whole six-word places.
    NoRoomForRows { rows: u32, visits: u32 },
    // 41, after 40: it gives more lines than whole three-word places (M-101).
    NoRoomForLines { visits: u32 },
}

impl From<WalkError> for BuildError {
    ghost from_gives = { λ stopped error. error ≡ Walk stopped };

    fn from(error: WalkError) -> BuildError {
        BuildError::Walk(error)
    }
}

impl Numbered for BuildError {
    ghost code_of = { code_of };

    ghost place_of = { place_of };

    ghost rows_of = { rows_of };

    ghost visits_of = { visits_of };

    fn code(self) -> u32 {
        match self {
            BuildError::Walk(error) => error.code(),
            BuildError::NoRoomForRows { .. } => 40,
            BuildError::NoRoomForLines { .. } => 41,
        }
    }

    fn place(self) -> u32 {
        match self {
            BuildError::Walk(error) => error.place(),
            BuildError::NoRoomForRows { .. } | BuildError::NoRoomForLines { .. } => 0,
        }
    }

    fn rows(self) -> u32 {
        match self {
            BuildError::NoRoomForRows { rows, .. } => rows,
            BuildError::Walk(_) | BuildError::NoRoomForLines { .. } => 0,
        }
    }

    fn visits(self) -> u32 {
        match self {
            BuildError::Walk(error) => error.visits(),
            BuildError::NoRoomForRows { visits, .. } | BuildError::NoRoomForLines { visits } =>
                visits,
        }
    }
}
