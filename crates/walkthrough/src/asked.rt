// The calls of the story, each with its note.
use journal::Call;
use model::{Place, Window};
use scale::Minutes;
use table::Table;

pub(crate) type Hall = Table<Minutes>;

// What is asked at a step. A call has room for a whole hall, so the story holds these, and each call is made when it is needed.
#[derive(Clone, Copy)]
pub(crate) enum Step {
    Advance(u64),
    Adopt,
    // The ceiling of a left bench.
    Ceiling(usize, i32),
    // The floor of the first bench of a side.
    Floor(usize, i32),
    // The first right bench with the window 0 to 100.
    Loosen,
    ReadState,
    ReadStarts,
}

// The first plan, solving again, a refusal, an impossible plan, and one that is loosened.
pub(crate) const STORY: [(&str, Step); 20] = [
    ("Advance, with 301 rounds granted", Step::Advance(301)),
    ("Read the starts", Step::ReadStarts),
    (
        "Advance again, to press solve a second time",
        Step::Advance(301),
    ),
    ("Adopt the starts as ceilings", Step::Adopt),
    (
        "Lower the ceiling of left bench 0 to 97, its start",
        Step::Ceiling(0, 97),
    ),
    ("Read the starts", Step::ReadStarts),
    (
        "Lower the ceiling of left bench 0 to 90",
        Step::Ceiling(0, 90),
    ),
    ("Read the state", Step::ReadState),
    ("Advance, with 1000 rounds granted", Step::Advance(1000)),
    ("Read the starts", Step::ReadStarts),
    (
        "Lower the ceiling of left bench 0 to 95, which is higher than it stands",
        Step::Ceiling(0, 95),
    ),
    (
        "Read the starts, to see what the refusal left",
        Step::ReadStarts,
    ),
    (
        "Raise the floor of left bench 0 to 90, its start",
        Step::Floor(0, 90),
    ),
    ("Read the state", Step::ReadState),
    (
        "Raise the floor of right bench 0 to 95, above its start",
        Step::Floor(1, 95),
    ),
    ("Read the state", Step::ReadState),
    (
        "Lower the ceiling of left bench 1 to 50",
        Step::Ceiling(1, 50),
    ),
    ("Loosen right bench 0 to the window 0 to 100", Step::Loosen),
    ("Advance, with 199 rounds granted", Step::Advance(199)),
    ("Read the starts", Step::ReadStarts),
];

impl Step {
    pub(crate) fn call(self) -> Call<Hall, Hall> {
        match self {
            Step::Advance(grant) => Call::Advance(grant),
            Step::Adopt => Call::Adopt,
            Step::Ceiling(bench, ceiling) => Call::Lower {
                place: Place { side: 0, bench },
                ceiling,
            },
            Step::Floor(side, floor) => Call::Raise {
                place: Place { side, bench: 0 },
                floor,
            },
            Step::Loosen => Call::Loosen {
                place: Place { side: 1, bench: 0 },
                window: Window {
                    floor: 0,
                    ceiling: 100,
                },
            },
            Step::ReadState => Call::ReadState,
            Step::ReadStarts => Call::ReadStarts {
                lefts: 2,
                rights: 1,
            },
        }
    }
}
