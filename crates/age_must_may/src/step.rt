// What a fetch makes of one age, and two ages that meet.
ghost use Rattle.std.specs.Prelude.{◌≡◌, ◌≤◌};
ghost use Rattle.age_spec.specs.Ages.{first_age, aged, met};

use age_spec::Kind;
use cache_spec::Start;

// Every age at node 0.
pub(crate) fn first_age(kind: Kind, start: Start, ways: u8) -> u8
    ensures { result ≡ first_age kind start ways }
{
    match (kind, start) {
        (Kind::Must, _) => ways,
        (Kind::May, Start::Empty) => ways,
        (Kind::May, Start::Any) => 0,
    }
}

// The age of a block after the fetch of another one, whose age is `fetched`.
pub(crate) fn aged(kind: Kind, ways: u8, fetched: u8, age: u8) -> u8
    requires { ways ≤ 16 }
    ensures { result ≡ aged kind ways fetched age }
{
    let grows = match kind {
        Kind::Must => age < fetched,
        Kind::May => age <= fetched,
    };
    if grows {
        age.saturating_add(1).min(ways)
    } else {
        age
    }
}

// The age where paths of these two ages meet.
pub(crate) fn met(kind: Kind, one: u8, two: u8) -> u8
    ensures { result ≡ met kind one two }
{
    match kind {
        Kind::Must => one.max(two),
        Kind::May => one.min(two),
    }
}
