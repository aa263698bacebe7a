// Why the runner stopped, and the numbers of its stops.
ghost use Rattle.std.specs.Prelude.{◌≡◌};
ghost use Rattle.runner.specs.Stop.{number_of_stop, stop_for};

use model::event::Event;

// The first that holds is told.
#[derive(Clone, Copy)]
pub enum Stop {
    AtRest,
    BudgetSpent,
    LogFull,
    // the chosen start would meet 14
    CountFull,
    // the chosen end would meet 17
    PlaceFull,
}

impl From<Stop> for u8 {
    ghost from_gives = { λ stop number. number ≡ number_of_stop stop };

    fn from(stop: Stop) -> u8 {
        match stop {
            Stop::AtRest => 1,
            Stop::BudgetSpent => 2,
            Stop::LogFull => 3,
            Stop::CountFull => 4,
            Stop::PlaceFull => 5,
        }
    }
}

impl Stop {
    // The stop where the chosen event is refused: a start meets 14 alone, an end 17 alone. Nothing else is ever refused, so any would do.
    pub fn refused(event: Event) -> Stop
        ensures { result ≡ stop_for event }
    {
        match event {
            Event::Tick | Event::Start(_) => Stop::CountFull,
            Event::End(_, _) | Event::Malformed => Stop::PlaceFull,
        }
    }
}
