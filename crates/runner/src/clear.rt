// What is known of a state from the event before it, so that a page looks at no transition twice without need.
ghost use Rattle.std.specs.Prelude.{◌≡◌};
ghost use Rattle.runner.specs.Chosen.{clear_of, clear_after};

use model::event::Event;

// No transition below `ends` owes an end, and none below `starts` is enabled. Where `starts` is none, no transition is, and something is running.
#[derive(Clone, Copy)]
pub struct Clear {
    pub ends: usize,
    pub starts: Option<usize>,
}

impl Clear {
    // Nothing is known. No `Default`: that would leave no place to look for starts from.
    pub fn nothing() -> Clear
        ensures { result ≡ clear_of 0 (Some 0) }
    {
        Clear {
            ends: 0,
            starts: Some(0),
        }
    }

    // Behind the chosen event. It was the lowest of its kind, and a start enables nothing; an end may, and a tick makes ends due.
    pub fn after(event: Event) -> Clear
        ensures { result ≡ clear_after event }
    {
        let (ends, starts) = match event {
            Event::Tick => (0, None),
            Event::Start(t) => (t, Some(t)),
            Event::End(t, _) => (t, Some(0)),
            Event::Malformed => (0, Some(0)),
        };
        Clear { ends, starts }
    }
}
